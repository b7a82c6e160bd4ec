//! Numbers among the words of a command.
ghost use Rattle.std.specs.Prelude.{◌≡◌, ◌<◌, ◌≤◌, ◌^◌, length, true, IfSome};
ghost use Rattle.std.specs.List.{list_all};
ghost use Rattle.command_words.specs.Numbers.{is_digit, is_number, value_of_digits, number_within};

/// The most digits that a number may have; so many fit 64 bits.
const MOST_DIGITS: usize = 19;

/// Whether each byte is a decimal digit.
fn all_digits(word: &[u8]) -> bool
    ensures { result ≡ list_all is_digit word.now }
{
    word.iter().all(|byte| b'0' <= *byte && *byte <= b'9')
}

/// Whether a word is a number: `0`, or 1 to 19 digits that do not begin with `0`.
pub(crate) fn is_decimal(word: &[u8]) -> bool
    ensures { result ≡ is_number word.now }
{
    if !all_digits(word) {
        return false;
    }
    if word.is_empty() {
        return false;
    }
    if word.len() > MOST_DIGITS {
        return false;
    }
    if word.len() == 1 {
        return true;
    }
    if word[0] == b'0' {
        return false;
    }
    true
}

/// The number that these digits mean.
pub(crate) fn decimal_value(digits: &[u8]) -> u64
    requires { is_number digits.now ≡ true }
    ensures { result ≡ value_of_digits digits.now }
{
    let mut value = 0;
    for byte in digits {
        value = 10 * value + u64::from(*byte - b'0');
    }
    value
}

/// Reads a number from `least` to `most`; none where the word is no number, or lies outside.
pub fn read_number(word: &[u8], least: u64, most: u64) -> Option<u64>
    ensures number { result ≡ number_within least most word.now }
    ensures within { IfSome result (λ n. (least ≤ n) × (n ≤ most)) }
{
    if !is_decimal(word) {
        return None;
    }
    let value = decimal_value(word);
    (least <= value && value <= most).then_some(value)
}
