//! Whole numbers in decimal.
ghost use Rattle.std.specs.Prelude.{◌≡◌, ◌≤◌, length};
ghost use Rattle.nhi_address.specs.Number.{digits_of, number_of};

/// The number that a text of at most 18 decimal digits spells, and 0 for the empty text.
pub fn read_digits(bytes: &[u8]) -> Option<u64>
    requires { length bytes.now ≤ 18 }
    ensures { result ≡ digits_of bytes.now }
{
    let mut number: u64 = 0;
    for &byte in bytes {
        if !byte.is_ascii_digit() {
            return None;
        }
        number = 10 * number + u64::from(byte - b'0');
    }
    Some(number)
}

/// The number that a text of 1 to `digits` decimal digits spells, where it lies from `least` to
/// `most`; leading zeros are allowed.
pub fn read_number(bytes: &[u8], digits: usize, least: u64, most: u64) -> Option<u64>
    requires { digits ≤ 18 }
    ensures { result ≡ number_of digits least most bytes.now }
{
    if bytes.is_empty() || bytes.len() > digits {
        return None;
    }
    let number = read_digits(bytes)?;
    (least <= number && number <= most).then_some(number)
}
