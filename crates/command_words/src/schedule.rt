//! How a schedule is spelt.
ghost use Rattle.std.specs.Prelude.{◌≡◌, ◌≢◌, ◌<◌, ℕ, length, nat_eq, slice_index, IfNone, IfSome};
ghost use Rattle.std.specs.List.{position};
ghost use Rattle.command_words.specs.Schedule.{is_schedule, is_step, is_step_letter, is_step_number, is_step_pair};

use crate::number::is_decimal;
use crate::slices::behind;

/// The most digits of a number in a step.
const MOST_STEP_DIGITS: usize = 9;

/// Whether a word is a number of a step.
fn is_step_number(word: &[u8]) -> bool
    ensures { result ≡ is_step_number word.now }
{
    is_decimal(word) && word.len() <= MOST_STEP_DIGITS
}

/// The first place of a byte.
fn place_of(word: &[u8], byte: u8) -> Option<usize>
    ensures place { result ≡ position (λ b. nat_eq b byte) word.now }
    ensures within { IfSome result (λ i. i < length word.now) }
    ensures none { IfNone result ((k : ℕ) → k < length word.now → slice_index word.now k ≢ byte) }
{
    for (index, here) in word.iter().enumerate() {
        if *here == byte {
            return Some(index);
        }
    }
    None
}

/// Whether a word is two numbers with a point between them.
fn is_step_pair(word: &[u8]) -> bool
    ensures { result ≡ is_step_pair word.now }
{
    match place_of(word, b'.') {
        None => false,
        Some(point) => is_step_number(&word[..point]) && is_step_number(behind(word, point)),
    }
}

/// Whether a word is a step.
fn is_step(word: &[u8]) -> bool
    ensures { result ≡ is_step word.now }
{
    match word {
        [] => false,
        [b'c', rest @ ..] => rest.is_empty(),
        [b'p', rest @ ..] => is_step_pair(rest),
        [b'x' | b't' | b'e' | b'r', rest @ ..] => is_step_number(rest),
        _ => false,
    }
}

/// Whether a word is a schedule: steps joined by commas.
pub(crate) fn is_schedule(word: &str) -> bool
    ensures { result ≡ is_schedule word.now }
{
    let mut rest = word.as_bytes();
    while let Some(comma) = place_of(rest, b',') {
        if !is_step(&rest[..comma]) {
            return false;
        }
        rest = behind(rest, comma);
    }
    is_step(rest)
}
