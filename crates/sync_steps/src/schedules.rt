//! Schedules: words that name steps.

ghost use Rattle.std.specs.Prelude.{◌≡◌, ◌≢◌, ◌+◌, ◌^◌, ◌<◌, ℕ, drop, fold, length, nat_eq, slice_index, true, Some, None, Err, IfNone, IfOk, IfSome};
ghost use Rattle.std.specs.List.{list_all, position};
ghost use Rattle.sync_steps.specs.Schedules.{is_digit, is_number, value_of, number_in, numbered_step, pair_in, step_of as step_in, steps_of};

use crate::steps::Step;
use std::alloc::{AllocFailed, Global};

/// Why a schedule is not read.
#[derive(Clone, Copy, Debug, PartialEq, Eq)]
pub enum ScheduleFault {
    /// The word is not spelt as a schedule.
    BadStep,
    /// There was no memory.
    Memory,
}

impl<T: Drop> From<AllocFailed<T>> for ScheduleFault {
    ghost use Rattle.std.specs.Prelude.{◌≡◌};
    ghost use Rattle.sync_steps.specs.declared.schedules.ScheduleFault.TheVariants.{Memory as NoMemory};

    ghost from_gives = { λ _ fault. fault ≡ NoMemory };

    fn from(_refused: AllocFailed<T>) -> ScheduleFault {
        ScheduleFault::Memory
    }
}

/// The most digits of a number in a step.
const MOST_DIGITS: usize = 9;

/// Whether each byte is a decimal digit.
fn all_digits(word: &[u8]) -> bool
    ensures { result ≡ list_all is_digit word.now }
{
    word.iter().all(|byte| b'0' <= *byte && *byte <= b'9')
}

/// Whether a word is a number: `0`, or 1 to 9 digits that do not begin with `0`.
fn is_decimal(word: &[u8]) -> bool
    ensures { result ≡ is_number word.now }
{
    if !all_digits(word) {
        return false;
    }
    if word.is_empty() {
        return false;
    }
    if word.len() > MOST_DIGITS {
        return false;
    }
    if word.len() == 1 {
        return true;
    }
    if word[0] == b'0' {
        return false;
    }
    true
}

/// The number that these digits mean.
fn decimal_value(digits: &[u8]) -> u32
    requires { is_number digits.now ≡ true }
    ensures { result ≡ value_of digits.now }
{
    let mut value = 0;
    for byte in digits {
        value = 10 * value + u32::from(*byte - b'0');
    }
    value
}

/// Reads a number of 1 to 9 digits; none where the word is no such number.
fn read_number(word: &[u8]) -> Option<u32>
    ensures { result ≡ number_in word.now }
{
    if is_decimal(word) {
        Some(decimal_value(word))
    } else {
        None
    }
}

/// The first place of a byte.
fn place_of(word: &[u8], byte: u8) -> Option<usize>
    ensures place { result ≡ position (λ b. nat_eq b byte) word.now }
    ensures within { IfSome result (λ i. i < length word.now) }
    ensures none { IfNone result ((k : ℕ) → k < length word.now → slice_index word.now k ≢ byte) }
{
    for (index, here) in word.iter().enumerate() {
        if *here == byte {
            return Some(index);
        }
    }
    None
}

/// What stands behind a place.
fn behind(word: &[u8], place: usize) -> &[u8]
    requires { place < length word.now }
    ensures { result.now ≡ drop (place + 1) word.now }
{
    &word[place + 1..]
}

/// The step of a timeline and a channel, whose numbers have a point between them.
fn read_pair(word: &[u8]) -> Option<Step>
    ensures { result ≡ pair_in word.now }
{
    let point = place_of(word, b'.')?;
    let timeline = read_number(&word[..point])?;
    let channel = read_number(behind(word, point))?;
    Some(Step::Post(timeline, channel))
}

/// The step that a letter and the number of a timeline spell.
fn step_by(letter: u8, word: &[u8]) -> Option<Step>
    ensures { result ≡ numbered_step letter (number_in word.now) }
{
    let number = read_number(word)?;
    match letter {
        b'x' => Some(Step::Execute(number)),
        b't' => Some(Step::Take(number)),
        b'e' => Some(Step::Enter(number)),
        b'r' => Some(Step::Report(number)),
        _ => None,
    }
}

/// The step that a word spells.
fn step_of(word: &[u8]) -> Option<Step>
    ensures { result ≡ step_in word.now }
{
    match word {
        [] => None,
        [b'c', rest @ ..] => {
            if rest.is_empty() {
                Some(Step::Cross)
            } else {
                None
            }
        }
        [b'p', rest @ ..] => read_pair(rest),
        [letter, rest @ ..] => step_by(*letter, rest),
    }
}

/// Reads a schedule: steps joined by `,`. `x0` is Execute of timeline 0, `t0` Take, `e0` Enter,
/// `r0` Report, `p0.4` Post of timeline 0 on channel 4, and `c` Cross. Numbers have 1 to 9 digits,
/// and none but `0` begins with `0`.
///
/// # Errors
/// `BadStep` exactly where the word is not so spelt; `Memory`.
pub fn read_schedule(alloc: Global, word: &[u8]) -> Result<Vec<Step>, ScheduleFault>
    ensures steps { IfOk result (λ steps. steps_of word.now ≡ Some steps.items) }
    ensures bad { result ≡ Err ScheduleFault.BadStep → steps_of word.now ≡ None }
{
    let mut steps = Vec::new(alloc);
    let mut rest = word;
    while let Some(comma) = place_of(rest, b',') {
        let Some(step) = step_of(&rest[..comma]) else {
            return Err(ScheduleFault::BadStep);
        };
        steps.push(step)?;
        rest = behind(rest, comma);
    }
    let Some(step) = step_of(rest) else {
        return Err(ScheduleFault::BadStep);
    };
    steps.push(step)?;
    Ok(steps)
}
