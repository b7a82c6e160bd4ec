//! The readers of numbers in a model: whole numbers, and seconds.
ghost use Rattle.std.specs.Prelude.{◌≡◌, ◌<◌, ◌*◌, ◌/◌, nat_eq, nat_le, position, if◌then◌else◌, Some, None};
ghost use Rattle.nhi_address.specs.Number.{number_of};
ghost use Rattle.net_graph.specs.Readers.{seconds_of};

use nhi_address::{read_digits, read_number};

/// The most digits of a number.
pub const MOST_DIGITS: usize = 18;

/// The longest time that is read, in ticks.
pub const MOST_TICKS: u64 = 1_000_000_000_000_000_000;

/// The whole number from `least` to `most` that 1 to 18 digits spell.
pub fn read_integer(bytes: &[u8], least: u64, most: u64) -> Option<u64>
    ensures { result ≡ number_of 18 least most bytes.now }
{
    read_number(bytes, MOST_DIGITS, least, most)
}

/// Seconds in ticks: digits with perhaps one point among them, 1 to 18 digits in all, as the ticks
/// of `frequency` in a second, rounded down; at most `MOST_TICKS`.
pub fn read_seconds(bytes: &[u8], frequency: u64) -> Option<u64>
    ensures { result ≡ seconds_of frequency bytes.now }
{
    let point = find_point(bytes).unwrap_or(bytes.len());
    let whole = &bytes[..point];
    let decimals = &bytes[(point + 1).min(bytes.len())..];
    let digits = whole.len() + decimals.len();
    if digits == 0 || digits > MOST_DIGITS {
        return None;
    }
    let scale = 10u64.pow(decimals.len() as u32);
    let seconds = read_digits(whole)?;
    let parts = read_digits(decimals)?;
    ticks_of(seconds * scale + parts, frequency, scale)
}

/// The ticks of `number / scale` seconds, rounded down, where they are at most `MOST_TICKS`.
fn ticks_of(number: u64, frequency: u64, scale: u64) -> Option<u64>
    requires { 0 < scale }
    ensures { result ≡ (if nat_le (number * frequency / scale) MOST_TICKS then Some (number * frequency / scale) else None) }
{
    let ticks = u128::from(number) * u128::from(frequency) / u128::from(scale);
    if ticks <= u128::from(MOST_TICKS) {
        Some(ticks as u64)
    } else {
        None
    }
}

/// The place of the first point.
fn find_point(bytes: &[u8]) -> Option<usize>
    ensures { result ≡ position (λ b. nat_eq b 46) bytes.now }
{
    bytes.iter().position(|byte| *byte == b'.')
}
