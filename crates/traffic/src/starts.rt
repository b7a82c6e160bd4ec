//! Random starts.
ghost use Rattle.std.specs.Prelude.{◌≡◌, ◌≤◌, ◌+◌, ◌^◌};
ghost use Rattle.traffic.specs.Starts.{start_of, drawn_start};

use rand_core::utils::NextWord;
use rand_pcg::Pcg32;

/// The tick at which a client session starts: `start`, and with a window a random number of ticks
/// from 0 to `window` after it, by the generator's next 32-bit word. Without a window the generator
/// stays.
#[tactic(auto, unfolding(crate::specs::Starts::drawn_start))]
pub fn start_ticks(stream: &mut Pcg32, start: u64, window: u64) -> u64
    requires { start + window ≤ 10 ^ 15 }
    ensures value { result ≡ (drawn_start stream.old start window).0 }
    ensures generator { stream.new ≡ (drawn_start stream.old start window).1 }
    ensures early { start ≤ result }
    ensures late { result ≤ start + window }
{
    if window == 0 {
        return start;
    }
    start_of(start, window, stream.next_word())
}

/// The start that a word gives.
fn start_of(start: u64, window: u64, word: u32) -> u64
    requires { start + window ≤ 10 ^ 15 }
    ensures value { result ≡ start_of start window word }
    ensures late { result ≤ start + window }
{
    let spread = u128::from(word) * (u128::from(window) + 1) / (1 << 32);
    start + spread as u64
}
