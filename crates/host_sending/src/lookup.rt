//! What the rows of a host tell.
ghost use Rattle.std.specs.Prelude.{◌≡◌, ◌<◌, [], nat_le, if◌then◌else◌, length, IfSome};
ghost use Rattle.host_rules.specs.Sending.{second_of, is_down, routes_among};
ghost use Rattle.host_sending.specs.Sites.{period_at, routes_of};

use host_rules::HostPort;
use spf_routes::{Period, Route};

/// What the first pair with this number has besides.
pub(crate) fn second_of(pairs: &[(u32, u32)], number: u32) -> Option<u32>
    ensures { result ≡ second_of pairs.now number }
{
    for pair in pairs {
        if pair.0 == number {
            return Some(pair.1);
        }
    }
    None
}

/// Whether the link of an interface is down at this tick.
#[tactic(auto, unfolding(host_rules::specs::Sending::is_down))]
pub(crate) fn is_down(port: &HostPort, now: u64) -> bool
    ensures { result ≡ is_down port.now now }
{
    port.downs
        .as_slice()
        .iter()
        .any(|down| down.0 <= now && now < down.1)
}

/// The period of this place.
fn period(periods: &[Period], place: usize) -> &Period
    requires { place < length periods.now }
    ensures { result.now ≡ period_at periods.now place }
{
    &periods[place]
}

/// The place of this period where it has begun, and else the place before.
fn later(periods: &[Period], now: u64, before: Option<usize>, place: usize) -> Option<usize>
    requires place { place < length periods.now }
    requires before { IfSome before (λ old. old < length periods.now) }
    ensures routes { routes_of periods.now result ≡ (if nat_le (period_at periods.now place).from now then (period_at periods.now place).routes else routes_of periods.now before) }
    ensures within { IfSome result (λ found. found < length periods.now) }
{
    if period(periods, place).from <= now {
        Some(place)
    } else {
        before
    }
}

/// The place of the last of these periods that has begun; none where none has.
pub(crate) fn last_begun(periods: &[Period], now: u64) -> Option<usize>
    ensures routes { routes_of periods.now result ≡ routes_among [] periods.now now }
    ensures within { IfSome result (λ place. place < length periods.now) }
{
    let mut last = None;
    for place in 0..periods.len() {
        last = later(periods, now, last, place);
    }
    last
}

/// The routes of the period of this place.
pub(crate) fn routes_in(periods: &[Period], place: usize) -> &[Route]
    requires { place < length periods.now }
    ensures { result.now ≡ (period_at periods.now place).routes }
{
    period(periods, place).routes.as_slice()
}
