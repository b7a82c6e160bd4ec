//! The retransmission timeout (RFC 6298).
ghost use Rattle.std.specs.Prelude.{◌≡◌, ◌≤◌, ◌-◌, ◌*◌, ◌+◌, ◌/◌};
ghost use Rattle.tcp_clock.specs.Retransmission.{smoothed_by};

use std::marker::Model;

/// The smoothed round-trip time SRTT and its variation RTTVAR, in ticks.
#[derive(Clone, Copy, Debug, PartialEq, Eq)]
pub struct RoundTrip {
    pub srtt: u64,
    pub rttvar: u64,
}

/// The retransmission timeout of one session: the ticks of a second, the timeout in ticks, from one
/// to 64 seconds, and what the samples so far give. Contracts see the record of these.
#[derive(Clone, Copy, Debug, PartialEq, Eq)]
pub struct Rto {
    frequency: u64,
    value: u64,
    smoothed: Option<RoundTrip>,
}

impl Model for Rto {
    ghost use Rattle.tcp_clock.specs.Retransmission.{Timeout, IsTimeout};

    ghost Value = { Timeout };

    ghost view = { λ t. record { frequency = t.frequency; value = t.value; smoothed = t.smoothed } };

    ghost invariant = { λ t. IsTimeout (record { frequency = t.frequency; value = t.value; smoothed = t.smoothed }) };

    ghost inverse = { λ t. record { frequency = t.frequency; value = t.value; smoothed = t.smoothed } };
}

impl Rto {
    ghost use Rattle.std.specs.Prelude.{◌≡◌, ◌≤◌, ◌^◌};
    ghost use Rattle.tcp_clock.specs.Retransmission.{bounded, first_timeout, sampled, backed_off, IsTimeout};

    /// The timeout before a first sample: one second. `frequency` is in ticks a second, from 1 to
    /// 10^12.
    #[tactic(auto, unfolding(crate::specs::Retransmission::first_timeout))]
    pub fn new(frequency: u64) -> Rto
        requires some { 1 ≤ frequency }
        requires most { frequency ≤ 10 ^ 12 }
        ensures { result ≡ first_timeout frequency }
    {
        Rto {
            frequency,
            value: frequency,
            smoothed: None,
        }
    }

    /// Takes a sample of the round-trip time, in ticks.
    #[tactic(auto, unfolding(crate::specs::Retransmission::sampled))]
    pub fn sample(&mut self, r: u64)
        ensures { self.new ≡ sampled self.old r }
    {
        let smoothed = smoothed_by(self.smoothed, r);
        let variation = (4 * u128::from(smoothed.rttvar)).max(1);
        self.value = self.bounded(u128::from(smoothed.srtt) + variation);
        self.smoothed = Some(smoothed);
    }

    /// Doubles the timeout after the timer ran out, up to 64 seconds.
    #[tactic(auto, unfolding(crate::specs::Retransmission::backed_off))]
    pub fn timeout(&mut self)
        ensures { self.new ≡ backed_off self.old }
    {
        self.value = (2 * self.value).min(64 * self.frequency);
    }

    /// So many ticks, but at least one second and at most 64.
    fn bounded(&self, ticks: u128) -> u64
        ensures { result ≡ bounded self.now.frequency ticks }
    {
        let most = 64 * self.frequency;
        ticks.max(u128::from(self.frequency)).min(u128::from(most)) as u64
    }

    /// The timeout in ticks.
    pub fn value(&self) -> u64
        ensures { result ≡ self.now.value }
    {
        self.value
    }

    /// Tells a proof that the fields are in their ranges.
    pub fn known(&self)
        ensures { IsTimeout self.now }
    {
        let _value = self.value;
    }
}

/// What the samples give with one more.
fn smoothed_by(smoothed: Option<RoundTrip>, r: u64) -> RoundTrip
    ensures { result ≡ smoothed_by smoothed r }
{
    match smoothed {
        None => RoundTrip {
            srtt: r,
            rttvar: r / 2,
        },
        Some(last) => RoundTrip {
            srtt: weighted(last.srtt, r, 8),
            rttvar: weighted(last.rttvar, last.srtt.abs_diff(r), 4),
        },
    }
}

/// The mean of `weight` - 1 times `old` and of `new`, rounded down. In 128 bits no sum wraps.
fn weighted(old: u64, new: u64, weight: u64) -> u64
    requires { 1 ≤ weight }
    ensures { result ≡ ((weight - 1) * old + new) / weight }
{
    let sum = u128::from(weight - 1) * u128::from(old) + u128::from(new);
    (sum / u128::from(weight)) as u64
}
