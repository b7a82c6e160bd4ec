//! The interface, and its answer to a packet.
use std::marker::Model;

/// What becomes of a packet that is offered.
#[derive(Clone, Copy, Debug, PartialEq, Eq)]
pub enum Offer {
    /// It is taken, and its last bit leaves after so many ticks.
    Sent(u64),
    /// The buffer has no room for it.
    Dropped,
}

/// An interface with a drop-tail buffer: its bitrate in bit/s, the ticks of a second, its buffer in
/// bytes, and the tick at which it has sent all that it took.
#[derive(Clone, Copy, Debug, PartialEq, Eq)]
pub struct Interface {
    bitrate: u64,
    frequency: u64,
    buffer: u64,
    free: u64,
}

impl Model for Interface {
    ghost use Rattle.net_iface.specs.InterfaceFields.{InterfaceFields, IsInterface};

    ghost Value = { InterfaceFields };

    ghost view = { λ i. record { bitrate = i.bitrate; frequency = i.frequency; buffer = i.buffer; free = i.free } };

    ghost invariant = { λ i. IsInterface (record { bitrate = i.bitrate; frequency = i.frequency; buffer = i.buffer; free = i.free }) };

    ghost inverse = { λ i. record { bitrate = i.bitrate; frequency = i.frequency; buffer = i.buffer; free = i.free } };
}

impl Interface {
    ghost use Rattle.std.specs.Prelude.{◌≡◌, ◌≤◌, ◌*◌, ◌/◌, ◌^◌, ◌+◌};
    ghost use Rattle.sim_base.specs.Traffic.{ticks_of};
    ghost use Rattle.net_iface.specs.InterfaceFields.{IsRated, IsInterface};
    ghost use Rattle.net_iface.specs.DropTail.{offered, after_offer, IfSent};

    /// An idle interface: `bitrate` in bit/s and `frequency` in ticks a second from 1 to 10^12,
    /// `buffer` in bytes from 1 to 2^31.
    pub fn new(bitrate: u64, frequency: u64, buffer: u64) -> Interface
        requires { IsRated bitrate frequency buffer }
        ensures { result ≡ record { bitrate = bitrate; frequency = frequency; buffer = buffer; free = 0 } }
    {
        Interface {
            bitrate,
            frequency,
            buffer,
            free: 0,
        }
    }

    /// Tells a proof that the fields are in their ranges.
    pub fn known(&self)
        ensures { IsInterface self.now }
    {
        let _free = self.free;
    }

    /// Offers a packet of so many bytes at the tick `now`. It is dropped exactly where the bytes
    /// still to be sent, rounded down, and its own are more than the buffer; then nothing changes.
    #[tactic(auto, unfolding(crate::specs::DropTail::offered, crate::specs::DropTail::after_offer))]
    pub fn offer(&mut self, bytes: u64, now: u64) -> Offer
        requires { now ≤ 10 ^ 18 }
        ensures answer { result ≡ offered self.old bytes now }
        ensures after { self.new ≡ after_offer self.old bytes now }
        ensures short { IfSent result (λ delay. delay ≤ 10 ^ 15) }
    {
        let wait = self.free.max(now) - now;
        if self.queued(wait) + u128::from(bytes) > u128::from(self.buffer) {
            return Offer::Dropped;
        }
        let delay = self.delay(wait, bytes);
        self.free = now + delay;
        Offer::Sent(delay)
    }

    /// The bytes that leave in `wait` ticks, rounded down.
    fn queued(&self, wait: u64) -> u128
        ensures { result ≡ wait * self.now.bitrate / (8 * self.now.frequency) }
    {
        u128::from(wait) * u128::from(self.bitrate) / (8 * u128::from(self.frequency))
    }

    /// The ticks until the last of these bytes has left, which begin after `wait` ticks.
    fn delay(&self, wait: u64, bytes: u64) -> u64
        requires { wait * self.now.bitrate / (8 * self.now.frequency) + bytes ≤ self.now.buffer }
        ensures delay { result ≡ wait + ticks_of self.now.bitrate self.now.frequency bytes }
        ensures short { result ≤ 10 ^ 15 }
    {
        let bits = 8 * u128::from(bytes);
        let ticks = (bits * u128::from(self.frequency)).div_ceil(u128::from(self.bitrate));
        wait + ticks as u64
    }
}
