//! The congestion window (RFC 5681).
use std::marker::Model;

/// The greatest size to which acknowledgments open the window, in bytes.
const WINDOW_END: u64 = 1 << 30;

/// The congestion window of one session, in bytes: the maximum segment size, the slow start
/// threshold and the window. Contracts see the record of these.
#[derive(Clone, Copy, Debug, PartialEq, Eq)]
pub struct Cwnd {
    mss: u64,
    threshold: u64,
    size: u64,
}

impl Model for Cwnd {
    ghost use Rattle.tcp_clock.specs.Congestion.{Window, IsWindow};

    ghost Value = { Window };

    ghost view = { λ w. record { mss = w.mss; threshold = w.threshold; size = w.size } };

    ghost invariant = { λ w. IsWindow (record { mss = w.mss; threshold = w.threshold; size = w.size }) };

    ghost inverse = { λ w. record { mss = w.mss; threshold = w.threshold; size = w.size } };
}

impl Cwnd {
    ghost use Rattle.std.specs.Prelude.{◌≡◌, ◌≤◌, ◌^◌};
    ghost use Rattle.tcp_clock.specs.Congestion.{first_window, growth, grown, halved, third_duplicate, timed_out, timed_out_again, IsWindow};

    /// The window of a new session: one segment. `mss` is from 1 to 65,495 bytes.
    #[tactic(auto, unfolding(crate::specs::Congestion::first_window))]
    pub fn new(mss: u64, ssthresh: u64) -> Cwnd
        requires some { 1 ≤ mss }
        requires most { mss ≤ 65495 }
        ensures { result ≡ first_window mss ssthresh }
    {
        Cwnd {
            mss,
            threshold: ssthresh,
            size: mss,
        }
    }

    /// Opens the window: so many bytes were newly acknowledged.
    #[tactic(auto, unfolding(crate::specs::Congestion::grown))]
    pub fn acked(&mut self, bytes: u64)
        ensures { self.new ≡ grown self.old bytes }
    {
        self.size = (self.size + self.growth(bytes)).min(WINDOW_END);
    }

    /// The third duplicate acknowledgment came while so many bytes were in flight.
    #[tactic(auto, unfolding(crate::specs::Congestion::third_duplicate))]
    pub fn third_duplicate(&mut self, flight: u64)
        ensures { self.new ≡ third_duplicate self.old flight }
    {
        self.threshold = self.halved(flight);
        self.size = self.threshold;
    }

    /// The timer of a segment ran out for the first time, with so many bytes in flight.
    #[tactic(auto, unfolding(crate::specs::Congestion::timed_out))]
    pub fn timeout(&mut self, flight: u64)
        ensures { self.new ≡ timed_out self.old flight }
    {
        self.threshold = self.halved(flight);
        self.size = self.mss;
    }

    /// The timer of a segment that was sent again ran out.
    #[tactic(auto, unfolding(crate::specs::Congestion::timed_out_again))]
    pub fn timeout_again(&mut self)
        ensures { self.new ≡ timed_out_again self.old }
    {
        self.size = self.mss;
    }

    /// The window in bytes.
    pub fn window(&self) -> u64
        ensures { result ≡ self.now.size }
    {
        self.size
    }

    /// The slow start threshold in bytes.
    pub fn ssthresh(&self) -> u64
        ensures { result ≡ self.now.threshold }
    {
        self.threshold
    }

    /// The maximum segment size in bytes.
    pub fn mss(&self) -> u64
        ensures { result ≡ self.now.mss }
    {
        self.mss
    }

    /// Tells a proof that the fields are in their ranges.
    pub fn known(&self)
        ensures { IsWindow self.now }
    {
        let _mss = self.mss;
    }

    /// By how much an acknowledgment of so many new bytes opens the window.
    fn growth(&self, bytes: u64) -> u64
        ensures value { result ≡ growth self.now bytes }
        ensures small { result ≤ 2 ^ 32 }
    {
        if self.size < self.threshold {
            bytes.min(self.mss)
        } else {
            (self.mss * self.mss / self.size).max(1)
        }
    }

    /// Half of the bytes in flight, and at least two segments.
    fn halved(&self, flight: u64) -> u64
        ensures value { result ≡ halved self.now flight }
        ensures most { result ≤ 2 ^ 63 }
    {
        (flight / 2).max(2 * self.mss)
    }
}
