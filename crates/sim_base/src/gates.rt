//! Gates for tests: one that is always open, and one that shuts after some questions.
ghost use Rattle.std.specs.Prelude.{◌≡◌, ◌≤◌, ◌⊎◌, nat_lt, true, IsTrue};
ghost use Rattle.sim_base.specs.MemoryObjects.{GateState, after_question};
ghost use Rattle.sim_base.specs.Outside.{Rose};

use crate::Gate;
use std::marker::Model;

/// A gate that always answers true.
#[derive(Drop)]
pub struct OpenGate;

impl OpenGate {
    /// The open gate.
    pub fn new() -> OpenGate {
        OpenGate
    }
}

impl Gate for OpenGate {
    ghost stops = { λ _. 0 };

    fn stops(&self) -> u64 {
        0
    }

    fn may_go(&mut self, _timeline: u32, _bound: u64) -> bool
        ensures { result ≡ true }
    {
        true
    }
}

/// A gate that answers true some number of times, and then false.
#[derive(Drop)]
pub struct StopGate {
    left: u64,
    stops: u64,
}

impl Model for StopGate {
    ghost use Rattle.sim_base.specs.MemoryObjects.{GateState};

    ghost Value = { GateState };

    ghost view = { λ g. record { left = g.left; stops = g.stops } };
}

impl StopGate {
    /// A gate that answers true `after` times.
    pub fn new(after: u64) -> StopGate
        ensures { result ≡ (record { left = after; stops = 0 }) }
    {
        StopGate {
            left: after,
            stops: 0,
        }
    }
}

impl Gate for StopGate {
    ghost stops = { λ g. g.stops };

    fn stops(&self) -> u64 {
        self.stops
    }

    fn may_go(&mut self, _timeline: u32, _bound: u64) -> bool
        ensures never_falls { self.old.stops ≤ self.new.stops }
        ensures cause { IsTrue result ⊎ Rose self.old.stops self.new.stops }
        ensures answer { result ≡ nat_lt 0 self.old.left }
        ensures state { self.new ≡ after_question self.old }
    {
        if self.left > 0 {
            self.left -= 1;
            true
        } else {
            self.stops = self.stops.saturating_add(1);
            false
        }
    }
}
