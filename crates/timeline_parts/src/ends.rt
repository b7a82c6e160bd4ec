//! The ends of the channels that cross from one timeline to another.

ghost use Rattle.std.specs.Prelude.{◌≡◌, ◌+◌, ◌^◌, ◌<◌, OnOk, OnErr};
ghost use Rattle.ssf_model.specs.declared.event.Event.{Event as EventValue};
ghost use Rattle.timeline_parts.specs.Sending.{with_event};

use crate::Outbox;
use sim_base::Memory;
use ssf_model::Event;

/// The end of a channel that comes from another timeline.
#[derive(Clone, Copy, Debug)]
pub struct InEnd {
    /// The channel's place among all cross channels.
    pub place: u32,
    /// Whether it is an appointed one.
    pub appointed: bool,
    /// How many events were taken from it.
    pub taken: u64,
    /// The appointment that is held.
    pub held: u64,
}

/// The end of a channel that goes to another timeline.
#[derive(Drop)]
pub struct OutEnd<P> {
    /// Whether it is an appointed one.
    pub appointed: bool,
    /// Its delay, in ticks.
    pub delay: u64,
    /// How many events were posted.
    pub posted: u64,
    /// How many events were written.
    pub written: u64,
    /// The events that were written and not yet posted.
    pub outbox: Outbox<P>,
}

impl<P: Copy> OutEnd<P> {
    /// Adds a written event to the outbox. Without memory nothing changes.
    pub fn put(&mut self, event: Event<P>) -> Result<(), Memory>
        requires { self.old.written + 1 < 2 ^ 64 }
        ensures put { OnOk result (self.new ≡ with_event event self.old) }
        ensures kept { OnErr result (self.new ≡ self.old) }
    {
        self.outbox.push(event)?;
        self.written += 1;
        Ok(())
    }

    /// Takes back the event that was put last.
    pub fn take_back(&mut self)
        ensures { (end : OutEnd P) (event : EventValue P) → self.old ≡ with_event event end → self.new ≡ end }
    {
        self.outbox.pop();
        self.written = self.written.saturating_sub(1);
    }
}
