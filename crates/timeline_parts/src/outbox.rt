//! Outboxes: events that were written on a channel and not yet posted.

ghost use Rattle.std.specs.Prelude.{◌≡◌, List, [], ◌∷◌, ◌++◌, OnOk, OnErr};
ghost use Rattle.ssf_model.specs.declared.event.Event.{Event as EventValue};

use sim_base::{ListOf, Memory};
use ssf_model::Event;
use std::alloc::Global;
use std::marker::Model;

/// Events in the order in which they were written. Contracts see the list of them.
#[derive(Drop)]
pub struct Outbox<P> {
    events: Vec<Event<P>>,
}

impl<P> Model for Outbox<P> {
    ghost use Rattle.std.specs.Prelude.{List};
    ghost use Rattle.ssf_model.specs.declared.event.Event.{Event as EventValue};

    ghost Value = { List (EventValue P) };

    ghost view = { λ o. o.events.items };
}

impl<P: Copy> Outbox<P> {
    /// No events; they will be kept on this allocator.
    pub fn new(alloc: Global) -> Outbox<P>
        ensures { result ≡ [] }
    {
        Outbox {
            events: Vec::new(alloc),
        }
    }

    /// Adds an event at the end. Without memory nothing is added.
    pub fn push(&mut self, event: Event<P>) -> Result<(), Memory>
        ensures pushed { OnOk result (self.new ≡ self.old ++ event ∷ []) }
        ensures kept { OnErr result (self.new ≡ self.old) }
    {
        match self.events.push(event) {
            Ok(()) => Ok(()),
            Err(_) => Err(Memory),
        }
    }

    /// Takes the last event back.
    pub fn pop(&mut self)
        ensures { (events : List (EventValue P)) (event : EventValue P) → self.old ≡ events ++ event ∷ [] → self.new ≡ events }
    {
        let _last = self.events.pop();
    }

    /// The events, as a list of its own.
    pub fn into_list(self) -> ListOf<Event<P>>
        ensures { result ≡ self }
    {
        let Outbox { events } = self;
        ListOf::from_vec(events)
    }
}
