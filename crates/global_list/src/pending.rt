//! The pending events of the one list.

ghost use Rattle.std.specs.Prelude.{◌≡◌, [], ◌∷◌, IfSome, IfNone, IsSome, is_some, IfOk, OnOk};
ghost use Rattle.event_order.specs.Pending.{Among, IsRising, put};
ghost use Rattle.event_order.specs.Machine.{due};
ghost use Rattle.ssf_model.specs.declared.event.Event.{Event as EventValue};
ghost use Rattle.global_list.specs.Pending.{key_of};

use event_order::Key;
use sim_base::Memory;
use ssf_model::Event;
use std::alloc::Global;
use std::collections::BTreeMap;
use std::marker::Model;

/// The events that are still to be executed, no two with one key. Contracts see the list of them in
/// the order of their keys.
#[derive(Drop)]
pub struct PendingEvents<P> {
    events: BTreeMap<Key, Event<P>>,
}

impl<P> Model for PendingEvents<P> {
    ghost use Rattle.std.specs.Prelude.{List};
    ghost use Rattle.std.specs.Map.{values_of};
    ghost use Rattle.ssf_model.specs.declared.event.Event.{Event as EventValue};
    ghost use Rattle.global_list.specs.Pending.{IsKeyed};

    ghost Value = { List (EventValue P) };

    ghost view = { λ p. values_of p.events.entries };

    ghost invariant = { λ p. IsKeyed p.events.entries };
}

impl<P: Copy> PendingEvents<P> {
    /// These events, which stand in the order of their keys.
    pub fn of(alloc: Global, events: &[Event<P>]) -> Result<PendingEvents<P>, Memory>
        requires { IsRising key_of events.now }
        ensures { IfOk result (λ pending. pending ≡ events.now) }
    {
        let mut pending = PendingEvents::new(alloc);
        for event in events {
            pending.insert(*event)?;
        }
        Ok(pending)
    }

    /// No events; they will be kept on this allocator.
    fn new(alloc: Global) -> PendingEvents<P>
        ensures { result ≡ [] }
    {
        PendingEvents {
            events: BTreeMap::new(alloc),
        }
    }

    /// Adds an event, whose key no other has.
    pub fn insert(&mut self, event: Event<P>) -> Result<(), Memory>
        requires { (d : EventValue P) → Among d self.old → key_of d ≡ event.key → ⊥ }
        ensures { OnOk result (self.new ≡ put key_of event self.old) }
    {
        self.events.insert(event.key, event)?;
        Ok(())
    }

    /// Whether there is an event with a time of at most `until`.
    pub fn has_due(&self, until: u64) -> bool
        ensures { result ≡ is_some (due key_of until self.now) }
    {
        match self.events.first_key_value() {
            Some((key, _)) => key.time <= until,
            None => false,
        }
    }

    /// Takes the event of the least key out, if its time is at most `until`.
    pub fn take_due(&mut self, until: u64) -> Option<Event<P>>
        ensures due { result ≡ due key_of until self.old }
        ensures taken { IfSome result (λ event. self.old ≡ event ∷ self.new) }
        ensures kept { IfNone result (self.new ≡ self.old) }
    {
        if !self.has_due(until) {
            return None;
        }
        match self.events.pop_first() {
            Some((_, event)) => Some(event),
            None => None,
        }
    }
}
