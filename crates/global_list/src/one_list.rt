//! The state of the one list, and the execution of one event.

ghost use Rattle.std.specs.Prelude.{◌≡◌, length, IfOk, OnOk};
ghost use Rattle.event_order.specs.Pending.{IsRising};
ghost use Rattle.global_list.specs.Pending.{key_of};
ghost use Rattle.global_list.specs.Executed.{world_in, standing_of, MayExecute, IsExecuted};
ghost use Rattle.global_list.specs.Standing.{CanGoOn, advanced, next_entry};

use crate::agenda::Agenda;
use crate::fan_out::FanOut;
use crate::pending::PendingEvents;
use sim_base::{ListOf, Memory};
use ssf_model::{Behaviour, Entity, Entry, Event, Out, Plan};
use std::alloc::Global;

/// Everything that changes in a run, and what does not: the behaviour and the mappings.
#[derive(Drop)]
pub struct OneList<B: Behaviour> {
    pub behaviour: B,
    pub entities: Vec<Entity<B>>,
    pub fan_out: FanOut,
    pub agenda: Agenda<B::Payload>,
    pub out: Out<B::Payload>,
}

impl<B: Behaviour> OneList<B> {
    /// The plan's opening.
    pub fn open(alloc: Global, plan: Plan<B>) -> Result<OneList<B>, Memory>
        requires { IsRising key_of plan.events }
        ensures behaviour { IfOk result (λ list. list.behaviour ≡ plan.behaviour) }
        ensures entities { IfOk result (λ list. list.entities.items ≡ plan.entities) }
        ensures mappings { IfOk result (λ list. list.fan_out ≡ plan.mappings) }
        ensures counts { IfOk result (λ list. list.agenda.counts.items ≡ plan.counts) }
        ensures pending { IfOk result (λ list. list.agenda.pending ≡ plan.events) }
    {
        let Plan {
            behaviour,
            entities,
            events,
            mappings,
            counts,
            before: _,
        } = plan;
        let pending = PendingEvents::of(alloc, events.as_slice())?;
        let fan_out = FanOut::new(alloc, mappings)?;
        Ok(OneList {
            behaviour,
            entities: entities.into_vec(),
            fan_out,
            agenda: Agenda {
                counts: counts.into_vec(),
                pending,
            },
            out: Out::new(alloc),
        })
    }

    /// Executes the event of the least key, if its time is at most `until`, and answers its entry.
    pub fn execute_next(&mut self, alloc: Global, until: u64) -> Result<Option<Entry>, Memory>
        requires { CanGoOn (B.valid self.old.behaviour) (B.carried self.old.behaviour) (B.reaction self.old.behaviour) until (standing_of self.old) }
        ensures next { OnOk result (standing_of self.new ≡ advanced (B.reaction self.old.behaviour) until (standing_of self.old)) }
        ensures entry { IfOk result (λ entry. entry ≡ next_entry (B.reaction self.old.behaviour) until (standing_of self.old)) }
    {
        let Some(event) = self.agenda.pending.take_due(until) else {
            return Ok(None);
        };
        let entry = self.execute(alloc, &event)?;
        Ok(Some(entry))
    }

    /// Executes an event, which is no more pending: its entity changes by the wake rule, and what
    /// its actions write becomes pending.
    fn execute(&mut self, alloc: Global, event: &Event<B::Payload>) -> Result<Entry, Memory>
        requires { MayExecute (B.valid self.old.behaviour) (B.reaction self.old.behaviour) self.old.fan_out event.now self.old.entities.items self.old.agenda.counts.items self.old.agenda.pending }
        ensures executed { IfOk result (λ entry. IsExecuted (B.reaction self.old.behaviour) self.old.fan_out event.now (record { before = world_in self.old; after = world_in self.new; entry = entry })) }
        ensures size { IfOk result (λ _. length self.new.agenda.counts.items ≡ length self.old.agenda.counts.items) }
        ensures behaviour { self.new.behaviour ≡ self.old.behaviour }
        ensures mappings { self.new.fan_out ≡ self.old.fan_out }
    {
        self.out.clear();
        let entity = &mut self.entities[event.entity as usize];
        entity.deliver(alloc, &self.behaviour, event, &mut self.out)?;
        self.agenda.post_all(
            &event.key,
            &self.fan_out,
            event.entity,
            entity.processes.as_slice(),
            self.out.writes(),
        )?;
        let lines = Vec::from_slice(alloc, self.out.lines())?;
        Ok(Entry {
            key: event.key,
            entity: event.entity,
            lines: ListOf::from_vec(lines),
        })
    }
}
