//! The execution of the next event.

ghost use Rattle.std.specs.Prelude.{◌≡◌, ◌≤◌, ◌+◌, ◌-◌, ◌^◌, ◌<◌, ◌∷◌, [], ℕ, List, All, length, slice_index, slice_index_or, set, nat_le, true, IfOk, OnOk, OnErr, MatchOption, None, Some, Ok};
ghost use Rattle.std.specs.List.{flat_map};
ghost use Rattle.event_order.specs.Machine.{due as due_of};
ghost use Rattle.event_order.specs.Pending.{Among};
ghost use Rattle.ssf_model.specs.declared.event.Event.{Event as EventValue};
ghost use Rattle.ssf_model.specs.declared.entity.Entity.{Entity as EntityValue};
ghost use Rattle.ssf_model.specs.declared.process.Process.{Process as ProcessValue};
ghost use Rattle.ssf_model.specs.Reaction.{LatestTime};
ghost use Rattle.ssf_model.specs.Deliver.{IsTimely};
ghost use Rattle.ssf_model.specs.Entities.{IsValidEntity};
ghost use Rattle.ssf_model.specs.Channels.{delivered_to, entity_after};
ghost use Rattle.timeline_parts.specs.RouteMap.{route};
ghost use Rattle.timeline_parts.specs.declared.ends.OutEnd.{OutEnd as OutEndValue};
ghost use Rattle.timeline_parts.specs.Tables.{AreNumbered, numbers_of, changed, item_at};
ghost use Rattle.timeline_parts.specs.Sending.{MaySend, IsSent, sent_on, all_counted, all_put};
ghost use Rattle.timeline.specs.declared.answers.Ran.{Ran as RanValue};
ghost use Rattle.timeline.specs.View.{key_of};
ghost use Rattle.timeline.specs.Executing.{refusal, MayRun, IsRun, IsBroken, MayAct, spent_of};

use crate::answers::Ran;
use crate::timeline::Timeline;
use event_order::Key;
use pending_queue::Pending;
use sim_base::{ListOf, Memory};
use ssf_model::{Behaviour, Entity, Entry, Event, Line, Out, Process, Written};
use std::alloc::Global;
use timeline_parts::{Desk, Routes, place_of, settle};

impl<B: Behaviour> Timeline<B> {
    /// Executes the first pending event, if it is in time, before the bound and within the budget,
    /// and else answers why not, by the first of these causes: the timeline is spent, no event is in
    /// time, the next event is not before the bound, the budget is spent. After `Memory` the timeline
    /// is spent: the event stays the first, and nothing but the entities and the room for events has
    /// changed.
    pub fn execute(&mut self, behaviour: &B) -> Result<Ran, Memory>
        requires { (event : EventValue B.Payload) (rest : List (EventValue B.Payload)) → self.old.pending ≡ event ∷ rest → refusal self.old ≡ None → MayRun (B.valid behaviour.now) (B.reaction behaviour.now) self.old event rest }
        ensures refused { (told : RanValue) → refusal self.old ≡ Some told → (result ≡ Ok told) × (self.new ≡ self.old) }
        ensures ran { refusal self.old ≡ None → IfOk result (λ told. (run : IsRun (B.reaction behaviour.now) self.old self.new) × (told ≡ RanValue.Ran run.event.key)) }
        ensures spent { OnErr result ((refusal self.old ≡ None) × (self.new ≡ spent_of self.old self.new)) }
    {
        self.keeps_order();
        if self.spent() {
            return Ok(Ran::Spent);
        }
        let Some(head) = self.due() else {
            return Ok(Ran::Idle);
        };
        let (bound, holder) = self.bound();
        if bound <= head.key.time {
            return Ok(Ran::Held(bound, holder));
        }
        if self.is_full() {
            return Ok(Ran::Over);
        }
        match self.run(behaviour, &head) {
            Ok(()) => Ok(Ran::Ran(head.key)),
            Err(Memory) => {
                self.end();
                Err(Memory)
            }
        }
    }

    /// Whether as many events were executed as the budget allows.
    fn is_full(&self) -> bool
        ensures { result ≡ nat_le self.now.budget self.now.executed }
    {
        self.budget <= self.executed
    }

    /// No event will be executed any more.
    fn end(&mut self)
        ensures { self.new ≡ record self.old { spent = true } }
    {
        self.spent = true;
    }

    /// The first pending event, if it is in time.
    fn due(&self) -> Option<Event<B::Payload>>
        ensures { result ≡ due_of key_of self.now.until self.now.pending }
    {
        match self.pending.least() {
            Some(event) => {
                if event.key.time <= self.until {
                    Some(*event)
                } else {
                    None
                }
            }
            None => None,
        }
    }

    /// Executes the first pending event, which is `head`.
    fn run(&mut self, behaviour: &B, head: &Event<B::Payload>) -> Result<(), Memory>
        requires budget { self.old.executed < self.old.budget }
        requires time { head.now.key.time ≤ LatestTime }
        requires may { (rest : List (EventValue B.Payload)) → self.old.pending ≡ head.now ∷ rest → MayRun (B.valid behaviour.now) (B.reaction behaviour.now) self.old head.now rest }
        requires first { (event : EventValue B.Payload) (rest : List (EventValue B.Payload)) → self.old.pending ≡ event ∷ rest → event ≡ head.now }
        requires some { self.old.pending ≡ [] → ⊥ }
        ensures ran { OnOk result ((run : IsRun (B.reaction behaviour.now) self.old self.new) × (run.event ≡ head.now)) }
        ensures broken { OnErr result (IsBroken self.old self.new) }
    {
        let place = place_in(self.entities.as_slice(), head.entity);
        let lines = act(
            self.alloc,
            behaviour,
            head,
            &mut self.entities,
            place,
            &mut self.out,
        )?;
        self.history.reserve(1)?;
        write_all(
            &mut self.desk,
            &mut self.pending,
            &self.routes,
            &head.key,
            head.entity,
            self.entities[place].1.processes.as_slice(),
            self.out.writes(),
        )?;
        let _head = self.pending.take_least();
        self.arrival = settle(
            self.desk.written.as_slice(),
            self.desk.ends.as_slice(),
            &mut self.pending,
            self.entered,
            self.arrival,
        );
        self.history.push_reserved(Entry {
            key: head.key,
            entity: head.entity,
            lines: ListOf::from_vec(lines),
        });
        self.executed += 1;
        Ok(())
    }
}

/// The place of a number that the table has.
fn place_in<T>(items: &[(u32, T)], number: u32) -> usize
    requires rising { AreNumbered items.now }
    requires known { Among number (numbers_of items.now) }
    ensures within { result < length items.now }
    ensures found { slice_index (numbers_of items.now) result ≡ number }
{
    match place_of(items, number) {
        Some(place) => place,
        None => 0,
    }
}

/// Executes an event at the entity at this place, and gives the lines that its actions told. `out`
/// has what they wrote. After `Memory` nothing is said of this entity, nor of `out`.
fn act<B: Behaviour>(
    alloc: Global,
    behaviour: &B,
    event: &Event<B::Payload>,
    entities: &mut Vec<(u32, Entity<B>)>,
    place: usize,
    out: &mut Out<B::Payload>,
) -> Result<Vec<Line>, Memory>
    requires within { place < length entities.old.items }
    requires time { event.now.key.time ≤ LatestTime }
    requires may { (d : ℕ × EntityValue B B.State B.Payload) → MayAct (B.valid behaviour.now) event.now (slice_index_or entities.old.items place d).1 }
    ensures numbers { numbers_of entities.new.items ≡ numbers_of entities.old.items }
    ensures entities { OnOk result ((d : ℕ × EntityValue B B.State B.Payload) → d ≡ slice_index_or entities.old.items place d → entities.new.items ≡ set entities.old.items place (d.0, entity_after (delivered_to (B.reaction behaviour.now) event.now d.1) d.1)) }
    ensures writes { OnOk result ((d : ℕ × EntityValue B B.State B.Payload) → d ≡ slice_index_or entities.old.items place d → out.new.writes ≡ (delivered_to (B.reaction behaviour.now) event.now d.1).writes) }
    ensures lines { IfOk result (λ lines. (d : ℕ × EntityValue B B.State B.Payload) → d ≡ slice_index_or entities.old.items place d → lines.items ≡ (delivered_to (B.reaction behaviour.now) event.now d.1).lines) }
{
    out.clear();
    let entity = &mut entities[place].1;
    entity.deliver(alloc, behaviour, event, out)?;
    let lines = Vec::from_slice(alloc, out.lines())?;
    Ok(lines)
}

/// Writes what an event has written, and makes room for it among the pending events. Without memory
/// nothing has changed.
fn write_all<P: Copy>(
    desk: &mut Desk<P>,
    pending: &mut Pending<Event<P>>,
    routes: &Routes,
    parent: &Key,
    entity: u32,
    processes: &[Process],
    writes: &[Written<P>],
) -> Result<(), Memory>
    requires { MaySend parent.now (flat_map (sent_on (route routes.now.by_out) entity processes.now) writes.now) desk.old.counts.items desk.old.ends.items }
    ensures sent { OnOk result (IsSent parent.now (flat_map (sent_on (route routes.now.by_out) entity processes.now) writes.now) desk.old.counts.items desk.old.ends.items [] desk.new.counts.items desk.new.ends.items desk.new.written.items) }
    ensures room { OnOk result (length desk.new.written.items ≤ pending.new.spare) }
    ensures pending { pending.new.items ≡ pending.old.items }
    ensures counts { OnErr result (desk.new.counts.items ≡ desk.old.counts.items) }
    ensures ends { OnErr result (desk.new.ends.items ≡ desk.old.ends.items) }
{
    desk.written.clear();
    match desk.send_all(parent, routes, entity, processes, writes) {
        Ok(()) => make_room(desk, pending),
        Err(Memory) => {
            desk.undo();
            Err(Memory)
        }
    }
}

/// Makes room for what was written among the pending events. Without memory it takes all of it back.
fn make_room<P: Copy>(desk: &mut Desk<P>, pending: &mut Pending<Event<P>>) -> Result<(), Memory>
    requires counts_rise { AreNumbered desk.old.counts.items }
    requires ends_rise { AreNumbered desk.old.ends.items }
    ensures pending { pending.new.items ≡ pending.old.items }
    ensures room { OnOk result (length desk.new.written.items ≤ pending.new.spare) }
    ensures kept_counts { OnOk result (desk.new.counts.items ≡ desk.old.counts.items) }
    ensures kept_ends { OnOk result (desk.new.ends.items ≡ desk.old.ends.items) }
    ensures kept_written { OnOk result (desk.new.written.items ≡ desk.old.written.items) }
    ensures counts { OnErr result ((counts : List (ℕ × ℕ)) → desk.old.counts.items ≡ all_counted desk.old.written.items counts → desk.new.counts.items ≡ counts) }
    ensures ends { OnErr result ((ends : List (ℕ × OutEndValue P)) → desk.old.ends.items ≡ all_put desk.old.written.items ends → desk.new.ends.items ≡ ends) }
{
    match pending.reserve(desk.written.len()) {
        Ok(()) => Ok(()),
        Err(Memory) => {
            desk.undo();
            Err(Memory)
        }
    }
}
