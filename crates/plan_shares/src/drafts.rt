//! Shares of a plan that are being made.

ghost use Rattle.std.specs.Prelude.{◌≡◌, ℕ, length, map, OnOk};
ghost use Rattle.std.specs.List.{range_with_len};
ghost use Rattle.alignment.specs.Classes.{classified};
ghost use Rattle.ssf_model.specs.Run.{Fits};
ghost use Rattle.plan_shares.specs.Drafts.{IsEmpty, HasNoRest, HasRest, KeepsMappings, IsDrafted, IsWhole, HasLine, IsTakenFrom, part_at};

use crate::CrossEnd;
use crate::counts::{put_mapped, put_starts, put_timers};
use crate::crosses::{put_crosses, put_ends, put_ins, put_inside, put_outs};
use crate::entities::put_events;
use crate::lists::Lists;
use alignment::{Alignment, Classes};
use sim_base::Memory;
use ssf_model::{Behaviour, Entity, Event, Mapping, Plan};
use std::alloc::Global;
use timeline_parts::{Cross, Part};

/// What timelines get of a plan, each kind by itself, and the parts, which are made of these.
#[derive(Drop)]
pub(crate) struct Drafts<B: Behaviour> {
    pub entities: Lists<(u32, Entity<B>)>,
    pub events: Lists<Event<B::Payload>>,
    pub inside: Lists<Mapping>,
    pub ins: Lists<Cross>,
    pub outs: Lists<Cross>,
    pub counts: Lists<(u32, u64)>,
    pub crosses: Vec<Cross>,
    pub ends: Vec<CrossEnd>,
    pub starts: Vec<u64>,
    pub parts: Vec<Part<B>>,
}

impl<B: Behaviour> Drafts<B> {
    /// Nothing; it will grow on this allocator.
    pub(crate) fn new(alloc: Global) -> Drafts<B>
        ensures { IsEmpty result }
    {
        Drafts {
            entities: Lists::new(alloc),
            events: Lists::new(alloc),
            inside: Lists::new(alloc),
            ins: Lists::new(alloc),
            outs: Lists::new(alloc),
            counts: Lists::new(alloc),
            crosses: Vec::new(alloc),
            ends: Vec::new(alloc),
            starts: Vec::new(alloc),
            parts: Vec::new(alloc),
        }
    }

    /// Everything but the entities, and room for these and for the parts. After `Memory` there is a
    /// part of it.
    pub(crate) fn fill(
        &mut self,
        alloc: Global,
        plan: &Plan<B>,
        alignment: &Alignment,
        classes: &Classes,
    ) -> Result<(), Memory>
        requires empty { IsEmpty self.old }
        requires fits { Fits (B.valid plan.now.behaviour) (B.carried plan.now.behaviour) plan.now }
        requires aligned { length alignment.now ≡ length plan.now.entities }
        requires classes { (threshold : ℕ) × (classes.now ≡ classified alignment.now threshold plan.now.mappings) }
        ensures { OnOk result ((threshold : ℕ) → classes.now ≡ classified alignment.now threshold plan.now.mappings → IsDrafted plan.now alignment.now threshold self.new) }
    {
        let mappings = plan.mappings();
        put_crosses(&mut self.crosses, mappings, classes)?;
        let crosses = self.crosses.as_slice();
        put_ends(&mut self.ends, crosses, alignment)?;
        put_inside(alloc, &mut self.inside, mappings, alignment)?;
        put_ins(alloc, &mut self.ins, crosses, alignment)?;
        put_outs(alloc, &mut self.outs, crosses, alignment)?;
        self.fill_rest(alloc, plan, alignment)
    }

    /// What has nothing to do with mappings between timelines.
    fn fill_rest(
        &mut self,
        alloc: Global,
        plan: &Plan<B>,
        alignment: &Alignment,
    ) -> Result<(), Memory>
        requires empty { HasNoRest self.old }
        requires fits { Fits (B.valid plan.now.behaviour) (B.carried plan.now.behaviour) plan.now }
        requires aligned { length alignment.now ≡ length plan.now.entities }
        ensures rest { OnOk result (HasRest plan.now alignment.now self.new) }
        ensures mappings { KeepsMappings self.old self.new }
    {
        let entities = plan.entities.as_slice();
        let counts = plan.counts.as_slice();
        put_events(alloc, &mut self.events, plan.events.as_slice(), alignment)?;
        put_timers(alloc, &mut self.counts, entities, counts, alignment)?;
        put_mapped(&mut self.counts, plan.mappings(), counts, alignment)?;
        put_starts(&mut self.starts, counts, entities.len())?;
        self.entities.open(alloc, alignment.count())?;
        self.parts.reserve(alignment.count() as usize)?;
        Ok(())
    }

    /// Makes the parts of all timelines, where there is room for them.
    pub(crate) fn join(&mut self, alloc: Global, count: u32)
        requires { IsWhole count self.old }
        ensures parts { self.new.parts.items ≡ map (part_at self.old) (range_with_len 0 count) }
        ensures ends { self.new.ends ≡ self.old.ends }
        ensures starts { self.new.starts ≡ self.old.starts }
    {
        for line in 0..count {
            let part = self.take(alloc, line);
            self.parts.push_reserved(part);
        }
    }

    /// Takes the part of a timeline out of the lists.
    fn take(&mut self, alloc: Global, line: u32) -> Part<B>
        requires { HasLine line self.old }
        ensures part { result ≡ part_at self.old line }
        ensures rest { IsTakenFrom line self.old self.new }
    {
        Part {
            entities: self.entities.take(alloc, line),
            events: self.events.take(alloc, line),
            inside: self.inside.take(alloc, line),
            ins: self.ins.take(alloc, line),
            outs: self.outs.take(alloc, line),
            counts: self.counts.take(alloc, line),
        }
    }
}
