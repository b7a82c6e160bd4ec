//! How a timeline is made of a part, and gives it back.

ghost use Rattle.std.specs.Prelude.{◌≡◌, ◌+◌, ◌≤◌, ℕ, false, [], map, length, IfOk, IfErr, vec_capacity};
ghost use Rattle.event_order.specs.Pending.{put_all, IsApart};
ghost use Rattle.ssf_model.specs.Reaction.{LatestTime};
ghost use Rattle.run_health.specs.Healthy.{MostEvents};
ghost use Rattle.timeline_parts.specs.RouteMap.{route};
ghost use Rattle.timeline_parts.specs.Settling.{AreNew};
ghost use Rattle.timeline_parts.specs.Sending.{mappings_on};
ghost use Rattle.timeline.specs.View.{key_of, routes_by};
ghost use Rattle.timeline_parts.specs.Parts.{IsPart};
ghost use Rattle.timeline.specs.Opening.{first_in, first_out, IsFirst, IsOpened, part_of};

use crate::bounds::{holder_of, least_held};
use crate::timeline::Timeline;
use pending_queue::Pending;
use sim_base::{ListOf, Memory};
use ssf_model::{Behaviour, Event, Mapping, Out};
use std::alloc::Global;
use timeline_parts::{Cross, Desk, InEnd, OutEnd, Outbox, Part, Routes};

/// What is made beside a part's own lists.
#[derive(Drop)]
struct Opened<P> {
    routes: Routes,
    in_ends: Vec<(u32, InEnd)>,
    ends: Vec<(u32, OutEnd<P>)>,
    pending: Pending<Event<P>>,
}

impl<B: Behaviour> Timeline<B> {
    /// A timeline that has executed nothing, with this part. It executes events up to the time
    /// `until`, in ticks, which is at most 10^18, and at most `budget` of them, which is at most 10^12.
    /// Without memory the part comes back.
    pub fn new(
        alloc: Global,
        part: Part<B>,
        until: u64,
        budget: u64,
    ) -> Result<Timeline<B>, (Part<B>, Memory)>
        requires part { IsPart part }
        requires until { until ≤ LatestTime }
        requires budget { budget ≤ MostEvents }
        ensures first { IfOk result (λ timeline. IsFirst part until budget timeline) }
        ensures returned { IfErr result (λ back. back.0 ≡ part) }
    {
        match open(alloc, &part) {
            Ok(opened) => Ok(joined(alloc, part, opened, until, budget)),
            Err(Memory) => Err((part, Memory)),
        }
    }

    /// The timeline as a part: its entities, its pending events in the order of their keys, moved
    /// into `room`, which is empty and has room for them, and its counts. It takes no memory.
    pub fn into_part(self, room: Vec<Event<B::Payload>>) -> Part<B>
        requires live { self.spent ≡ false }
        requires empty { room.items ≡ [] }
        requires room { length self.pending ≤ vec_capacity room }
        ensures { result ≡ part_of self }
    {
        let Timeline {
            entities,
            inside,
            ins,
            outs,
            desk,
            pending,
            ..
        } = self;
        let Desk { counts, .. } = desk;
        Part {
            entities: ListOf::from_vec(entities),
            events: ListOf::from_vec(drained(pending, room)),
            inside,
            ins,
            outs,
            counts: ListOf::from_vec(counts),
        }
    }
}

/// Moves the pending events into a list that has room for them.
fn drained<P: Copy>(mut pending: Pending<Event<P>>, room: Vec<Event<P>>) -> Vec<Event<P>>
    requires empty { room.items ≡ [] }
    requires room { length pending.items ≤ vec_capacity room }
    ensures { result.items ≡ pending.items }
{
    let mut events = room;
    while let Some(event) = pending.take_least() {
        events.push_reserved(event);
    }
    events
}

fn joined<B: Behaviour>(
    alloc: Global,
    part: Part<B>,
    opened: Opened<B::Payload>,
    until: u64,
    budget: u64,
) -> Timeline<B>
    requires part { IsPart part }
    requires until { until ≤ LatestTime }
    requires budget { budget ≤ MostEvents }
    requires opened { IsOpened part.inside part.ins part.outs part.events (route opened.routes.by_out) opened.in_ends.items opened.ends.items opened.pending.items }
    ensures { IsFirst part until budget result }
{
    let Part {
        entities,
        events: _,
        inside,
        ins,
        outs,
        counts,
    } = part;
    let Opened {
        routes,
        in_ends,
        ends,
        pending,
    } = opened;
    let bound = least_held(0, in_ends.as_slice());
    let holder = holder_of(bound, in_ends.as_slice());
    Timeline {
        alloc,
        until,
        budget,
        entities: entities.into_vec(),
        inside,
        ins,
        outs,
        routes,
        in_ends,
        desk: Desk {
            counts: counts.into_vec(),
            ends,
            written: Vec::new(alloc),
        },
        pending,
        entered: 0,
        bound,
        holder,
        arrival: until + 1,
        executed: 0,
        spent: false,
        history: Vec::new(alloc),
        out: Out::new(alloc),
    }
}

fn open<B: Behaviour>(alloc: Global, part: &Part<B>) -> Result<Opened<B::Payload>, Memory>
    requires { IsApart key_of part.now.events }
    ensures { IfOk result (λ opened. IsOpened part.now.inside part.now.ins part.now.outs part.now.events (route opened.routes.by_out) opened.in_ends.items opened.ends.items opened.pending.items) }
{
    let routes = routes_of(alloc, part.inside.as_slice(), part.outs.as_slice())?;
    let in_ends = in_ends_of(alloc, part.ins.as_slice())?;
    let ends = out_ends_of(alloc, part.outs.as_slice())?;
    let pending = pending_of(alloc, part.events.as_slice())?;
    Ok(Opened {
        routes,
        in_ends,
        ends,
        pending,
    })
}

/// The mappings by their out-channels, those inside first.
fn routes_of(alloc: Global, inside: &[Mapping], outs: &[Cross]) -> Result<Routes, Memory>
    ensures { IfOk result (λ routes. (out : ℕ) → route routes.by_out out ≡ routes_by inside.now outs.now out) }
{
    let mut routes = routes_inside(alloc, inside)?;
    for cross in outs {
        routes.add(alloc, cross.mapping)?;
    }
    Ok(routes)
}

fn routes_inside(alloc: Global, inside: &[Mapping]) -> Result<Routes, Memory>
    ensures { IfOk result (λ routes. (out : ℕ) → route routes.by_out out ≡ mappings_on out inside.now) }
{
    let mut routes = Routes::new(alloc);
    for mapping in inside {
        routes.add(alloc, *mapping)?;
    }
    Ok(routes)
}

fn in_ends_of(alloc: Global, ins: &[Cross]) -> Result<Vec<(u32, InEnd)>, Memory>
    ensures { IfOk result (λ ends. ends.items ≡ map first_in ins.now) }
{
    let mut ends = Vec::new(alloc);
    for cross in ins {
        let end = InEnd {
            place: cross.place,
            appointed: cross.appointed,
            taken: 0,
            held: 0,
        };
        ends.push((cross.mapping.channel, end))?;
    }
    Ok(ends)
}

fn out_ends_of<P: Copy>(alloc: Global, outs: &[Cross]) -> Result<Vec<(u32, OutEnd<P>)>, Memory>
    ensures { IfOk result (λ ends. ends.items ≡ map first_out outs.now) }
{
    let mut ends = Vec::new(alloc);
    for cross in outs {
        let end = OutEnd {
            appointed: cross.appointed,
            delay: cross.mapping.delay,
            posted: 0,
            written: 0,
            outbox: Outbox::new(alloc),
        };
        ends.push((cross.mapping.channel, end))?;
    }
    Ok(ends)
}

fn pending_of<P: Copy>(alloc: Global, events: &[Event<P>]) -> Result<Pending<Event<P>>, Memory>
    requires { IsApart key_of events.now }
    ensures { IfOk result (λ pending. pending.items ≡ put_all key_of events.now []) }
{
    let mut pending = Pending::new(alloc);
    pending.reserve(events.len())?;
    put_in(&mut pending, events);
    Ok(pending)
}

/// Puts events with new keys to the pending ones, where there is room for them.
pub fn put_in<P: Copy>(pending: &mut Pending<Event<P>>, events: &[Event<P>])
    requires room { length events.now ≤ pending.old.spare }
    requires new { AreNew events.now pending.old.items }
    ensures items { pending.new.items ≡ put_all key_of events.now pending.old.items }
    ensures spare { pending.old.spare ≤ pending.new.spare + length events.now }
{
    for event in events {
        let _inserted = pending.insert(*event);
    }
}
