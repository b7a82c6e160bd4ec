//! A node of a ring on a timeline of its own.

ghost use Rattle.std.specs.Prelude.{◌≡◌, ◌≤◌, ◌<◌, ◌+◌, ◌^◌, ◌∷◌, [], ℕ, map, length, IsTrue, IfOk, false};
ghost use Rattle.event_order.specs.Pending.{Among};
ghost use Rattle.ssf_model.specs.declared.event.Event.{Event as EventValue};
ghost use Rattle.ssf_model.specs.Reaction.{Each, LatestTime, LongestDelay};
ghost use Rattle.run_health.specs.Healthy.{MostEvents};
ghost use Rattle.ring_model.specs.declared.ring.RingPayload.{RingPayload as Token};
ghost use Rattle.timeline_parts.specs.Tables.{AreRising, numbers_of};
ghost use Rattle.timeline_parts.specs.Parts.{channel_of};
ghost use Rattle.timeline_tests.specs.Tame.{ends_a_wait, IsPlain, IsNode, IsNodePart, IsOne, IsSimple, IsSmall, first_count};

use event_order::Key;
use ring_model::{Ring, RingPayload, RingState};
use sim_base::{ListOf, Memory};
use ssf_model::{Entity, Event, Kind, Mapping, Parcel, Process, Wait};
use std::alloc::Global;
use std::marker::Model;
use timeline::{Cross, Part, Ran, Timeline};

/// A timeline with one node, which is joined to nodes of other timelines alone.
#[derive(Drop)]
pub struct Node {
    number: u32,
    timeline: Timeline<Ring>,
}

impl Model for Node {
    ghost use Rattle.std.specs.Prelude.{ℕ};
    ghost use Rattle.timeline_tests.specs.Tame.{IsTame};

    ghost Value = { ℕ };

    ghost view = { λ node. node.number };

    ghost invariant = { λ node. IsTame node.number node.timeline };
}

impl Node {
    /// A node with these tokens, at most one hop from it, and at most two hops to it. None where there
    /// is no memory, or more hops.
    pub fn new(
        alloc: Global,
        number: u32,
        tokens: u32,
        ins: &[Cross],
        outs: &[Cross],
        until: u64,
        budget: u64,
    ) -> Option<Node>
        requires until { until ≤ LatestTime }
        requires budget { budget ≤ MostEvents }
    {
        if !rise(ins) || !rise(outs) {
            return None;
        }
        let Ok(part) = part_of(alloc, number, tokens, ins, outs) else {
            return None;
        };
        match Timeline::new(alloc, part, until, budget) {
            Ok(timeline) => Some(Node { number, timeline }),
            Err((_part, Memory)) => None,
        }
    }

    /// Executes the next event. None where there is no memory.
    pub fn execute(&mut self) -> Option<Ran> {
        if !is_simple(&self.timeline, self.number) {
            return None;
        }
        self.timeline.keeps_order();
        self.timeline.execute(&Ring {}).ok()
    }

    /// Takes in a parcel with at most one event, which begins where the node has taken up to, and
    /// answers whether it did.
    #[tactic(auto, using(crate::proofs::Tame::on_ins))]
    pub fn take_in(&mut self, channel: u32, parcel: Parcel<RingPayload>) -> bool {
        if !is_on(self.timeline.ins(), channel) {
            return false;
        }
        let taken = self.timeline.taken(channel);
        if taken > 1000
            || parcel.first != taken
            || !is_small(parcel.events.as_slice(), self.number, channel, taken)
        {
            return false;
        }
        self.timeline.take_in(channel, parcel).is_ok()
    }

    #[tactic(auto, using(crate::proofs::Tame::tame_spared))]
    pub fn reserve(&mut self, n: usize) -> bool {
        self.timeline.reserve(n).is_ok()
    }

    #[tactic(auto, using(crate::proofs::Tame::tame_entered))]
    pub fn enter(&mut self, window: u64, counts: &[u64]) -> bool {
        self.timeline.enter(window, counts)
    }

    /// What stands in the outbox of a channel, if there is one.
    #[tactic(auto, using(crate::proofs::Tame::on_outs))]
    pub fn outbox(&mut self, channel: u32) -> Option<Parcel<RingPayload>> {
        if !is_on(self.timeline.outs(), channel) {
            return None;
        }
        Some(self.timeline.outbox(channel))
    }

    #[tactic(auto, using(crate::proofs::Tame::tame_without))]
    pub fn give_up(&mut self, below: u64) {
        if below <= self.timeline.lower_bound() {
            self.timeline.give_up(below);
        }
    }

    /// The timeline, which tells of itself.
    pub fn timeline(&self) -> &Timeline<Ring> {
        &self.timeline
    }

    /// How many events were written on a channel, if it is one of the node's.
    #[tactic(auto, using(crate::proofs::Tame::on_outs))]
    pub fn written(&self, channel: u32) -> Option<u64> {
        if !is_on(self.timeline.outs(), channel) {
            return None;
        }
        Some(self.timeline.written(channel))
    }

    /// How many events were taken from a channel, and its appointment, if it is one of the node's.
    #[tactic(auto, using(crate::proofs::Tame::on_ins))]
    pub fn taken(&self, channel: u32) -> Option<(u64, u64)> {
        if !is_on(self.timeline.ins(), channel) {
            return None;
        }
        Some((
            self.timeline.taken(channel),
            self.timeline.appointment(channel),
        ))
    }

    /// The node as a part. None where it is spent, or there is no memory.
    pub fn into_part(self, alloc: Global) -> Option<Part<Ring>> {
        let Node { timeline, .. } = self;
        let Ok(room) = Vec::with_capacity(alloc, timeline.pending()) else {
            return None;
        };
        if timeline.spent() {
            return None;
        }
        Some(timeline.into_part(room))
    }
}

/// Whether these are at most two hops, in the order of their channels.
fn rise(crosses: &[Cross]) -> bool
    ensures { IsTrue result → AreRising (map channel_of crosses.now) }
{
    match crosses {
        [] => true,
        [_] => true,
        [first, second] => first.mapping.channel < second.mapping.channel,
        _ => false,
    }
}

/// Whether these are at most one hop, with a delay in range.
fn is_short(crosses: &[Cross]) -> bool
    ensures few { IsTrue result → length crosses.now ≤ 1 }
    ensures short { IsTrue result → Each (λ cross. cross.mapping.delay ≤ LongestDelay) crosses.now }
{
    match crosses {
        [] => true,
        [cross] => cross.mapping.delay <= 1000,
        _ => false,
    }
}

/// Whether one of at most two hops has this channel.
fn is_on(crosses: &[Cross], channel: u32) -> bool
    ensures { IsTrue result → Among channel (map channel_of crosses.now) }
{
    match crosses {
        [cross] => cross.mapping.channel == channel,
        [first, second] => { first.mapping.channel == channel || second.mapping.channel == channel }
        _ => false,
    }
}

/// Whether there is one node with this number, and at most one hop from it, if the timeline is not
/// spent.
fn is_simple(timeline: &Timeline<Ring>, number: u32) -> bool
    ensures { IsTrue result → timeline.now.spent ≡ false → IsSimple number timeline.now }
{
    if timeline.spent() {
        return true;
    }
    is_one(timeline.entities(), number) && is_short(timeline.outs())
}

/// Whether there is one entity, a node with this number.
fn is_one(entities: &[(u32, Entity<Ring>)], number: u32) -> bool
    ensures { IsTrue result → IsOne number entities.now }
{
    match entities {
        [entity] => entity.0 == number && is_node(&entity.1),
        _ => false,
    }
}

/// Whether this is a node with at most one token, which has acted a few times.
fn is_node(entity: &Entity<Ring>) -> bool
    ensures { IsTrue result → IsNode entity.now }
{
    match entity.processes.as_slice() {
        [process] => {
            process.timer.is_none()
                && process.wait.delay().is_none()
                && process.ticket < 1000
                && is_only(entity.in_channels.as_slice(), entity.state.node)
                && is_only(entity.out_channels.as_slice(), entity.state.node)
                && entity.state.tokens <= 1
        }
        _ => false,
    }
}

fn is_only(channels: &[u32], number: u32) -> bool
    ensures { IsTrue result → channels.now ≡ number ∷ [] }
{
    match channels {
        [channel] => *channel == number,
        _ => false,
    }
}

/// Whether there is no event, or one for this node, the next on a channel from which so many were
/// taken.
fn is_small(events: &[Event<RingPayload>], number: u32, channel: u32, taken: u64) -> bool
    ensures { IsTrue result → IsSmall number channel taken events.now }
{
    match events {
        [] => true,
        [event] => {
            channel != number
                && event.entity == number
                && event.key.round < 1000
                && event.key.channel == channel
                && event.key.number == taken
                && !is_wait_end(&event.kind)
        }
        _ => false,
    }
}

fn is_wait_end(kind: &Kind<RingPayload>) -> bool
    ensures { result ≡ ends_a_wait kind.now }
{
    match kind {
        Kind::Begin => false,
        Kind::Timer { .. } => true,
        Kind::Message { .. } => false,
    }
}

fn part_of(
    alloc: Global,
    number: u32,
    tokens: u32,
    ins: &[Cross],
    outs: &[Cross],
) -> Result<Part<Ring>, Memory>
    ensures { IfOk result (λ part. IsNodePart number ins.now outs.now part) }
{
    let entities = Vec::from_array(alloc, [(number, entity_of(alloc, number, tokens)?)])?;
    let events = Vec::from_array(alloc, [start(number)])?;
    let counts = first_counts(alloc, outs)?;
    Ok(Part {
        entities: ListOf::from_vec(entities),
        events: ListOf::from_vec(events),
        inside: ListOf::new(alloc),
        ins: ListOf::from_vec(Vec::from_slice(alloc, ins)?),
        outs: ListOf::from_vec(Vec::from_slice(alloc, outs)?),
        counts: ListOf::from_vec(counts),
    })
}

fn first_counts(alloc: Global, outs: &[Cross]) -> Result<Vec<(u32, u64)>, Memory>
    ensures { IfOk result (λ counts. counts.items ≡ map first_count outs.now) }
{
    let mut counts = Vec::new(alloc);
    for cross in outs {
        counts.push((cross.mapping.channel, 0))?;
    }
    Ok(counts)
}

fn entity_of(alloc: Global, number: u32, tokens: u32) -> Result<Entity<Ring>, Memory> {
    let process = Process {
        wait: Wait::Forever,
        ticket: 0,
        timer: None,
    };
    let processes = Vec::from_array(alloc, [process])?;
    let in_channels = Vec::from_slice(alloc, &[number])?;
    let out_channels = Vec::from_slice(alloc, &[number])?;
    Ok(Entity {
        state: RingState {
            node: number,
            tokens,
        },
        processes: ListOf::from_vec(processes),
        in_channels: ListOf::from_vec(in_channels),
        out_channels: ListOf::from_vec(out_channels),
    })
}

/// The start of a node.
pub fn start(number: u32) -> Event<RingPayload>
    ensures plain { IsPlain number result }
    ensures own { result.key.channel ≡ number }
{
    Event {
        key: Key {
            time: 0,
            round: 0,
            priority: 0,
            channel: number,
            number: 0,
        },
        entity: number,
        kind: Kind::Begin,
    }
}

/// A hop between two nodes on different timelines.
pub fn hop(channel: u32, from: u32, to: u32, delay: u64, place: u32, appointed: bool) -> Cross {
    Cross {
        mapping: Mapping {
            channel,
            out_channel: from,
            in_channel: to,
            from,
            to,
            delay,
            priority: 0,
        },
        place,
        appointed,
    }
}
