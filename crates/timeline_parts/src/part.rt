//! A timeline's share of a plan.

use sim_base::ListOf;
use ssf_model::{Behaviour, Entity, Event, Mapping};

/// A mapping between two timelines.
#[derive(Clone, Copy, Debug)]
pub struct Cross {
    pub mapping: Mapping,
    /// Its place among all mappings between two timelines, in the rising order of their channels.
    pub place: u32,
    /// Whether it is an appointed one; the others are windowed.
    pub appointed: bool,
}

/// What a timeline begins with, or stands with.
#[derive(Drop)]
pub struct Part<B: Behaviour> {
    /// The entities with their numbers, which rise.
    pub entities: ListOf<(u32, Entity<B>)>,
    /// The pending events, no two with one key.
    pub events: ListOf<Event<B::Payload>>,
    /// The mappings between entities of the timeline, in the order of the plan.
    pub inside: ListOf<Mapping>,
    /// The mappings that come from other timelines, in the rising order of their channels.
    pub ins: ListOf<Cross>,
    /// The mappings that go to other timelines, in the rising order of their channels.
    pub outs: ListOf<Cross>,
    /// Each channel on which the timeline writes, in rising order, with its count of writes.
    pub counts: ListOf<(u32, u64)>,
}
