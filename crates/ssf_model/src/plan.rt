//! Plans: everything that a run begins with.

ghost use Rattle.std.specs.Prelude.{◌≡◌};

use crate::{Behaviour, Entity, Event};
use sim_base::ListOf;

/// A mapping of an out-channel to an in-channel: its channel, the two ends, the entities that they
/// belong to, its delay in ticks (that of the out-channel and its own together), and its priority.
#[derive(Clone, Copy, Debug, PartialEq, Eq)]
pub struct Mapping {
    pub channel: u32,
    pub out_channel: u32,
    pub in_channel: u32,
    pub from: u32,
    pub to: u32,
    pub delay: u64,
    pub priority: u8,
}

/// What a run begins with: the behaviour, the entities with their states and waits, the pending
/// events in the order of their keys, the mappings, how many writes each channel counts already,
/// and how many events went before.
#[derive(Drop)]
pub struct Plan<B: Behaviour> {
    pub behaviour: B,
    pub entities: ListOf<Entity<B>>,
    pub events: ListOf<Event<B::Payload>>,
    pub mappings: ListOf<Mapping>,
    pub counts: ListOf<u64>,
    pub before: u64,
}

impl<B: Behaviour> Plan<B> {
    /// The mappings, in the order in which they were made.
    pub fn mappings(&self) -> &[Mapping]
        ensures { result.now ≡ self.now.mappings }
    {
        self.mappings.as_slice()
    }
}
