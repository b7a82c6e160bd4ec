//! Where the writes on an out-channel go.

ghost use Rattle.std.specs.Prelude.{◌≡◌, ◌++◌, ◌∷◌, [], ℕ, OnOk};
ghost use Rattle.timeline_parts.specs.RouteMap.{route};
ghost use Rattle.timeline_parts.specs.Sending.{mappings_on};

use sim_base::{ListOf, Memory};
use ssf_model::Mapping;
use std::alloc::Global;
use std::collections::BTreeMap;

/// The mappings of each out-channel, in the order in which they were added.
#[derive(Drop)]
pub struct Routes {
    pub by_out: BTreeMap<u32, ListOf<Mapping>>,
}

impl Routes {
    /// No mappings; they will be kept on this allocator.
    pub fn new(alloc: Global) -> Routes
        ensures { (out : ℕ) → route result.by_out out ≡ [] }
    {
        Routes {
            by_out: BTreeMap::new(alloc),
        }
    }

    /// Adds a mapping to those of its out-channel. After `Memory` nothing is said of them.
    pub fn add(&mut self, alloc: Global, mapping: Mapping) -> Result<(), Memory>
        ensures { OnOk result ((out : ℕ) → route self.new.by_out out ≡ route self.old.by_out out ++ mappings_on out (mapping ∷ [])) }
    {
        let out = mapping.out_channel;
        let mut list = match self.by_out.remove(&out) {
            Some(list) => list,
            None => ListOf::new(alloc),
        };
        let Ok(()) = list.push(mapping) else {
            return Err(Memory);
        };
        self.by_out.insert(out, list)?;
        Ok(())
    }

    /// The mappings of one out-channel.
    pub fn on(&self, out: u32) -> &[Mapping]
        ensures { result.now ≡ route self.now.by_out out }
    {
        match self.by_out.get(&out) {
            Some(list) => list.as_slice(),
            None => &[],
        }
    }
}
