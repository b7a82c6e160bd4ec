//! The channels of each timeline, by their places among all channels between timelines.

ghost use Rattle.std.specs.Prelude.{◌≡◌, ◌<◌, ◌^◌, ℕ, [], length, Some, IfOk, OnOk, slice_get};
ghost use Rattle.plan_shares.specs.declared.crosses.CrossEnd.{CrossEnd as CrossEndValue};
ghost use Rattle.share_turns.specs.Rows.{IsRow, AreNear, HasAdded};

use sim_base::Memory;
use std::alloc::Global;
use sync_core::CrossEnd;

/// An index of the channels between timelines: by it a worker finds those of one timeline without going over all.
#[derive(Drop)]
pub struct Near {
    /// For each timeline the places, in the list of ends, of the channels that it sends on or receives from, each at
    /// least once, in no order.
    pub rows: Vec<Vec<u32>>,
}

impl Near {
    /// The index of the channels of so many timelines. It fails only for want of memory.
    pub fn new(alloc: Global, ends: &[CrossEnd], timelines: u32) -> Result<Near, Memory>
        requires known { (k : ℕ) (end : CrossEndValue) → slice_get ends.now k ≡ Some end → (end.sender < timelines) × (end.receiver < timelines) }
        requires few { length ends.now < 2 ^ 32 }
        ensures { IfOk result (λ near. AreNear ends.now timelines near.rows.items) }
    {
        let mut near = Near::empty(alloc, timelines)?;
        for (place, end) in ends.iter().enumerate() {
            near.add(end.sender, place as u32)?;
            near.add(end.receiver, place as u32)?;
        }
        Ok(near)
    }

    // So many timelines without channels.
    fn empty(alloc: Global, timelines: u32) -> Result<Near, Memory>
        ensures { IfOk result (λ near. AreNear [] timelines near.rows.items) }
    {
        let mut rows = Vec::new(alloc);
        for _timeline in 0..timelines {
            rows.push(Vec::new(alloc))?;
        }
        Ok(Near { rows })
    }

    // Adds a place to the row of a timeline.
    fn add(&mut self, timeline: u32, place: u32) -> Result<(), Memory>
        requires { timeline < length self.old.rows.items }
        ensures { OnOk result (HasAdded self.old.rows.items self.new.rows.items timeline place) }
    {
        self.rows[timeline as usize].push(place)?;
        Ok(())
    }

    /// The places, in the list of ends, of the channels of a timeline.
    pub fn of(&self, timeline: u32) -> &[u32]
        requires { timeline < length self.now.rows.items }
        ensures { IsRow self.now.rows.items timeline result.now }
    {
        self.rows[timeline as usize].as_slice()
    }
}
