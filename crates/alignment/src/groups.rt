//! Groups of entities that share a timeline, while they are being joined: a forest in which the least
//! entity of a group stands at the top.
ghost use Rattle.std.specs.Prelude.{◌≡◌, ℕ, ◌<◌, ◌≤◌, ◌^◌, length, slice_index, slice_set, cond, nat_eq, unwrap_or, Some, IfOk, OnOk};
ghost use Rattle.std.specs.List.{range_with_len};
ghost use Rattle.std.specs.HashMap.{get};
ghost use Rattle.event_order.specs.Pending.{Among};
ghost use Rattle.ssf_model.specs.declared.plan.Mapping.{Mapping as MappingValue};
ghost use Rattle.alignment.specs.Alignment.{label_of, timeline_count};
ghost use Rattle.alignment.specs.Forests.{IsForest, IsSmoothed, IsTied, AreLabelsTied, AreEndsTied, IsNumbered};

use crate::Mode;
use crate::labels::label_of;
use sim_base::Memory;
use ssf_model::Mapping;
use std::alloc::Global;
use std::collections::HashMap;
use std::marker::Model;

/// Entities in groups. Contracts see the parent of each: a lesser entity of its group, or itself.
#[derive(Drop)]
pub(crate) struct Groups {
    parents: Vec<u32>,
}

impl Model for Groups {
    ghost use Rattle.std.specs.Prelude.{List, ℕ};
    ghost use Rattle.alignment.specs.Forests.{IsForest};

    ghost Value = { List ℕ };

    ghost view = { λ g. g.parents.items };

    ghost invariant = { λ g. IsForest g.parents.items };
}

impl Groups {
    /// Each of so many entities alone.
    pub(crate) fn new(alloc: Global, count: u32) -> Result<Groups, Memory>
        ensures { IfOk result (λ groups. groups ≡ range_with_len 0 count) }
    {
        let mut parents = Vec::new(alloc);
        for entity in 0..count {
            parents.push(entity)?;
        }
        Ok(Groups { parents })
    }

    /// Joins all entities that have the same label.
    pub(crate) fn join_labels(
        &mut self,
        alloc: Global,
        mode: Mode,
        nets: &[u32],
    ) -> Result<(), Memory>
        requires nets { length nets.now ≡ length self.old }
        requires count { length self.old < 2 ^ 32 }
        ensures { OnOk result (AreLabelsTied self.old self.new (label_of mode nets.now (length nets.now))) }
    {
        let mut firsts = HashMap::new(alloc);
        for entity in 0..nets.len() as u32 {
            let first = first_with(&mut firsts, label_of(mode, nets, entity), entity)?;
            self.join(first, entity);
        }
        Ok(())
    }

    /// Joins the two ends of each mapping without delay.
    pub(crate) fn join_ends(&mut self, mappings: &[Mapping])
        requires { (m : MappingValue) → Among m mappings.now → (m.from < length self.old) × (m.to < length self.old) }
        ensures { AreEndsTied self.old self.new mappings.now }
    {
        for mapping in mappings {
            if mapping.delay == 0 {
                self.join(mapping.from, mapping.to);
            }
        }
    }

    /// The timelines of the entities, numbered by their least entities, and how many there are.
    pub(crate) fn timelines(&self, alloc: Global) -> Result<(Vec<u32>, u32), Memory>
        requires { length self.now < 2 ^ 32 }
        ensures lines { IfOk result (λ found. IsNumbered self.now found.0.items × (length found.0.items ≡ length self.now)) }
        ensures count { IfOk result (λ found. found.1 ≡ timeline_count found.0.items) }
        ensures forest { IsForest self.now }
    {
        let mut lines = Vec::new(alloc);
        let mut count = 0;
        for (entity, parent) in self.parents.iter().enumerate() {
            let parent = *parent as usize;
            if parent == entity {
                lines.push(count)?;
                count += 1;
            } else {
                let line = lines[parent];
                lines.push(line)?;
            }
        }
        Ok((lines, count))
    }

    /// Makes one group of the groups of two entities.
    fn join(&mut self, a: u32, b: u32)
        requires a { a < length self.old }
        requires b { b < length self.old }
        ensures { IsTied self.old self.new a b }
    {
        let a = self.least_of(a);
        let b = self.least_of(b);
        self.parents[a.max(b) as usize] = a.min(b);
    }

    /// The least entity of the group of this one. The way to it becomes half as long.
    fn least_of(&mut self, entity: u32) -> u32
        requires { entity < length self.old }
        ensures smoothed { IsSmoothed self.old self.new entity result }
        ensures top { slice_index self.new result ≡ result }
        ensures within { result < length self.new }
    {
        let mut at = entity;
        while self.parents[at as usize] < at {
            at = self.lift(at);
        }
        at
    }

    /// Gives an entity the parent of its parent, which is the answer.
    fn lift(&mut self, entity: u32) -> u32
        requires within { entity < length self.old }
        requires above { slice_index self.old entity < entity }
        ensures smoothed { IsSmoothed self.old self.new entity result }
        ensures lesser { result < entity }
    {
        let parent = self.parents[entity as usize];
        let above = self.parents[parent as usize];
        self.parents[entity as usize] = above;
        above
    }
}

/// The first entity with this label, which is this one where there was none yet.
fn first_with(firsts: &mut HashMap<u64, u32>, label: u64, entity: u32) -> Result<u32, Memory>
    ensures first { IfOk result (λ first. first ≡ unwrap_or (get nat_eq firsts.old label) entity) }
    ensures firsts { IfOk result (λ first. (q : ℕ) → get nat_eq firsts.new q ≡ cond (nat_eq label q) (Some first) (get nat_eq firsts.old q)) }
{
    if let Some(first) = firsts.get(&label) {
        return Ok(*first);
    }
    firsts.insert(label, entity)?;
    Ok(entity)
}
