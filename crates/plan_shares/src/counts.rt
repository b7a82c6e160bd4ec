//! The counts of the channels on which timelines write.

ghost use Rattle.std.specs.Prelude.{◌≡◌, ℕ, ◌<◌, ◌≤◌, ◌^◌, ◌++◌, [], length, map, take, slice_get, slice_set, Some, OnOk};
ghost use Rattle.event_order.specs.Pending.{Among};
ghost use Rattle.ssf_model.specs.declared.entity.Entity.{Entity as EntityValue};
ghost use Rattle.ssf_model.specs.declared.plan.Mapping.{Mapping as MappingValue};
ghost use Rattle.alignment.specs.Alignment.{timeline_count};
ghost use Rattle.plan_shares.specs.Shares.{counted_in, timers_in, timers_on, mapped_on};
ghost use Rattle.plan_shares.specs.Lists.{for_each, list_at};

use crate::lists::Lists;
use alignment::Alignment;
use sim_base::Memory;
use ssf_model::{Behaviour, Entity, Mapping, Process};
use std::alloc::Global;

/// The timer channels of the entities, with their counts.
pub(crate) fn put_timers<B: Behaviour>(
    alloc: Global,
    lists: &mut Lists<(u32, u64)>,
    entities: &[Entity<B>],
    counts: &[u64],
    alignment: &Alignment,
) -> Result<(), Memory>
    requires empty { lists.old ≡ [] }
    requires aligned { length alignment.now ≡ length entities.now }
    requires few { length entities.now < 2 ^ 32 }
    requires known { (k c : ℕ) (e : EntityValue B B.State B.Payload) → slice_get entities.now k ≡ Some e → Among c (timers_in e.processes) → c < length counts.now }
    ensures { OnOk result (lists.new ≡ for_each (timeline_count alignment.now) (λ i. map (counted_in counts.now) (timers_on alignment.now i entities.now))) }
{
    lists.open(alloc, alignment.count())?;
    for (index, entity) in entities.iter().enumerate() {
        let line = alignment.timeline(index as u32);
        put_timers_of(lists, line, entity.processes.as_slice(), counts)?;
    }
    Ok(())
}

/// The timer channels of the processes of one entity, with their counts.
fn put_timers_of(
    lists: &mut Lists<(u32, u64)>,
    line: u32,
    processes: &[Process],
    counts: &[u64],
) -> Result<(), Memory>
    requires line { line < length lists.old }
    requires known { (c : ℕ) → Among c (timers_in processes.now) → c < length counts.now }
    ensures { OnOk result (lists.new ≡ slice_set lists.old line (list_at lists.old line ++ map (counted_in counts.now) (timers_in processes.now))) }
{
    for process in processes {
        match process.timer {
            Some(timer) => {
                lists.put(line, (timer, counts[timer as usize]))?;
            }
            None => {}
        }
    }
    Ok(())
}

/// The channels of the mappings that lead from the entities, with their counts, after those that are
/// there.
pub(crate) fn put_mapped(
    lists: &mut Lists<(u32, u64)>,
    mappings: &[Mapping],
    counts: &[u64],
    alignment: &Alignment,
) -> Result<(), Memory>
    requires size { length lists.old ≡ timeline_count alignment.now }
    requires known { (m : MappingValue) → Among m mappings.now → (m.from < length alignment.now) × (m.channel < length counts.now) }
    ensures { OnOk result (lists.new ≡ for_each (timeline_count alignment.now) (λ i. list_at lists.old i ++ map (counted_in counts.now) (mapped_on alignment.now i mappings.now))) }
{
    for mapping in mappings {
        let count = counts[mapping.channel as usize];
        lists.put(alignment.timeline(mapping.from), (mapping.channel, count))?;
    }
    Ok(())
}

/// The counts of the start channels, which are the first ones, one for each entity.
pub(crate) fn put_starts(
    starts: &mut Vec<u64>,
    counts: &[u64],
    entities: usize,
) -> Result<(), Memory>
    requires empty { starts.old.items ≡ [] }
    requires enough { entities ≤ length counts.now }
    ensures { OnOk result (starts.new.items ≡ take entities counts.now) }
{
    starts.extend_from_slice(&counts[..entities])?;
    Ok(())
}
