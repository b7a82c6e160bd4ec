//! The mappings of a plan by their timelines.

ghost use Rattle.std.specs.Prelude.{◌≡◌, ℕ, ◌+◌, ◌<◌, ◌≤◌, ◌^◌, ◌++◌, [], List, map, length, vec_len, OnOk};
ghost use Rattle.event_order.specs.Pending.{Among};
ghost use Rattle.ssf_model.specs.declared.plan.Mapping.{Mapping as MappingValue};
ghost use Rattle.timeline_parts.specs.declared.part.Cross.{Cross as CrossValue};
ghost use Rattle.alignment.specs.Alignment.{timeline_count};
ghost use Rattle.alignment.specs.Classes.{class_of};
ghost use Rattle.plan_shares.specs.Shares.{inside_on, crosses_of, into, out_of, end_of};
ghost use Rattle.plan_shares.specs.Lists.{for_each, crossing};

use crate::lists::Lists;
use alignment::{Alignment, Class, Classes};
use sim_base::Memory;
use ssf_model::Mapping;
use std::alloc::Global;
use timeline_parts::Cross;

/// A mapping between two timelines: its channel, and the timelines of its two ends.
#[derive(Clone, Copy, Debug, PartialEq, Eq)]
pub struct CrossEnd {
    pub channel: u32,
    pub sender: u32,
    pub receiver: u32,
}

/// The mappings between two timelines, each with its place among them.
pub(crate) fn put_crosses(
    crosses: &mut Vec<Cross>,
    mappings: &[Mapping],
    classes: &Classes,
) -> Result<(), Memory>
    requires empty { crosses.old.items ≡ [] }
    requires few { length mappings.now < 2 ^ 32 }
    requires known { length classes.now.classes ≡ length mappings.now }
    ensures { OnOk result ((lines : List ℕ) (threshold : ℕ) → classes.now.classes ≡ map (class_of lines threshold) mappings.now → crosses.new.items ≡ crosses_of lines threshold mappings.now) }
{
    for (index, mapping) in mappings.iter().enumerate() {
        put_cross(crosses, mapping, classes.class(index as u32))?;
    }
    Ok(())
}

/// Adds a mapping of this class, where it leads to another timeline.
fn put_cross(crosses: &mut Vec<Cross>, mapping: &Mapping, class: Class) -> Result<(), Memory>
    requires { vec_len crosses.old + 1 < 2 ^ 32 }
    ensures { OnOk result (crosses.new.items ≡ crosses.old.items ++ crossing class (length crosses.old.items) mapping.now) }
{
    let appointed = match class {
        Class::Inside => return Ok(()),
        Class::Appointed => true,
        Class::Windowed => false,
    };
    let place = crosses.len() as u32;
    crosses.push(Cross {
        mapping: *mapping,
        place,
        appointed,
    })?;
    Ok(())
}

/// The timelines of the ends of the mappings between two timelines.
pub(crate) fn put_ends(
    ends: &mut Vec<CrossEnd>,
    crosses: &[Cross],
    alignment: &Alignment,
) -> Result<(), Memory>
    requires empty { ends.old.items ≡ [] }
    requires known { (x : CrossValue) → Among x crosses.now → (x.mapping.from < length alignment.now) × (x.mapping.to < length alignment.now) }
    ensures { OnOk result (ends.new.items ≡ map (end_of alignment.now) crosses.now) }
{
    for cross in crosses {
        ends.push(CrossEnd {
            channel: cross.mapping.channel,
            sender: alignment.timeline(cross.mapping.from),
            receiver: alignment.timeline(cross.mapping.to),
        })?;
    }
    Ok(())
}

/// The mappings whose two ends lie on one timeline.
pub(crate) fn put_inside(
    alloc: Global,
    lists: &mut Lists<Mapping>,
    mappings: &[Mapping],
    alignment: &Alignment,
) -> Result<(), Memory>
    requires empty { lists.old ≡ [] }
    requires known { (m : MappingValue) → Among m mappings.now → (m.from < length alignment.now) × (m.to < length alignment.now) }
    ensures { OnOk result (lists.new ≡ for_each (timeline_count alignment.now) (λ i. inside_on alignment.now i mappings.now)) }
{
    lists.open(alloc, alignment.count())?;
    for mapping in mappings {
        let line = alignment.timeline(mapping.from);
        if alignment.timeline(mapping.to) == line {
            lists.put(line, *mapping)?;
        }
    }
    Ok(())
}

/// The mappings between two timelines by their receivers.
pub(crate) fn put_ins(
    alloc: Global,
    lists: &mut Lists<Cross>,
    crosses: &[Cross],
    alignment: &Alignment,
) -> Result<(), Memory>
    requires empty { lists.old ≡ [] }
    requires known { (x : CrossValue) → Among x crosses.now → (x.mapping.from < length alignment.now) × (x.mapping.to < length alignment.now) }
    ensures { OnOk result (lists.new ≡ for_each (timeline_count alignment.now) (λ i. into alignment.now i crosses.now)) }
{
    lists.open(alloc, alignment.count())?;
    for cross in crosses {
        lists.put(alignment.timeline(cross.mapping.to), *cross)?;
    }
    Ok(())
}

/// The mappings between two timelines by their senders.
pub(crate) fn put_outs(
    alloc: Global,
    lists: &mut Lists<Cross>,
    crosses: &[Cross],
    alignment: &Alignment,
) -> Result<(), Memory>
    requires empty { lists.old ≡ [] }
    requires known { (x : CrossValue) → Among x crosses.now → (x.mapping.from < length alignment.now) × (x.mapping.to < length alignment.now) }
    ensures { OnOk result (lists.new ≡ for_each (timeline_count alignment.now) (λ i. out_of alignment.now i crosses.now)) }
{
    lists.open(alloc, alignment.count())?;
    for cross in crosses {
        lists.put(alignment.timeline(cross.mapping.from), *cross)?;
    }
    Ok(())
}
