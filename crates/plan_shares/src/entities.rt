//! The entities and the events of a plan by their timelines.

ghost use Rattle.std.specs.Prelude.{◌≡◌, ℕ, ◌<◌, ◌^◌, [], length, OnOk};
ghost use Rattle.event_order.specs.Pending.{Among};
ghost use Rattle.ssf_model.specs.declared.event.Event.{Event as EventValue};
ghost use Rattle.alignment.specs.Alignment.{timeline_count};
ghost use Rattle.plan_shares.specs.Shares.{entities_on, events_on};
ghost use Rattle.plan_shares.specs.Lists.{for_each};

use crate::lists::Lists;
use alignment::Alignment;
use sim_base::{ListOf, Memory};
use ssf_model::{Behaviour, Entity, Event};
use std::alloc::Global;

/// The entities with their numbers.
pub(crate) fn put_entities<B: Behaviour>(
    lists: &mut Lists<(u32, Entity<B>)>,
    entities: ListOf<Entity<B>>,
    alignment: &Alignment,
) -> Result<(), Memory>
    requires empty { lists.old ≡ for_each (timeline_count alignment.now) (λ _. []) }
    requires aligned { length alignment.now ≡ length entities }
    requires few { length entities < 2 ^ 32 }
    ensures { OnOk result (lists.new ≡ for_each (timeline_count alignment.now) (λ i. entities_on alignment.now i entities)) }
{
    let mut number = 0;
    for entity in entities.into_vec() {
        lists.put(alignment.timeline(number), (number, entity))?;
        number += 1;
    }
    Ok(())
}

/// The pending events, by their entities.
pub(crate) fn put_events<P: Copy>(
    alloc: Global,
    lists: &mut Lists<Event<P>>,
    events: &[Event<P>],
    alignment: &Alignment,
) -> Result<(), Memory>
    requires empty { lists.old ≡ [] }
    requires known { (e : EventValue P) → Among e events.now → e.entity < length alignment.now }
    ensures { OnOk result (lists.new ≡ for_each (timeline_count alignment.now) (λ i. events_on alignment.now i events.now)) }
{
    lists.open(alloc, alignment.count())?;
    for event in events {
        lists.put(alignment.timeline(event.entity), *event)?;
    }
    Ok(())
}
