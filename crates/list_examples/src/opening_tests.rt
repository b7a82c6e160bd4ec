//! Openings: which are one of a plan, and how a plan goes on from one.

use crate::rings::ring_plan;
use crate::timers::{Idle, Listener, Signal, Sleeper, listener_plan, sleepers_plan};
use event_order::Key;
use global_list::run_single;
use ring_model::{Hop, Ring, RingPayload, RingState};
use sim_base::{ListOf, Memory};
use ssf_model::{
    ChannelList, Event, Kind, LATEST_PENDING, MOST_BEFORE, MOST_COUNT, MOST_TICKET, Opened,
    Opening, Wait,
};
use std::alloc::Global;

/// One way in which an opening is not one of the listener's plan.
#[derive(Clone, Copy, Debug, PartialEq, Eq)]
enum Flaw {
    None,
    NoEntity,
    OneWait,
    OneTicket,
    FewCounts,
    ForeignChannel,
    GreatTicket,
    GreatCount,
    ManyBefore,
    FallingKeys,
    EqualKeys,
}

fn wait_end(time: u64, channel: u32, number: u64, process: u32, ticket: u64) -> Event<Signal> {
    Event {
        key: key(time, 0, 0, channel, number),
        entity: 0,
        kind: Kind::Timer { process, ticket },
    }
}

fn key(time: u64, round: u64, priority: u8, channel: u32, number: u64) -> Key {
    Key {
        time,
        round,
        priority,
        channel,
        number,
    }
}

/// Where the listener's run stands after three events, with a flaw, and with these pending events.
fn half(
    alloc: Global,
    flaw: Flaw,
    pending: Vec<Event<Signal>>,
) -> Result<Opening<Listener>, Memory> {
    let heard = if flaw == Flaw::ForeignChannel { 1 } else { 0 };
    let mut waits = Vec::new(alloc);
    waits.push(Wait::OnFor(ChannelList::of(alloc, &[heard])?, 4))?;
    if flaw != Flaw::OneWait {
        waits.push(Wait::Forever)?;
    }
    let mut tickets = Vec::new(alloc);
    tickets.push(if flaw == Flaw::GreatTicket {
        MOST_TICKET + 1
    } else {
        2
    })?;
    if flaw != Flaw::OneTicket {
        tickets.push(2)?;
    }
    let mut entities = Vec::new(alloc);
    if flaw != Flaw::NoEntity {
        entities.push(Opened {
            state: Idle {},
            waits: ListOf::from_vec(waits),
            tickets: ListOf::from_vec(tickets),
        })?;
    }
    let mut counts = Vec::new(alloc);
    counts.push(1)?;
    counts.push(2)?;
    counts.push(if flaw == Flaw::GreatCount {
        MOST_COUNT + 1
    } else {
        1
    })?;
    if flaw != Flaw::FewCounts {
        counts.push(1)?;
    }
    Ok(Opening {
        entities: ListOf::from_vec(entities),
        counts: ListOf::from_vec(counts),
        pending: ListOf::from_vec(pending),
        events: if flaw == Flaw::ManyBefore {
            MOST_BEFORE + 1
        } else {
            3
        },
    })
}

// Each flaw of the lists makes an opening none of the plan's.
#[test]
fn openings_have_the_plans_shape(rt: HostRuntime) {
    let alloc = rt.alloc();
    let plan = listener_plan(alloc).expect(&rt, "a plan");
    for flaw in [
        Flaw::None,
        Flaw::NoEntity,
        Flaw::OneWait,
        Flaw::OneTicket,
        Flaw::FewCounts,
        Flaw::ForeignChannel,
        Flaw::GreatTicket,
        Flaw::GreatCount,
        Flaw::ManyBefore,
        Flaw::FallingKeys,
        Flaw::EqualKeys,
    ] {
        let mut pending = Vec::new(alloc);
        let first = if flaw == Flaw::FallingKeys { 7 } else { 4 };
        let stale = wait_end(first, 1, 0, 0, 1);
        let due = wait_end(6, 1, 1, 0, 2);
        if flaw == Flaw::EqualKeys {
            pending.push(due).expect(&rt, "memory");
        } else {
            pending.push(stale).expect(&rt, "memory");
        }
        pending.push(due).expect(&rt, "memory");
        let opening = half(alloc, flaw, pending).expect(&rt, "memory");
        assert_eq!(rt; plan.lawful(&opening), flaw == Flaw::None, "{flaw:?}");
    }
}

// Which single event may be pending at the listener's opening.
#[test]
fn pending_events_stand_on_channels(rt: HostRuntime) {
    let alloc = rt.alloc();
    let plan = listener_plan(alloc).expect(&rt, "a plan");
    let timer = |process: u32, ticket: u64| Kind::Timer { process, ticket };
    let message = |channel: u32| Kind::Message {
        channel,
        payload: Signal {},
    };
    for (key, entity, kind, lawful) in [
        (key(6, 0, 0, 1, 1), 0_u32, timer(0, 2), true),
        (key(6, 0, 0, 1, 0), 0, timer(0, 1), true),
        (key(6, 0, 0, 2, 0), 0, timer(1, 1), true),
        (key(7, 0, 0, 3, 0), 0, message(0), true),
        (key(7, 0, 0, 0, 0), 0, Kind::Begin, true),
        (key(LATEST_PENDING, 0, 0, 1, 1), 0, timer(0, 2), true),
        (key(LATEST_PENDING + 1, 0, 0, 1, 1), 0, timer(0, 2), false),
        (key(6, 1, 0, 1, 1), 0, timer(0, 2), false),
        (key(6, 0, 0, 1, 2), 0, timer(0, 2), false),
        (key(6, 0, 1, 1, 1), 0, timer(0, 2), false),
        (key(6, 0, 0, 1, 1), 1, timer(0, 2), false),
        (key(6, 0, 0, 1, 1), 1, Kind::Begin, false),
        (key(6, 0, 0, 1, 1), 0, timer(2, 2), false),
        (key(6, 0, 0, 1, 1), 0, timer(0, 3), false),
        (key(6, 0, 0, 2, 0), 0, timer(0, 2), false),
        (key(6, 0, 0, 2, 0), 0, timer(1, 2), false),
        (key(7, 0, 0, 1, 0), 0, Kind::Begin, false),
        (key(7, 0, 1, 0, 0), 0, Kind::Begin, false),
        (key(7, 0, 0, 3, 0), 0, message(1), false),
        (key(7, 0, 0, 3, 0), 1, message(0), false),
        (key(7, 0, 1, 3, 0), 0, message(0), false),
        (key(7, 0, 0, 2, 0), 0, message(0), false),
        (key(7, 0, 0, 4, 0), 0, message(0), false),
    ] {
        let mut pending = Vec::new(alloc);
        let event = Event { key, entity, kind };
        pending.push(event).expect(&rt, "memory");
        let opening = half(alloc, Flaw::None, pending).expect(&rt, "memory");
        assert_eq!(rt; plan.lawful(&opening), lawful, "{event:?}");
    }
}

/// One way in which an opening of two entities of sleepers is none of their plan.
#[derive(Clone, Copy, Debug, PartialEq, Eq)]
enum Excess {
    None,
    UntimedFor,
    UntimedOnFor,
    ForeignOn,
    ForeignOnFor,
    ThirdEntity,
    SecondWait,
    SecondTicket,
    SeventhCount,
}

/// An entity at an opening, whose processes wait so, and with so many tickets, all 1.
fn sleeping(alloc: Global, waits: Vec<Wait>, many: usize) -> Result<Opened<Sleeper>, Memory> {
    let mut tickets = Vec::new(alloc);
    for _ in 0..many {
        tickets.push(1)?;
    }
    Ok(Opened {
        state: Idle {},
        waits: ListOf::from_vec(waits),
        tickets: ListOf::from_vec(tickets),
    })
}

/// What the processes of entity 0 wait for: a message, and a message or four ticks.
fn first_waits(alloc: Global, excess: Excess) -> Result<Vec<Wait>, Memory> {
    let foreign = if excess == Excess::ForeignOn { 1 } else { 0 };
    let mut waits = Vec::new(alloc);
    waits.push(match excess {
        Excess::UntimedFor => Wait::For(4),
        Excess::UntimedOnFor => Wait::OnFor(ChannelList::of(alloc, &[0])?, 4),
        _ => Wait::On(ChannelList::of(alloc, &[foreign])?),
    })?;
    let foreign = if excess == Excess::ForeignOnFor { 1 } else { 0 };
    waits.push(Wait::OnFor(ChannelList::of(alloc, &[foreign])?, 4))?;
    Ok(waits)
}

/// An opening of the two entities in which all have acted once, with an excess and these pending events.
fn asleep(
    alloc: Global,
    excess: Excess,
    pending: Vec<Event<Signal>>,
) -> Result<Opening<Sleeper>, Memory> {
    let mut entities = Vec::new(alloc);
    entities.push(sleeping(alloc, first_waits(alloc, excess)?, 2)?)?;
    let mut waits = Vec::new(alloc);
    waits.push(Wait::For(3))?;
    if excess == Excess::SecondWait {
        waits.push(Wait::For(3))?;
    }
    let tickets = if excess == Excess::SecondTicket { 2 } else { 1 };
    entities.push(sleeping(alloc, waits, tickets)?)?;
    if excess == Excess::ThirdEntity {
        entities.push(sleeping(alloc, Vec::new(alloc), 0)?)?;
    }
    let mut counts = Vec::new(alloc);
    let many = if excess == Excess::SeventhCount { 7 } else { 6 };
    for _ in 0..many {
        counts.push(1)?;
    }
    Ok(Opening {
        entities: ListOf::from_vec(entities),
        counts: ListOf::from_vec(counts),
        pending: ListOf::from_vec(pending),
        events: 2,
    })
}

// Waits that the plan's processes may not have, and lists that are too long.
#[test]
fn openings_have_no_more_than_the_plan(rt: HostRuntime) {
    let alloc = rt.alloc();
    let plan = sleepers_plan(alloc).expect(&rt, "a plan");
    for excess in [
        Excess::None,
        Excess::UntimedFor,
        Excess::UntimedOnFor,
        Excess::ForeignOn,
        Excess::ForeignOnFor,
        Excess::ThirdEntity,
        Excess::SecondWait,
        Excess::SecondTicket,
        Excess::SeventhCount,
    ] {
        let opening = asleep(alloc, excess, Vec::new(alloc)).expect(&rt, "memory");
        assert_eq!(rt; plan.lawful(&opening), excess == Excess::None, "{excess:?}");
    }
}

// Each pending event stands at the entity of its channel, and at the process of its timer channel.
#[test]
fn channels_lead_to_one_entity(rt: HostRuntime) {
    let alloc = rt.alloc();
    let plan = sleepers_plan(alloc).expect(&rt, "a plan");
    let timer = |process: u32| Kind::Timer { process, ticket: 1 };
    let message = |channel: u32| Kind::Message {
        channel,
        payload: Signal {},
    };
    for (channel, entity, kind, lawful) in [
        (0, 0_u32, Kind::Begin, true),
        (1, 1, Kind::Begin, true),
        (0, 1, Kind::Begin, false),
        (2, 0, timer(1), true),
        (3, 1, timer(0), true),
        (2, 0, timer(0), false),
        (2, 1, timer(0), false),
        (3, 0, timer(1), false),
        (4, 1, message(1), true),
        (5, 0, message(0), true),
        (4, 0, message(1), false),
        (4, 0, message(0), false),
        (5, 1, message(0), false),
    ] {
        let mut pending = Vec::new(alloc);
        let event = Event {
            key: key(9, 0, 0, channel, 0),
            entity,
            kind,
        };
        pending.push(event).expect(&rt, "memory");
        let opening = asleep(alloc, Excess::None, pending).expect(&rt, "memory");
        assert_eq!(rt; plan.lawful(&opening), lawful, "{event:?}");
    }
}

/// A node of a ring that acted once and waits so.
fn node(alloc: Global, node: u32, tokens: u32, wait: Wait) -> Result<Opened<Ring>, Memory> {
    let mut waits = Vec::new(alloc);
    waits.push(wait)?;
    let mut tickets = Vec::new(alloc);
    tickets.push(1)?;
    Ok(Opened {
        state: RingState { node, tokens },
        waits: ListOf::from_vec(waits),
        tickets: ListOf::from_vec(tickets),
    })
}

/// Where the run of a ring of two with one token stands after the two start events. `other` is the
/// number in the state of node 1, and `wait` its wait.
fn started(alloc: Global, other: u32, wait: Wait) -> Result<Opening<Ring>, Memory> {
    let first = Wait::On(ChannelList::of(alloc, &[0])?);
    let mut entities = Vec::new(alloc);
    entities.push(node(alloc, 0, 1, first)?)?;
    entities.push(node(alloc, other, 0, wait)?)?;
    let mut counts = Vec::new(alloc);
    for count in [1, 1, 1, 0] {
        counts.push(count)?;
    }
    let mut pending = Vec::new(alloc);
    pending.push(Event {
        key: key(5, 0, 0, 2, 0),
        entity: 1,
        kind: Kind::Message {
            channel: 1,
            payload: RingPayload {},
        },
    })?;
    Ok(Opening {
        entities: ListOf::from_vec(entities),
        counts: ListOf::from_vec(counts),
        pending: ListOf::from_vec(pending),
        events: 2,
    })
}

fn hop(from: u32, to: u32, delay: u64) -> Hop {
    Hop {
        from,
        to,
        delay,
        priority: 0,
    }
}

// A ring that opens where its own run stands after two events goes on to the entries that are left.
// With a state that is not valid, or with a wait that ends by itself, its opening is not lawful.
#[test]
fn a_ring_goes_on(rt: HostRuntime) {
    let alloc = rt.alloc();
    let plan = ring_plan(alloc, 2, &[0], &[hop(0, 1, 5), hop(1, 0, 3)]).expect(&rt, "a ring");
    let listen = Wait::On(ChannelList::of(alloc, &[1]).expect(&rt, "memory"));
    let invalid = started(alloc, 0, listen).expect(&rt, "memory");
    assert!(rt; !plan.lawful(&invalid));
    let timed = started(alloc, 1, Wait::For(1)).expect(&rt, "memory");
    assert!(rt; !plan.lawful(&timed));
    let listen = Wait::On(ChannelList::of(alloc, &[1]).expect(&rt, "memory"));
    let opening = started(alloc, 1, listen).expect(&rt, "memory");
    assert!(rt; plan.lawful(&opening));
    let plan = plan.begin_at(opening);
    assert_eq!(rt; plan.before, 2);
    let single = run_single(alloc, plan, 10, 100);
    let mut rows = Vec::new(alloc);
    for entry in single.entries.as_slice() {
        rows.push((entry.key, entry.entity)).expect(&rt, "memory");
    }
    assert_eq!(rt;
        rows.as_slice(),
        [(key(5, 0, 0, 2, 0), 1), (key(8, 0, 0, 3, 0), 0)].as_slice()
    );
}
