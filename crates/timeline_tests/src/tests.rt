//! Nodes of a ring that are executed side by side.

ghost use Rattle.std.specs.Prelude.{◌≤◌};

use crate::node::{Node, hop, start};
use event_order::Key;
use ring_model::RingPayload;
use sim_base::ListOf;
use ssf_model::Parcel;
use std::alloc::Global;
use timeline::{Cross, Holder, Ran};

const BUDGET: u64 = 1000;

// Nodes 0 and 1, and a hop from each to the other: channel 2 from 0 to 1 with delay 5, windowed, and
// channel 3 back with delay 3, appointed. Node 0 has the token. While the window is 5, the event at 5
// is held by it.
fn window_case(alloc: Global) -> bool {
    let first = hop(2, 0, 1, 5, 0, false);
    let second = hop(3, 1, 0, 3, 1, true);
    match Node::new(alloc, 0, 1, &[second], &[first], 10, BUDGET) {
        Some(mut zero) => is_held_beside(alloc, &mut zero, first, second),
        None => false,
    }
}

fn is_held_beside(alloc: Global, zero: &mut Node, first: Cross, second: Cross) -> bool {
    match Node::new(alloc, 1, 0, &[first], &[second], 10, BUDGET) {
        Some(mut one) => are_in_step(zero, &mut one) && ends(alloc, one),
        None => false,
    }
}

fn are_in_step(zero: &mut Node, one: &mut Node) -> bool {
    begins(zero, one) && sends(zero, one) && waits(one)
}

// Both enter the window 5 and execute their starts.
fn begins(zero: &mut Node, one: &mut Node) -> bool {
    zero.execute() == Some(Ran::Held(0, Holder::Channel(3)))
        && one.enter(5, &[0, 0])
        && !one.enter(5, &[0, 0])
        && one.execute() == Some(Ran::Ran(start(1).key))
        && moves(one, zero, 3, 0, 0, 8)
        && zero.taken(3) == Some((0, 8))
        && zero.enter(5, &[0, 0])
        && zero.timeline().bound() == (5, Holder::Window)
        && zero.execute() == Some(Ran::Ran(start(0).key))
}

// The event at 5 goes from the outbox of the one to the other.
fn sends(zero: &mut Node, one: &mut Node) -> bool {
    zero.execute() == Some(Ran::Idle)
        && zero.timeline().done()
        && !zero.timeline().over()
        && zero.timeline().least_ahead() == 5
        && zero.written(2) == Some(1)
        && one.reserve(1)
        && moves(zero, one, 2, 0, 1, 0)
        && one.taken(2) == Some((1, 0))
        && moves(zero, one, 2, 1, 0, 0)
}

// The event at 5 waits for the window 10, which is entered only when it was taken.
fn waits(one: &mut Node) -> bool {
    one.execute() == Some(Ran::Held(5, Holder::Window))
        && one.timeline().lower_bound() == 5
        && one.timeline().least_ahead() == 5
        && !one.enter(10, &[2, 0])
        && one.enter(10, &[1, 0])
        && one.timeline().entered() == 10
        && executes_at(one, 5)
        && one.timeline().executed() == 2
        && one.written(3) == Some(1)
        && one.timeline().least_ahead() == 11
}

// The parcel of a channel begins with this number, has so many events and this promise, and is taken
// in.
fn moves(
    from: &mut Node,
    to: &mut Node,
    channel: u32,
    first: u64,
    count: usize,
    promise: u64,
) -> bool {
    match from.outbox(channel) {
        Some(parcel) => {
            parcel.first == first
                && parcel.events.len() == count
                && parcel.promise == promise
                && to.take_in(channel, parcel)
        }
        None => false,
    }
}

fn executes_at(node: &mut Node, time: u64) -> bool {
    match node.execute() {
        Some(Ran::Ran(key)) => key.time == time,
        _ => false,
    }
}

// What was executed is given up before a time, and what is left comes back as a part.
fn ends(alloc: Global, mut one: Node) -> bool {
    one.give_up(5);
    if !has_one_entry(&one, 5) {
        return false;
    }
    match one.into_part(alloc) {
        Some(part) => {
            part.entities.len() == 1
                && part.events.len() == 0
                && is_count(part.counts.as_slice(), 3, 1)
        }
        None => false,
    }
}

fn has_one_entry(node: &Node, time: u64) -> bool {
    match node.timeline().history() {
        [entry] => {
            entry.key.time == time && node.timeline().pending() == 0 && !node.timeline().spent()
        }
        _ => false,
    }
}

fn is_count(counts: &[(u32, u64)], channel: u32, count: u64) -> bool {
    match counts {
        [only] => only.0 == channel && only.1 == count,
        _ => false,
    }
}

// Nodes 0 and 1 with a token each, and a hop from each to node 2: channels 3 and 4, with delay 4,
// appointed. The run ends at 5, so the first window is 6. Node 1 has executed its start and posted the
// event at 4 when node 2 takes its mail and enters the window: channel 3, on which nothing is promised
// yet, holds the start of node 2.
fn channel_case(alloc: Global) -> bool {
    match Node::new(alloc, 1, 1, &[], &[to_two(1)], 5, BUDGET) {
        Some(mut one) => has_zero_beside(alloc, &mut one),
        None => false,
    }
}

fn has_zero_beside(alloc: Global, one: &mut Node) -> bool {
    match Node::new(alloc, 0, 1, &[], &[to_two(0)], 5, BUDGET) {
        Some(mut zero) => has_two_beside(alloc, &mut zero, one),
        None => false,
    }
}

fn has_two_beside(alloc: Global, zero: &mut Node, one: &mut Node) -> bool {
    match Node::new(alloc, 2, 0, &[to_two(0), to_two(1)], &[], 5, BUDGET) {
        Some(mut two) => is_held_by_three(one, &mut two) && goes_on(zero, &mut two),
        None => false,
    }
}

// The hop from node 0 or 1 to node 2.
fn to_two(from: u32) -> Cross
    requires { from ≤ 1 }
{
    hop(3 + from, from, 2, 4, from, true)
}

fn is_held_by_three(one: &mut Node, two: &mut Node) -> bool {
    one.enter(6, &[0, 0])
        && one.execute() == Some(Ran::Ran(start(1).key))
        && moves(one, two, 4, 0, 1, 6)
        && two.taken(4) == Some((1, 6))
        && two.enter(6, &[0, 0])
        && two.execute() == Some(Ran::Held(0, Holder::Channel(3)))
        && two.timeline().pending() == 2
        && two.timeline().lower_bound() == 0
}

// With the promise of node 0, node 2 executes all that is in time.
fn goes_on(zero: &mut Node, two: &mut Node) -> bool {
    zero.enter(6, &[0, 0])
        && zero.execute() == Some(Ran::Ran(start(0).key))
        && moves(zero, two, 3, 0, 1, 6)
        && two.execute() == Some(Ran::Ran(start(2).key))
        && two.execute() == Some(Ran::Ran(arrival(3)))
        && two.execute() == Some(Ran::Ran(arrival(4)))
        && two.execute() == Some(Ran::Idle)
}

fn arrival(channel: u32) -> Key {
    Key {
        time: 4,
        round: 0,
        priority: 0,
        channel,
        number: 0,
    }
}

// Node 2 has two appointed channels, of which the first holds it at 0. A lesser appointment does not
// replace a greater one.
fn appointment_case(alloc: Global) -> bool {
    match Node::new(alloc, 2, 0, &[to_two(0), to_two(1)], &[], 5, BUDGET) {
        Some(mut two) => waits_for_both(alloc, &mut two),
        None => false,
    }
}

fn waits_for_both(alloc: Global, two: &mut Node) -> bool {
    two.take_in(4, promise(alloc, 4))
        && two.enter(6, &[0, 0])
        && two.execute() == Some(Ran::Held(0, Holder::Channel(3)))
        && two.take_in(4, promise(alloc, 2))
        && two.taken(4) == Some((0, 4))
        && two.take_in(3, promise(alloc, 5))
        && two.timeline().bound() == (4, Holder::Channel(4))
        && two.execute() == Some(Ran::Ran(start(2).key))
}

fn promise(alloc: Global, time: u64) -> Parcel<RingPayload> {
    Parcel {
        first: 0,
        events: ListOf::new(alloc),
        promise: time,
    }
}

// A timeline that may execute no event.
fn budget_case(alloc: Global) -> bool {
    match Node::new(alloc, 0, 1, &[], &[], 10, 0) {
        Some(mut one) => is_over(&mut one),
        None => false,
    }
}

fn is_over(one: &mut Node) -> bool {
    one.execute() == Some(Ran::Held(0, Holder::Window))
        && !one.timeline().over()
        && one.enter(11, &[])
        && one.execute() == Some(Ran::Over)
        && one.timeline().over()
        && !one.timeline().done()
        && one.timeline().least_ahead() == 0
        && one.timeline().pending() == 1
}

// A timeline that finds no memory for an event is spent: it answers so from then on, and the event
// stays the first. True where memory is found too.
fn spent_case(alloc: Global) -> bool {
    match Node::new(alloc, 0, 1, &[], &[], 10, BUDGET) {
        Some(mut zero) => zero.enter(11, &[]) && runs_or_is_spent(&mut zero),
        None => true,
    }
}

fn runs_or_is_spent(zero: &mut Node) -> bool {
    match zero.execute() {
        Some(ran) => ran == Ran::Ran(start(0).key) && !zero.timeline().spent(),
        None => {
            zero.timeline().spent()
                && zero.execute() == Some(Ran::Spent)
                && zero.timeline().pending() == 1
                && zero.timeline().executed() == 0
                && zero.timeline().lower_bound() == 0
                && zero.timeline().history().is_empty()
        }
    }
}

#[test]
fn is_spent_without_memory(rt: HostRuntime) {
    assert!(rt; spent_case(rt.alloc()));
}

#[test]
fn is_held_by_a_window(rt: HostRuntime) {
    assert!(rt; window_case(rt.alloc()));
}

#[test]
fn is_held_by_a_channel(rt: HostRuntime) {
    assert!(rt; channel_case(rt.alloc()));
}

#[test]
fn keeps_the_greater_appointment(rt: HostRuntime) {
    assert!(rt; appointment_case(rt.alloc()));
}

#[test]
fn is_over_its_budget(rt: HostRuntime) {
    assert!(rt; budget_case(rt.alloc()));
}
