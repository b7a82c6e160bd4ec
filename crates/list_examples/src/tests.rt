//! Worked examples.

use crate::rings::{MOST_TOKENS, RingFault, ring_plan};
use crate::timers::{listener_plan, ticker_plan};
use global_list::{Single, SingleEnd, run_single};
use ring_model::Hop;
use sim_base::Memory;
use ssf_model::BuildFault;
use std::alloc::Global;

/// Time, round, channel, number and entity of each entry.
fn rows(alloc: Global, single: &Single) -> Result<Vec<[u64; 5]>, Memory> {
    let mut rows = Vec::new(alloc);
    for entry in single.entries.as_slice() {
        rows.push([
            entry.key.time,
            entry.key.round,
            u64::from(entry.key.channel),
            entry.key.number,
            u64::from(entry.entity),
        ])?;
    }
    Ok(rows)
}

fn hop(from: u32, to: u32, delay: u64, priority: u8) -> Hop {
    Hop {
        from,
        to,
        delay,
        priority,
    }
}

/// What is executed of a ring until a time with a budget of at least 1, and how it ends.
fn run_ring(
    alloc: Global,
    nodes: u32,
    tokens: &[u32],
    hops: &[Hop],
    until: u8,
    budget: u32,
) -> Result<(Vec<[u64; 5]>, SingleEnd), RingFault> {
    let plan = ring_plan(alloc, nodes, tokens, hops)?;
    let single = run_single(alloc, plan, u64::from(until), u64::from(budget) + 1);
    let end = single.end;
    match rows(alloc, &single) {
        Ok(rows) => Ok((rows, end)),
        Err(Memory) => Err(RingFault::Refused(BuildFault::Memory)),
    }
}

// Two nodes with one token: whole until 10 and 8, and less of it until 7 or with a smaller budget.
#[test]
fn runs_a_ring_of_two(rt: HostRuntime) {
    let alloc = rt.alloc();
    let all = [
        [0, 0, 0, 0, 0],
        [0, 0, 1, 0, 1],
        [5, 0, 2, 0, 1],
        [8, 0, 3, 0, 0],
    ];
    let hops = [hop(0, 1, 5, 0), hop(1, 0, 3, 0)];
    for (until, budget_less_one, count, end) in [
        (10_u8, 99_u32, 4_usize, SingleEnd::Finished),
        (8, 99, 4, SingleEnd::Finished),
        (7, 99, 3, SingleEnd::Finished),
        (10, 2, 3, SingleEnd::OverBudget),
        (10, 3, 4, SingleEnd::Finished),
        (10, 4, 4, SingleEnd::Finished),
    ] {
        let (rows, ended) = run_ring(alloc, 2, &[0], &hops, until, budget_less_one).expect(
            &rt, "a ring",
        );
        assert_eq!(rt; Some(rows.as_slice()), all.get(..count));
        assert_eq!(rt; ended, end);
    }
}

// Writes that take no time go in rounds.
#[test]
fn goes_in_rounds(rt: HostRuntime) {
    let alloc = rt.alloc();
    let (rows, end) = run_ring(alloc, 2, &[0], &[hop(0, 1, 0, 0), hop(1, 0, 7, 0)], 10, 99).expect(
        &rt, "a ring",
    );
    assert_eq!(rt;
        rows.as_slice(),
        [
            [0, 0, 0, 0, 0],
            [0, 0, 1, 0, 1],
            [0, 1, 2, 0, 1],
            [7, 0, 3, 0, 0],
            [7, 1, 2, 1, 1]
        ]
        .as_slice()
    );
    assert_eq!(rt; end, SingleEnd::Finished);
    let (rows, end) = run_ring(alloc, 1, &[0], &[hop(0, 0, 0, 0)], 10, 4).expect(&rt, "a ring");
    assert_eq!(rt;
        rows.as_slice(),
        [
            [0, 0, 0, 0, 0],
            [0, 1, 1, 0, 0],
            [0, 2, 1, 1, 0],
            [0, 3, 1, 2, 0],
            [0, 4, 1, 3, 0]
        ]
        .as_slice()
    );
    assert_eq!(rt; end, SingleEnd::OverBudget);
}

// Of two events at one moment the one on the channel of the smaller priority goes first, and of one
// priority the one of the smaller channel.
#[test]
fn goes_by_priority(rt: HostRuntime) {
    let alloc = rt.alloc();
    for (priority, last) in [
        (0_u8, [[4, 0, 3, 0, 2], [4, 0, 4, 0, 2]]),
        (7, [[4, 0, 4, 0, 2], [4, 0, 3, 0, 2]]),
    ] {
        let hops = [hop(0, 2, 4, priority), hop(1, 2, 4, 0)];
        let (rows, end) = run_ring(alloc, 3, &[0, 1], &hops, 5, 99).expect(&rt, "a ring");
        assert_eq!(rt; rows.get(3..), Some(last.as_slice()));
        assert_eq!(rt; end, SingleEnd::Finished);
    }
}

// A wait for no time takes one tick. Time, round, channel, number and entity of each event.
#[test]
fn waits_for_times(rt: HostRuntime) {
    let alloc = rt.alloc();
    let plan = ticker_plan(alloc).expect(&rt, "a plan");
    let single = run_single(alloc, plan, 5, 100);
    let rows = rows(alloc, &single).expect(&rt, "memory");
    assert_eq!(rt;
        rows.as_slice(),
        [
            [0, 0, 0, 0, 0],
            [1, 0, 1, 0, 0],
            [3, 0, 1, 1, 0],
            [5, 0, 1, 2, 0]
        ]
        .as_slice()
    );
    assert_eq!(rt; single.end, SingleEnd::Finished);
}

// The message at 2 wakes process 0, whose next wait ends at 6: the end of its first wait, at 4, is
// executed and wakes nobody. If it woke process 0, there would be an event at 8.
#[test]
fn passes_over_outdated_ends_of_waits(rt: HostRuntime) {
    let alloc = rt.alloc();
    let plan = listener_plan(alloc).expect(&rt, "a plan");
    let single = run_single(alloc, plan, 11, 100);
    let rows = rows(alloc, &single).expect(&rt, "memory");
    assert_eq!(rt;
        rows.as_slice(),
        [
            [0, 0, 0, 0, 0],
            [2, 0, 2, 0, 0],
            [2, 1, 3, 0, 0],
            [4, 0, 1, 0, 0],
            [6, 0, 1, 1, 0],
            [10, 0, 1, 2, 0]
        ]
        .as_slice()
    );
    assert_eq!(rt; single.end, SingleEnd::Finished);
}

// No node and no event.
#[test]
fn runs_an_empty_ring(rt: HostRuntime) {
    let (rows, end) = run_ring(rt.alloc(), 0, &[], &[], 10, 99).expect(&rt, "a ring");
    assert!(rt; rows.is_empty());
    assert_eq!(rt; end, SingleEnd::Finished);
}

/// Why a ring of this many nodes is refused, if it is.
fn ring_fault(alloc: Global, nodes: u32, tokens: &[u32], hops: &[Hop]) -> Option<RingFault> {
    match ring_plan(alloc, nodes, tokens, hops) {
        Ok(_) => None,
        Err(fault) => Some(fault),
    }
}

// Each fault of a ring.
#[test]
fn refuses_rings(rt: HostRuntime) {
    let alloc = rt.alloc();
    let unknown = Some(RingFault::UnknownNode);
    assert_eq!(rt; ring_fault(alloc, 1, &[0], &[hop(0, 0, 1, 0)]), None);
    assert_eq!(rt; ring_fault(alloc, 1, &[0, 1], &[]), unknown);
    assert_eq!(rt; ring_fault(alloc, 1, &[0], &[hop(1, 0, 1, 0)]), unknown);
    assert_eq!(rt; ring_fault(alloc, 1, &[0], &[hop(0, 1, 1, 0)]), unknown);
    assert_eq!(rt;
        ring_fault(alloc, 1, &[0], &[hop(0, 0, 1_000_000_000_000_001, 0)]),
        Some(RingFault::Refused(BuildFault::DelayTooLong))
    );
    assert_eq!(rt;
        ring_fault(alloc, 262_145, &[], &[]),
        Some(RingFault::Refused(BuildFault::TooManyChannels))
    );
    let mut tokens = Vec::new(alloc);
    for _ in 0..MOST_TOKENS + 1 {
        tokens.push(1_u32).expect(&rt, "memory");
    }
    assert_eq!(rt;
        ring_fault(alloc, 1, tokens.as_slice(), &[]),
        Some(RingFault::TooManyTokens)
    );
}

// A ring of 65,536 nodes, tokens and hops: each token arrives every second tick.
#[test]
fn runs_a_large_ring(rt: HostRuntime) {
    let alloc = rt.alloc();
    let mut tokens = Vec::new(alloc);
    let mut hops = Vec::new(alloc);
    for node in 0..65_536_u32 {
        tokens.push(node).expect(&rt, "memory");
        hops.push(hop(node, (node + 1) % 65_536, 2, 0))
            .expect(&rt, "memory");
    }
    let (rows, end) = run_ring(
        alloc,
        65_536,
        tokens.as_slice(),
        hops.as_slice(),
        20,
        10_000_000,
    )
    .expect(&rt, "a ring");
    assert_eq!(rt; rows.len(), 11 * 65_536);
    assert_eq!(rt; end, SingleEnd::Finished);
}
