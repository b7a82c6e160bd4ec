//! Alignments of rings, and the classes of their hops.

ghost use Rattle.std.specs.Prelude.{◌≡◌, ◌<◌, ◌≤◌, length};
ghost use Rattle.ssf_model.specs.Run.{IsWired};

use alignment::{AlignFault, Alignment, Class, Mode, align, classify};
use list_examples::rings::ring_plan;
use ring_model::{Hop, Ring};
use ssf_model::Plan;
use std::alloc::Global;

fn hop(from: u32, to: u32, delay: u64) -> Hop {
    Hop {
        from,
        to,
        delay,
        priority: 0,
    }
}

// How many timelines a ring of so many nodes has by a mode, and the timelines of its first nodes. None where there is no
// such ring, or no memory.
fn lines_are(
    alloc: Global,
    hops: &[Hop],
    nets: &[u32],
    mode: Mode,
    want: &[u32],
    count: u32,
) -> bool
    requires { length nets.now < 100 }
{
    let Ok(plan) = ring_plan(alloc, nets.len() as u32, &[], hops) else {
        return false;
    };
    if plan.entities.len() != nets.len() || nets.len() != want.len() {
        return false;
    }
    match align(alloc, &plan, nets, mode) {
        Ok(alignment) => alignment.count() == count && has_lines(&alignment, want),
        Err(_) => false,
    }
}

fn has_lines(alignment: &Alignment, want: &[u32]) -> bool
    requires as_many { length want.now ≡ length alignment.now }
    requires few { length want.now < 100 }
{
    for (entity, line) in want.iter().enumerate() {
        if alignment.timeline(entity as u32) != *line {
            return false;
        }
    }
    true
}

// Six nodes, each two of which are joined by a hop without delay.
fn pairs() -> [Hop; 6] {
    [
        hop(0, 1, 0),
        hop(1, 2, 3),
        hop(3, 2, 0),
        hop(3, 4, 7),
        hop(4, 5, 0),
        hop(5, 0, 4),
    ]
}

#[test]
fn modes_on_a_ring_with_zero_delays(rt: HostRuntime) {
    let nets = [0; 6];
    for (mode, want, count) in [
        (Mode::One, [0, 0, 0, 0, 0, 0], 1),
        (Mode::Host, [0, 0, 1, 1, 2, 2], 3),
        (Mode::Net, [0, 0, 0, 0, 0, 0], 1),
        (Mode::Count(0), [0, 0, 0, 0, 0, 0], 1),
        (Mode::Count(1), [0, 0, 0, 0, 0, 0], 1),
        (Mode::Count(2), [0, 0, 0, 0, 0, 0], 1),
        (Mode::Count(3), [0, 0, 1, 1, 2, 2], 3),
        (Mode::Count(6), [0, 0, 1, 1, 2, 2], 3),
        (Mode::Count(u32::MAX), [0, 0, 1, 1, 2, 2], 3),
    ] {
        assert!(rt;
            lines_are(rt.alloc(), &pairs(), &nets, mode, &want, count),
            "{mode:?}"
        );
    }
}

// Two Nets, one within the other, whose nodes stand mixed: with hops that take time, and with one that does not.
#[test]
fn modes_on_two_nets(rt: HostRuntime) {
    let nets = [7, 7, 2, 2, 7, 2];
    let slow = [hop(0, 2, 5), hop(2, 5, 3), hop(4, 5, 1)];
    let quick = [hop(0, 2, 5), hop(2, 5, 3), hop(4, 5, 0)];
    for (mode, want, count) in [
        (Mode::One, [0, 0, 0, 0, 0, 0], 1),
        (Mode::Host, [0, 1, 2, 3, 4, 5], 6),
        (Mode::Net, [0, 0, 1, 1, 0, 1], 2),
        (Mode::Count(2), [0, 0, 0, 1, 1, 1], 2),
        (Mode::Count(4), [0, 0, 1, 2, 2, 3], 4),
    ] {
        assert!(rt;
            lines_are(rt.alloc(), &slow, &nets, mode, &want, count),
            "{mode:?}"
        );
    }
    for (mode, want, count) in [
        (Mode::One, [0, 0, 0, 0, 0, 0], 1),
        (Mode::Host, [0, 1, 2, 3, 4, 4], 5),
        (Mode::Net, [0, 0, 0, 0, 0, 0], 1),
        (Mode::Count(2), [0, 0, 0, 1, 1, 1], 2),
        (Mode::Count(4), [0, 0, 1, 2, 2, 2], 3),
    ] {
        assert!(rt;
            lines_are(rt.alloc(), &quick, &nets, mode, &want, count),
            "{mode:?}"
        );
    }
}

#[test]
fn plans_without_entities(rt: HostRuntime) {
    for mode in [
        Mode::One,
        Mode::Host,
        Mode::Net,
        Mode::Count(0),
        Mode::Count(3),
    ] {
        assert!(rt; lines_are(rt.alloc(), &[], &[], mode, &[], 0), "{mode:?}");
    }
}

// A ring of so many nodes without hops, by a mode for which no Nets are asked.
fn outcome(alloc: Global, nodes: u32, mode: Mode) -> Option<Result<u32, AlignFault>> {
    let Ok(plan) = ring_plan(alloc, nodes, &[], &[]) else {
        return None;
    };
    let Ok(nets) = vec![in alloc; 0; plan.entities.len()] else {
        return None;
    };
    match align(alloc, &plan, &nets, mode) {
        Ok(alignment) => Some(Ok(alignment.count())),
        Err(fault) => Some(Err(fault)),
    }
}

#[test]
fn most_timelines(rt: HostRuntime) {
    for (nodes, mode, want) in [
        (4096, Mode::Host, Ok(4096)),
        (4097, Mode::Host, Err(AlignFault::TooManyTimelines(4097))),
        (5000, Mode::Count(4096), Ok(4096)),
        (
            5000,
            Mode::Count(4098),
            Err(AlignFault::TooManyTimelines(4098)),
        ),
        (
            5000,
            Mode::Count(u32::MAX),
            Err(AlignFault::TooManyTimelines(5000)),
        ),
    ] {
        assert_eq!(rt;
            outcome(rt.alloc(), nodes, mode),
            Some(want),
            "{nodes} {mode:?}"
        );
    }
}

// Whether the classes of two hops, with the delays 5 and 3, and the least windowed delay are these.
fn classes_are(
    alloc: Global,
    mode: Mode,
    threshold: u64,
    want: [Class; 2],
    least: Option<u64>,
) -> bool {
    let Ok(plan) = ring_plan(alloc, 2, &[], &[hop(0, 1, 5), hop(1, 0, 3)]) else {
        return false;
    };
    if plan.entities.len() != 2 || plan.mappings().len() != 2 {
        return false;
    }
    let Ok(alignment) = align(alloc, &plan, &[0, 0], mode) else {
        return false;
    };
    let Ok(classes) = classify(alloc, &plan, &alignment, threshold) else {
        return false;
    };
    classes.class(0) == want[0] && classes.class(1) == want[1] && classes.least_windowed() == least
}

#[test]
fn thresholds(rt: HostRuntime) {
    for (mode, threshold, want, least) in [
        (Mode::Host, 0, [Class::Windowed, Class::Windowed], Some(3)),
        (Mode::Host, 3, [Class::Windowed, Class::Windowed], Some(3)),
        (Mode::Host, 4, [Class::Windowed, Class::Appointed], Some(5)),
        (Mode::Host, 5, [Class::Windowed, Class::Appointed], Some(5)),
        (Mode::Host, 6, [Class::Appointed, Class::Appointed], None),
        (
            Mode::Host,
            u64::MAX,
            [Class::Appointed, Class::Appointed],
            None,
        ),
        (Mode::One, 0, [Class::Inside, Class::Inside], None),
    ] {
        assert!(rt;
            classes_are(rt.alloc(), mode, threshold, want, least),
            "{mode:?} {threshold}"
        );
    }
}
