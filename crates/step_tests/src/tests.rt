//! Runs by steps: what they write and how they end.

use crate::rings::{Model, Way, due_of, end_as_due, end_of, hop, run_into};
use ring_model::Hop;
use sim_base::{Memory, MemorySink, Sink};
use std::alloc::Global;
use std::test::Fail;
use step_run::{Mode, Step, StepEnd};
use sync_steps::read_schedule;

const MOST: u64 = 1_000_000_000_000_000;

const TRACE: &[u8] = b"E 0 0 0 0 0\nE 0 0 1 0 1\nE 5 0 2 0 1\nE 8 0 3 0 0\nend 10 4\n";

const HELD_TRACE: &[u8] =
    b"E 0 0 0 0 0\nE 0 0 1 0 1\nE 0 0 2 0 2\nE 4 0 3 0 2\nE 4 0 4 0 2\nend 5 5\n";

// A token that takes 5 ticks from node 0 to node 1, and 3 ticks back.
fn two_hops() -> [Hop; 2] {
    [hop(0, 1, 5), hop(1, 0, 3)]
}

// How the ring of two nodes ends by such a mode, threshold, budget and schedule, where it writes these bytes.
fn two_end(
    alloc: Global,
    mode: Mode,
    threshold: u64,
    budget: u32,
    schedule: &[Step],
    due: &[u8],
) -> Result<Option<StepEnd>, Memory> {
    let model = Model {
        nodes: 2,
        tokens: &[0],
        hops: &two_hops(),
        until: 10,
    };
    let way = Way {
        mode,
        threshold,
        budget,
        schedule,
    };
    end_of(alloc, &model, &way, due)
}

fn windows(crossed: u64, last: u64) -> Option<StepEnd> {
    Some(StepEnd::Finished { crossed, last })
}

fn over(timeline: u32, below: u64) -> Option<StepEnd> {
    Some(StepEnd::OverBudget { timeline, below })
}

#[test]
fn modes_and_thresholds(rt: HostRuntime) -> Result<(), Fail> {
    for (mode, threshold, end) in [
        (Mode::Host, 4, windows(2, 10)),
        (Mode::Host, 0, windows(3, 11)),
        (Mode::Host, MOST, windows(1, 11)),
        (Mode::Count(2), 4, windows(2, 10)),
        (Mode::One, 0, windows(1, 11)),
        (Mode::One, 4, windows(1, 11)),
        (Mode::One, MOST, windows(1, 11)),
        (Mode::Net, 4, windows(1, 11)),
    ] {
        assert_eq!(rt;
            two_end(rt.alloc(), mode, threshold, 100, &[], TRACE)?,
            end,
            "{mode:?} {threshold}"
        );
    }
    Ok(())
}

// Exactly the records before the time of the first event that is too much are written.
#[test]
fn budgets(rt: HostRuntime) -> Result<(), Fail> {
    for (mode, threshold, budget, records, end) in [
        (Mode::Host, 4, 2, 57, windows(2, 10)),
        (Mode::Host, 4, 1, 24, over(1, 5)),
        (Mode::Host, 0, 1, 24, over(1, 5)),
        (Mode::Host, MOST, 1, 24, over(1, 5)),
        (Mode::Host, 0, 0, 0, over(0, 0)),
        (Mode::One, 0, 4, 57, windows(1, 11)),
        (Mode::One, 0, 3, 36, over(0, 8)),
        (Mode::One, 0, 2, 24, over(0, 5)),
        (Mode::One, 0, 1, 0, over(0, 0)),
    ] {
        let due = TRACE.get(..records).unwrap_or(&[]);
        assert_eq!(rt;
            two_end(rt.alloc(), mode, threshold, budget, &[], due)?,
            end,
            "{mode:?} {threshold} {budget}"
        );
    }
    Ok(())
}

// The step that a number makes, of timelines up to `timelines` and channels up to `channels`.
fn step_of(number: u32, timelines: u8, channels: u8) -> Step {
    let timeline = (number >> 3) % (u32::from(timelines) + 1);
    let channel = (number >> 9) % (u32::from(channels) + 1);
    match (number >> 20) % 6 {
        0 => Step::Execute(timeline),
        1 => Step::Post(timeline, channel),
        2 => Step::Take(timeline),
        3 => Step::Enter(timeline),
        4 => Step::Report(timeline),
        _ => Step::Cross,
    }
}

// A schedule of so many steps, which are mixed.
fn long_schedule(
    alloc: Global,
    steps: u32,
    timelines: u8,
    channels: u8,
) -> Result<Vec<Step>, Memory> {
    let mut schedule = Vec::new(alloc);
    let mut number: u32 = 7;
    for _ in 0..steps {
        number = number.wrapping_mul(1_664_525).wrapping_add(1_013_904_223);
        schedule.push(step_of(number, timelines, channels))?;
    }
    Ok(schedule)
}

// Schedules of steps that no ring of two nodes has, and ones that are longer than the run.
#[test]
fn schedules(rt: HostRuntime) -> Result<(), Fail> {
    let alloc = rt.alloc();
    let foreign = [
        Step::Execute(2),
        Step::Post(0, 3),
        Step::Post(1, 2),
        Step::Post(7, 9),
        Step::Take(u32::MAX),
        Step::Enter(2),
        Step::Report(u32::MAX),
        Step::Post(u32::MAX, u32::MAX),
        Step::Cross,
        Step::Report(1),
        Step::Report(1),
        Step::Report(0),
        Step::Cross,
    ];
    let long = long_schedule(alloc, 3000, 2, 4)?;
    let crossings = vec![in alloc; Step::Cross; 3000]?;
    for threshold in [0, 4, MOST] {
        let end = two_end(alloc, Mode::Host, threshold, 100, &[], TRACE)?;
        assert!(rt; end.is_some());
        for schedule in [foreign.as_slice(), long.as_slice(), crossings.as_slice()] {
            for mode in [Mode::Host, Mode::One] {
                let due = if mode == Mode::Host {
                    end
                } else {
                    windows(1, 11)
                };
                assert_eq!(rt;
                    two_end(alloc, mode, threshold, 100, schedule, TRACE)?,
                    due,
                    "{mode:?} {threshold}"
                );
            }
        }
    }
    Ok(())
}

// Two nodes each send one token to a third. The last step of the schedule is not enabled, since a channel holds the third node.
#[test]
fn a_channel_holds(rt: HostRuntime) -> Result<(), Fail> {
    let model = Model {
        nodes: 3,
        tokens: &[0, 1],
        hops: &[hop(0, 2, 4), hop(1, 2, 4)],
        until: 5,
    };
    let Ok(schedule) = read_schedule(rt.alloc(), b"r0,r1,r2,c,e1,x1,p1.4,t2,e2,x2") else {
        return Err(Fail::from(Memory));
    };
    let way = Way {
        mode: Mode::Host,
        threshold: 5,
        budget: 100,
        schedule: schedule.as_slice(),
    };
    assert_eq!(rt;
        end_of(rt.alloc(), &model, &way, HELD_TRACE)?,
        windows(1, 6)
    );
    Ok(())
}

// Two nodes have an event too many at the same time. Which of them stops the run is told by the schedule.
#[test]
fn schedules_tell_who_stops(rt: HostRuntime) -> Result<(), Fail> {
    let model = Model {
        nodes: 2,
        tokens: &[0, 1],
        hops: &[hop(0, 1, 5), hop(1, 0, 5)],
        until: 10,
    };
    let first_takes = [
        Step::Report(0),
        Step::Report(1),
        Step::Cross,
        Step::Enter(0),
        Step::Enter(1),
        Step::Post(0, 2),
        Step::Take(1),
        Step::Post(1, 3),
        Step::Take(0),
        Step::Execute(1),
        Step::Execute(0),
        Step::Post(1, 3),
        Step::Take(0),
    ];
    let due = TRACE.get(..24).unwrap_or(&[]);
    for (schedule, end) in [
        (&[] as &[Step], over(1, 5)),
        (first_takes.as_slice(), over(0, 5)),
    ] {
        let way = Way {
            mode: Mode::Host,
            threshold: MOST,
            budget: 1,
            schedule,
        };
        assert_eq!(rt; end_of(rt.alloc(), &model, &way, due)?, end);
    }
    Ok(())
}

// A token that comes back in no time goes on for ever at time 0: nothing is written.
#[test]
fn endless_rounds(rt: HostRuntime) -> Result<(), Fail> {
    let model = Model {
        nodes: 1,
        tokens: &[0],
        hops: &[hop(0, 0, 0)],
        until: 10,
    };
    let way = Way {
        mode: Mode::Host,
        threshold: 0,
        budget: 5,
        schedule: &[],
    };
    assert_eq!(rt; end_of(rt.alloc(), &model, &way, b"")?, over(0, 0));
    Ok(())
}

// A run of the ring of two nodes into a sink that takes a line a call and fails at one call.
fn failing_end(
    alloc: Global,
    threshold: u64,
    call: u64,
) -> Result<Option<(StepEnd, usize)>, Memory> {
    let model = Model {
        nodes: 2,
        tokens: &[0],
        hops: &two_hops(),
        until: 10,
    };
    let way = Way {
        mode: Mode::Host,
        threshold,
        budget: 100,
        schedule: &[],
    };
    let mut sink = MemorySink::new(alloc, 12, 100, vec![in alloc; call]?)?;
    let (end, _tally) = run_into(alloc, &model, &way, &mut sink)?;
    if !TRACE.starts_with(sink.bytes()) || (sink.faults() == 1) != (end == StepEnd::Write) {
        return Ok(None);
    }
    Ok(Some((end, sink.bytes().len())))
}

// Each line is one call.
#[test]
fn failing_sinks_keep_a_part(rt: HostRuntime) -> Result<(), Fail> {
    for threshold in [0, 4, MOST] {
        for (call, held) in [(0, 0), (1, 12), (2, 24), (3, 36), (4, 48)] {
            assert_eq!(rt;
                failing_end(rt.alloc(), threshold, call)?,
                Some((StepEnd::Write, held)),
                "{threshold} {call}"
            );
        }
        let whole = failing_end(rt.alloc(), threshold, 5)?;
        assert!(rt; whole.is_some());
        assert_eq!(rt; whole.map(|(_, held)| held), Some(57));
    }
    Ok(())
}

// How a run of so many nodes without hops ends, each on a timeline of its own, where nothing but the end is written.
fn apart(alloc: Global, nodes: u32, due: &[u8]) -> Result<Option<StepEnd>, Memory> {
    let model = Model {
        nodes,
        tokens: &[],
        hops: &[],
        until: 0,
    };
    let way = Way {
        mode: Mode::Host,
        threshold: 0,
        budget: 0,
        schedule: &[],
    };
    end_of(alloc, &model, &way, due)
}

#[test]
fn most_timelines(rt: HostRuntime) -> Result<(), Fail> {
    for (nodes, end) in [
        (0, None),
        (4096, over(0, 0)),
        (4097, Some(StepEnd::TooManyTimelines(4097))),
        (5000, Some(StepEnd::TooManyTimelines(5000))),
    ] {
        assert_eq!(rt; apart(rt.alloc(), nodes, b"")?, end, "{nodes}");
    }
    Ok(())
}

#[test]
fn no_timelines(rt: HostRuntime) -> Result<(), Fail> {
    let end = apart(rt.alloc(), 0, b"end 0 0\n")?;
    assert_eq!(rt; end, windows(0, 0));
    Ok(())
}

// 30 nodes in a ring with delays from 0 to 6 and some hops across, and 6 tokens.
fn thirty_hops(alloc: Global) -> Result<Vec<Hop>, Memory> {
    let mut hops = Vec::new(alloc);
    for node in 0..30_u32 {
        hops.push(hop(node, (node + 1) % 30, u64::from(node * 5 % 7)))?;
        if node % 10 == 3 {
            hops.push(Hop {
                from: node,
                to: (node + 12) % 30,
                delay: 4,
                priority: 3,
            })?;
        }
    }
    Ok(hops)
}

#[test]
fn thirty_nodes(rt: HostRuntime) -> Result<(), Fail> {
    let alloc = rt.alloc();
    let hops = thirty_hops(alloc)?;
    let model = Model {
        nodes: 30,
        tokens: &[0, 7, 7, 19, 29, 11],
        hops: hops.as_slice(),
        until: 120,
    };
    let Some(due) = due_of(alloc, &model)? else {
        return Err(Fail::from("too many events"));
    };
    let schedule = long_schedule(alloc, 2000, 30, 70)?;
    for mode in [
        Mode::Host,
        Mode::One,
        Mode::Net,
        Mode::Count(4),
        Mode::Count(11),
    ] {
        for threshold in [0, 3, 5, MOST] {
            for schedule in [[].as_slice(), schedule.as_slice()] {
                let way = Way {
                    mode,
                    threshold,
                    budget: 100_000,
                    schedule,
                };
                let end = end_as_due(alloc, &model, &way, &due)?;
                assert!(rt;
                    matches!(end, Some(StepEnd::Finished { .. })),
                    "{mode:?} {threshold} {end:?}"
                );
            }
        }
    }
    Ok(())
}

// A run of more crossings than one piece has, with a schedule.
#[test]
fn many_pieces(rt: HostRuntime) -> Result<(), Fail> {
    let alloc = rt.alloc();
    let hops = two_hops();
    let model = Model {
        nodes: 2,
        tokens: &[0],
        hops: &hops,
        until: 10_000,
    };
    let Some(due) = due_of(alloc, &model)? else {
        return Err(Fail::from("too many events"));
    };
    let schedule = long_schedule(alloc, 20_000, 1, 3)?;
    for (threshold, end) in [
        (0, windows(2501, 10_001)),
        (4, windows(1251, 10_001)),
        (MOST, windows(1, 10_001)),
    ] {
        for schedule in [[].as_slice(), schedule.as_slice()] {
            let way = Way {
                mode: Mode::Host,
                threshold,
                budget: 100_000,
                schedule,
            };
            assert_eq!(rt; end_as_due(alloc, &model, &way, &due)?, end, "{threshold}");
        }
    }
    Ok(())
}
