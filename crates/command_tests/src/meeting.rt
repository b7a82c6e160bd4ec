//! Two workers are at work at once, and the workers carry the run on.
use crate::commands::{TRACE, TWO, library_of, split_words};
use crate::gates::{KeepingGate, MeetingGate};
use crate::workers::{Due, ROOM, check_run, lanes_of};
use sim_base::MemorySink;
use ssfnet_top::offline;
use std::process::Abort;
use std::sync::atomic::AtomicU64;
use std::test::Fail;

/// What the command, which ends with status 0, writes over the text of the file `m.dml` without workers.
pub(crate) fn written_of(
    rt: &(impl Abort + AllocGlobal),
    words: &str,
    model: &str,
) -> Result<MemorySink, Fail> {
    let alloc = rt.alloc();
    let words = split_words(alloc, words)?;
    let mut library = library_of(alloc, model)?;
    let mut out = MemorySink::new(alloc, 4096, ROOM, Vec::new(alloc))?;
    let mut err = MemorySink::new(alloc, 64, 4096, Vec::new(alloc))?;
    let status = offline(alloc, words.as_slice(), &mut library, &mut out, &mut err);
    assert_eq!(rt; status, 0);
    Ok(out)
}

/// Each of the two gates waits at its first question until the other has been asked: one thread alone would stop.
#[test]
fn two_workers_meet(rt: HostRuntime) -> Result<(), Fail> {
    let asked = AtomicU64::new(0);
    let mut lanes = lanes_of(rt.alloc(), || MeetingGate::new(&asked))?;
    let due = Due {
        status: 0,
        out: TRACE,
        err: b"",
    };
    check_run(
        &rt,
        "run --workers 2 --align host --until 10 m.dml",
        TWO,
        lanes.as_mut_slice(),
        &due,
    )
}

/// Looks that no lower bound fell at a gate, and that the bounds of both timelines rose at the two gates together at least 20
/// times.
fn check_gates(rt: &impl Abort, first: &KeepingGate, second: &KeepingGate) {
    assert!(rt; !first.has_fallen());
    assert!(rt; !second.has_fallen());
    let (first_zero, first_one) = first.rises();
    let (second_zero, second_one) = second.rises();
    assert!(rt; first_zero.saturating_add(second_zero) >= 20);
    assert!(rt; first_one.saturating_add(second_one) >= 20);
}

/// Of 251 windows each needs a turn at each of the two timelines, and a turn ends two of them at most.
#[test]
fn workers_carry_run(rt: HostRuntime) -> Result<(), Fail> {
    let trace = written_of(&rt, "seq --until 1000 m.dml", TWO)?;
    let mut lanes = lanes_of(rt.alloc(), || KeepingGate::new())?;
    let due = Due {
        status: 0,
        out: trace.bytes(),
        err: b"",
    };
    check_run(
        &rt,
        "run --workers 2 --align host --until 1000 m.dml",
        TWO,
        lanes.as_mut_slice(),
        &due,
    )?;
    check_gates(&rt, lanes[0].gate(), lanes[1].gate());
    for lane in &lanes[2..] {
        assert_eq!(rt; lane.gate().questions(), 0);
    }
    Ok(())
}
