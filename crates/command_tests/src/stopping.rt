//! Runs by workers that are ended in their middle: by a budget, by a sink that fails, and by gates that shut.
ghost use Rattle.std.specs.Prelude.{◌≤◌};

use crate::commands::{LONG_REPORT, TRACE, TWO};
use crate::meeting::written_of;
use crate::workers::{Due, ROOM, check_open, lanes_of, run_into, stop_lanes};
use sim_base::{Gate, MemorySink, OpenGate, Sink, StopGate};
use ssfnet_top::Lane;
use std::alloc::{AllocError, Global};
use std::process::Abort;
use std::sync::Wait;
use std::test::Fail;
use std::thread::Threads;

/// A ring in which a token goes round in 14 ticks.
const FOUR: &str =
    "ring [ nodes 4 token 0 hop [ from 0 to 1 delay 5 ] hop [ from 1 to 2 delay 3 ] hop [ from 2 to 3 delay 4 ] hop [ from 3 to 0 delay 2 ] ]";

/// The times and records of its run until 32.
const RECORDS: [(u64, &str); 12] = [
    (0, "E 0 0 0 0 0\n"),
    (0, "E 0 0 1 0 1\n"),
    (0, "E 0 0 2 0 2\n"),
    (0, "E 0 0 3 0 3\n"),
    (5, "E 5 0 4 0 1\n"),
    (8, "E 8 0 5 0 2\n"),
    (12, "E 12 0 6 0 3\n"),
    (14, "E 14 0 7 0 0\n"),
    (19, "E 19 0 4 1 1\n"),
    (22, "E 22 0 5 1 2\n"),
    (26, "E 26 0 6 1 3\n"),
    (28, "E 28 0 7 1 0\n"),
];

/// The text of the records before this time.
fn records_below(alloc: Global, below: u64) -> Result<String, AllocError> {
    let mut text = String::new(alloc);
    for (time, record) in &RECORDS {
        if *time < below {
            text.push_str(record)?;
        }
    }
    Ok(text)
}

/// Timeline 1 is the first to have an event number 3, counted from 0: at 33.
#[test]
fn a_budget_ends_runs_at_the_same_record(rt: HostRuntime) -> Result<(), Fail> {
    let text = records_below(rt.alloc(), 33)?;
    let due = Due {
        status: 8,
        out: text.as_bytes(),
        err: b"budget timeline 1 3 below 33\n",
    };
    for _run in 0..20 {
        check_open(
            &rt,
            "run --workers 4 --align host --until 100 --budget 3 m.dml",
            FOUR,
            &due,
        )?;
    }
    Ok(())
}

/// Runs the command with open gates and an `out` that takes at most `most` bytes in a write and fails at its write number
/// `call`, and looks that it holds a part of what is due, as many bytes as that at most.
pub(crate) fn check_failing_run(
    rt: &(impl Threads + Wait + Sync + Abort + AllocGlobal),
    words: &str,
    model: &str,
    most: usize,
    call: u64,
    due: &[u8],
) -> Result<(), Fail>
    requires { 1 ≤ most }
{
    let alloc = rt.alloc();
    let mut lanes = lanes_of(alloc, || OpenGate::new())?;
    let mut out = MemorySink::new(alloc, most, ROOM, vec![in alloc; call]?)?;
    let mut err = MemorySink::new(alloc, 64, 4096, Vec::new(alloc))?;
    let status = run_into(rt, words, model, lanes.as_mut_slice(), &mut out, &mut err)?;
    assert_eq!(rt; status, 7);
    assert_eq!(rt; out.faults(), 1);
    assert_eq!(rt; err.faults(), 0);
    assert!(rt; due.starts_with(out.bytes()));
    assert!(rt; out.bytes().len() as u64 <= call.saturating_mul(most as u64));
    assert!(rt; err.bytes() == b"write\n".as_slice());
    Ok(())
}

#[test]
fn failing_sinks_keep_a_part_of_a_run_by_workers(rt: HostRuntime) -> Result<(), Fail> {
    for call in 0..7u64 {
        let words = "run --workers 2 --until 10 --align host --threshold 4 --report m.dml";
        check_failing_run(&rt, words, TWO, 9, call, TRACE)?;
    }
    Ok(())
}

/// The run has some 1,500 windows, and the records of the first 1,024 are written before the others are executed.
#[test]
fn failing_sinks_end_a_run_in_its_middle(rt: HostRuntime) -> Result<(), Fail> {
    let due = written_of(&rt, "seq --until 6000 m.dml", TWO)?;
    for call in &[0, 1, 100, 1000, 1600, 2000] {
        let words = "run --workers 2 --until 6000 --align host m.dml";
        check_failing_run(&rt, words, TWO, 9, *call, due.bytes())?;
    }
    Ok(())
}

/// Runs the command with open gates and an `err` that fails at its write number `call`, and looks that the whole trace stands on
/// `out` and a part of what is told on `err`.
fn check_failing_report(
    rt: &(impl Threads + Wait + Sync + Abort + AllocGlobal),
    words: &str,
    call: u64,
) -> Result<(), Fail> {
    let alloc = rt.alloc();
    let mut lanes = lanes_of(alloc, || OpenGate::new())?;
    let mut out = MemorySink::new(alloc, 64, 4096, Vec::new(alloc))?;
    let mut err = MemorySink::new(alloc, 9, 4096, vec![in alloc; call]?)?;
    let status = run_into(rt, words, TWO, lanes.as_mut_slice(), &mut out, &mut err)?;
    assert_eq!(rt; status, 7);
    assert_eq!(rt; err.faults(), 1);
    assert!(rt; out.bytes() == TRACE);
    assert!(rt; LONG_REPORT.starts_with(err.bytes()));
    Ok(())
}

#[test]
fn failing_reports_of_a_run_by_workers_keep_the_trace(rt: HostRuntime) -> Result<(), Fail> {
    for call in 0..9u64 {
        let words = "run --workers 2 --until 10 --align host --threshold 4 --report m.dml";
        check_failing_report(&rt, words, call)?;
    }
    Ok(())
}

/// The worker and the time that the line of a stop names.
fn read_stop(line: &[u8]) -> Option<(usize, u64)> {
    let text = std::str::from_utf8(line).ok()?;
    let told = text.strip_prefix("stopped worker ")?;
    let (worker, below) = told.strip_suffix("\n")?.split_once(" below ")?;
    Some((worker.parse::<usize>().ok()?, below.parse::<u64>().ok()?))
}

/// Looks that a run by so many workers, of which one was stopped, wrote the records before the time that its line names, and
/// that the worker's gate was found shut.
fn check_stop(
    rt: &(impl Abort + AllocGlobal),
    workers: usize,
    lanes: &[Lane<StopGate>],
    out: &[u8],
    err: &[u8],
) -> Result<(), Fail> {
    let Some((worker, below)) = read_stop(err) else {
        panic!(rt; "a line of a stop");
    };
    let text = records_below(rt.alloc(), below)?;
    assert!(rt; out == text.as_bytes());
    let Some(lane) = lanes[..workers.min(lanes.len())].get(worker) else {
        panic!(rt; "a worker of the run");
    };
    assert!(rt; lane.gate().stops() > 0);
    Ok(())
}

/// Runs the ring of four with gates that shut after so many questions, and tells whether one stopped the run.
fn is_stopped(
    rt: &(impl Threads + Wait + Sync + Abort + AllocGlobal),
    workers: usize,
    after: u64,
) -> Result<bool, Fail> {
    let alloc = rt.alloc();
    let words = format!(in alloc; "run --workers {workers} --until 32 --align host m.dml")?;
    let mut lanes = stop_lanes(alloc, after)?;
    let mut out = MemorySink::new(alloc, 64, 4096, Vec::new(alloc))?;
    let mut err = MemorySink::new(alloc, 64, 4096, Vec::new(alloc))?;
    let status = run_into(
        rt,
        words.as_str(),
        FOUR,
        lanes.as_mut_slice(),
        &mut out,
        &mut err,
    )?;
    if status == 9 {
        check_stop(rt, workers, lanes.as_slice(), out.bytes(), err.bytes())?;
        return Ok(true);
    }
    let text = format!(in alloc; "{}end 32 12\n", records_below(alloc, 33)?)?;
    assert_eq!(rt; status, 0);
    assert!(rt; out.bytes() == text.as_bytes());
    assert!(rt; err.bytes().is_empty());
    Ok(false)
}

/// A gate that shuts after many questions stops nothing, and one that never opens stops each run.
#[test]
fn gates_that_shut_end_a_run_in_its_middle(rt: HostRuntime) -> Result<(), Fail> {
    for workers in 1..3 {
        for after in 0..13 {
            let is_ended = is_stopped(&rt, workers, after)?;
            assert!(rt; is_ended || after > 0);
        }
        assert!(rt; !is_stopped(&rt, workers, 1_000_000_000)?);
    }
    Ok(())
}
