//! The command `run` with workers in threads: what it writes is the same for any number of them, and a gate that shuts ends it.
ghost use Rattle.std.specs.Prelude.{◌≡◌, length, vec_len, IfOk};

use crate::commands::{LONG_REPORT, TRACE, TWO, library_of, split_words};
use sim_base::{Gate, MemorySink, OpenGate, StopGate};
use ssfnet_top::{Lane, ssfnet};
use std::alloc::{AllocError, Global};
use std::process::Abort;
use std::sync::Wait;
use std::test::Fail;
use std::thread::Threads;

/// Room for all that is written on `out`.
pub(crate) const ROOM: usize = 1_000_000;

const ROUND: &str = "ring [ nodes 1 token 0 hop [ from 0 to 0 delay 0 ] ]";

/// 64 lanes with gates that this closure makes.
pub(crate) fn lanes_of<G: Drop, F: Fn() -> G>(
    alloc: Global,
    make_gate: F,
) -> Result<Vec<Lane<G>>, AllocError>
    requires { F.IsAlwaysCallable make_gate }
    ensures { IfOk result (λ lanes. vec_len lanes ≡ 64) }
{
    let mut lanes = Vec::new(alloc);
    for _place in 0..64u64 {
        lanes.push(Lane::new(make_gate()))?;
    }
    Ok(lanes)
}

/// 64 lanes with gates that shut after so many questions.
pub(crate) fn stop_lanes(alloc: Global, after: u64) -> Result<Vec<Lane<StopGate>>, AllocError>
    ensures { IfOk result (λ lanes. vec_len lanes ≡ 64) }
{
    lanes_of(alloc, || StopGate::new(after))
}

/// What a call is to answer: its status, and what it writes.
#[derive(Clone, Copy)]
pub(crate) struct Due<'a> {
    pub(crate) status: u8,
    pub(crate) out: &'a [u8],
    pub(crate) err: &'a [u8],
}

/// Runs the command over the text of the file `m.dml` with these lanes and sinks, and tells its status.
pub(crate) fn run_into<R: Threads + Wait + Sync + Abort + AllocGlobal, G: Gate + Send>(
    rt: &R,
    words: &str,
    model: &str,
    lanes: &mut [Lane<G>],
    out: &mut MemorySink,
    err: &mut MemorySink,
) -> Result<u8, Fail>
    requires { length lanes.old ≡ 64 }
    ensures { length lanes.new ≡ 64 }
{
    let alloc = rt.alloc();
    let words = split_words(alloc, words)?;
    let mut library = library_of(alloc, model)?;
    Ok(ssfnet(rt, alloc, words.as_slice(), &mut library, out, err, lanes))
}

/// Runs the command over the text of the file `m.dml` with these lanes, and looks at what it writes.
pub(crate) fn check_run<R: Threads + Wait + Sync + Abort + AllocGlobal, G: Gate + Send>(
    rt: &R,
    words: &str,
    model: &str,
    lanes: &mut [Lane<G>],
    due: &Due<'_>,
) -> Result<(), Fail>
    requires { length lanes.old ≡ 64 }
    ensures { length lanes.new ≡ 64 }
{
    let mut out = MemorySink::new(rt.alloc(), 4096, ROOM, Vec::new(rt.alloc()))?;
    let mut err = MemorySink::new(rt.alloc(), 64, 4096, Vec::new(rt.alloc()))?;
    let status = run_into(rt, words, model, lanes, &mut out, &mut err)?;
    assert_eq!(rt; status, due.status);
    assert!(rt; out.bytes() == due.out);
    assert!(rt; err.bytes() == due.err);
    Ok(())
}

/// Runs the command with open gates.
pub(crate) fn check_open(
    rt: &(impl Threads + Wait + Sync + Abort + AllocGlobal),
    words: &str,
    model: &str,
    due: &Due<'_>,
) -> Result<(), Fail> {
    let mut lanes = lanes_of(rt.alloc(), || OpenGate::new())?;
    check_run(rt, words, model, lanes.as_mut_slice(), due)
}

#[test]
fn any_number_of_workers_writes_the_same(rt: HostRuntime) -> Result<(), Fail> {
    let due = Due {
        status: 0,
        out: TRACE,
        err: LONG_REPORT,
    };
    for words in &[
        "run --workers 1 --until 10 --align host --threshold 4 --report m.dml",
        "run --workers 2 --until 10 --align host --threshold 4 --report m.dml",
        "run --workers 4 --until 10 --align host --threshold 4 --report m.dml",
        "run --workers 8 --until 10 --align host --threshold 4 --report m.dml",
        "run --workers 64 --until 10 --align host --threshold 4 --report m.dml",
        "run --until 10 --align host --threshold 4 --report m.dml",
        "step --until 10 --align host --threshold 4 --report m.dml",
    ] {
        check_open(&rt, words, TWO, &due)?;
    }
    Ok(())
}

#[test]
fn a_budget_ends_a_run_of_one_round(rt: HostRuntime) -> Result<(), Fail> {
    let due = Due {
        status: 8,
        out: b"",
        err: b"budget timeline 0 5 below 0\n",
    };
    check_open(
        &rt,
        "run --until 10 --budget 5 --workers 1 m.dml",
        ROUND,
        &due,
    )?;
    check_open(
        &rt,
        "run --until 10 --budget 5 --workers 4 m.dml",
        ROUND,
        &due,
    )
}

#[test]
fn more_workers_than_64_are_refused(rt: HostRuntime) -> Result<(), Fail> {
    let due = Due {
        status: 2,
        out: b"",
        err: b"words\n",
    };
    check_open(&rt, "run --until 1 --workers 65 m.dml", TWO, &due)?;
    check_open(&rt, "fly m.dml", TWO, &due)
}

#[test]
fn a_gate_that_is_shut_stops_its_worker(rt: HostRuntime) -> Result<(), Fail> {
    let due = Due {
        status: 9,
        out: b"",
        err: b"stopped worker 0 below 0\n",
    };
    let mut lanes = stop_lanes(rt.alloc(), 0)?;
    check_run(
        &rt,
        "run --workers 1 --until 10 m.dml",
        TWO,
        lanes.as_mut_slice(),
        &due,
    )
}

/// A gate that is never asked stops nothing.
#[test]
fn other_commands_ask_no_gate(rt: HostRuntime) -> Result<(), Fail> {
    let due = Due {
        status: 0,
        out: TRACE,
        err: b"",
    };
    let mut lanes = stop_lanes(rt.alloc(), 0)?;
    check_run(&rt, "seq --until 10 m.dml", TWO, lanes.as_mut_slice(), &due)
}
