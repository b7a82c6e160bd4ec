//! A generated model, by workers.
use crate::meeting::written_of;
use crate::stopping::check_failing_run;
use crate::workers::{Due, check_open};
use std::process::Abort;
use std::sync::Wait;
use std::test::Fail;
use std::thread::Threads;

const RUN: &str = "run --workers 8 --until 50000000 m.dml";

/// Looks that eight workers write what the one event list writes of this model, and that a sink of at most 64 bytes in a write
/// that fails at its third one holds a part of it.
fn check_model(
    rt: &(impl Threads + Wait + Sync + Abort + AllocGlobal),
    model: &str,
) -> Result<(), Fail> {
    let trace = written_of(rt, "seq --until 50000000 m.dml", model)?;
    let due = Due {
        status: 0,
        out: trace.bytes(),
        err: b"",
    };
    check_open(rt, RUN, model, &due)?;
    check_failing_run(rt, RUN, model, 64, 2, trace.bytes())
}

#[test]
fn workers_write_the_trace_of_a_generated_model(rt: HostRuntime) -> Result<(), Fail> {
    let written = written_of(&rt, "gen --seed 7", "")?;
    let again = written_of(&rt, "gen --seed 7", "")?;
    assert!(rt; written.bytes() == again.bytes());
    match std::str::from_utf8(written.bytes()) {
        Ok(model) => check_model(&rt, model),
        Err(_) => panic!(rt; "the model is a text"),
    }
}
