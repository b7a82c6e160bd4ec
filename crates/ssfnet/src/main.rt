//! The program `ssfnet`: makes the real files, standard output and standard error, and a lane with an open gate for each
//! worker that may be asked, and calls the top call.
#![tactic(auto)]

ghost use Rattle.std.specs.Prelude.{◌≡◌, vec_len, IfOk};

use sim_base::{OpenGate, Sink, write_all};
use ssfnet_top::{Lane, ssfnet};
use std::alloc::{AllocError, Global};
use std::io::ErrorKind;
use std::process::ExitCode;
use std::{env, io};
use system_io::{FileLibrary, StdSink, SystemFiles};

/// The most workers that may be asked.
const MOST_WORKERS: u64 = 64;

/// The status of a run that found no memory.
const NO_MEMORY: u8 = 1;

/// The status of a run whose line could not be written.
const NOT_WRITTEN: u8 = 7;

fn main(rt: HostRuntime) -> ExitCode {
    let mut err = StdSink::new(rt.stderr());
    let words = match program_words(&rt) {
        Ok(words) => words,
        Err(error) => {
            if error.kind() != ErrorKind::InvalidData {
                return ExitCode::from(tell_no_memory(&mut err));
            }
            // Words that are not UTF-8 are not those of a command, and neither are none.
            Vec::new(rt.alloc())
        }
    };
    let mut lanes = match open_lanes(rt.alloc()) {
        Ok(lanes) => lanes,
        Err(_memory) => return ExitCode::from(tell_no_memory(&mut err)),
    };
    let mut library = FileLibrary::new(SystemFiles::new(&rt));
    let mut out = StdSink::new(rt.stdout());
    let status = ssfnet(
        &rt,
        rt.alloc(),
        words.as_slice(),
        &mut library,
        &mut out,
        &mut err,
        lanes.as_mut_slice(),
    );
    ExitCode::from(status)
}

/// A lane with an open gate for each worker that may be asked.
fn open_lanes(alloc: Global) -> Result<Vec<Lane<OpenGate>>, AllocError>
    ensures { IfOk result (λ lanes. vec_len lanes ≡ MOST_WORKERS) }
{
    let mut lanes = Vec::new(alloc);
    for _place in 0..MOST_WORKERS {
        lanes.push(Lane::new(OpenGate::new()))?;
    }
    Ok(lanes)
}

/// Says that there was no memory, and answers the status.
fn tell_no_memory<K: Sink>(err: &mut K) -> u8 {
    match write_all(err, b"memory\n") {
        Ok(()) => NO_MEMORY,
        Err(_failed) => NOT_WRITTEN,
    }
}

/// The words after the program's name.
fn program_words(rt: &HostRuntime) -> io::Result<Vec<String>> {
    let mut words = Vec::new(rt.alloc());
    for word in env::args(rt)?.skip(1) {
        words.push(word)?;
    }
    Ok(words)
}
