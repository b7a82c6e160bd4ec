//! The command over files that fail to be read and sinks that fail to be written, and over a file that is too long.
use sim_base::{Library, MemoryLibrary, MemorySink, Sink, Text};
use ssfnet_top::offline;
use std::alloc::Global;
use std::process::Abort;
use std::test::Fail;

pub(crate) const TWO: &str =
    "ring [ nodes 2 token 0 hop [ from 0 to 1 delay 5 ] hop [ from 1 to 0 delay 3 ] ]";

pub(crate) const TRACE: &[u8] = b"E 0 0 0 0 0\nE 0 0 1 0 1\nE 5 0 2 0 1\nE 8 0 3 0 0\nend 10 4\n";

const REPORT: &[u8] = b"events 4\nlast 8\nsent 0 0\ndropped 0 0\nudp 0 0\ntcp 0\n";

pub(crate) const LONG_REPORT: &[u8] =
    b"events 4\nlast 8\nsent 0 0\ndropped 0 0\nudp 0 0\ntcp 0\nwindows 2 10\n";

const SEQ_REPORT: &str = "seq --until 10 --report m.dml";

const STEP_REPORT: &str = "step --until 10 --align host --threshold 4 --report m.dml";

const BASE: &str =
    "base [ nodes 2 token 0 hop [ from 0 to 1 delay 5 ] hop [ from 1 to 0 delay 3 ] ]";

pub(crate) fn split_words(alloc: Global, text: &str) -> Result<Vec<String>, Fail> {
    let mut words = Vec::new(alloc);
    for word in text.split(' ') {
        if !word.is_empty() {
            words.push(String::from_str(alloc, word)?)?;
        }
    }
    Ok(words)
}

fn files_of(alloc: Global, model: &str) -> Result<Vec<(Text, Text)>, Fail> {
    let mut files = Vec::new(alloc);
    files.push((
        Text::of(alloc, b"m.dml")?,
        Text::of(alloc, model.as_bytes())?,
    ))?;
    files.push((Text::of(alloc, b"bad.dml")?, Text::of(alloc, b"]")?))?;
    files.push((
        Text::of(alloc, b"base.dml")?,
        Text::of(alloc, BASE.as_bytes())?,
    ))?;
    Ok(files)
}

pub(crate) fn library_of(alloc: Global, model: &str) -> Result<MemoryLibrary, Fail> {
    let files = files_of(alloc, model)?;
    Ok(MemoryLibrary::new(files, Vec::new(alloc)))
}

/// Runs the command with an `out` that fails at its write number `call`, and looks that it holds a
/// part of what is due.
fn check_failing(
    rt: &(impl Abort + AllocGlobal),
    words: &str,
    due: &[u8],
    call: u64,
) -> Result<(), Fail> {
    let alloc = rt.alloc();
    let words = split_words(alloc, words)?;
    let mut library = library_of(alloc, TWO)?;
    let mut out = MemorySink::new(alloc, 9, 4096, vec![in alloc; call]?)?;
    let mut err = MemorySink::new(alloc, 9, 4096, Vec::new(alloc))?;
    let status = offline(alloc, words.as_slice(), &mut library, &mut out, &mut err);
    assert_eq!(rt; status, 7);
    assert_eq!(rt; out.faults(), 1);
    assert!(rt; due.starts_with(out.bytes()));
    assert_eq!(rt; out.bytes().len() as u64, call.wrapping_mul(9));
    assert!(rt; err.bytes() == b"write\n".as_slice());
    Ok(())
}

#[test]
fn failing_sinks_keep_a_part(rt: HostRuntime) -> Result<(), Fail> {
    let printing =
        b"ring [\n  nodes 2\n  token 0\n  hop [\n    from 0\n    to 1\n    delay 5\n  ]\n  hop [\n    from 1\n    to 0\n    delay 3\n  ]\n]\n";
    for call in 0..7u64 {
        check_failing(&rt, "seq --until 10 m.dml", TRACE, call)?;
        check_failing(&rt, "seq --until 10 --report m.dml", TRACE, call)?;
    }
    for call in 0..13u64 {
        check_failing(&rt, "dml m.dml", printing, call)?;
    }
    let counts = b"ring nodes 2 tokens 1 hops 2\n";
    for call in 0..4u64 {
        check_failing(&rt, "check m.dml", counts, call)?;
    }
    let plan = b"map 2 0 1 5\nmap 3 1 0 3\n";
    for call in 0..3u64 {
        check_failing(&rt, "plan m.dml", plan, call)?;
    }
    Ok(())
}

/// Runs `step --report` on two timelines with this schedule, and an `out` that fails at its write number `call`, and looks that
/// it holds a part of the trace, of at least this length.
fn check_failing_steps(
    rt: &(impl Abort + AllocGlobal),
    schedule: &str,
    call: u64,
) -> Result<usize, Fail> {
    let alloc = rt.alloc();
    let text = format!(in alloc;
        "step --until 10 --align host --threshold 4 --report{schedule} m.dml"
    )?;
    let words = split_words(alloc, text.as_str())?;
    let mut library = library_of(alloc, TWO)?;
    let mut out = MemorySink::new(alloc, 9, 4096, vec![in alloc; call]?)?;
    let mut err = MemorySink::new(alloc, 9, 4096, Vec::new(alloc))?;
    let status = offline(alloc, words.as_slice(), &mut library, &mut out, &mut err);
    assert_eq!(rt; status, 7);
    assert_eq!(rt; out.faults(), 1);
    assert!(rt; TRACE.starts_with(out.bytes()));
    assert!(rt; err.bytes() == b"write\n".as_slice());
    Ok(out.bytes().len())
}

#[test]
fn failing_sinks_keep_a_part_of_a_run_by_steps(rt: HostRuntime) -> Result<(), Fail> {
    for schedule in &["", " --schedule x0,r1,r0,c,x1,x5,c"] {
        let mut before = 0usize;
        for call in 0..7u64 {
            let held = check_failing_steps(&rt, schedule, call)?;
            assert_eq!(&rt; held > before, call > 0);
            before = held;
        }
    }
    Ok(())
}

/// Runs the command with an `err` that fails at its write number `call`, and looks that the whole
/// trace stands on `out` and a part of what is told on `err`.
fn check_failing_report(
    rt: &(impl Abort + AllocGlobal),
    words: &str,
    told: &[u8],
    call: u64,
) -> Result<usize, Fail> {
    let alloc = rt.alloc();
    let words = split_words(alloc, words)?;
    let mut library = library_of(alloc, TWO)?;
    let mut out = MemorySink::new(alloc, 64, 4096, Vec::new(alloc))?;
    let mut err = MemorySink::new(alloc, 9, 4096, vec![in alloc; call]?)?;
    let status = offline(alloc, words.as_slice(), &mut library, &mut out, &mut err);
    assert_eq!(rt; status, 7);
    assert_eq!(rt; out.faults(), 0);
    assert_eq!(rt; err.faults(), 1);
    assert!(rt; out.bytes() == TRACE);
    assert!(rt; told.starts_with(err.bytes()));
    Ok(err.bytes().len())
}

#[test]
fn failing_reports_keep_the_trace(rt: HostRuntime) -> Result<(), Fail> {
    for call in 0..6u64 {
        let held = check_failing_report(&rt, SEQ_REPORT, REPORT, call)?;
        assert_eq!(&rt; held as u64, call.wrapping_mul(9));
    }
    check_text(&rt, SEQ_REPORT, TWO, 0, TRACE, REPORT)
}

#[test]
fn failing_reports_of_steps_keep_the_trace(rt: HostRuntime) -> Result<(), Fail> {
    let mut before = 0usize;
    for call in 0..9u64 {
        let held = check_failing_report(&rt, STEP_REPORT, LONG_REPORT, call)?;
        assert_eq!(&rt; held > before, call > 0);
        before = held;
    }
    check_text(&rt, STEP_REPORT, TWO, 0, TRACE, LONG_REPORT)
}

/// Runs the command over a library that fails at its call number `call`, and looks at the line of
/// its refusal.
fn check_failing_library(
    rt: &(impl Abort + AllocGlobal),
    words: &str,
    call: u64,
    status: u8,
    line: &[u8],
) -> Result<(), Fail> {
    let alloc = rt.alloc();
    let words = split_words(alloc, words)?;
    let mut library = MemoryLibrary::new(files_of(alloc, TWO)?, vec![in alloc; call]?);
    let mut out = MemorySink::new(alloc, 64, 4096, Vec::new(alloc))?;
    let mut err = MemorySink::new(alloc, 64, 4096, Vec::new(alloc))?;
    let ended = offline(alloc, words.as_slice(), &mut library, &mut out, &mut err);
    assert_eq!(rt; ended, status);
    assert_eq!(rt; library.faults(), u64::from(status == 3));
    assert!(rt; out.bytes().is_empty());
    assert!(rt; err.bytes() == line);
    Ok(())
}

/// Each file takes three calls: one to fetch it, one to read its bytes, and one to find its end.
#[test]
fn failing_libraries_name_the_file_at_hand(rt: HostRuntime) -> Result<(), Fail> {
    for words in &[
        "dml m.dml base.dml",
        "check m.dml base.dml",
        "plan m.dml base.dml",
        "seq --until 10 m.dml base.dml",
        "step --until 10 m.dml base.dml",
    ] {
        for call in 0..3u64 {
            check_failing_library(&rt, words, call, 3, b"read m.dml\n")?;
        }
        for call in 3..6u64 {
            check_failing_library(&rt, words, call, 3, b"read base.dml\n")?;
        }
    }
    let line = b"dml bad.dml StrayClose 0\n";
    for call in 3..6u64 {
        check_failing_library(&rt, "dml bad.dml m.dml", call, 4, line)?;
    }
    Ok(())
}

#[test]
fn failed_writes_end_with_their_status(rt: HostRuntime) -> Result<(), Fail> {
    let alloc = rt.alloc();
    let words = split_words(alloc, "dml m.dml")?;
    let mut library = library_of(alloc, TWO)?;
    let mut out = MemorySink::new(alloc, 9, 64, vec![in alloc; 0]?)?;
    let mut err = MemorySink::new(alloc, 9, 64, vec![in alloc; 0]?)?;
    let status = offline(alloc, words.as_slice(), &mut library, &mut out, &mut err);
    assert_eq!(rt; status, 7);
    assert_eq!(rt; err.faults(), 1);
    Ok(())
}

#[test]
fn long_files_are_refused(rt: HostRuntime) -> Result<(), Fail> {
    let alloc = rt.alloc();
    let words = split_words(alloc, "dml m.dml")?;
    let mut files = Vec::new(alloc);
    let blanks = vec![in alloc; b' '; 16_777_217]?;
    files.push((Text::of(alloc, b"m.dml")?, Text::from_vec(blanks)))?;
    let mut library = MemoryLibrary::new(files, Vec::new(alloc));
    let mut out = MemorySink::new(alloc, 9, 64, Vec::new(alloc))?;
    let mut err = MemorySink::new(alloc, 9, 64, Vec::new(alloc))?;
    let status = offline(alloc, words.as_slice(), &mut library, &mut out, &mut err);
    assert_eq!(rt; status, 4);
    assert!(rt; out.bytes().is_empty());
    assert!(rt; err.bytes() == b"dml m.dml TooLong 16777216\n".as_slice());
    Ok(())
}

#[test]
fn one_thread_refuses_a_run(rt: HostRuntime) -> Result<(), Fail> {
    check_text(&rt, "run --until 10 m.dml", TWO, 2, b"", b"words\n")
}

#[test]
fn unwritten_refusals_end_as_failed_writes(rt: HostRuntime) -> Result<(), Fail> {
    let alloc = rt.alloc();
    let words = split_words(alloc, "fly")?;
    let mut library = library_of(alloc, TWO)?;
    let mut out = MemorySink::new(alloc, 9, 64, Vec::new(alloc))?;
    let mut err = MemorySink::new(alloc, 9, 64, vec![in alloc; 0]?)?;
    let status = offline(alloc, words.as_slice(), &mut library, &mut out, &mut err);
    assert_eq!(rt; status, 7);
    assert_eq!(rt; err.faults(), 1);
    Ok(())
}

/// Runs the command over the text of the file `m.dml`, and looks at what it writes.
pub(crate) fn check_text(
    rt: &(impl Abort + AllocGlobal),
    words: &str,
    model: &str,
    status: u8,
    out: &[u8],
    err: &[u8],
) -> Result<(), Fail> {
    let alloc = rt.alloc();
    let words = split_words(alloc, words)?;
    let mut library = library_of(alloc, model)?;
    let mut wrote = MemorySink::new(alloc, 4096, 8192, Vec::new(alloc))?;
    let mut told = MemorySink::new(alloc, 64, 4096, Vec::new(alloc))?;
    let ended = offline(alloc, words.as_slice(), &mut library, &mut wrote, &mut told);
    assert_eq!(rt; ended, status);
    assert!(rt; wrote.bytes() == out);
    assert!(rt; told.bytes() == err);
    Ok(())
}
