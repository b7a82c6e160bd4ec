//! Files, sinks, lists and gates in memory: what no clause says, that calls with ample memory give their
//! answer.
use sim_base::{
    Failed, Gate, Library, ListOf, MemoryLibrary, MemorySink, OpenGate, ReadEnd, Sink, StopGate,
    Text, push_number, read_file, write_all,
};
use std::test::Fail;

/// A library with two files of the name `a`, and an empty one.
fn library(rt: &HostRuntime, failing: Vec<u64>) -> Result<MemoryLibrary, Fail> {
    let alloc = rt.alloc();
    let mut files = Vec::new(alloc);
    files.push((Text::of(alloc, b"a")?, Text::of(alloc, b"some text")?))?;
    files.push((Text::of(alloc, b"empty")?, Text::of(alloc, b"")?))?;
    files.push((Text::of(alloc, b"a")?, Text::of(alloc, b"another")?))?;
    Ok(MemoryLibrary::new(files, failing))
}

#[test]
fn files_are_read_whole(rt: HostRuntime) -> Result<(), Fail> {
    let mut library = library(&rt, Vec::new(rt.alloc()))?;
    let bytes = read_file(rt.alloc(), &mut library, "a", 9)?;
    assert!(rt; bytes.as_slice() == b"some text".as_slice());
    let none = read_file(rt.alloc(), &mut library, "empty", 0)?;
    assert!(rt; none.is_empty());
    assert_eq!(rt; library.faults(), 0);
    Ok(())
}

#[test]
fn refusals_of_a_read_have_their_cause(rt: HostRuntime) -> Result<(), Fail> {
    let mut library = library(&rt, vec![in rt.alloc(); 3]?)?;
    let long = read_file(rt.alloc(), &mut library, "a", 8).err();
    assert_eq!(rt; long, Some(ReadEnd::TooLong));
    assert_eq!(rt; library.faults(), 0);
    let failed = read_file(rt.alloc(), &mut library, "a", 9).err();
    assert_eq!(rt; failed, Some(ReadEnd::Failed));
    assert_eq!(rt; library.faults(), 1);
    let missing = read_file(rt.alloc(), &mut library, "b", 9).err();
    assert_eq!(rt; missing, Some(ReadEnd::Failed));
    assert_eq!(rt; library.faults(), 2);
    Ok(())
}

#[test]
fn slow_sinks_get_every_byte(rt: HostRuntime) -> Result<(), Fail> {
    let mut sink = MemorySink::new(rt.alloc(), 1, 64, Vec::new(rt.alloc()))?;
    let mut line = Vec::new(rt.alloc());
    push_number(&mut line, 18446744073709551615)?;
    push_number(&mut line, 0)?;
    assert!(rt; write_all(&mut sink, line.as_slice()).is_ok());
    assert!(rt; sink.bytes() == b"184467440737095516150".as_slice());
    Ok(())
}

#[test]
fn failing_sinks_keep_a_part(rt: HostRuntime) -> Result<(), Fail> {
    let mut sink = MemorySink::new(rt.alloc(), 2, 64, vec![in rt.alloc(); 1]?)?;
    assert_eq!(rt; write_all(&mut sink, b"abcde"), Err(Failed));
    assert!(rt; sink.bytes() == b"ab".as_slice());
    assert_eq!(rt; sink.faults(), 1);
    let mut full = MemorySink::new(rt.alloc(), 9, 3, Vec::new(rt.alloc()))?;
    assert_eq!(rt; write_all(&mut full, b"abcde"), Err(Failed));
    assert!(rt; full.bytes() == b"abc".as_slice());
    Ok(())
}

#[test]
fn lists_give_their_items_back(rt: HostRuntime) -> Result<(), Fail> {
    let mut list = ListOf::new(rt.alloc());
    assert!(rt; list.push(7u32).is_ok());
    assert!(rt; list.push(8).is_ok());
    assert_eq!(rt; list.len(), 2);
    assert_eq!(rt; list.replace(0, 9), 7);
    assert!(rt; list.as_slice() == [9, 8].as_slice());
    assert!(rt; list.into_vec().as_slice() == [9, 8].as_slice());
    Ok(())
}

#[test]
fn gates_open_and_shut(rt: HostRuntime) -> Result<(), Fail> {
    let mut gate = StopGate::new(1);
    assert!(rt; gate.may_go(0, 5));
    assert!(rt; !gate.may_go(0, 6));
    assert_eq!(rt; gate.stops(), 1);
    let mut open = OpenGate::new();
    assert!(rt; open.may_go(0, 0));
    assert_eq!(rt; open.stops(), 0);
    Ok(())
}
