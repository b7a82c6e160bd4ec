//! The outside over readers and writers in memory that are slow and that fail: a library of such files
//! gives them whole or fails, and a sink holds what its writer took.
use crate::{FileLibrary, Opener, StdSink, SystemFiles};
use sim_base::{Failed, Library, ReadEnd, Sink, read_file, write_all};
use std::alloc::Global;
use std::io;
use std::io::{ErrorKind, Read, Write};
use std::test::Fail;

/// How a reader or a writer in memory behaves: a call moves at most `most` bytes, and the call with the
/// number `failing`, counted from 0, fails.
#[derive(Clone, Copy)]
struct Manner {
    most: usize,
    failing: u64,
}

/// A manner in which no call fails that a test makes.
const SLOW: Manner = Manner {
    most: 3,
    failing: u64::MAX,
};

/// A reader of bytes in memory.
#[derive(Drop)]
struct MemoryReader {
    bytes: &'static [u8],
    manner: Manner,
    calls: u64,
}

impl Read for MemoryReader {
    fn read(&mut self, buf: &mut [u8]) -> io::Result<usize> {
        let call = self.calls;
        self.calls = self.calls.saturating_add(1);
        if call == self.manner.failing {
            return Err(io::Error::from(ErrorKind::Other));
        }
        let count = self.bytes.len().min(buf.len()).min(self.manner.most);
        buf[..count].copy_from_slice(&self.bytes[..count]);
        self.bytes = &self.bytes[count..];
        Ok(count)
    }
}

/// One file in memory, by its name.
#[derive(Drop)]
struct OneFile {
    name: &'static str,
    bytes: &'static [u8],
    manner: Manner,
}

impl Opener for OneFile {
    ghost use Rattle.std.specs.Prelude.{None};

    type File = MemoryReader;

    ghost told = { λ _. None };

    fn open(&mut self, name: &str) -> io::Result<MemoryReader> {
        if name != self.name {
            return Err(io::Error::from(ErrorKind::NotFound));
        }
        Ok(MemoryReader {
            bytes: self.bytes,
            manner: self.manner,
            calls: 0,
        })
    }
}

/// A writer into memory, with room for what the tests write.
#[derive(Drop)]
struct MemoryWriter {
    bytes: Vec<u8>,
    manner: Manner,
    calls: u64,
}

impl Write for MemoryWriter {
    ghost use Rattle.std.specs.Prelude.{Some};

    ghost contents = { λ w. Some w.bytes.items };

    fn write(&mut self, buf: &[u8]) -> io::Result<usize> {
        let call = self.calls;
        self.calls = self.calls.saturating_add(1);
        if call == self.manner.failing {
            return Err(io::Error::from(ErrorKind::Other));
        }
        let count = buf.len().min(self.manner.most);
        self.bytes.extend_from_slice(&buf[..count])?;
        Ok(count)
    }

    fn flush(&mut self) -> io::Result<()> {
        Ok(())
    }
}

fn library_of(manner: Manner) -> FileLibrary<OneFile> {
    FileLibrary::new(OneFile {
        name: "a.dml",
        bytes: b"ring [ nodes 1 ]",
        manner,
    })
}

fn sink_of(alloc: Global, manner: Manner) -> StdSink<MemoryWriter> {
    StdSink::new(MemoryWriter {
        bytes: Vec::new(alloc),
        manner,
        calls: 0,
    })
}

#[test]
fn files_are_read_whole(rt: HostRuntime) -> Result<(), Fail> {
    let mut library = library_of(SLOW);
    let read = read_file(rt.alloc(), &mut library, "a.dml", 100);
    assert!(rt; matches!(&read, Ok(bytes) if bytes.as_slice() == b"ring [ nodes 1 ]".as_slice()));
    assert_eq!(rt; library.faults(), 0);
    Ok(())
}

#[test]
fn each_failed_read_is_a_fault(rt: HostRuntime) -> Result<(), Fail> {
    // sixteen bytes, three at a time, and the end: seven reads
    for failing in 0..7 {
        let mut library = library_of(Manner { most: 3, failing });
        let read = read_file(rt.alloc(), &mut library, "a.dml", 100);
        assert!(rt; matches!(read, Err(ReadEnd::Failed)));
        assert_eq!(rt; library.faults(), 1);
    }
    Ok(())
}

#[test]
fn missing_files_are_faults(rt: HostRuntime) -> Result<(), Fail> {
    let mut library = library_of(SLOW);
    let mut buffer = [0u8; 4];
    assert_eq!(rt; library.read(&mut buffer), Err(Failed));
    assert_eq!(rt; library.fetch("b.dml"), Err(Failed));
    assert_eq!(rt; library.faults(), 2);
    assert_eq!(rt; library.fetch("a.dml"), Ok(()));
    assert_eq!(rt; library.read(&mut buffer), Ok(3));
    assert_eq!(rt; &buffer[..3], b"rin".as_slice());
    assert_eq!(rt; library.faults(), 2);
    Ok(())
}

#[test]
fn slow_writers_get_everything(rt: HostRuntime) -> Result<(), Fail> {
    let mut sink = sink_of(rt.alloc(), SLOW);
    assert_eq!(rt; write_all(&mut sink, b"end 10 4\n"), Ok(()));
    assert_eq!(rt; sink.faults(), 0);
    assert_eq!(rt; sink.writer().bytes.as_slice(), b"end 10 4\n".as_slice());
    Ok(())
}

#[test]
fn failed_writes_are_faults(rt: HostRuntime) -> Result<(), Fail> {
    for failing in 0..3 {
        let mut sink = sink_of(rt.alloc(), Manner { most: 3, failing });
        assert_eq!(rt; write_all(&mut sink, b"end 10 4\n"), Err(Failed));
        assert_eq!(rt; sink.faults(), 1);
        let held = 3 * usize::try_from(failing)?;
        assert_eq!(rt; sink.writer().bytes.as_slice(), &b"end 10 4\n"[..held]);
    }
    Ok(())
}

#[test]
fn writers_that_take_nothing_are_faults(rt: HostRuntime) -> Result<(), Fail> {
    let mut sink = sink_of(
        rt.alloc(),
        Manner {
            most: 0,
            failing: u64::MAX,
        },
    );
    assert_eq!(rt; sink.write(b"x"), Err(Failed));
    assert_eq!(rt; sink.faults(), 1);
    assert_eq!(rt; sink.write(b""), Ok(0));
    assert_eq!(rt; sink.faults(), 1);
    Ok(())
}

#[test]
fn the_system_has_no_such_file(rt: HostRuntime) -> Result<(), Fail> {
    let mut library = FileLibrary::new(SystemFiles::new(&rt));
    assert_eq!(rt; library.fetch("there/is/no/such/file.dml"), Err(Failed));
    assert_eq!(rt; library.faults(), 1);
    Ok(())
}
