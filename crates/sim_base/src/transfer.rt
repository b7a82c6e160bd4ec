//! Whole files read from a library, and whole texts written to a sink.
ghost use Rattle.std.specs.Prelude.{◌≡◌, ◌≤◌, ◌<◌, ◌^◌, vec_len, IfOk, OnOk, OnErr, IsErrOf};
ghost use Rattle.sim_base.specs.Outside.{Rose, Appends, AppendsPrefix, IsFile, IsLonger};

use crate::{Failed, Library, Memory, Sink};
use std::alloc::{AllocError, Global};

/// How many bytes are asked of a library at a time.
const CHUNK: usize = 4096;

/// Why a file was not read to its end.
#[derive(Clone, Copy, Debug, PartialEq, Eq)]
pub enum ReadEnd {
    /// The library failed; its count of faults rose.
    Failed,
    /// The file has more bytes than were asked for at the most.
    TooLong,
    /// There was no memory.
    Memory,
}

impl From<AllocError> for ReadEnd {
    ghost use Rattle.std.specs.Prelude.{◌≡◌};
    ghost use Rattle.sim_base.specs.declared.transfer.ReadEnd.TheVariants.{Memory};

    ghost from_gives = { λ _ result. result ≡ Memory };

    fn from(_error: AllocError) -> ReadEnd {
        ReadEnd::Memory
    }
}

/// Writes all these bytes to the sink.
///
/// # Errors
/// `Failed` only where the sink's `faults` rose in this call. Then a part of the bytes from their
/// beginning was appended.
pub fn write_all<K: Sink>(sink: &mut K, bytes: &[u8]) -> Result<(), Failed>
    ensures all { OnOk result (Appends bytes.now (K.held sink.old) (K.held sink.new)) }
    ensures part { OnErr result (AppendsPrefix bytes.now (K.held sink.old) (K.held sink.new)) }
    ensures cause { OnErr result (Rose (K.faults sink.old) (K.faults sink.new)) }
    ensures never_falls { K.faults sink.old ≤ K.faults sink.new }
{
    let mut written = 0;
    while written < bytes.len() {
        written += sink.write(&bytes[written..])?;
    }
    Ok(())
}

/// Reads the whole file of this name, of at most `most` bytes.
///
/// # Errors
/// - `Failed` only where the library's `faults` rose in this call.
/// - `TooLong` exactly where more than `most` bytes were read.
/// - `Memory` where there was none.
pub fn read_file<L: Library>(
    alloc: Global,
    library: &mut L,
    name: &str,
    most: usize,
) -> Result<Vec<u8>, ReadEnd>
    requires { most < 2 ^ 62 }
    ensures whole { IfOk result (λ bytes. IsFile (L.files library.old) name.now bytes.items) }
    ensures most { IfOk result (λ bytes. vec_len bytes ≤ most) }
    ensures failed { IsErrOf result ReadEnd.Failed → Rose (L.faults library.old) (L.faults library.new) }
    ensures too_long { IsErrOf result ReadEnd.TooLong → IsLonger (L.files library.old) name.now most }
    ensures never_falls { L.faults library.old ≤ L.faults library.new }
    ensures same_files { L.files library.new ≡ L.files library.old }
{
    if library.fetch(name).is_err() {
        return Err(ReadEnd::Failed);
    }
    let mut bytes = Vec::new(alloc);
    let mut chunk = [0u8; CHUNK];
    loop {
        match library.read(&mut chunk) {
            Err(Failed) => return Err(ReadEnd::Failed),
            Ok(0) => return Ok(bytes),
            Ok(count) => bytes.extend_from_slice(&chunk[..count])?,
        }
        if bytes.len() > most {
            return Err(ReadEnd::TooLong);
        }
    }
}
