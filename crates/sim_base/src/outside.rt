//! The outside as traits. Each object has a count of faults (or stops) that never falls; a failure
//! comes only where that count rose. What an object holds is told where it can be told.
ghost use Rattle.std.specs.Prelude.{◌≡◌, ℕ, ◌+◌, ◌<◌, ◌≤◌, List, [], ◌++◌, length, take, Option, Some, IsTrue, ◌⊎◌, IfOk, IfSome, OnOk, OnErr};
ghost use Rattle.sim_base.specs.Outside.{Files, Rose, Appends, Fetches, Reads};

use std::alloc::{AllocError, AllocFailed};

/// There was no memory for what was asked.
#[derive(Clone, Copy, Debug, PartialEq, Eq)]
pub struct Memory;

impl From<AllocError> for Memory {
    fn from(_error: AllocError) -> Memory {
        Memory
    }
}

impl<T: Drop> From<AllocFailed<T>> for Memory {
    fn from(_refused: AllocFailed<T>) -> Memory {
        Memory
    }
}

/// The outside failed: a read, a fetch or a write did not succeed.
#[derive(Clone, Copy, Debug, PartialEq, Eq)]
pub struct Failed;

/// Named files of bytes, one of which is current and read from its beginning.
pub trait Library {
    /// How often the library has failed.
    ghost faults: { Self → ℕ };

    /// The files, where they are told.
    ghost files: { Self → Option Files };

    /// The bytes of the current file that are still to be read, where they are told.
    ghost ahead: { Self → Option (List ℕ) };

    /// How often a call has failed. It stands still at its type's end.
    fn faults(&self) -> u64
        ensures { result ≡ faults self.now };

    /// Makes the file of this name the current one, at its beginning.
    ///
    /// # Errors
    /// `Failed` only where `faults` rose in this call.
    fn fetch(&mut self, name: &str) -> Result<(), Failed>
        ensures never_falls { faults self.old ≤ faults self.new }
        ensures cause { OnErr result (Rose (faults self.old) (faults self.new)) }
        ensures same_files { files self.new ≡ files self.old }
        ensures content { OnOk result (Fetches (files self.old) name.now (ahead self.new)) };

    /// Reads the next bytes of the current file into the beginning of `buf`, and answers how many.
    /// Zero into a buffer that is not empty is the end of the file.
    ///
    /// # Errors
    /// `Failed` only where `faults` rose in this call. Nothing is then said of the current file
    /// until the next `fetch` that succeeds.
    fn read(&mut self, buf: &mut [u8]) -> Result<usize, Failed>
        ensures never_falls { faults self.old ≤ faults self.new }
        ensures cause { OnErr result (Rose (faults self.old) (faults self.new)) }
        ensures same_files { files self.new ≡ files self.old }
        ensures most { IfOk result (λ n. n ≤ length buf.old) }
        ensures content { IfOk result (λ n. Reads n buf.new (ahead self.old) (ahead self.new)) };
}

/// A place to which bytes are appended.
pub trait Sink {
    /// How often the sink has failed.
    ghost faults: { Self → ℕ };

    /// The bytes that it holds, where they are told.
    ghost held: { Self → Option (List ℕ) };

    /// How often a write has failed. It stands still at its type's end.
    fn faults(&self) -> u64
        ensures { result ≡ faults self.now };

    /// Appends some bytes from the beginning of `piece`, and answers how many: at least one of a
    /// piece that is not empty.
    ///
    /// # Errors
    /// `Failed` only where `faults` rose in this call, and then nothing was appended.
    fn write(&mut self, piece: &[u8]) -> Result<usize, Failed>
        ensures never_falls { faults self.old ≤ faults self.new }
        ensures cause { OnErr result (Rose (faults self.old) (faults self.new)) }
        ensures most { IfOk result (λ n. n ≤ length piece.now) }
        ensures some { IfOk result (λ n. 0 < length piece.now → 0 < n) }
        ensures content { IfOk result (λ n. Appends (take n piece.now) (held self.old) (held self.new)) }
        ensures kept { OnErr result (Appends [] (held self.old) (held self.new)) };
}

/// What lets a worker go on, or stops the run.
pub trait Gate {
    /// How often the gate has stopped a worker.
    ghost stops: { Self → ℕ };

    /// How often `may_go` has answered false. It stands still at its type's end.
    fn stops(&self) -> u64
        ensures { result ≡ stops self.now };

    /// Whether the worker may go on with this timeline, whose lower bound in ticks is `bound`.
    /// False only where `stops` rose in this call.
    fn may_go(&mut self, timeline: u32, bound: u64) -> bool
        ensures never_falls { stops self.old ≤ stops self.new }
        ensures cause { IsTrue result ⊎ Rose (stops self.old) (stops self.new) };
}
