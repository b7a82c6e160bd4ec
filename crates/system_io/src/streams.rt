//! Streams of bytes: a sink over a writer.
ghost use Rattle.std.specs.Prelude.{◌≡◌, ◌≤◌};
ghost use Rattle.sim_base.specs.Outside.{Rose};

use sim_base::{Failed, Sink};
use std::io::Write;

/// A sink over a writer, such as standard output.
#[derive(Drop)]
pub struct StdSink<W: Write + Drop> {
    writer: W,
    faults: u64,
}

impl<W: Write + Drop> StdSink<W> {
    /// A sink over this writer.
    pub fn new(writer: W) -> StdSink<W> {
        StdSink { writer, faults: 0 }
    }

    /// The writer.
    #[cfg(test)]
    pub fn writer(&self) -> &W {
        &self.writer
    }

    /// Counts a failure.
    fn failed(&mut self) -> Failed
        ensures cause { Rose self.old.faults self.new.faults }
        ensures never_falls { self.old.faults ≤ self.new.faults }
        ensures writer { self.new.writer ≡ self.old.writer }
    {
        self.faults = self.faults.saturating_add(1);
        Failed
    }
}

impl<W: Write + Drop> Sink for StdSink<W> {
    ghost faults = { λ s. s.faults };

    ghost held = { λ s. W.Write.contents s.writer };

    fn faults(&self) -> u64 {
        self.faults
    }

    fn write(&mut self, piece: &[u8]) -> Result<usize, Failed> {
        match self.writer.write(piece) {
            Ok(0) if !piece.is_empty() => Err(self.failed()),
            Ok(count) => Ok(count),
            Err(_unwritten) => Err(self.failed()),
        }
    }
}
