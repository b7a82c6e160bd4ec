//! What the actions of one event write and tell.

ghost use Rattle.std.specs.Prelude.{◌≡◌, ◌∷◌, ◌++◌, [], OnErr, OnOk};
ghost use Rattle.ssf_model.specs.declared.out.Written.TheVariants.{Channel};

use crate::Line;
use sim_base::Memory;
use std::alloc::Global;
use std::marker::Model;

/// A write of an action before it has a key: on an out-channel of its entity, or on the timer
/// channel of a process. `delay` is that of the write, in ticks.
#[derive(Clone, Copy, Debug)]
pub enum Written<P> {
    Channel {
        channel: u32,
        delay: u64,
        payload: P,
    },
    Timer {
        process: u32,
        delay: u64,
        ticket: u64,
    },
}

/// The writes and the lines of the actions of one event, each in the order in which they were made.
/// It is made once and cleared for each event. Contracts see the two lists.
#[derive(Drop)]
pub struct Out<P> {
    writes: Vec<Written<P>>,
    lines: Vec<Line>,
}

impl<P> Model for Out<P> {
    ghost use Rattle.ssf_model.specs.Output.{Output};

    ghost Value = { Output P };

    ghost view = { λ o. record { writes = o.writes.items; lines = o.lines.items } };
}

impl<P: Copy> Out<P> {
    /// Nothing written and nothing told; the lists will grow on this allocator.
    pub fn new(alloc: Global) -> Out<P>
        ensures { result ≡ record { writes = []; lines = [] } }
    {
        Out {
            writes: Vec::new(alloc),
            lines: Vec::new(alloc),
        }
    }

    /// Writes `payload` on an out-channel. Without memory nothing is written.
    pub fn write(&mut self, channel: u32, delay: u64, payload: P) -> Result<(), Memory>
        ensures written { OnOk result (self.new ≡ record self.old { writes = self.old.writes ++ Channel channel delay payload ∷ [] }) }
        ensures kept { OnErr result (self.new ≡ self.old) }
    {
        self.push(Written::Channel {
            channel,
            delay,
            payload,
        })
    }

    /// Adds a write of either kind. Without memory nothing is added.
    pub(crate) fn push(&mut self, written: Written<P>) -> Result<(), Memory>
        ensures written { OnOk result (self.new ≡ record self.old { writes = self.old.writes ++ written ∷ [] }) }
        ensures kept { OnErr result (self.new ≡ self.old) }
    {
        match self.writes.push(written) {
            Ok(()) => Ok(()),
            Err(_) => Err(Memory),
        }
    }

    /// Tells a line. Without memory nothing is told.
    pub fn line(&mut self, line: Line) -> Result<(), Memory>
        ensures told { OnOk result (self.new ≡ record self.old { lines = self.old.lines ++ line ∷ [] }) }
        ensures kept { OnErr result (self.new ≡ self.old) }
    {
        match self.lines.push(line) {
            Ok(()) => Ok(()),
            Err(_) => Err(Memory),
        }
    }

    /// The writes so far.
    pub fn writes(&self) -> &[Written<P>]
        ensures { result.now ≡ self.now.writes }
    {
        self.writes.as_slice()
    }

    /// The lines so far.
    pub fn lines(&self) -> &[Line]
        ensures { result.now ≡ self.now.lines }
    {
        self.lines.as_slice()
    }

    /// Forgets what was written and told, and keeps the memory.
    pub fn clear(&mut self)
        ensures { self.new ≡ record { writes = []; lines = [] } }
    {
        self.writes.clear();
        self.lines.clear();
    }
}
