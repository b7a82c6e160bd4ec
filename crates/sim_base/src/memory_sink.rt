//! A sink in memory, for tests and for callers that want the bytes: it can be slow and it can fail.
ghost use Rattle.std.specs.Prelude.{◌≡◌, ◌≤◌, ◌<◌, ◌↔◌, [], length, take, IsErr, IsTrue, IfOk, OnErr};
ghost use Rattle.sim_base.specs.MemoryObjects.{SinkState, write_fails, bytes_taken, after_write};
ghost use Rattle.sim_base.specs.Outside.{Rose, Appends};

use crate::{Failed, Memory, Sink};
use std::alloc::Global;
use std::marker::Model;

/// A sink that appends to a buffer of its own, whose room was taken when it was made.
///
/// One write takes at most `most` bytes. A write fails where its number, counted from 0, is in
/// `failing`, or where it has bytes and no room is left.
#[derive(Drop)]
pub struct MemorySink {
    most: usize,
    room: usize,
    failing: Vec<u64>,
    calls: u64,
    faults: u64,
    bytes: Vec<u8>,
}

impl Model for MemorySink {
    ghost use Rattle.std.specs.Prelude.{◌≤◌, vec_len, vec_capacity};
    ghost use Rattle.sim_base.specs.MemoryObjects.{SinkState};

    ghost Value = { SinkState };

    ghost view = { λ s. record { most = s.most; room = s.room; failing = s.failing.items; calls = s.calls; faults = s.faults; bytes = s.bytes.items } };

    ghost invariant = { λ s. record { some : 1 ≤ s.most; within : vec_len s.bytes ≤ s.room; capacity : s.room ≤ vec_capacity s.bytes } };
}

impl MemorySink {
    /// A sink that holds nothing yet, with room for `room` bytes.
    pub fn new(
        alloc: Global,
        most: usize,
        room: usize,
        failing: Vec<u64>,
    ) -> Result<MemorySink, Memory>
        requires { 1 ≤ most }
        ensures { IfOk result (λ sink. sink ≡ (record { most = most; room = room; failing = failing.items; calls = 0; faults = 0; bytes = [] })) }
    {
        let bytes = Vec::with_capacity(alloc, room)?;
        Ok(MemorySink {
            most,
            room,
            failing,
            calls: 0,
            faults: 0,
            bytes,
        })
    }

    /// The bytes that it holds.
    pub fn bytes(&self) -> &[u8]
        ensures { result.now ≡ self.now.bytes }
    {
        self.bytes.as_slice()
    }
}

impl Sink for MemorySink {
    ghost use Rattle.std.specs.Prelude.{Some};

    ghost faults = { λ s. s.faults };

    ghost held = { λ s. Some s.bytes };

    fn faults(&self) -> u64 {
        self.faults
    }

    fn write(&mut self, piece: &[u8]) -> Result<usize, Failed>
        ensures never_falls { self.old.faults ≤ self.new.faults }
        ensures cause { OnErr result (Rose self.old.faults self.new.faults) }
        ensures most { IfOk result (λ n. n ≤ length piece.now) }
        ensures some { IfOk result (λ n. 0 < length piece.now → 0 < n) }
        ensures content { IfOk result (λ n. Appends (take n piece.now) (Some self.old.bytes) (Some self.new.bytes)) }
        ensures kept { OnErr result (Appends [] (Some self.old.bytes) (Some self.new.bytes)) }
        ensures state { self.new ≡ after_write self.old piece.now }
        ensures fails { IsErr result ↔ IsTrue (write_fails self.old piece.now) }
        ensures taken { IfOk result (λ n. n ≡ bytes_taken self.old piece.now) }
    {
        let fails = self.failing.contains(&self.calls)
            || (!piece.is_empty() && self.bytes.len() >= self.room);
        self.calls = self.calls.saturating_add(1);
        if fails {
            self.faults = self.faults.saturating_add(1);
            return Err(Failed);
        }
        let taken = piece.len().min(self.most.min(self.room - self.bytes.len()));
        if self.bytes.extend_from_slice(&piece[..taken]).is_err() {
            unreachable!();
        }
        Ok(taken)
    }
}
