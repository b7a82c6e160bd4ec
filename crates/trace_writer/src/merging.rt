//! The text of several histories, merged in the order of their keys.
ghost use Rattle.std.specs.Prelude.{◌≡◌, ◌+◌, ◌≤◌, ◌⊎◌, [], length, IfOk, IfErr, OnOk, OnErr};
ghost use Rattle.std.specs.Vec.{vec_capacity};
ghost use Rattle.std.specs.BinaryHeap.{heap_items, heap_len, heap_capacity, IsHeap};
ghost use Rattle.sim_base.specs.Outside.{Rose, Appends, AppendsPrefix};
ghost use Rattle.trace_writer.specs.Trace.{entries_text};
ghost use Rattle.trace_writer.specs.Heads.{AreHeads, head_order};
ghost use Rattle.trace_writer.specs.Merging.{CanMerge, HasRoom, longest_name, merged};
ghost use Rattle.trace_writer.specs.Sending.{Sends};

use crate::Histories;
use crate::gathering::{LINE_ROOM, flush, send_record};
use crate::heads::{Head, begin, take_next};
use sim_base::{Failed, Memory, Sink};
use ssf_model::Names;
use std::alloc::Global;
use std::cmp::Reverse;
use std::collections::BinaryHeap;
use std::marker::Model;

/// How many bytes the buffer for lines has besides the room for the longest one.
const BUFFER: usize = 65_536;

/// Why histories were not written.
#[derive(Clone, Copy, Debug, PartialEq, Eq)]
pub enum MergeFault {
    /// The sink failed; its count of faults rose.
    WriteFault,
    /// There was no memory.
    Memory,
}

impl From<Memory> for MergeFault {
    ghost use Rattle.std.specs.Prelude.{◌≡◌};
    ghost use Rattle.trace_writer.specs.declared.merging.MergeFault.TheVariants.{Memory as NoMemory};

    ghost from_gives = { λ _ fault. fault ≡ NoMemory };

    fn from(_memory: Memory) -> MergeFault {
        MergeFault::Memory
    }
}

impl From<Failed> for MergeFault {
    ghost use Rattle.std.specs.Prelude.{◌≡◌};
    ghost use Rattle.trace_writer.specs.declared.merging.MergeFault.TheVariants.{WriteFault};

    ghost from_gives = { λ _ fault. fault ≡ WriteFault };

    fn from(_failed: Failed) -> MergeFault {
        MergeFault::WriteFault
    }
}

/// Writes merged histories. Contracts see its room, which is taken when it is made.
#[derive(Drop)]
pub struct Merger {
    gathered: Vec<u8>,
    heads: BinaryHeap<Reverse<Head>>,
}

impl Model for Merger {
    ghost use Rattle.std.specs.Vec.{vec_capacity};
    ghost use Rattle.std.specs.BinaryHeap.{heap_capacity};
    ghost use Rattle.trace_writer.specs.Merging.{Room};

    ghost Value = { Room };

    ghost view = { λ m. record { line = vec_capacity m.gathered; places = heap_capacity m.heads } };
}

impl Merger {
    /// Takes room for a line with the longest of these names, and for a place in each of so many
    /// histories. The buffer in which lines are gathered has 64 KiB more than that line.
    pub fn new(alloc: Global, names: &Names, timelines: u32) -> Result<Merger, Memory>
        ensures { IfOk result (λ room. HasRoom names.now timelines room) }
    {
        Merger::with_places(alloc, names, timelines as usize)
    }

    /// The same for any number of histories.
    fn with_places(alloc: Global, names: &Names, places: usize) -> Result<Merger, Memory>
        ensures { IfOk result (λ room. HasRoom names.now places room) }
    {
        let room = longest_of(names)
            .checked_add(LINE_ROOM + BUFFER)
            .ok_or(Memory)?;
        Ok(Merger {
            gathered: Vec::with_capacity(alloc, room)?,
            heads: BinaryHeap::with_capacity(alloc, places)?,
        })
    }

    /// Writes the records of all entries with a time below the bound, in the order of their keys, and
    /// answers how many there are. Lines are gathered, and after an `Ok` all are on the sink. It takes
    /// no memory, and keeps its room.
    ///
    /// # Errors
    /// `Failed` only where the sink's `faults` rose in this call. Then a part of the text from its
    /// beginning was appended.
    #[tactic(auto, using(crate::proofs::Sends::sends_end, crate::proofs::Sends::part_end))]
    pub fn write<K: Sink, H: Histories>(
        &mut self,
        names: &Names,
        histories: &H,
        below: u64,
        sink: &mut K,
    ) -> Result<u64, Failed>
        requires room { HasRoom names.now (length (H.lists histories.now)) self.old }
        requires histories { CanMerge names.now (H.lists histories.now) }
        ensures count { IfOk result (λ count. count ≡ length (merged (H.lists histories.now) below)) }
        ensures text { OnOk result (Appends (entries_text names.now (merged (H.lists histories.now) below)) (K.held sink.old) (K.held sink.new)) }
        ensures part { OnErr result (AppendsPrefix (entries_text names.now (merged (H.lists histories.now) below)) (K.held sink.old) (K.held sink.new)) }
        ensures cause { OnErr result (Rose (K.faults sink.old) (K.faults sink.new)) }
        ensures never_falls { K.faults sink.old ≤ K.faults sink.new }
        ensures room { (self.old.line ≤ self.new.line) × (self.old.places ≤ self.new.places) }
    {
        self.heads.clear();
        self.gathered.clear();
        begin(&mut self.heads, histories, below);
        let count = send_rest(
            &mut self.gathered,
            &mut self.heads,
            names,
            histories,
            below,
            sink,
        )?;
        flush(&mut self.gathered, sink)?;
        Ok(count)
    }
}

/// Writes the records of all entries of the histories with a time below the bound, in the order of
/// their keys, and answers how many there are.
///
/// # Errors
/// - `WriteFault` only where the sink's `faults` rose in this call.
/// - `Memory` where there was none.
///
/// Then a part of the text from its beginning was appended.
pub fn merge<K: Sink, H: Histories>(
    alloc: Global,
    names: &Names,
    histories: &H,
    below: u64,
    sink: &mut K,
) -> Result<u64, MergeFault>
    requires { CanMerge names.now (H.lists histories.now) }
    ensures count { IfOk result (λ count. count ≡ length (merged (H.lists histories.now) below)) }
    ensures text { OnOk result (Appends (entries_text names.now (merged (H.lists histories.now) below)) (K.held sink.old) (K.held sink.new)) }
    ensures part { OnErr result (AppendsPrefix (entries_text names.now (merged (H.lists histories.now) below)) (K.held sink.old) (K.held sink.new)) }
    ensures cause { IfErr result (λ fault. (fault ≡ MergeFault.Memory) ⊎ Rose (K.faults sink.old) (K.faults sink.new)) }
    ensures never_falls { K.faults sink.old ≤ K.faults sink.new }
{
    let mut merger = Merger::with_places(alloc, names, histories.count())?;
    let count = merger.write(names, histories, below, sink)?;
    Ok(count)
}

/// The length of the longest name.
fn longest_of(names: &Names) -> usize
    ensures { result ≡ longest_name names.now }
{
    let mut longest: usize = 0;
    for name in names.names.as_slice() {
        longest = longest.max(name.as_bytes().len());
    }
    longest
}

/// Gathers the records of all entries below the bound, where the heap has the first of each history, and
/// answers how many there are. What has no room is written.
fn send_rest<K: Sink, H: Histories>(
    gathered: &mut Vec<u8>,
    heads: &mut BinaryHeap<Reverse<Head>>,
    names: &Names,
    histories: &H,
    below: u64,
    sink: &mut K,
) -> Result<u64, Failed>
    requires empty { gathered.old.items ≡ [] }
    requires line { longest_name names.now + LINE_ROOM ≤ vec_capacity gathered.old }
    requires room { heap_len heads.old ≤ heap_capacity heads.old }
    requires heap { IsHeap head_order (heap_items heads.old) }
    requires heads { AreHeads (H.lists histories.now) below (λ _. 0) (length (H.lists histories.now)) (heap_items heads.old) }
    requires histories { CanMerge names.now (H.lists histories.now) }
    ensures count { IfOk result (λ count. count ≡ length (merged (H.lists histories.now) below)) }
    ensures sent { OnOk result (Sends (entries_text names.now (merged (H.lists histories.now) below)) gathered.new.items (K.held sink.old) (K.held sink.new)) }
    ensures part { OnErr result (AppendsPrefix (entries_text names.now (merged (H.lists histories.now) below)) (K.held sink.old) (K.held sink.new)) }
    ensures cause { OnErr result (Rose (K.faults sink.old) (K.faults sink.new)) }
    ensures never_falls { K.faults sink.old ≤ K.faults sink.new }
    ensures capacity { vec_capacity gathered.old ≤ vec_capacity gathered.new }
    ensures places { heap_capacity heads.old ≤ heap_capacity heads.new }
{
    let mut count = 0;
    while let Some(entry) = take_next(heads, histories, below) {
        send_record(names, entry, gathered, sink)?;
        count += 1;
    }
    Ok(count)
}
