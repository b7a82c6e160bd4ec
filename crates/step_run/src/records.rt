//! Writing what timelines have executed, piece by piece.

ghost use Rattle.std.specs.Prelude.{◌≡◌, ◌+◌, ◌≤◌, [], min, map, length, IfOk, OnOk, OnErr, Err};
ghost use Rattle.sim_base.specs.Outside.{Rose, Appends, AppendsPrefix};
ghost use Rattle.trace_writer.specs.Trace.{entries_text, end_line};
ghost use Rattle.trace_writer.specs.Report.{events_of};
ghost use Rattle.trace_writer.specs.Tallying.{with_entry};
ghost use Rattle.std.specs.List.{fold};
ghost use Rattle.trace_writer.specs.Merging.{CanMerge, HasRoom, entries_before, merged};
ghost use Rattle.core_rules.specs.Stepping.{without_below};
ghost use Rattle.core_rules.specs.Reading.{safe_bound_in};
ghost use Rattle.core_traces.specs.Kept.{history_in, histories_of};
ghost use Rattle.step_run.specs.Telling.{MostCounted, IsTallied};

use sim_base::{Memory, Sink, write_all};
use ssf_model::{Behaviour, Entry, Names};
use std::alloc::Global;
use std::marker::Model;
use sync_core::Core;
use timeline::Timeline;
use trace_writer::{Histories, MergeFault, Merger, OneHistory, Tally, end_line};

/// The room of the line that ends a trace, in bytes.
const END_ROOM: usize = 64;

/// The histories of timelines, in the order of their numbers. Contracts see the lists.
#[derive(Drop)]
struct Table<'a> {
    histories: Vec<OneHistory<'a>>,
}

impl<'a> Histories for Table<'a> {
    ghost lists = { λ h. h.histories.items };

    fn count(&self) -> usize {
        self.histories.len()
    }

    fn history(&self, i: usize) -> &[Entry] {
        self.histories[i].history(0)
    }
}

/// The histories of these timelines.
fn table_of<'a, B: Behaviour>(
    alloc: Global,
    timelines: &'a [Timeline<B>],
) -> Result<Table<'a>, Memory>
    ensures { IfOk result (λ table. table.histories.items ≡ map history_in timelines.now) }
{
    let mut histories = Vec::new(alloc);
    for timeline in timelines {
        histories.push(OneHistory::new(timeline.history()))?;
    }
    Ok(Table { histories })
}

/// Writes the records of a run while it goes on. Its room is taken when it is made, but for a table of the histories,
/// one place a timeline, which is made for each piece. Contracts see the room, how many records were written, up to
/// 2^64 - 1, and the time below which all were.
#[derive(Drop)]
pub struct Records {
    merger: Merger,
    end: Vec<u8>,
    count: u64,
    below: u64,
}

impl Model for Records {
    ghost use Rattle.step_run.specs.Telling.{Told};

    ghost Value = { Told };

    ghost view = { λ r. record { room = r.merger; count = r.count; below = r.below } };
}

impl Records {
    /// Takes the room for writing: for lines with these names, for so many timelines, and for the line
    /// that ends a trace.
    ///
    /// # Errors
    /// `Memory`.
    pub fn new(alloc: Global, names: &Names, timelines: u32) -> Result<Records, Memory>
        ensures room { IfOk result (λ records. HasRoom names.now timelines records.room) }
        ensures none { IfOk result (λ records. (records.count ≡ 0) × (records.below ≡ 0)) }
    {
        let merger = Merger::new(alloc, names, timelines)?;
        let end = Vec::with_capacity(alloc, END_ROOM)?;
        Ok(Records {
            merger,
            end,
            count: 0,
            below: 0,
        })
    }

    /// The time below which all records were written, in ticks.
    pub fn below(&self) -> u64
        ensures { result ≡ self.now.below }
    {
        self.below
    }

    /// Writes the records of all entries before the safe bound, in the order of their keys, adds them to
    /// the tally, and gives them up.
    ///
    /// # Errors
    /// - `WriteFault` only where the sink's `faults` rose in this call. Then a part of the text from its
    ///   beginning was appended; what counts as written, the tally and the histories stay as they were.
    /// - `Memory` where there was none. Then nothing has changed.
    pub fn write_piece<B: Behaviour, K: Sink>(
        &mut self,
        alloc: Global,
        names: &Names,
        core: &mut Core<B>,
        tally: &mut Tally,
        sink: &mut K,
    ) -> Result<(), MergeFault>
        requires room { HasRoom names.now (length core.old.timelines) self.old.room }
        requires histories { CanMerge names.now (histories_of core.old) }
        ensures bound { OnOk result (self.new.below ≡ safe_bound_in core.old) }
        ensures text { OnOk result (Appends (entries_text names.now (merged (histories_of core.old) (safe_bound_in core.old))) (K.held sink.old) (K.held sink.new)) }
        ensures part { result ≡ Err MergeFault.WriteFault → AppendsPrefix (entries_text names.now (merged (histories_of core.old) (safe_bound_in core.old))) (K.held sink.old) (K.held sink.new) }
        ensures cause { result ≡ Err MergeFault.WriteFault → Rose (K.faults sink.old) (K.faults sink.new) }
        ensures never_falls { K.faults sink.old ≤ K.faults sink.new }
        ensures count { OnOk result (self.new.count ≡ min (self.old.count + length (merged (histories_of core.old) (safe_bound_in core.old))) MostCounted) }
        ensures tally { OnOk result (IsTallied tally.old tally.new (merged (histories_of core.old) (safe_bound_in core.old))) }
        ensures given_up { OnOk result (core.new ≡ without_below (safe_bound_in core.old) core.old) }
        ensures room { (self.old.room.line ≤ self.new.room.line) × (self.old.room.places ≤ self.new.room.places) }
        ensures nothing { result ≡ Err MergeFault.Memory → Appends [] (K.held sink.old) (K.held sink.new) }
        ensures untold { OnErr result (tally.new ≡ tally.old) }
        ensures stands { OnErr result ((self.new.count ≡ self.old.count) × (self.new.below ≡ self.old.below)) }
        ensures kept { result ≡ Err MergeFault.Memory → self.new ≡ self.old }
        ensures same { OnErr result (core.new ≡ core.old) }
    {
        let below = core.safe_bound();
        self.write_below(alloc, names, core, below, tally, sink)?;
        core.give_up(below);
        Ok(())
    }

    /// Writes the records of all entries with times below this one, in ticks, in the order of their keys, and
    /// adds them to the tally.
    ///
    /// # Errors
    /// - `WriteFault` only where the sink's `faults` rose in this call. Then a part of the text from its
    ///   beginning was appended; what counts as written and the tally stay as they were.
    /// - `Memory` where there was none. Then nothing has changed.
    pub fn write_below<B: Behaviour, K: Sink>(
        &mut self,
        alloc: Global,
        names: &Names,
        core: &Core<B>,
        below: u64,
        tally: &mut Tally,
        sink: &mut K,
    ) -> Result<(), MergeFault>
        requires room { HasRoom names.now (length core.now.timelines) self.old.room }
        requires histories { CanMerge names.now (histories_of core.now) }
        ensures bound { OnOk result (self.new.below ≡ below) }
        ensures text { OnOk result (Appends (entries_text names.now (merged (histories_of core.now) below)) (K.held sink.old) (K.held sink.new)) }
        ensures part { result ≡ Err MergeFault.WriteFault → AppendsPrefix (entries_text names.now (merged (histories_of core.now) below)) (K.held sink.old) (K.held sink.new) }
        ensures cause { result ≡ Err MergeFault.WriteFault → Rose (K.faults sink.old) (K.faults sink.new) }
        ensures never_falls { K.faults sink.old ≤ K.faults sink.new }
        ensures count { OnOk result (self.new.count ≡ min (self.old.count + length (merged (histories_of core.now) below)) MostCounted) }
        ensures tally { OnOk result (IsTallied tally.old tally.new (merged (histories_of core.now) below)) }
        ensures room { (self.old.room.line ≤ self.new.room.line) × (self.old.room.places ≤ self.new.room.places) }
        ensures nothing { result ≡ Err MergeFault.Memory → Appends [] (K.held sink.old) (K.held sink.new) }
        ensures untold { OnErr result (tally.new ≡ tally.old) }
        ensures stands { OnErr result ((self.new.count ≡ self.old.count) × (self.new.below ≡ self.old.below)) }
        ensures kept { result ≡ Err MergeFault.Memory → self.new ≡ self.old }
    {
        let count = self.write_before(alloc, names, core, below, sink)?;
        add_before(core.histories(), below, tally);
        self.count = self.count.saturating_add(count);
        self.below = below;
        Ok(())
    }

    /// Writes the records of all entries with times below the bound, and answers how many there are.
    fn write_before<B: Behaviour, K: Sink>(
        &mut self,
        alloc: Global,
        names: &Names,
        core: &Core<B>,
        below: u64,
        sink: &mut K,
    ) -> Result<u64, MergeFault>
        requires room { HasRoom names.now (length core.now.timelines) self.old.room }
        requires histories { CanMerge names.now (histories_of core.now) }
        ensures many { IfOk result (λ count. count ≡ length (merged (histories_of core.now) below)) }
        ensures text { OnOk result (Appends (entries_text names.now (merged (histories_of core.now) below)) (K.held sink.old) (K.held sink.new)) }
        ensures part { result ≡ Err MergeFault.WriteFault → AppendsPrefix (entries_text names.now (merged (histories_of core.now) below)) (K.held sink.old) (K.held sink.new) }
        ensures cause { result ≡ Err MergeFault.WriteFault → Rose (K.faults sink.old) (K.faults sink.new) }
        ensures never_falls { K.faults sink.old ≤ K.faults sink.new }
        ensures room { (self.old.room.line ≤ self.new.room.line) × (self.old.room.places ≤ self.new.room.places) }
        ensures count { (self.new.count ≡ self.old.count) × (self.new.below ≡ self.old.below) }
        ensures nothing { result ≡ Err MergeFault.Memory → Appends [] (K.held sink.old) (K.held sink.new) }
        ensures kept { result ≡ Err MergeFault.Memory → self.new ≡ self.old }
    {
        let table = table_of(alloc, core.histories())?;
        match self.merger.write(names, &table, below, sink) {
            Ok(count) => Ok(count),
            Err(_failed) => Err(MergeFault::WriteFault),
        }
    }

    /// Writes the line that ends the trace of a run up to the time `until`, in ticks, before which so many
    /// events went.
    ///
    /// # Errors
    /// - `WriteFault` only where the sink's `faults` rose in this call. Then a part of the line from its
    ///   beginning was appended.
    /// - `Memory` where there was none. Nothing was appended.
    pub fn write_end<K: Sink>(
        &mut self,
        until: u64,
        before: u64,
        sink: &mut K,
    ) -> Result<(), MergeFault>
        ensures text { OnOk result (Appends (end_line until (min (before + self.old.count) MostCounted)) (K.held sink.old) (K.held sink.new)) }
        ensures part { result ≡ Err MergeFault.WriteFault → AppendsPrefix (end_line until (min (before + self.old.count) MostCounted)) (K.held sink.old) (K.held sink.new) }
        ensures cause { result ≡ Err MergeFault.WriteFault → Rose (K.faults sink.old) (K.faults sink.new) }
        ensures nothing { result ≡ Err MergeFault.Memory → Appends [] (K.held sink.old) (K.held sink.new) }
        ensures never_falls { K.faults sink.old ≤ K.faults sink.new }
        ensures kept { self.new ≡ self.old }
    {
        self.end.clear();
        end_line(until, before.saturating_add(self.count), &mut self.end)?;
        write_all(sink, &self.end)?;
        Ok(())
    }
}

/// Adds all entries of these timelines with times below the bound to the tally.
fn add_before<B: Behaviour>(timelines: &[Timeline<B>], below: u64, tally: &mut Tally)
    ensures { tally.new ≡ fold with_entry tally.old (entries_before below (events_of (map history_in timelines.now))) }
{
    for timeline in timelines {
        add_history(timeline.history(), below, tally);
    }
}

/// Adds the entries with times below the bound to the tally.
fn add_history(entries: &[Entry], below: u64, tally: &mut Tally)
    ensures { tally.new ≡ fold with_entry tally.old (entries_before below entries.now) }
{
    for entry in entries {
        if entry.key.time < below {
            tally.add(entry);
        }
    }
}
