//! The numbers of a report, summed as events come.
use crate::fields::{put_number_line, put_total_line};
use crate::total::Total;
use sim_base::Memory;
use ssf_model::{Entry, Line};
use std::marker::Model;

/// The greatest length of a report.
const REPORT_ROOM: usize = 374;

/// Sums over the lines of the events that were added. Contracts see the numbers of their report.
#[derive(Clone, Copy, Debug, PartialEq, Eq)]
pub struct Tally {
    events: u128,
    last: u64,
    sent: Total,
    dropped: Total,
    datagrams: Total,
    delivered: Total,
}

impl Model for Tally {
    ghost use Rattle.trace_writer.specs.Report.{Totals};

    ghost Value = { Totals };

    ghost view = { λ t. record { events = t.events; last = t.last; sent = t.sent; dropped = t.dropped; datagrams = t.datagrams; delivered = t.delivered } };

    ghost inverse = { λ t. record { events = t.events; last = t.last; sent = t.sent; dropped = t.dropped; datagrams = t.datagrams; delivered = t.delivered } };
}

impl Tally {
    ghost use Rattle.std.specs.Prelude.{◌≡◌, ◌+◌, ◌≤◌, ◌++◌, ◌∷◌, [], List, max, vec_len, IsOk, OnErr, OnOk};
    ghost use Rattle.std.specs.List.{fold};
    ghost use Rattle.std.specs.Vec.{vec_capacity};
    ghost use Rattle.ssf_model.specs.declared.event.Entry.{Entry};
    ghost use Rattle.trace_writer.specs.Report.{total_line, totals_of, report_with, capped};
    ghost use Rattle.trace_writer.specs.Tallying.{with_line, with_entry};

    /// The tally of no event.
    #[tactic(auto, unfolding(crate::specs::Report::totals_of))]
    pub fn new() -> Tally
        ensures { result ≡ totals_of [] }
    {
        Tally {
            events: 0,
            last: 0,
            sent: Total::new(),
            dropped: Total::new(),
            datagrams: Total::new(),
            delivered: Total::new(),
        }
    }

    /// Adds an executed event. The tally of some events becomes that of these and this one.
    #[tactic(auto, unfolding(crate::specs::Tallying::with_entry))]
    pub fn add(&mut self, entry: &Entry)
        ensures step { self.new ≡ with_entry self.old entry.now }
        ensures tally { (entries : List Entry) → self.old ≡ totals_of entries → self.new ≡ totals_of (entries ++ entry.now ∷ []) }
    {
        self.add_event(entry.key.time);
        self.add_lines(entry.lines.as_slice());
    }

    /// Adds executed events.
    pub(crate) fn add_all(&mut self, entries: &[Entry])
        ensures { self.new ≡ fold with_entry self.old entries.now }
    {
        for entry in entries {
            self.add(entry);
        }
    }

    /// Counts an event at this time.
    fn add_event(&mut self, time: u64)
        ensures { self.new ≡ record self.old { events = capped (self.old.events + 1); last = max self.old.last time } }
    {
        self.events = self.events.saturating_add(1);
        self.last = self.last.max(time);
    }

    /// Adds the lines of an event.
    fn add_lines(&mut self, lines: &[Line])
        ensures { self.new ≡ fold with_line self.old lines.now }
    {
        for line in lines {
            self.add_line(line);
        }
    }

    /// Adds a line.
    #[tactic(auto, unfolding(crate::specs::Tallying::with_line))]
    fn add_line(&mut self, line: &Line)
        ensures { self.new ≡ with_line self.old line.now }
    {
        match *line {
            Line::Sent { bytes, .. } => self.sent.add(bytes),
            Line::Dropped { bytes, .. } => self.dropped.add(bytes),
            Line::Udp { bytes, .. } => self.datagrams.add(bytes),
            Line::Delivered { bytes, .. } => self.delivered.add(bytes),
            Line::Entered { .. } => (),
        }
    }

    /// Appends the report. Without memory nothing is appended; with room for the text, 374 bytes at
    /// most, no memory is wanted.
    #[tactic(auto, unfolding(crate::specs::Report::report_with))]
    pub fn text(&self, out: &mut Vec<u8>) -> Result<(), Memory>
        ensures appended { OnOk result (out.new.items ≡ out.old.items ++ report_with self.now) }
        ensures kept { OnErr result (out.new.items ≡ out.old.items) }
        ensures room { vec_len out.old + 374 ≤ vec_capacity out.old → IsOk result }
    {
        out.reserve(REPORT_ROOM)?;
        put_number_line(out, b"events", self.events);
        put_number_line(out, b"last", self.last);
        put_total_line(out, b"sent", &self.sent);
        put_total_line(out, b"dropped", &self.dropped);
        put_total_line(out, b"udp", &self.datagrams);
        put_number_line(out, b"tcp", self.delivered.bytes);
        Ok(())
    }
}
