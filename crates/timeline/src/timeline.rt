//! The timeline itself, and what it tells of itself.

ghost use Rattle.std.specs.Prelude.{◌≡◌, length};
ghost use Rattle.event_order.specs.Pending.{Among};
ghost use Rattle.sync_rules.specs.Bounds.{head_time};
ghost use Rattle.timeline_parts.specs.Tables.{numbers_of};
ghost use Rattle.timeline_parts.specs.Sending.{written_of};
ghost use Rattle.timeline.specs.View.{time_in};
ghost use Rattle.timeline.specs.Holding.{bound_in, holder_in, low_in, ahead_in, is_done, is_over, taken_of, held_of, IsInOrder};

use crate::answers::Holder;
use pending_queue::Pending;
use sim_base::ListOf;
use ssf_model::{Behaviour, Entity, Entry, Event, Mapping, Out};
use std::alloc::Global;
use std::marker::Model;
use timeline_parts::{Cross, Desk, InEnd, Routes, place_of};

/// A timeline: its entities, its pending events, the ends of its channels, and what it executed.
#[derive(Drop)]
pub struct Timeline<B: Behaviour> {
    pub(crate) alloc: Global,
    pub(crate) until: u64,
    pub(crate) budget: u64,
    pub(crate) entities: Vec<(u32, Entity<B>)>,
    pub(crate) inside: ListOf<Mapping>,
    pub(crate) ins: ListOf<Cross>,
    pub(crate) outs: ListOf<Cross>,
    pub(crate) routes: Routes,
    pub(crate) in_ends: Vec<(u32, InEnd)>,
    pub(crate) desk: Desk<B::Payload>,
    pub(crate) pending: Pending<Event<B::Payload>>,
    pub(crate) entered: u64,
    pub(crate) bound: u64,
    pub(crate) holder: Holder,
    pub(crate) arrival: u64,
    pub(crate) executed: u64,
    pub(crate) spent: bool,
    pub(crate) history: Vec<Entry>,
    pub(crate) out: Out<B::Payload>,
}

impl<B: Behaviour> Model for Timeline<B> {
    ghost use Rattle.timeline_parts.specs.RouteMap.{route};
    ghost use Rattle.timeline.specs.View.{TimelineOf};
    ghost use Rattle.timeline.specs.Holding.{IsKept};

    ghost Value = { TimelineOf B B.State B.Payload };

    ghost view = { λ t. record { until = t.until; budget = t.budget; entities = t.entities.items; counts = t.desk.counts.items; inside = t.inside; ins = t.ins; outs = t.outs; in_ends = t.in_ends.items; out_ends = t.desk.ends.items; pending = t.pending.items; spare = t.pending.spare; entered = t.entered; arrival = t.arrival; executed = t.executed; spent = t.spent; history = t.history.items } };

    ghost invariant = { λ t. IsKept (record { until = t.until; budget = t.budget; entities = t.entities.items; counts = t.desk.counts.items; inside = t.inside; ins = t.ins; outs = t.outs; in_ends = t.in_ends.items; out_ends = t.desk.ends.items; pending = t.pending.items; spare = t.pending.spare; entered = t.entered; arrival = t.arrival; executed = t.executed; spent = t.spent; history = t.history.items }) (route t.routes.by_out) t.bound t.holder };
}

impl<B: Behaviour> Timeline<B> {
    /// The mappings that come from other timelines.
    pub fn ins(&self) -> &[Cross]
        ensures { result.now ≡ self.now.ins }
    {
        self.ins.as_slice()
    }

    /// The mappings that go to other timelines.
    pub fn outs(&self) -> &[Cross]
        ensures { result.now ≡ self.now.outs }
    {
        self.outs.as_slice()
    }

    /// Whether an earlier `execute` found no memory.
    pub fn spent(&self) -> bool
        ensures { result ≡ self.now.spent }
    {
        self.spent
    }

    /// The window that was last entered, in ticks, and 0 at first.
    pub fn entered(&self) -> u64
        ensures { result ≡ self.now.entered }
    {
        self.entered
    }

    /// How many events were executed.
    pub fn executed(&self) -> u64
        ensures { result ≡ self.now.executed }
    {
        self.executed
    }

    /// The entries of the executed events, from the first one that was not given up.
    pub fn history(&self) -> &[Entry]
        ensures { result.now ≡ self.now.history }
    {
        self.history.as_slice()
    }

    /// How many events are pending.
    pub fn pending(&self) -> usize
        ensures { result ≡ length self.now.pending }
    {
        self.pending.len()
    }

    /// The entities with their numbers.
    pub fn entities(&self) -> &[(u32, Entity<B>)]
        ensures { result.now ≡ self.now.entities }
    {
        self.entities.as_slice()
    }

    /// The time before which events are executed, in ticks, and what holds it there: the first
    /// channel whose appointment it is, and else the window.
    pub fn bound(&self) -> (u64, Holder)
        ensures bound { result.0 ≡ bound_in self.now }
        ensures holder { result.1 ≡ holder_in self.now }
    {
        (self.bound, self.holder)
    }

    /// The least of the bound and the time of the first pending event, in ticks.
    pub fn lower_bound(&self) -> u64
        ensures { result ≡ low_in self.now }
    {
        head_time_of(&self.pending, self.bound)
    }

    /// The least time, in ticks, of what is pending, and of what was written to other timelines since
    /// the window was entered and arrives from this window on; at most a tick after the end.
    pub fn least_ahead(&self) -> u64
        ensures { result ≡ ahead_in self.now }
    {
        head_time_of(&self.pending, self.until + 1).min(self.arrival)
    }

    /// Whether no pending event is in time.
    pub fn done(&self) -> bool
        ensures { result ≡ is_done self.now }
    {
        match self.pending.least() {
            Some(event) => event.key.time > self.until,
            None => true,
        }
    }

    /// Whether the first pending event could be executed but for the budget, which is spent.
    pub fn over(&self) -> bool
        ensures { result ≡ is_over self.now }
    {
        match self.pending.least() {
            Some(event) => {
                event.key.time <= self.until
                    && event.key.time < self.bound
                    && self.budget <= self.executed
            }
            None => false,
        }
    }

    /// How many events were written on a channel that goes to another timeline.
    pub fn written(&self, channel: u32) -> u64
        requires { Among channel (numbers_of self.now.out_ends) }
        ensures { result ≡ written_of self.now.out_ends channel }
    {
        match place_of(self.desk.ends.as_slice(), channel) {
            Some(place) => self.desk.ends[place].1.written,
            None => 0,
        }
    }

    /// How many events were taken from a channel that comes from another timeline.
    pub fn taken(&self, channel: u32) -> u64
        requires { Among channel (numbers_of self.now.in_ends) }
        ensures { result ≡ taken_of self.now.in_ends channel }
    {
        match place_of(self.in_ends.as_slice(), channel) {
            Some(place) => self.in_ends[place].1.taken,
            None => 0,
        }
    }

    /// The appointment, in ticks, that is held on an appointed channel that comes from another
    /// timeline.
    pub fn appointment(&self, channel: u32) -> u64
        requires { Among channel (numbers_of self.now.in_ends) }
        ensures { result ≡ held_of self.now.in_ends channel }
    {
        match place_of(self.in_ends.as_slice(), channel) {
            Some(place) => self.in_ends[place].1.held,
            None => 0,
        }
    }

    /// Says to proofs what is in order in every timeline. It does nothing.
    pub fn keeps_order(&self)
        ensures { IsInOrder self.now }
    {
        let _ = &self.until;
    }
}

/// The time of the first pending event where it is below `top`, and else `top`.
pub fn head_time_of<P: Copy>(pending: &Pending<Event<P>>, top: u64) -> u64
    ensures { result ≡ head_time time_in top pending.now.items }
{
    match pending.least() {
        Some(event) => event.key.time.min(top),
        None => top,
    }
}
