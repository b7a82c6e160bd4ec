//! What a timeline takes in and hands out, and how it goes on to a later window.

ghost use Rattle.std.specs.Prelude.{◌≡◌, ◌+◌, ◌<◌, ◌^◌, ◌≤◌, ◌&&◌, ℕ, false, nat_eq, nat_le, nat_lt, length, IsOk, IsTrue, OnOk, OnErr, IfErr, if◌then◌else◌};
ghost use Rattle.std.specs.List.{filter};
ghost use Rattle.event_order.specs.Pending.{Among};
ghost use Rattle.ssf_model.specs.declared.event.Entry.{Entry as EntryValue};
ghost use Rattle.timeline_parts.specs.Tables.{numbers_of, AreNumbered, changed};
ghost use Rattle.ssf_model.specs.Reaction.{Each};
ghost use Rattle.timeline.specs.Holding.{low_in, least_held as least_held_of, holder_of as holder_at, IsFilled};
ghost use Rattle.timeline.specs.Moving.{MayTake, IsTaken, can_enter, entered_at, IsHandedOut, IsPosted, taken_end, posted_end, parcel_of, without};

use crate::bounds::{bound_after, has_taken, holder_of, least_held};
use crate::opening::put_in;
use crate::timeline::Timeline;
use sim_base::{ListOf, Memory};
use ssf_model::{Behaviour, Entry, Event, Parcel};
use std::alloc::Global;
use timeline_parts::{InEnd, OutEnd, Outbox, place_of};

impl<B: Behaviour> Timeline<B> {
    /// Makes room for `n` events: until the next `execute`, `take_in` of so many in all cannot be
    /// refused. Without memory nothing has changed.
    pub fn reserve(&mut self, n: usize) -> Result<(), Memory>
        ensures room { OnOk result (n ≤ self.new.spare) }
        ensures no_less { self.old.spare ≤ self.new.spare }
        ensures same { self.new ≡ record self.old { spare = self.new.spare } }
        ensures kept { OnErr result (self.new ≡ self.old) }
    {
        self.pending.reserve(n)
    }

    /// Takes in a parcel of a channel that comes from another timeline: its events become pending,
    /// and its promise is held as the appointment, where that is a later one. Without memory, which
    /// can be only where there is no room for the events, the parcel comes back, and nothing has
    /// changed.
    pub fn take_in(
        &mut self,
        channel: u32,
        parcel: Parcel<B::Payload>,
    ) -> Result<(), (Parcel<B::Payload>, Memory)>
        requires { MayTake self.old channel parcel }
        ensures taken { OnOk result (IsTaken self.old channel parcel self.new) }
        ensures room { length parcel.events ≤ self.old.spare → IsOk result }
        ensures returned { IfErr result (λ back. back.0 ≡ parcel) }
        ensures kept { OnErr result (self.new ≡ self.old) }
    {
        let Ok(()) = self.pending.reserve(parcel.events.len()) else {
            return Err((parcel, Memory));
        };
        put_in(&mut self.pending, parcel.events.as_slice());
        let taken = parcel.first + parcel.events.len() as u64;
        let anew = hold(
            &mut self.in_ends,
            channel,
            taken,
            parcel.promise,
            self.bound,
        );
        let (bound, holder) = bound_after(
            anew,
            self.bound,
            self.holder,
            self.entered,
            self.in_ends.as_slice(),
        );
        self.bound = bound;
        self.holder = holder;
        Ok(())
    }

    /// Enters a window, in ticks, if it is a later one and as much was taken from each channel as the
    /// barrier's counts say, which stand at the channels' places, and answers whether it did. If not,
    /// nothing has changed.
    pub fn enter(&mut self, window: u64, counts: &[u64]) -> bool
        ensures cause { result ≡ can_enter self.old window counts.now }
        ensures entered { self.new ≡ (if result then entered_at window self.old else self.old) }
    {
        if window <= self.entered || !has_taken(self.in_ends.as_slice(), counts) {
            return false;
        }
        self.entered = window;
        self.arrival = self.until + 1;
        self.bound = least_held(window, self.in_ends.as_slice());
        self.holder = holder_of(self.bound, self.in_ends.as_slice());
        true
    }

    /// Hands out all that was written on a channel that goes to another timeline and not yet posted,
    /// with the promise on an appointed one: what follows comes no sooner than at this time.
    pub fn outbox(&mut self, channel: u32) -> Parcel<B::Payload>
        requires { Among channel (numbers_of self.old.out_ends) }
        ensures posted { IsHandedOut self.old channel result self.new }
        ensures end { result.first + length result.events < 2 ^ 64 }
    {
        let low = self.lower_bound();
        let top = self.until + 1;
        post_from(self.alloc, &mut self.desk.ends, channel, low, top)
    }

    /// Takes the entries with times below `below`, which is at most the lower bound, from the
    /// history.
    pub fn give_up(&mut self, below: u64)
        requires { below ≤ low_in self.old }
        ensures { self.new ≡ without below self.old }
    {
        drop_before(&mut self.history, below);
    }
}

/// Takes the entries with times below `below` out.
fn drop_before(entries: &mut Vec<Entry>, below: u64)
    ensures { entries.new.items ≡ filter (λ (e : EntryValue). nat_le below e.key.time) entries.old.items }
{
    entries.retain(|entry| below <= entry.key.time);
}

/// The end of a channel has taken so many events, and holds this appointment if it is a later one.
/// Answers whether `bound`, which is the least of a window and what the ends held, can be another one
/// then.
fn hold(
    ends: &mut Vec<(u32, InEnd)>,
    channel: u32,
    taken: u64,
    appointment: u64,
    bound: u64,
) -> bool
    requires rising { AreNumbered ends.old.items }
    requires known { Among channel (numbers_of ends.old.items) }
    ensures ends { ends.new.items ≡ changed channel (taken_end taken appointment) ends.old.items }
    ensures bound { result ≡ false → (window : ℕ) → bound ≡ least_held_of window ends.old.items → bound ≡ least_held_of window ends.new.items }
    ensures holder { result ≡ false → (window : ℕ) → bound ≡ least_held_of window ends.old.items → holder_at bound ends.new.items ≡ holder_at bound ends.old.items }
{
    match place_of(ends.as_slice(), channel) {
        Some(place) => {
            let end = &mut ends[place].1;
            advance(end, taken, appointment, bound)
        }
        None => false,
    }
}

/// This end has taken so many events, and holds this appointment if it is a later one. Answers whether
/// it held `bound` and rises above it.
fn advance(end: &mut InEnd, taken: u64, appointment: u64, bound: u64) -> bool
    ensures end { end.new ≡ taken_end taken appointment end.old }
    ensures rises { result ≡ (end.old.appointed && (nat_eq end.old.held bound && nat_lt bound appointment)) }
{
    let rises = end.appointed && end.held == bound && bound < appointment;
    end.taken = taken;
    end.held = end.held.max(appointment);
    rises
}

/// Hands out what stands in the outbox of a channel, with the promise by the lower bound `low`, at
/// most `top`, if the channel is an appointed one.
fn post_from<P: Copy>(
    alloc: Global,
    ends: &mut Vec<(u32, OutEnd<P>)>,
    channel: u32,
    low: u64,
    top: u64,
) -> Parcel<P>
    requires rising { AreNumbered ends.old.items }
    requires known { Among channel (numbers_of ends.old.items) }
    requires filled { Each IsFilled ends.old.items }
    requires top { top + 1 < 2 ^ 64 }
    ensures posted { IsPosted ends.old.items channel low top result ends.new.items }
    ensures end { result.first + length result.events < 2 ^ 64 }
{
    match place_of(ends.as_slice(), channel) {
        Some(place) => {
            let end = &mut ends[place].1;
            take_out(alloc, end, low, top)
        }
        None => Parcel {
            first: 0,
            events: ListOf::new(alloc),
            promise: 0,
        },
    }
}

/// Hands out what stands in the outbox of an end.
fn take_out<P: Copy>(alloc: Global, end: &mut OutEnd<P>, low: u64, top: u64) -> Parcel<P>
    requires filled { end.old.posted + length end.old.outbox ≡ end.old.written }
    requires top { top + 1 < 2 ^ 64 }
    ensures parcel { result ≡ parcel_of low top end.old }
    ensures left { end.new ≡ posted_end end.old }
    ensures end { result.first + length result.events < 2 ^ 64 }
{
    let first = end.posted;
    end.posted = end.written;
    let outbox = std::mem::replace(&mut end.outbox, Outbox::new(alloc));
    let promise = if end.appointed {
        low.saturating_add(end.delay).min(top)
    } else {
        0
    };
    parcel_upto(first, end.written, outbox.into_list(), promise)
}

/// A parcel that begins with event number `first` and ends before number `end`.
fn parcel_upto<P: Copy>(first: u64, end: u64, events: ListOf<Event<P>>, promise: u64) -> Parcel<P>
    requires { first + length events ≡ end }
    ensures first { result.first ≡ first }
    ensures events { result.events ≡ events }
    ensures promise { result.promise ≡ promise }
    ensures end { result.first + length result.events < 2 ^ 64 }
{
    let _ = end;
    Parcel {
        first,
        events,
        promise,
    }
}
