//! The desk of a timeline: how many writes each channel counts, the ends of the channels that go to
//! other timelines, and what the event under way has written so far.

ghost use Rattle.std.specs.Prelude.{◌≡◌, ◌+◌, ◌^◌, ◌<◌, ◌∷◌, [], ℕ, List, length, slice_index, slice_get, OnOk, OnErr};
ghost use Rattle.std.specs.List.{flat_map};
ghost use Rattle.event_order.specs.Pending.{Among};
ghost use Rattle.ssf_model.specs.Channels.{message, wait_end, timer_of as timer_of_process};
ghost use Rattle.ssf_model.specs.declared.event.Event.{Event as EventValue};
ghost use Rattle.timeline_parts.specs.declared.ends.OutEnd.{OutEnd as OutEndValue};
ghost use Rattle.timeline_parts.specs.RouteMap.{route};
ghost use Rattle.timeline_parts.specs.Tables.{numbers_of, AreNumbered};
ghost use Rattle.timeline_parts.specs.Sending.{MaySend, IsSent, IsSentInPart, sent_on, sent_as, count_on, put_one, written_of, all_counted, all_put};

use crate::{OutEnd, Routes, place_of};
use event_order::{Key, child_key};
use sim_base::Memory;
use ssf_model::{Event, Kind, Mapping, Process, Written};
use std::alloc::Global;

/// What the writes of a timeline's events change. No two counts, and no two ends, are of one channel.
#[derive(Drop)]
pub struct Desk<P> {
    /// How many writes each channel counts on which the timeline writes.
    pub counts: Vec<(u32, u64)>,
    /// The ends of the channels that go to other timelines.
    pub ends: Vec<(u32, OutEnd<P>)>,
    /// What the event under way has written so far.
    pub written: Vec<Event<P>>,
}

impl<P: Copy> Desk<P> {
    /// Writes what the actions of an event with the key `parent` at `entity` wrote, in order: a
    /// write on an out-channel on each of its mappings, and the end of a wait on the process's timer
    /// channel. After `Memory` a part of it is written.
    pub fn send_all(
        &mut self,
        parent: &Key,
        routes: &Routes,
        entity: u32,
        processes: &[Process],
        writes: &[Written<P>],
    ) -> Result<(), Memory>
        requires { MaySend parent.now (flat_map (sent_on (route routes.now.by_out) entity processes.now) writes.now) self.old.counts.items self.old.ends.items }
        ensures sent { OnOk result (IsSent parent.now (flat_map (sent_on (route routes.now.by_out) entity processes.now) writes.now) self.old.counts.items self.old.ends.items self.old.written.items self.new.counts.items self.new.ends.items self.new.written.items) }
        ensures in_part { OnErr result (IsSentInPart self.old.counts.items self.old.ends.items self.old.written.items self.new.counts.items self.new.ends.items self.new.written.items) }
    {
        for write in writes {
            self.send(parent, routes, entity, processes, *write)?;
        }
        Ok(())
    }

    fn send(
        &mut self,
        parent: &Key,
        routes: &Routes,
        entity: u32,
        processes: &[Process],
        write: Written<P>,
    ) -> Result<(), Memory>
        requires { MaySend parent.now (sent_on (route routes.now.by_out) entity processes.now write) self.old.counts.items self.old.ends.items }
        ensures sent { OnOk result (IsSent parent.now (sent_on (route routes.now.by_out) entity processes.now write) self.old.counts.items self.old.ends.items self.old.written.items self.new.counts.items self.new.ends.items self.new.written.items) }
        ensures in_part { OnErr result (IsSentInPart self.old.counts.items self.old.ends.items self.old.written.items self.new.counts.items self.new.ends.items self.new.written.items) }
    {
        match write {
            Written::Channel {
                channel,
                delay,
                payload,
            } => self.send_on_each(parent, routes.on(channel), delay, payload),
            Written::Timer {
                process,
                delay,
                ticket,
            } => match timer_of(processes, process) {
                Some(channel) => self.send_wait_end(
                    parent, entity, channel, delay, process, ticket,
                ),
                None => Ok(()),
            },
        }
    }

    fn send_on_each(
        &mut self,
        parent: &Key,
        mappings: &[Mapping],
        delay: u64,
        payload: P,
    ) -> Result<(), Memory>
        requires { MaySend parent.now (flat_map (λ m. message delay payload m ∷ []) mappings.now) self.old.counts.items self.old.ends.items }
        ensures sent { OnOk result (IsSent parent.now (flat_map (λ m. message delay payload m ∷ []) mappings.now) self.old.counts.items self.old.ends.items self.old.written.items self.new.counts.items self.new.ends.items self.new.written.items) }
        ensures in_part { OnErr result (IsSentInPart self.old.counts.items self.old.ends.items self.old.written.items self.new.counts.items self.new.ends.items self.new.written.items) }
    {
        for mapping in mappings {
            self.send_message(parent, mapping, delay, payload)?;
        }
        Ok(())
    }

    fn send_message(
        &mut self,
        parent: &Key,
        mapping: &Mapping,
        delay: u64,
        payload: P,
    ) -> Result<(), Memory>
        requires { MaySend parent.now (message delay payload mapping.now ∷ []) self.old.counts.items self.old.ends.items }
        ensures sent { OnOk result (IsSent parent.now (message delay payload mapping.now ∷ []) self.old.counts.items self.old.ends.items self.old.written.items self.new.counts.items self.new.ends.items self.new.written.items) }
        ensures in_part { OnErr result (IsSentInPart self.old.counts.items self.old.ends.items self.old.written.items self.new.counts.items self.new.ends.items self.new.written.items) }
    {
        let kind = Kind::Message {
            channel: mapping.in_channel,
            payload,
        };
        self.send_one(
            parent,
            mapping.delay + delay,
            mapping.priority,
            mapping.channel,
            mapping.to,
            kind,
        )
    }

    fn send_wait_end(
        &mut self,
        parent: &Key,
        entity: u32,
        channel: u32,
        delay: u64,
        process: u32,
        ticket: u64,
    ) -> Result<(), Memory>
        requires { MaySend parent.now (wait_end entity process delay ticket (Some channel)) self.old.counts.items self.old.ends.items }
        ensures sent { OnOk result (IsSent parent.now (wait_end entity process delay ticket (Some channel)) self.old.counts.items self.old.ends.items self.old.written.items self.new.counts.items self.new.ends.items self.new.written.items) }
        ensures in_part { OnErr result (IsSentInPart self.old.counts.items self.old.ends.items self.old.written.items self.new.counts.items self.new.ends.items self.new.written.items) }
    {
        let kind = Kind::Timer { process, ticket };
        self.send_one(parent, delay, 0, channel, entity, kind)
    }

    /// One write: it gets the channel's count as its number, and stands in the outbox of its channel
    /// if that goes to another timeline.
    fn send_one(
        &mut self,
        parent: &Key,
        delay: u64,
        priority: u8,
        channel: u32,
        entity: u32,
        kind: Kind<P>,
    ) -> Result<(), Memory>
        requires { MaySend parent.now (sent_as delay priority channel entity kind ∷ []) self.old.counts.items self.old.ends.items }
        ensures sent { OnOk result (IsSent parent.now (sent_as delay priority channel entity kind ∷ []) self.old.counts.items self.old.ends.items self.old.written.items self.new.counts.items self.new.ends.items self.new.written.items) }
        ensures in_part { OnErr result (IsSentInPart self.old.counts.items self.old.ends.items self.old.written.items self.new.counts.items self.new.ends.items self.new.written.items) }
    {
        let place = known_place(&self.counts, channel);
        let number = self.counts[place].1;
        let event = Event {
            key: child_key(parent, delay, priority, channel, number),
            entity,
            kind,
        };
        self.written.reserve(1)?;
        put_out(&mut self.ends, event)?;
        self.written.push_reserved(event);
        self.counts[place].1 = number + 1;
        Ok(())
    }

    /// Takes back all that the event under way has written.
    pub fn undo(&mut self)
        requires counts { AreNumbered self.old.counts.items }
        requires ends { AreNumbered self.old.ends.items }
        ensures counts { (counts : List (ℕ × ℕ)) → self.old.counts.items ≡ all_counted self.old.written.items counts → self.new.counts.items ≡ counts }
        ensures ends { (ends : List (ℕ × OutEndValue P)) → self.old.ends.items ≡ all_put self.old.written.items ends → self.new.ends.items ≡ ends }
        ensures written { self.new.written.items ≡ [] }
    {
        while let Some(event) = self.written.pop() {
            take_back(&mut self.ends, event.key.channel);
            uncount(&mut self.counts, event.key.channel);
        }
    }
}

/// The place of a number that the table has.
fn known_place<T>(items: &[(u32, T)], number: u32) -> usize
    requires rising { AreNumbered items.now }
    requires known { Among number (numbers_of items.now) }
    ensures within { result < length items.now }
    ensures found { slice_index (numbers_of items.now) result ≡ number }
{
    match place_of(items, number) {
        Some(place) => place,
        None => 0,
    }
}

/// Puts a written event into the outbox of its channel, if there is one.
fn put_out<P: Copy>(ends: &mut Vec<(u32, OutEnd<P>)>, event: Event<P>) -> Result<(), Memory>
    requires rising { AreNumbered ends.old.items }
    requires room { written_of ends.old.items event.key.channel + 1 < 2 ^ 64 }
    ensures put { OnOk result (ends.new.items ≡ put_one event ends.old.items) }
    ensures kept { OnErr result (ends.new.items ≡ ends.old.items) }
{
    let Some(place) = place_of(ends.as_slice(), event.key.channel) else {
        return Ok(());
    };
    let end = &mut ends[place].1;
    end.put(event)
}

/// Takes the last event of this channel out of its outbox, if there is one.
fn take_back<P: Copy>(ends: &mut Vec<(u32, OutEnd<P>)>, channel: u32)
    requires { AreNumbered ends.old.items }
    ensures numbers { numbers_of ends.new.items ≡ numbers_of ends.old.items }
    ensures before { (before : List (ℕ × OutEndValue P)) (event : EventValue P) → event.key.channel ≡ channel → ends.old.items ≡ put_one event before → ends.new.items ≡ before }
{
    if let Some(place) = place_of(ends.as_slice(), channel) {
        let end = &mut ends[place].1;
        end.take_back();
    }
}

/// Counts one write less on this channel.
fn uncount(counts: &mut Vec<(u32, u64)>, channel: u32)
    requires { AreNumbered counts.old.items }
    ensures numbers { numbers_of counts.new.items ≡ numbers_of counts.old.items }
    ensures before { (before : List (ℕ × ℕ)) → counts.old.items ≡ count_on channel before → counts.new.items ≡ before }
{
    if let Some(place) = place_of(counts.as_slice(), channel) {
        let count = &mut counts[place].1;
        *count = count.saturating_sub(1);
    }
}

/// The timer channel of a process, if it has one.
fn timer_of(processes: &[Process], process: u32) -> Option<u32>
    ensures { result ≡ timer_of_process (slice_get processes.now process) }
{
    match processes.get(process as usize) {
        Some(process) => process.timer,
        None => None,
    }
}
