//! What is still to be executed, and how many writes each channel counts.

ghost use Rattle.std.specs.Prelude.{◌≡◌, ◌+◌, ◌^◌, ◌<◌, ◌∷◌, [], length, map, slice_index, slice_get, OnOk};
ghost use Rattle.std.specs.List.{flat_map};
ghost use Rattle.event_order.specs.Order.{child_of};
ghost use Rattle.ssf_model.specs.Channels.{message, wait_end, timer_of as timer_of_process, sent, raised};
ghost use Rattle.ssf_model.specs.Run.{counts_of};
ghost use Rattle.global_list.specs.Posting.{MayPost, IsPosted};

use crate::fan_out::FanOut;
use crate::pending::PendingEvents;
use event_order::{Key, child_key};
use sim_base::Memory;
use ssf_model::{Event, Kind, Mapping, Process, Written};

/// The pending events, and the count of the writes of each channel so far.
#[derive(Drop)]
pub struct Agenda<P> {
    pub counts: Vec<u64>,
    pub pending: PendingEvents<P>,
}

impl<P: Copy> Agenda<P> {
    /// Makes what an event with the key `parent` at `entity` wrote pending, in order: a write on an
    /// out-channel on each of its mappings, and the end of a wait on the process's timer channel.
    pub fn post_all(
        &mut self,
        parent: &Key,
        fan_out: &FanOut,
        entity: u32,
        processes: &[Process],
        writes: &[Written<P>],
    ) -> Result<(), Memory>
        requires { MayPost parent.now (flat_map (sent fan_out.now entity processes.now) writes.now) self.old.counts.items self.old.pending }
        ensures { OnOk result (IsPosted parent.now (flat_map (sent fan_out.now entity processes.now) writes.now) self.old.counts.items self.old.pending self.new.counts.items self.new.pending) }
    {
        for written in writes {
            self.post(parent, fan_out, entity, processes, *written)?;
        }
        Ok(())
    }

    fn post(
        &mut self,
        parent: &Key,
        fan_out: &FanOut,
        entity: u32,
        processes: &[Process],
        written: Written<P>,
    ) -> Result<(), Memory>
        requires { MayPost parent.now (sent fan_out.now entity processes.now written) self.old.counts.items self.old.pending }
        ensures { OnOk result (IsPosted parent.now (sent fan_out.now entity processes.now written) self.old.counts.items self.old.pending self.new.counts.items self.new.pending) }
    {
        match written {
            Written::Channel {
                channel,
                delay,
                payload,
            } => self.post_on_each(parent, fan_out.on(channel), delay, payload),
            Written::Timer {
                process,
                delay,
                ticket,
            } => match timer_of(processes, process) {
                Some(channel) => self.post_wait_end(
                    parent, entity, channel, delay, process, ticket,
                ),
                None => Ok(()),
            },
        }
    }

    fn post_on_each(
        &mut self,
        parent: &Key,
        mappings: &[Mapping],
        delay: u64,
        payload: P,
    ) -> Result<(), Memory>
        requires { MayPost parent.now (flat_map (λ m. message delay payload m ∷ []) mappings.now) self.old.counts.items self.old.pending }
        ensures { OnOk result (IsPosted parent.now (flat_map (λ m. message delay payload m ∷ []) mappings.now) self.old.counts.items self.old.pending self.new.counts.items self.new.pending) }
    {
        for mapping in mappings {
            self.post_message(parent, mapping, delay, payload)?;
        }
        Ok(())
    }

    fn post_message(
        &mut self,
        parent: &Key,
        mapping: &Mapping,
        delay: u64,
        payload: P,
    ) -> Result<(), Memory>
        requires { MayPost parent.now (message delay payload mapping.now ∷ []) self.old.counts.items self.old.pending }
        ensures { OnOk result (IsPosted parent.now (message delay payload mapping.now ∷ []) self.old.counts.items self.old.pending self.new.counts.items self.new.pending) }
    {
        let key = self.next_key(
            parent,
            mapping.delay + delay,
            mapping.priority,
            mapping.channel,
        );
        self.pending.insert(Event {
            key,
            entity: mapping.to,
            kind: Kind::Message {
                channel: mapping.in_channel,
                payload,
            },
        })
    }

    fn post_wait_end(
        &mut self,
        parent: &Key,
        entity: u32,
        channel: u32,
        delay: u64,
        process: u32,
        ticket: u64,
    ) -> Result<(), Memory>
        requires { MayPost parent.now (wait_end entity process delay ticket (Some channel)) self.old.counts.items self.old.pending }
        ensures { OnOk result (IsPosted parent.now (wait_end entity process delay ticket (Some channel)) self.old.counts.items self.old.pending self.new.counts.items self.new.pending) }
    {
        let key = self.next_key(parent, delay, 0, channel);
        self.pending.insert(Event {
            key,
            entity,
            kind: Kind::Timer { process, ticket },
        })
    }

    /// The key of the next write on a channel, which is counted.
    fn next_key(&mut self, parent: &Key, delay: u64, priority: u8, channel: u32) -> Key
        requires channel { channel < length self.old.counts.items }
        requires number { slice_index self.old.counts.items channel + 1 < 2 ^ 64 }
        requires time { parent.now.time + delay < 2 ^ 64 }
        requires round { parent.now.round + 1 < 2 ^ 64 }
        ensures key { result ≡ child_of parent.now delay priority channel (slice_index self.old.counts.items channel) }
        ensures counts { counts_of self.new.counts.items ≡ raised (counts_of self.old.counts.items) channel }
        ensures size { length self.new.counts.items ≡ length self.old.counts.items }
        ensures pending { self.new.pending ≡ self.old.pending }
    {
        let number = self.counts[channel as usize];
        self.counts[channel as usize] = number + 1;
        child_key(parent, delay, priority, channel, number)
    }
}

/// The timer channel of a process, if it has one.
fn timer_of(processes: &[Process], process: u32) -> Option<u32>
    ensures { result ≡ timer_of_process (slice_get processes.now process) }
{
    match processes.get(process as usize) {
        Some(process) => process.timer,
        None => None,
    }
}
