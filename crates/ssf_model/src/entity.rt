//! Entities, and the wake rule: which processes an event wakes, and what their actions make of the
//! entity.

ghost use Rattle.std.specs.Prelude.{◌≡◌, ◌<◌, ◌≤◌, ◌-◌, ◌^◌, ◌++◌, Some, length, slice_index_or, slice_set, OnOk};
ghost use Rattle.std.specs.List.{All};
ghost use Rattle.ssf_model.specs.declared.process.Process.{Process as ProcessValue};
ghost use Rattle.ssf_model.specs.declared.wait.Wake.{Wake as WakeValue};
ghost use Rattle.ssf_model.specs.Reaction.{IsReady, LatestTime};
ghost use Rattle.ssf_model.specs.Deliver.{wake_of, reacted, IsCarried, IsTimely};
ghost use Rattle.ssf_model.specs.Entities.{IsValidEntity};
ghost use Rattle.ssf_model.specs.Channels.{delivered_to, entity_after};

use crate::{Behaviour, Event, Kind, Out, Process, Wake, Written};
use sim_base::{ListOf, Memory};
use std::alloc::Global;

/// An entity: its state, its processes, and its own in-channels and out-channels, mapped or not.
#[derive(Drop)]
pub struct Entity<B: Behaviour> {
    pub state: B::State,
    pub processes: ListOf<Process>,
    pub in_channels: ListOf<u32>,
    pub out_channels: ListOf<u32>,
}

impl<B: Behaviour> Entity<B> {
    /// Executes an event at this entity by the wake rule: a start event runs every process in their
    /// order, the end of a wait the process whose present ticket it carries, and a message every
    /// process that waits on its in-channel, in their order. At each action the process's ticket
    /// rises by one and its answer becomes its wait. `out` gets the writes and lines of the actions,
    /// and the write on the timer channel of each process whose new wait ends by itself. After
    /// `Memory` nothing is said of the entity, nor of `out`.
    pub fn deliver(
        &mut self,
        alloc: Global,
        behaviour: &B,
        event: &Event<B::Payload>,
        out: &mut Out<B::Payload>,
    ) -> Result<(), Memory>
        requires valid { IsValidEntity (B.valid behaviour.now) self.old }
        requires time { event.now.key.time ≤ LatestTime }
        requires timely { IsTimely event.now.kind self.old.processes }
        requires tickets { All (λ p. p.ticket < 2 ^ 64 - 1) self.old.processes }
        ensures entity { OnOk result (self.new ≡ entity_after (delivered_to (B.reaction behaviour.now) event.now self.old) self.old) }
        ensures writes { OnOk result (out.new.writes ≡ out.old.writes ++ (delivered_to (B.reaction behaviour.now) event.now self.old).writes) }
        ensures lines { OnOk result (out.new.lines ≡ out.old.lines ++ (delivered_to (B.reaction behaviour.now) event.now self.old).lines) }
        ensures valid { OnOk result (IsValidEntity (B.valid behaviour.now) self.new) }
    {
        known_kind(behaviour, &event.kind);
        for index in 0..self.processes.len() {
            react(
                alloc,
                behaviour,
                event,
                index as u32,
                &mut self.state,
                &mut self.processes,
                out,
            )?;
        }
        Ok(())
    }
}

/// How an event of this kind wakes process number `index`, if it does.
fn wake_for<P: Copy>(kind: &Kind<P>, index: u32, process: &Process) -> Option<Wake<P>>
    ensures { result ≡ wake_of kind.now index process.now }
{
    match *kind {
        Kind::Begin => Some(Wake::Begin),
        Kind::Timer {
            process: of,
            ticket,
        } => (of == index && ticket == process.ticket).then_some(Wake::Timer),
        Kind::Message { channel, payload } => process
            .wait
            .hears(channel)
            .then_some(Wake::Message { channel, payload }),
    }
}

/// Tells a proof that what a message brings is what messages carry.
fn known_kind<B: Behaviour>(behaviour: &B, kind: &Kind<B::Payload>)
    ensures { IsCarried (B.carried behaviour.now) kind.now }
{
    if let Kind::Message { payload, .. } = kind {
        behaviour.known(payload);
    }
}

/// Process number `index` acts if the event wakes it.
fn react<B: Behaviour>(
    alloc: Global,
    behaviour: &B,
    event: &Event<B::Payload>,
    index: u32,
    state: &mut B::State,
    processes: &mut ListOf<Process>,
    out: &mut Out<B::Payload>,
) -> Result<(), Memory>
    requires place { index < length processes.old }
    requires ready { (p : ProcessValue) → slice_index_or processes.old index p ≡ p → (p.ticket < 2 ^ 64 - 1) × ((wake : WakeValue B.Payload) → wake_of event.now.kind index p ≡ Some wake → IsReady (B.valid behaviour.now) (B.carried behaviour.now) state.old index event.now.key.time wake) }
    ensures state { OnOk result ((p : ProcessValue) → slice_index_or processes.old index p ≡ p → state.new ≡ (reacted (B.reaction behaviour.now) event.now.key.time index state.old p (wake_of event.now.kind index p)).state) }
    ensures process { OnOk result ((p : ProcessValue) → slice_index_or processes.old index p ≡ p → processes.new ≡ slice_set processes.old index (reacted (B.reaction behaviour.now) event.now.key.time index state.old p (wake_of event.now.kind index p)).process) }
    ensures writes { OnOk result ((p : ProcessValue) → slice_index_or processes.old index p ≡ p → out.new.writes ≡ out.old.writes ++ (reacted (B.reaction behaviour.now) event.now.key.time index state.old p (wake_of event.now.kind index p)).writes) }
    ensures lines { OnOk result ((p : ProcessValue) → slice_index_or processes.old index p ≡ p → out.new.lines ≡ out.old.lines ++ (reacted (B.reaction behaviour.now) event.now.key.time index state.old p (wake_of event.now.kind index p)).lines) }
{
    let process = &processes.as_slice()[index as usize];
    let timer = process.timer;
    let Some(wake) = wake_for(&event.kind, index, process) else {
        return Ok(());
    };
    let ticket = process.ticket + 1;
    let wait = behaviour.action(alloc, state, index, event.key.time, &wake, out)?;
    if let Some(delay) = wait.delay() {
        out.push(Written::Timer {
            process: index,
            delay,
            ticket,
        })?;
    }
    processes.replace(
        index as usize,
        Process {
            wait,
            ticket,
            timer,
        },
    );
    Ok(())
}
