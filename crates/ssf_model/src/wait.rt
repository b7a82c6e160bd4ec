//! What a process waits for, and what wakes it (SSF API 1.0, `Process`: `waitOn`, `waitFor`,
//! `waitOnFor`, `waitForever`).

ghost use Rattle.std.specs.Prelude.{◌≡◌, IfOk};
ghost use Rattle.ssf_model.specs.Wake.{waits_on, timer_delay};
ghost use Rattle.ssf_model.specs.Reaction.{channels_named};

use sim_base::Memory;
use std::alloc::Global;
use std::marker::Model;

/// The in-channels on which a process waits. Contracts see the list of their numbers.
#[derive(Drop)]
pub struct ChannelList {
    channels: Vec<u32>,
}

impl Model for ChannelList {
    ghost use Rattle.std.specs.Prelude.{List, ℕ};

    ghost Value = { List ℕ };

    ghost view = { λ l. l.channels.items };
}

impl ChannelList {
    /// The list of these in-channels.
    pub fn of(alloc: Global, channels: &[u32]) -> Result<ChannelList, Memory>
        ensures { IfOk result (λ list. list ≡ channels.now) }
    {
        let channels = Vec::from_slice(alloc, channels)?;
        Ok(ChannelList { channels })
    }

    /// The numbers of the in-channels.
    pub fn as_slice(&self) -> &[u32]
        ensures { result.now ≡ self.now }
    {
        self.channels.as_slice()
    }
}

/// What a process waits for after an action.
#[derive(Drop)]
pub enum Wait {
    /// A message on one of these in-channels.
    On(ChannelList),
    /// This many ticks to pass, at least one.
    For(u64),
    /// A message on one of these in-channels, or this many ticks to pass, at least one.
    OnFor(ChannelList, u64),
    /// Nothing: only a start event wakes it.
    Forever,
}

impl Wait {
    /// Whether a message on the in-channel `channel` wakes a process that waits so.
    pub fn hears(&self, channel: u32) -> bool
        ensures { result ≡ waits_on self.now channel }
    {
        match self {
            Wait::On(channels) | Wait::OnFor(channels, _) => channels.as_slice().contains(&channel),
            Wait::For(_) | Wait::Forever => false,
        }
    }

    /// The in-channels on which a process that waits so hears.
    pub fn named(&self) -> &[u32]
        ensures { result.now ≡ channels_named self.now }
    {
        match self {
            Wait::On(channels) | Wait::OnFor(channels, _) => channels.as_slice(),
            Wait::For(_) | Wait::Forever => &[],
        }
    }

    /// After how many ticks a process that waits so is woken by its timer: a wait for no time
    /// takes one tick.
    pub fn delay(&self) -> Option<u64>
        ensures { result ≡ timer_delay self.now }
    {
        match self {
            Wait::For(ticks) | Wait::OnFor(_, ticks) => Some((*ticks).max(1)),
            Wait::On(_) | Wait::Forever => None,
        }
    }
}

/// Why a process acts: the run begins, its timer ran out, or a message came on an in-channel.
#[derive(Clone, Copy, Debug)]
pub enum Wake<P> {
    Begin,
    Timer,
    Message { channel: u32, payload: P },
}

/// What an event brings to its entity: its start, the end of a wait of one of its processes, or a
/// message on an in-channel.
#[derive(Clone, Copy, Debug)]
pub enum Kind<P> {
    Begin,
    /// The end of the wait that `process` began with its ticket `ticket`.
    Timer { process: u32, ticket: u64 },
    Message { channel: u32, payload: P },
}
