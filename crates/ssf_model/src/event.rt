//! Events, and what is kept of those that were executed.

ghost use Rattle.std.specs.Prelude.{◌≡◌, ◌<◌, length, slice_get, Some};

use crate::Kind;
use event_order::{Key, Keyed};
use sim_base::{ListOf, Reason, TcpState, Text};

/// An event: its key, the entity at which it happens, and what it brings.
#[derive(Clone, Copy, Debug)]
pub struct Event<P> {
    /// Its place in the order of all events.
    pub key: Key,
    /// The entity's number in its plan.
    pub entity: u32,
    /// A start, the end of a wait, or a message.
    pub kind: Kind<P>,
}

impl<P> Keyed for Event<P> {
    ghost key_of = { λ event. event.key };

    fn key(&self) -> Key {
        self.key
    }
}

/// What an action tells of itself: a line of the trace after its event's own.
#[derive(Clone, Copy, Debug, PartialEq, Eq)]
pub enum Line {
    /// The interface with the id `interface` accepted a packet of `bytes` bytes for the next hop,
    /// whose IPv4 address is `next`. `tcp` says that it is a TCP packet, and else it is a UDP one.
    Sent {
        interface: u32,
        next: u32,
        tcp: bool,
        bytes: u64,
    },
    /// A TCP or UDP packet of `bytes` bytes was dropped.
    Dropped {
        reason: Reason,
        tcp: bool,
        bytes: u64,
    },
    /// A datagram with `bytes` bytes of data reached the UDP port `port`.
    Udp {
        port: u16,
        bytes: u64,
    },
    /// The TCP session of the own port `port` with the peer's IPv4 address and port entered a state.
    Entered {
        port: u16,
        peer: u32,
        peer_port: u16,
        state: TcpState,
    },
    /// The TCP session of the own port `port` with the peer's IPv4 address and port handed `bytes`
    /// bytes to its application, in order.
    Delivered {
        port: u16,
        peer: u32,
        peer_port: u16,
        bytes: u64,
    },
}

/// An executed event, with the lines that its actions told, in order.
#[derive(Drop)]
pub struct Entry {
    pub key: Key,
    pub entity: u32,
    pub lines: ListOf<Line>,
}

impl Keyed for Entry {
    ghost key_of = { λ entry. entry.key };

    fn key(&self) -> Key {
        self.key
    }
}

/// Events of one channel in the order of their numbers, from the `first` after the opening on, and
/// a promise: the channel's later writes have times of at least `promise`.
#[derive(Drop)]
pub struct Parcel<P> {
    pub first: u64,
    pub events: ListOf<Event<P>>,
    pub promise: u64,
}

/// The printed name of each entity.
#[derive(Drop)]
pub struct Names {
    /// In the order of the entities' numbers.
    pub names: ListOf<Text>,
}

impl Names {
    /// The names of the entities in their order; takes no memory.
    pub fn new(names: Vec<Text>) -> Names
        ensures { result.names ≡ names.items }
    {
        Names {
            names: ListOf::from_vec(names),
        }
    }

    /// The name of one entity.
    pub fn name(&self, entity: u32) -> &[u8]
        requires { entity < length self.now.names }
        ensures { slice_get self.now.names entity ≡ Some result.now }
    {
        self.names.as_slice()[entity as usize].as_bytes()
    }
}
