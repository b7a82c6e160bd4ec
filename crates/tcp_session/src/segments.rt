//! The segments of both ends, and the list that a session's calls append to.
ghost use Rattle.std.specs.Prelude.{◌≡◌, ◌+◌, ◌*◌, ◌<◌, ◌≤◌, ◌^◌, Bool, true, false, Option, Some, None, List, [], ◌∷◌, ◌++◌, vec_len, vec_capacity};
ghost use Rattle.tcp_rules.specs.Segments.{IsTimedTcp, own_window, syn_segment, data_segment, fin_segment, syn_ack_segment, is_ack_of, carries, span};

use sim_base::{Segment, TcpConfig};
use std::alloc::Global;
use std::marker::Model;
use tcp_rules::Act;

/// What sessions did, in order: each call appends to it. Contracts see the list of its acts.
#[derive(Drop)]
pub struct Segments {
    pub(crate) items: Vec<Act>,
}

impl Model for Segments {
    ghost use Rattle.std.specs.Prelude.{List};
    ghost use Rattle.tcp_rules.specs.declared.records.Act.{Act as ActValue};

    ghost Value = { List ActValue };

    ghost view = { λ s. s.items.items };
}

impl Segments {
    /// The empty list, which will grow on this allocator.
    pub fn new(alloc: Global) -> Segments
        ensures { result ≡ [] }
    {
        Segments {
            items: Vec::new(alloc),
        }
    }

    /// The acts, in order.
    pub fn acts(&self) -> &[Act]
        ensures { result.now ≡ self.now }
    {
        self.items.as_slice()
    }

    /// Forgets all acts, and keeps the room that they took.
    pub fn clear(&mut self)
        ensures { self.new ≡ [] }
    {
        self.items.clear();
    }
}

/// The window that an end with these settings offers, in bytes.
pub(crate) fn offered(config: &TcpConfig) -> u64
    requires { IsTimedTcp config.now }
    ensures value { result ≡ own_window config.now }
    ensures most { result ≤ 2 ^ 32 }
{
    config.receive * config.mss
}

/// A client's SYN.
pub(crate) fn syn(config: &TcpConfig) -> Segment
    requires { IsTimedTcp config.now }
    ensures { result ≡ syn_segment config.now }
{
    Segment {
        seq: config.iss,
        ack: None,
        syn: true,
        fin: false,
        length: 0,
        window: offered(config),
    }
}

/// Data of this length at `seq`, which acknowledges what stands before `ack`.
pub(crate) fn data(config: &TcpConfig, seq: u64, ack: u64, length: u64) -> Segment
    requires settings { IsTimedTcp config.now }
    requires last { seq + length < 2 ^ 32 }
    requires ack { ack ≤ 2 ^ 32 }
    ensures { result ≡ data_segment config.now seq ack length }
{
    Segment {
        seq,
        ack: Some(ack),
        syn: false,
        fin: false,
        length,
        window: offered(config),
    }
}

/// A FIN at `seq`, which acknowledges what stands before `ack`.
pub(crate) fn fin(config: &TcpConfig, seq: u64, ack: u64) -> Segment
    requires settings { IsTimedTcp config.now }
    requires last { seq < 2 ^ 32 }
    requires ack { ack ≤ 2 ^ 32 }
    ensures { result ≡ fin_segment config.now seq ack }
{
    Segment {
        seq,
        ack: Some(ack),
        syn: false,
        fin: true,
        length: 0,
        window: offered(config),
    }
}

/// A server's SYN, which acknowledges what stands before `ack`.
pub(crate) fn syn_ack(config: &TcpConfig, ack: u64) -> Segment
    requires settings { IsTimedTcp config.now }
    requires ack { ack ≤ 2 ^ 32 }
    ensures { result ≡ syn_ack_segment config.now ack }
{
    Segment {
        seq: config.iss,
        ack: Some(ack),
        syn: true,
        fin: false,
        length: 0,
        window: offered(config),
    }
}

/// Whether an acknowledgment is there, of just this position.
pub(crate) fn is_ack_of(position: u64, ack: Option<u64>) -> bool
    ensures { result ≡ is_ack_of position ack }
{
    match ack {
        None => false,
        Some(ack) => ack == position,
    }
}

/// How many positions a segment takes.
pub(crate) fn span(segment: &Segment) -> u64
    ensures { result ≡ span segment.now }
{
    segment.length + u64::from(segment.syn) + u64::from(segment.fin)
}

/// Whether a segment has data or a FIN.
pub(crate) fn carries(segment: &Segment) -> bool
    ensures { result ≡ carries segment.now }
{
    segment.length > 0 || segment.fin
}
