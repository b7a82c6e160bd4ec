//! Plain records that several crates share: the rows of a host's traffic, and what TCP and IP name.
ghost use Rattle.sim_base.specs.SegmentFields.{IsSegment};

use std::marker::Model;

/// The settings of TCP on one host. `receive` and `send` are windows in segments of `mss` bytes,
/// `tries` is the greatest number of retransmissions, `msl` the maximum segment lifetime in ticks,
/// and `frequency` the ticks of a second.
#[derive(Clone, Copy, Debug, PartialEq, Eq)]
pub struct TcpConfig {
    pub iss: u64,
    pub mss: u64,
    pub receive: u64,
    pub send: u64,
    pub tries: u64,
    pub msl: u64,
    pub frequency: u64,
}

/// A client session: whether it uses TCP (else UDP), its earliest start and the window of its random
/// start in ticks, the bytes of a file and of a datagram, and the ticks between two datagrams.
#[derive(Clone, Copy, Debug, PartialEq, Eq)]
pub struct ClientRow {
    pub tcp: bool,
    pub start: u64,
    pub window: u64,
    pub file: u64,
    pub datagram: u64,
    pub interval: u64,
}

/// A server of a traffic pattern: the host that is its client, the number of the server's interface,
/// and the server's port.
#[derive(Clone, Copy, Debug, PartialEq, Eq)]
pub struct ServerRow {
    pub client: u32,
    pub interface: u32,
    pub port: u16,
}

/// A TCP segment (RFC 9293): its first position, the position that it acknowledges, its flags, the
/// bytes of data and the window in bytes. Positions do not wrap: `seq + length` is below 2^32, and
/// `ack` and `window` are at most 2^32. Contracts see the record of its fields.
#[derive(Clone, Copy, Debug, PartialEq, Eq)]
pub struct Segment {
    pub seq: u64,
    pub ack: Option<u64>,
    pub syn: bool,
    pub fin: bool,
    pub length: u64,
    pub window: u64,
}

impl Model for Segment {
    ghost use Rattle.sim_base.specs.SegmentFields.{SegmentFields, IsSegment};

    ghost Value = { SegmentFields };

    ghost view = { λ s. record { seq = s.seq; ack = s.ack; syn = s.syn; fin = s.fin; length = s.length; window = s.window } };

    ghost invariant = { λ s. IsSegment (record { seq = s.seq; ack = s.ack; syn = s.syn; fin = s.fin; length = s.length; window = s.window }) };

    ghost inverse = { λ s. record { seq = s.seq; ack = s.ack; syn = s.syn; fin = s.fin; length = s.length; window = s.window } };
}

impl Segment {
    /// Tells a proof that the fields are in their ranges.
    pub fn known(&self)
        ensures { IsSegment self.now }
    {
        let _seq = self.seq;
    }
}

/// The states of a TCP session that a trace names (RFC 9293).
#[derive(Clone, Copy, Debug, PartialEq, Eq)]
pub enum TcpState {
    SynSent,
    SynReceived,
    Established,
    FinWait1,
    FinWait2,
    TimeWait,
    LastAck,
    Closed,
}

/// Why a packet was dropped: its time to live ended, no route or port took it, the interface's
/// buffer was full, or the link was down.
#[derive(Clone, Copy, Debug, PartialEq, Eq)]
pub enum Reason {
    Ttl,
    Route,
    Port,
    Buffer,
    Link,
}
