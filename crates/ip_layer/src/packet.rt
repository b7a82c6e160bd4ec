//! The packet.
use sim_base::Segment;
use std::marker::Model;

/// A packet of IP without options (RFC 791): its source and destination, whether it is of TCP (else
/// of UDP), its time to live, its ports, its bytes with all headers, and the segment of TCP. A packet
/// of TCP has a segment and 40 bytes of headers, one of UDP has none and at least 28 bytes. Contracts
/// see the record of its fields.
#[derive(Clone, Copy, Debug, PartialEq, Eq)]
pub struct Packet {
    pub src: u32,
    pub dst: u32,
    pub tcp: bool,
    pub ttl: u8,
    pub src_port: u16,
    pub dst_port: u16,
    pub bytes: u64,
    pub segment: Option<Segment>,
}

impl Model for Packet {
    ghost use Rattle.ip_layer.specs.Packets.{PacketFields, IsPacket};
    ghost use Rattle.ip_layer.specs.PacketViews.{packet_view, packet_inside};

    ghost Value = { PacketFields };

    ghost view = { packet_view };

    ghost invariant = { λ p. IsPacket (packet_view p) };

    ghost inverse = { packet_inside };
}

impl Packet {
    ghost use Rattle.ip_layer.specs.Packets.{IsPacket};

    /// Tells a proof that the fields are in their ranges.
    pub fn known(&self)
        ensures { IsPacket self.now }
    {
        let _bytes = self.bytes;
    }
}
