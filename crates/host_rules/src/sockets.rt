//! The ends of a TCP session.

/// The two ends between which a TCP session of a host runs (RFC 793 section 2.7): the host's own IPv4
/// address and port, and the peer's.
#[derive(Clone, Copy, Debug, PartialEq, Eq)]
pub struct Sockets {
    pub own: u32,
    pub own_port: u16,
    pub peer: u32,
    pub peer_port: u16,
}
