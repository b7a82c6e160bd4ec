//! A session in the table.

/// The two ends between which a TCP session runs (RFC 793 section 2.7): the host's own IPv4 address
/// and port, and the peer's.
#[derive(Clone, Copy, Debug, PartialEq, Eq, Hash)]
pub struct Sockets {
    pub own: u32,
    pub own_port: u16,
    pub peer: u32,
    pub peer_port: u16,
}

/// A session: its number among all that the host ever had, its ends, the client session that opened it,
/// which one that was accepted has not, its deadline in ticks, and what it keeps.
#[derive(Drop)]
pub struct Entry<S> {
    pub number: u64,
    pub sockets: Sockets,
    pub client: Option<u32>,
    pub deadline: Option<u64>,
    pub session: S,
}
