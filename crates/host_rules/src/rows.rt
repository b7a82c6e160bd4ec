//! The rows of a host: what its model says of it, which no event changes.
use sim_base::{ClientRow, ListOf, ServerRow, TcpConfig};
use spf_routes::Period;

/// A host or router: its number among all of them, its interfaces, its routes period by period, its
/// client sessions, the servers that these go to, the servers' interfaces with their addresses, the
/// ports on which it serves, its settings of TCP, and the channels by which its processes wake its
/// clock.
#[derive(Drop)]
pub struct HostRows {
    pub number: u32,
    pub ports: ListOf<HostPort>,
    /// By rising ticks; a period ends where the next one begins.
    pub routes: ListOf<Period>,
    pub clients: ListOf<ClientRow>,
    pub servers: ListOf<ServerRow>,
    /// The number of a server's interface, and its address.
    pub addresses: ListOf<(u32, u32)>,
    pub listens: ListOf<u16>,
    pub tcp: TcpConfig,
    pub poke_in: u32,
    pub poke_out: u32,
}

/// An interface of a host: its id, its rate in bit/s, its buffer in bytes, its address where a link
/// attaches it, the in-channel by which packets come, and what the link leads to and when it is down.
#[derive(Drop)]
pub struct HostPort {
    pub id: u32,
    pub bitrate: u64,
    pub buffer: u64,
    pub address: Option<u32>,
    pub in_channel: u32,
    /// The address of each other attachment of the link, and the out-channel to it.
    pub outs: ListOf<(u32, u32)>,
    /// From the first tick on and before the second one the link is down.
    pub downs: ListOf<(u64, u64)>,
}
