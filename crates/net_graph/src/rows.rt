//! The rows of a network: its Nets, hosts, interfaces, links, sessions and the servers of its traffic
//! patterns, each numbered from 0 in the order of a depth-first walk over the resolved tree.

use sim_base::{ClientRow, ListOf, ServerRow, TcpConfig};

/// A network. `frequency` is in ticks a second, from 1 to 10^12, and `patterns` counts the servers of
/// all patterns.
#[derive(Drop)]
pub struct Network {
    pub frequency: u64,
    pub patterns: u32,
    pub nets: ListOf<NetRow>,
    pub hosts: ListOf<HostRow>,
    pub interfaces: ListOf<InterfaceRow>,
    pub links: ListOf<LinkRow>,
    pub sessions: ListOf<SessionRow>,
    pub servers: ListOf<ServerRow>,
}

/// A Net: the number of the Net in which it stands, its place among the links and Nets of that one,
/// and the ids of the Nets from the outermost nested one down to itself. The top Net has no parent
/// and no ids.
#[derive(Drop)]
pub struct NetRow {
    pub parent: Option<u32>,
    pub order: u32,
    pub ids: ListOf<u32>,
}

/// A host or a router: the number of its Net, its id, whether it is a router, whether it has an OSPF
/// session, its default route, and the settings of TCP.
#[derive(Clone, Copy, Debug, PartialEq, Eq)]
pub struct HostRow {
    pub net: u32,
    pub id: u32,
    pub router: bool,
    pub ospf: bool,
    pub gateway: Option<Gateway>,
    pub tcp: TcpConfig,
}

/// A default route: the number of the interface by which it leaves, and perhaps that of the next
/// hop's interface.
#[derive(Clone, Copy, Debug, PartialEq, Eq)]
pub struct Gateway {
    pub interface: u32,
    pub next: Option<u32>,
}

/// An interface: the number of its host, its id, its rate (1 to 10^12 bit/s), its latency (up to 10^18
/// ticks), its buffer (1 to 2^31 bytes), its cost to OSPF (1 to 65,535), and where a link attaches it,
/// the number of the link and the place among the link's attachments.
#[derive(Clone, Copy, Debug, PartialEq, Eq)]
pub struct InterfaceRow {
    pub host: u32,
    pub id: u32,
    pub bitrate: u64,
    pub latency: u64,
    pub buffer: u64,
    pub cost: u32,
    pub link: Option<(u32, u32)>,
}

/// A link: the number of its Net, its place among the links and Nets of that one, its delay (up to
/// 10^18 ticks), the numbers of the interfaces that it attaches, its priority (0 to 255; the smaller
/// goes first), and the times in which it is down.
#[derive(Drop)]
pub struct LinkRow {
    pub net: u32,
    pub order: u32,
    pub delay: u64,
    pub attached: ListOf<u32>,
    pub priority: u8,
    pub downs: ListOf<Down>,
}

/// A time in which a link is down: at each tick t with `from` ≤ t < `to`. Both are up to 10^18 ticks.
#[derive(Clone, Copy, Debug, PartialEq, Eq)]
pub struct Down {
    pub from: u64,
    pub to: u64,
}

/// A session: the number of its host, and what it is.
#[derive(Clone, Copy, Debug, PartialEq, Eq)]
pub struct SessionRow {
    pub host: u32,
    pub kind: SessionKind,
}

/// What a session is. The settings of TCP that stand at a `tcp` session are the host's.
#[derive(Clone, Copy, Debug, PartialEq, Eq)]
pub enum SessionKind {
    /// `ip`, `udp` or `socket`: without an effect.
    Silent,
    /// The host relays, and has the routes of OSPF.
    Ospf,
    /// Sets the host's TCP; the first one counts.
    Tcp,
    /// Transfers to the servers of the host's patterns.
    Client(ClientRow),
    /// Takes transfers and datagrams at this port.
    Server(u16),
}
