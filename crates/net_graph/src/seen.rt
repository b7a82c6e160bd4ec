//! What the walk over the tree of a Net has met, before addresses are looked up.

use crate::ids::IdPath;
use crate::list_keys::{GatewayKeys, LinkKeys, ServerKeys, SessionKeys};
use crate::names::Paths;
use crate::{InterfaceRow, NetRow};
use nhi_address::Nhi;
use sim_base::ListOf;

/// A host or router: the number and the ids of its Net, its id, whether it is a router, and its
/// default route.
#[derive(Drop)]
pub struct HostSeen {
    pub net: u32,
    pub path: IdPath,
    pub id: u32,
    pub router: bool,
    pub gateway: Option<GatewayKeys>,
}

/// A session: the number of its host, and what its keys say.
#[derive(Clone, Copy, Debug, PartialEq, Eq)]
pub struct SessionSeen {
    pub host: u32,
    pub keys: SessionKeys,
}

/// A link: the number and the ids of its Net, its place among the links and Nets of that one, and
/// what its keys say.
#[derive(Drop)]
pub struct LinkSeen {
    pub net: u32,
    pub path: IdPath,
    pub order: u32,
    pub keys: LinkKeys,
}

/// A traffic pattern: the ids of its Net, and its client.
#[derive(Drop)]
pub struct PatternSeen {
    pub path: IdPath,
    pub client: Nhi,
}

/// A server: the ids of its Net, and what its keys say.
#[derive(Drop)]
pub struct ServerSeen {
    pub path: IdPath,
    pub keys: ServerKeys,
}

/// A traffic pattern, or a server of the pattern that came last.
#[derive(Drop)]
pub enum TrafficSeen {
    /// A traffic pattern.
    Pattern(PatternSeen),
    /// A server of the pattern that came last before it.
    Server(ServerSeen),
}

/// What was met so far, each kind in the order of its numbers. A Net is named by the ids of the Nets
/// down to itself, a host by those of its Net and its own, and an interface by its host's and its
/// own. `downs` counts the times in which a link is down, and `servers` the servers of all patterns.
#[derive(Drop)]
pub struct Seen {
    pub nets: ListOf<NetRow>,
    pub net_names: Paths,
    pub hosts: ListOf<HostSeen>,
    pub host_names: Paths,
    pub interfaces: ListOf<InterfaceRow>,
    pub interface_names: Paths,
    pub links: ListOf<LinkSeen>,
    pub downs: usize,
    pub sessions: ListOf<SessionSeen>,
    pub traffic: ListOf<TrafficSeen>,
    pub servers: usize,
}
