//! The graph of one period, and the routes that are taken from it.
use ip_blocks::Block;
use sim_base::ListOf;

/// An interface that lies on a link: its host, its number within the host, the link, its address,
/// its cost from 1 to 65,535, and whether its host relays.
#[derive(Clone, Copy, Debug, PartialEq, Eq)]
pub struct Arm {
    pub host: u32,
    pub interface: u32,
    pub link: u32,
    pub address: u32,
    pub cost: u32,
    pub relays: bool,
}

/// The hosts, by their count, the block of each link, and the arms on links that are up.
///
/// The number of each arm's host is below the count of hosts, that of its link below the count of
/// blocks, and its cost is at most 65,535; all arms of one host have the same `relays`. There are at
/// most 2^32 links.
#[derive(Drop)]
pub struct Graph {
    pub hosts: u32,
    pub blocks: ListOf<Block>,
    pub arms: ListOf<Arm>,
}

/// A route: the block that it leads to, the interface by which it leaves, the address of the next
/// hop (0 where the block is that of a link of the host itself), and its cost.
#[derive(Clone, Copy, Debug, PartialEq, Eq)]
pub struct Route {
    pub block: Block,
    pub interface: u32,
    pub next: u32,
    pub cost: u64,
}

/// The routes of a host from a tick on.
#[derive(Drop)]
pub struct Period {
    pub from: u64,
    pub routes: ListOf<Route>,
}

/// What a RIP message says of a link: that it is this many links away; 16 stands for out of reach.
#[derive(Clone, Copy, Debug, PartialEq, Eq)]
pub struct RipEntry {
    pub link: u32,
    pub metric: u8,
}
