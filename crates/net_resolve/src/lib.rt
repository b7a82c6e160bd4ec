//! From a resolved tree to its network: the walk over the tree of its Net (`net_graph`), and then the
//! addresses that parts name: the attachments of links, the gateways of hosts, and the clients and
//! servers of patterns. It is one pass over each kind of part, with tables by number.
//!
//! Contracts cite `NetworkOf` (the network of a tree, or its first fault) and `Networks` (what every
//! network meets) of the specs of `net_graph`. Those of inner functions cite `specs/Tables.antt` and
//! `specs/Parts.antt` too.
#![tactic(auto)]

mod build;
mod found;
mod hosts;
mod links;
mod servers;

pub use build::build_network;
