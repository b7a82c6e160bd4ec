//! What a host does at an event, as total functions over plain records: how it sends packets and
//! passes them on, what its sessions, its clock and its client sessions do, and which states of a
//! host are valid.
//!
//! Contracts cite `specs/Hosts.antt` (what a host keeps), `specs/Effects.antt`, `specs/Sending.antt`,
//! `specs/Entries.antt`, `specs/Hearing.antt` and `specs/Reacting.antt` (what it does), and
//! `specs/Limits.antt` (its valid states). [`laws`] speaks of `specs/Between.antt` (sessions between two
//! ends) and `specs/Sources.antt` (where the packets come from that a host writes) besides.
#![tactic(auto)]

pub mod laws;
mod rows;
mod sockets;

pub use rows::{HostPort, HostRows};
pub use sockets::Sockets;
