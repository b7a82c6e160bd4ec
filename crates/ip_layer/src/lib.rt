//! What IP does with a packet (RFC 791): whether it is for this host, by which route it leaves, or
//! why it is dropped.
//!
//! A host looks at a received packet by [`receive`] and at one of its own by [`send`]. Both only
//! decide: the host lowers the time to live and offers the packet to an interface.
//!
//! Contracts cite `specs/Packets.antt` (what they see of a packet, and its ranges) and
//! `specs/Forwarding.antt` (the two tables). [`laws`] has what a verdict tells of the routes.
#![tactic(auto)]

pub mod laws;
mod packet;
mod verdict;

pub use packet::Packet;
pub use verdict::{Verdict, best_place, receive, send};

#[cfg(test)]
mod tests;
