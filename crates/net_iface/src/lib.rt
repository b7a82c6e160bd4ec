//! An interface of a host. It sends packets in the order in which they are offered, at its bitrate,
//! and drops one for which its buffer has no room (drop-tail).
//!
//! Contracts cite `specs/InterfaceFields.antt` (what they see of an interface) and
//! `specs/DropTail.antt` (the rule). [`laws`] has that offers keep the ranges of an interface.
#![tactic(auto)]

mod interface;
pub mod laws;

pub use interface::{Interface, Offer};

#[cfg(test)]
mod tests;
