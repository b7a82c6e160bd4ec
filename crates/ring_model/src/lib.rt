//! The ring model: nodes that pass tokens on.
//!
//! Each node is an entity with one process, one in-channel and one out-channel of delay 0. At its
//! start a node writes once for each of its tokens, and at each message once. Every write has delay
//! 0 and an empty payload, and the process always waits on the node's in-channel. A hop is a
//! mapping of a node's out-channel to a node's in-channel, with a delay and a priority.
//!
//! It stands on `ssf_model`, of whose behaviours it is one. Contracts cite `specs/Reacting.antt`
//! (how a node reacts, and its valid states) and `specs/Rings.antt` (the draft of a ring).
#![tactic(auto)]

mod ring;
#[cfg(test)]
mod tests;

pub use ring::{Hop, Ring, RingPayload, RingState, ring_builder};
