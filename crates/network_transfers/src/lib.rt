//! What a TCP server delivers in a run of a network: nothing but what the host of its peer's address sent to it
//! from the peer's port, without a gap. In each such run every host stays valid.
//!
//! Contracts cite `specs/Senders.antt` (the host of an address, and what a host sends to a session) besides the
//! definitions of `net_plan`, `transfer_laws`, `host_rules` and `ssf_model`. The laws stand on those of
//! `transfer_laws`, which speak of all plans of hosts.
#![tactic(auto)]

pub mod laws;
