//! Hosts: what they do at an event, by the rules of `host_rules`.
//!
//! Contracts cite the definitions of `host_rules`, of which each function here is one, and
//! `specs/Keeping.antt` (what the state of a host keeps, and what follows a session's turn).
#![tactic(auto)]

mod arrival;
mod clock;
mod datagrams;
mod host;
mod processes;
mod stack;
mod state;
mod transfers;

pub use arrival::MOST_ACCEPTED;
pub use host::Host;
pub use stack::Stack;
pub use state::HostState;
