//! The processes of a host by their numbers, and whether a host fits its entity.
//!
//! Contracts cite the list of roles in `host_rules`' `specs/Reacting.antt`, what it asks of channels,
//! processes and waits in its `specs/Limits.antt`, and `specs/Processes.antt` (which process a number
//! names).
#![tactic(auto)]

mod placed;
mod roles;

pub use placed::is_placed;
pub use roles::{Process, process_at};
