//! A run by one event list which writes its trace while it goes on, so that it keeps no entry.
//!
//! Contracts cite `specs/Endings.antt` (how such a run ends, and what was written then).
#![tactic(auto)]

mod running;
mod sending;

pub use running::{ListEnd, ListFault, run_list};
