//! The one event list: the plain program of the definition of a run. It executes a plan's events
//! one by one in the order of their keys. That each of them can be executed, and that no number
//! leaves its range, is what `run_health` says of the runs of plans that fit.
//!
//! [`RunningList`] is a run while it goes on, and [`run_single`] a whole one. Contracts cite
//! `specs/Standing.antt` (where a run stands after some events, and one step of it).
#![tactic(auto)]

mod agenda;
mod fan_out;
mod one_list;
mod pending;
mod running;
mod single;

pub use running::RunningList;
pub use single::{Single, SingleEnd, run_single};
