//! A run by workers in threads, which writes its trace while it goes on.
//!
//! Contracts cite `specs/Working.antt` (how such a run ends), and what a run by steps writes.
#![tactic(auto)]

mod running;

pub use running::{WorkEnd, WorkOrder, run_by_workers};
pub use step_run::{Mode, StepEnd};
pub use worker_pool::Lane;
