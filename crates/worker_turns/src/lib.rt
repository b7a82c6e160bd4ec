//! Workers: each takes turns at the timelines of a run whose parts lie in a table of turns.
//!
//! Contracts cite `specs/Passes.antt` (a worker's pass), `specs/Working.antt` (when a worker has done what there was to
//! do) and `specs/Turning.antt` (of which steps a turn is made).
#![tactic(auto)]

mod task;
mod worker;

pub use worker::{Turned, Worker};
