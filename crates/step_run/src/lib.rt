//! A run by steps of its timelines on one thread, which writes its trace while it goes on.
//!
//! Contracts cite `specs/Endings.antt` (how such a run ends, and what was written then). [`Records`]
//! writes what timelines have executed, piece by piece.
#![tactic(auto)]

mod records;
mod running;

pub use alignment::Mode;
pub use records::Records;
pub use running::{Prepared, StepEnd, StepOrder, prepare, run_steps, write_end};
pub use sync_core::Step;
