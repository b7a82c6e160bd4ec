//! The barrier between windows. In each round every timeline reports the least time that it still has ahead
//! and how many writes it has made on each of its cross channels. When all have reported, the barrier is
//! crossed: the next window opens, or the run has ended.
//!
//! Contracts cite `specs/BarrierFields.antt` (what they see of a barrier) and `specs/Crossings.antt` (what
//! reports and crossings make of it).
#![tactic(auto)]

mod barrier;

pub use barrier::{Barrier, Crossing, Reported};

#[cfg(test)]
mod tests;
