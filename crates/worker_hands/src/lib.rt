//! The hand that makes a worker's steps, and the steps that a worker makes on the parts of a run that it holds.
//!
//! Contracts cite `specs/Hands.antt` and `specs/Asked.antt` (what a hand was asked), and `specs/Stepping.antt` (what
//! becomes of the parts).
#![tactic(auto)]

mod hand;
mod steps;

pub use hand::{Answer, Hand, Made};
pub use steps::{Halt, cross_all, enter_all, execute_all, post_all, report_all, take_all};
