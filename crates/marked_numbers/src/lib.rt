//! Numbers of which some are marked, and the least of those.
//!
//! Contracts see a list that has for each number whether it is marked, and cite `specs/Least.antt`.
#![tactic(auto)]

mod marks;

pub use marks::Marks;
