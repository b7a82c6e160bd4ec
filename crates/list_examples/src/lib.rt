//! Small models that are run by the one event list: rings, and two entities with timers. The worked
//! examples are tests.
#![tactic(auto)]

#[cfg(test)]
mod opening_tests;
pub mod rings;
#[cfg(test)]
mod tests;
pub mod timers;
