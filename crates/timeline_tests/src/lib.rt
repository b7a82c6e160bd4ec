//! Tests of timelines whose parts are made by hand. It has no functions but tests and their helpers.
#![tactic(auto)]

#[cfg(test)]
mod node;
#[cfg(test)]
mod tests;
