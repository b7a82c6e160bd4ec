//! Tests of runs by steps. It has no functions but tests and their helpers.
#![tactic(auto)]

#[cfg(test)]
mod rings;
#[cfg(test)]
mod tests;
