//! Tests of `sim_base` and of the crates that read, where no command shows what is tested: spans of tokens,
//! equal trees, places of a key, and files, sinks, lists and gates in memory. They stand above those crates, since
//! a crate with tests is proved twice.
#![tactic(auto)]

#[cfg(test)]
mod outside;
#[cfg(test)]
mod places;
#[cfg(test)]
mod tokens;
#[cfg(test)]
mod trees;
