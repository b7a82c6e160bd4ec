//! Miniatures over the public calls of tables of turns, and tests of those tables.
//!
//! [`post`] takes a sender and a mail at once, with a posted word between them. [`crossing`] lets a
//! barrier learn by marks what a worker has done. Both are proved from the contracts of `turn_table`
//! alone.
#![tactic(auto)]

#[cfg(test)]
mod ball;
pub mod crossing;
#[cfg(test)]
mod office;
pub mod post;
#[cfg(test)]
mod tests;
