//! The TCP sessions of a host, in order of creation. A session is found by its number, by the two ends
//! between which it runs, and the least deadline of all is known, without a look at every session.
//!
//! Contracts cite `specs/Entries.antt` (what a table is, and what its calls make of it).
#![tactic(auto)]

mod entry;
mod table;

pub use entry::{Entry, Sockets};
pub use table::SessionTable;

#[cfg(test)]
mod tests;
