//! The system that the program runs on, as the outside of `sim_base`: a library of files that something opens,
//! and a sink over a writer. Each object counts its failures.
//!
//! What they tell of content is what their readers and their writer tell: of real files and streams that is
//! nothing, of those in memory everything. So the contracts of `Library` and `Sink`, which speak of what is told,
//! hold the bodies here to every byte. Of the system only `SystemFiles` and the streams that `main` hands in
//! are left to trust.
#![tactic(auto)]

mod files;
mod streams;

pub use files::{FileLibrary, Opener, SystemFiles};
pub use streams::StdSink;

#[cfg(test)]
mod tests;
