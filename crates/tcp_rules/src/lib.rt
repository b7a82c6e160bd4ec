//! The rules of a TCP session as total functions over plain records: what the end that opens (the
//! client) and the end that was opened to (the server) do at a segment and at a timeout. Payload is
//! a count of bytes, and data goes from the client to the server.
//!
//! Contracts cite `specs/Segments.antt`, `specs/Clients.antt`, `specs/Servers.antt` and
//! `specs/Sessions.antt`, where each rule stands with its section of the standard, and
//! `specs/Limits.antt`, the ranges of what a session keeps. The laws in [`laws`] say what the rules
//! give whatever the network does; `specs/Transfers.antt` has the worlds of which they speak.
#![tactic(auto)]

pub mod laws;
mod records;

pub use records::{Act, Range, Timing};
