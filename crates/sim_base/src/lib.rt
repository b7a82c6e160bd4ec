//! The ground on which every crate stands: the plain types that several crates share, the lists and
//! texts that contracts see as lists, the outside as traits with a meaning, and the calls that read
//! a whole file and write a whole text.
//!
//! Contracts cite `specs/Outside.antt` (what the outside tells, and when a count rose).
#![tactic(auto)]

mod gates;
mod list_of;
mod memory_library;
mod memory_sink;
mod outside;
mod records;
mod text;
mod transfer;

pub use gates::{OpenGate, StopGate};
pub use list_of::ListOf;
pub use memory_library::MemoryLibrary;
pub use memory_sink::MemorySink;
pub use outside::{Failed, Gate, Library, Memory, Sink};
pub use records::{ClientRow, Reason, Segment, ServerRow, TcpConfig, TcpState};
pub use text::{Text, push_number};
pub use transfer::{ReadEnd, read_file, write_all};
