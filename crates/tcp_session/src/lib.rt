//! A TCP session (RFC 793): the end that opens a connection and sends a file, or the end that is
//! opened to and receives it. Payload is a count of bytes.
//!
//! Contracts cite the rules of `tcp_rules`, where each stands with its section of the standard:
//! every call gives exactly the rule's session and appends exactly its acts. A call takes its memory
//! first, and changes nothing where it has none.
#![tactic(auto)]

mod client;
mod ranges;
mod segments;
mod server;
mod session;

pub use segments::Segments;
pub use session::Session;
pub use tcp_rules::Act;
