//! How hosts send packets: the rows of a host, its interfaces, and what its sessions do as packets
//! and lines, by the rules of `host_rules`.
//!
//! Contracts cite the definitions of `host_rules`, and `specs/Sites.antt` (the rows with what is kept
//! beside them, and a host with other interfaces).
#![tactic(auto)]

mod acts;
mod interfaces;
mod lookup;
mod routes;
mod site;

pub use interfaces::{Interfaces, tell_dropped};
pub use routes::Routes;
pub use site::{Site, own_addresses, tables_of};
