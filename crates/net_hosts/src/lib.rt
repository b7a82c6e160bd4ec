//! The rows of each host of a network: what its interfaces, routes, sessions and channels are, as
//! the rules of hosts want them.
//!
//! Contracts cite `specs/HostRowsOf.antt` (the rows of a host), `specs/HostOuts.antt` (its
//! out-channels) and `specs/Left.antt` (lists that are moved into the rows), over the definitions of
//! `net_layout` and `host_rules`. The contracts of [`laws`] have what holds of them.
#![tactic(auto)]

pub mod laws;
mod parts;
mod rows;

pub use rows::host_rows;
