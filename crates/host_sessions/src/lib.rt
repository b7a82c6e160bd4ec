//! The TCP sessions of a host: the table of `session_table` with the sessions of `tcp_session`, seen
//! as the list of entries of which `host_rules` speaks.
//!
//! Contracts cite `host_rules`' `specs/Entries.antt` (the list, and what a turn makes of it), the rules
//! of `tcp_rules` by which a session turns, and `specs/Tabled.antt` (what a turn tells, and how the
//! table is kept).
#![tactic(auto)]

mod sessions;

pub use sessions::{Sessions, Turned};
