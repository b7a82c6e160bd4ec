//! Addresses of hosts and interfaces (NHI, after SSFNet): what they are, how they are read and
//! printed, and how an address that is relative to a Net becomes a full one.
//!
//! An NHI is an id, then any number of a colon and an id, then perhaps an id in brackets. The last
//! id before the bracket is the host's, those before it are the Nets', and the one in brackets is
//! the interface's. An id has 1 to 10 digits and is at most 2^31 - 1.
//!
//! Contracts cite `specs/Number.antt` (numbers in decimal) and `specs/NhiText.antt` (the text of an
//! NHI, both ways).
#![tactic(auto)]

mod nhi;
mod number;
mod read;

pub use nhi::{IdRange, MOST_ID, Nhi, print_nhi, under};
pub use number::{read_digits, read_number};
pub use read::{NhiFault, read_nhi};
