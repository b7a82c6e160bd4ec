//! The order in which a simulation's events happen: the key of an event, the key of an event that
//! another one writes, and the run of any machine that executes events in the order of their keys.
//!
//! Contracts cite `specs/Order.antt` (the order, and a child's key). `specs/Pending.antt` has lists
//! of items in this order. `specs/Machine.antt` says what a machine and its run are,
//! `specs/Run.antt` which event is executed where and what wrote it, and `specs/Laws.antt` what a
//! machine has to meet so that its run has the laws. `proofs/` has these laws, by which the crates
//! above prove those of the runs of plans, and rows worked out by hand.
#![tactic(auto)]

mod key;
mod keyed;

pub use key::{Key, child_key};
pub use keyed::Keyed;
