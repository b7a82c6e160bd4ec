//! Workers that carry a run forward in threads: each takes turns at the timelines of a table of turns.
//!
//! Contracts cite `specs/Lanes.antt` (lanes and what becomes of them), `specs/Carried.antt` (what becomes of the parts of
//! a run), and `specs/Laid.antt` (the parts as a list of values).
#![tactic(auto)]

mod carrying;
mod ending;
mod lane;
mod laying;
mod pool;
mod route;

pub use lane::Lane;
pub use pool::{Pool, PoolEnd, run_workers};
