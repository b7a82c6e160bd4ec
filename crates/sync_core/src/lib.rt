//! All timelines of a run, their mails and the barrier, and the steps that keep them in step, on one
//! thread.
//!
//! Contracts cite `specs/Cores.antt` (how all parts are kept), `specs/Steps.antt` (which steps there are,
//! and what is to hold before one) and `specs/Driving.antt` (steps one after the other, up to an end) besides the
//! definitions of `core_rules`.
#![tactic(auto)]

mod choosing;
mod core_parts;
mod driving;
mod ends;
mod finding;
mod stepping;
mod work;

pub use core_parts::{Core, Parts};
pub use driving::{CoreEnd, DriveEnd, Driven};
pub use plan_shares::CrossEnd;
pub use sync_steps::{ScheduleFault, Step, Stepped, read_schedule};
