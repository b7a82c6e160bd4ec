//! One timeline: it executes the events of its entities before its bound, takes in what other
//! timelines have posted, and keeps what it has written to them until that is posted.
#![tactic(auto)]

mod answers;
mod bounds;
mod executing;
pub mod laws;
mod moving;
mod opening;
mod timeline;

pub use answers::{Holder, Ran};
pub use timeline::Timeline;
pub use timeline_parts::{Cross, Part};
