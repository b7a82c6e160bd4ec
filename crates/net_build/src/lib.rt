//! From a model to its plan.
//!
//! A ring (`ring`) has nodes, tokens and hops: contracts cite `specs/RingModel.antt`. The text of a plan
//! (`text`) is that of `specs/PlanText.antt`.
#![tactic(auto)]

mod built;
mod fields;
pub mod laws;
mod maps;
mod names;
mod ring;
mod routes;
mod text;

pub use built::Built;
pub use names::host_name;
pub use ring::{RingCounts, ring_counts, ring_plan, ring_text};
pub use text::plan_text;
