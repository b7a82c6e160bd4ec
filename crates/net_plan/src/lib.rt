//! The plan of a network: its hosts as entities, with their channels, and the mappings between them.
//!
//! Contracts cite `specs/NetPlan.antt` (the plan with the names of its hosts) and `specs/NetDraft.antt` (what the plan
//! is made of, call by call), over the definitions of `net_hosts`, `net_layout` and `ssf_model`. The contracts
//! of [`laws`] say that the calls that make a plan lead to that draft, and that none of them is refused.
#![tactic(auto)]

mod building;
pub mod laws;
mod naming;
mod plan;

pub use plan::plan_of;
