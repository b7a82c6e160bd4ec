//! Alignments: which entities of a plan share a timeline, and which mappings lead from one timeline to
//! another (composite synchronization, Nicol and Liu, IEEE TPDS 13(5), 2002).
//!
//! A mode gives each entity a label. Entities with one label share a timeline, and so do the two ends
//! of a mapping without delay. Each mapping that leads to another timeline has thus a delay of at
//! least one tick.
//!
//! Contracts cite `specs/Alignment.antt` (which entities share a timeline) and `specs/Classes.antt`
//! (which mappings are cross, appointed and windowed). [`laws`] has what follows from these.
#![tactic(auto)]

mod groups;
mod labels;
pub mod laws;
mod mappings;
mod timelines;

pub use labels::Mode;
pub use mappings::{Class, Classes, classify};
pub use timelines::{AlignFault, Alignment, MOST_TIMELINES, align};
