//! The histories of all timelines as a piece of the run's trace.
//!
//! All is said on data (`specs/`): `Records.antt` has the entries of a run before a time, and all of
//! them, `Kept.antt` what timelines keep of them, and `Ends.antt` how a run ends. The laws are the
//! contracts of the functions in [`laws`], which have empty bodies.
#![tactic(auto)]

pub mod laws;
