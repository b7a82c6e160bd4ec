//! The rules by which timelines that share out a run are kept in step: bounds, six steps, and what it
//! means that a timeline, the mail on a channel and the barrier are sound.
//!
//! All is said on data (`specs/`): `Parts.antt` has what each part holds, `Bounds.antt` how far a
//! timeline may go and what it can promise, `Shared.antt` what a run and its sharing out have to meet,
//! `Sound.antt` what sound parts are, `Steps.antt` the six steps, and `Measure.antt` how much is left to
//! do. The laws are the contracts of the functions in [`laws`], which have empty bodies: each step
//! keeps sound parts sound, no event comes too late, and some step is enabled until all is done.
//! `proofs/` has the laws once more in the form in which the crates above cite them, and two runs worked
//! by the six steps.
#![tactic(auto)]

pub mod laws;
