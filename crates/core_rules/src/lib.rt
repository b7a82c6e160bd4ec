//! All parts of a run together: timelines, mails and the barrier. When they are sound for the run of a
//! plan, what the six steps leave of them, and that these are steps of the rules.
//!
//! All is said on data (`specs/`): `Cores.antt` has the parts, as the rules see them, and what sound
//! parts are, `Stepping.antt` when a step can be made and what it leaves, `Leading.antt` where steps of
//! the rules lead, `Beginning.antt` the parts before any step, `Reading.antt` what can be read off
//! them, and `Ending.antt` how much is left to do. The laws are the contracts of the functions in
//! [`laws`], which have empty bodies. `proofs/` has them once more in the form in which the crates above
//! cite them.
#![tactic(auto)]

pub mod laws;
