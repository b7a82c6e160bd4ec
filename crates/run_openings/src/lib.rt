//! The laws of openings: a plan goes on where a run of it stood.
//!
//! After the first n events of its run a plan has an opening (`opening_after`): the state of each
//! entity with the waits and tickets of its processes, the count of each channel, what is pending, and
//! how many events went before. The plan with this opening goes through the worlds, events and
//! entries that the plan's own run goes through from there on, up to the same end or a later one; and
//! it fits, where no number is too great for an opening and all that is pending is in round 0. The
//! laws are the contracts of the functions in [`laws`], which have empty bodies.
//!
//! Contracts cite `specs/Again.antt` (the plan that opens so) and `Limits.antt` (the numbers that an
//! opening may have) besides the definitions of `event_order`, `ssf_model` and `run_health`.
//!
//! `proofs/Again.antt` shows that such an opening, read again, is the world that it was taken of, and
//! `Longer.antt` goes from there to later ends. `Fitting.antt` shows from the health of the run that
//! the plan fits, and `Room.antt` how far the run takes its numbers.
#![tactic(auto)]

pub mod laws;
