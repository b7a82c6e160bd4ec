//! The laws of the run of every plan.
//!
//! A plan is read as a machine (`ssf_model`), whose events are executed one by one in the order of
//! their keys (`event_order`). The laws are the contracts of the functions in [`laws`], which have
//! empty bodies: keys rise, what is pending is executed, a run goes on from each of its worlds. The
//! laws of writes by their place, of promises, of parcels and of windows hold of every run and every
//! cut. What holds of plans that fit is in `run_health`.
//!
//! Contracts cite `specs/Openings.antt` (what the laws need of a plan's opening) besides the
//! definitions of `event_order` and `ssf_model`. `proofs/Lawful.antt` shows that the machine of a plan
//! meets what the laws of machines ask, and `ByPlace.antt` that the writes on a channel are numbered
//! in a row.
#![tactic(auto)]

pub mod laws;
