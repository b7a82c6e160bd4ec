//! The laws of the runs of plans that fit.
//!
//! Such a run stays healthy: its states are valid with their waits, entities write on channels of
//! their own alone, what is pending stands on the channel that brings it, and tickets, rounds and
//! counts are bounded by the events of the entity's own timeline. From this follow what an event
//! writes, that rounds count the events of one timeline, that a group of entities depends on its own
//! events, and that a cut drops nothing where no timeline has many events. The laws are the contracts
//! of the functions in [`laws`], which have empty bodies.
//!
//! Contracts cite `specs/Healthy.antt` (what holds all along a run), `Joined.antt` (which event writes
//! which, and cuts that keep rounds) and `Groups.antt` (groups of entities, and who writes on a
//! channel) besides the definitions of `event_order` and `ssf_model`.
//!
//! `proofs/Healths.antt` goes from one event to the next, from what `Delivers.antt` says of one
//! entity and `Sends.antt` of what it sends, and `Along.antt` along the run.
#![tactic(auto)]

pub mod laws;
