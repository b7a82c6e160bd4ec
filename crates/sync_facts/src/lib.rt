//! The run of a plan whose entities stand on timelines is one that is shared out: what the rules by
//! which timelines are kept in step ask of a run (`sync_rules`) holds of it.
//!
//! Contracts cite `specs/Nets.antt`, the channels between a plan's timelines, and `specs/Aligned.antt`,
//! what the laws need of them.
#![tactic(auto)]

pub mod laws;
