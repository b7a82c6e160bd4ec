//! Tests of how entities are shared out to timelines. It has no functions but tests and their helpers.
#![tactic(auto)]

#[cfg(test)]
mod alignments;
