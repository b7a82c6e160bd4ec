//! Worked examples of TCP sessions, as tests: the segments of a transfer at either end, transfers over
//! networks that lose, repeat and reorder segments, and peers that never answer.
#![tactic(auto)]

#[cfg(test)]
mod network;
#[cfg(test)]
mod tests;
