//! The traffic of a host: when its client sessions start, and which server each goes to next.
//!
//! Contracts cite `specs/Starts.antt` (random starts, by the generator PCG-XSH-RR with 32-bit
//! words) and `specs/Progress.antt` (the servers given to each session). [`laws`] has that giving a
//! server keeps their ranges.
#![tactic(auto)]

mod apps;
pub mod laws;
mod starts;

pub use apps::Apps;
pub use starts::start_ticks;

#[cfg(test)]
mod tests;
