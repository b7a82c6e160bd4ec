//! The clock and the window of a TCP sender: the retransmission timeout of RFC 6298 in whole ticks,
//! and the congestion window of RFC 5681 in bytes.
//!
//! Contracts cite `specs/Retransmission.antt` and `specs/Congestion.antt`, where each rule stands
//! with its section of the standard.
#![tactic(auto)]

mod cwnd;
mod rto;

pub use cwnd::Cwnd;
pub use rto::{RoundTrip, Rto};

#[cfg(test)]
mod tests;
