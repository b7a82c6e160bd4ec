//! Generated models: a campus of nets, each with a router and two hosts, whose routers stand in a
//! ring. Delays of the ring and servers are drawn by the generator PCG-XSH-RR.
//!
//! Contracts cite `specs/Draws.antt` (what is drawn for each net) and `specs/Campus.antt` (the tree
//! of a campus, and its canonical printing). [`laws`] has that what is drawn lies in its range and
//! that only nets that are there are named.
#![tactic(auto)]

mod draws;
pub mod laws;
mod net;
mod numbers;
mod ring;
mod traffic;
mod whole;

pub use whole::campus;
