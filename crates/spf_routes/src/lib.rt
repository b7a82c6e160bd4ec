//! Least routes: for each link the walk of least cost from a host, over hosts that relay; and the best
//! route for an address, by the longest block. Costs are of outgoing interfaces, as in OSPF (RFC 2328);
//! the rules for ties are this project's own.
//!
//! An arm is an interface that lies on a link. A walk goes from a host by one of its arms to a link,
//! from there by an arm of another host on that link to a further link, and so on; all hosts of a
//! walk of several arms relay. Its cost is the sum of its arms' costs. Of the walks of least cost the
//! least first interface decides, and then the least address by which the second host is attached.
//!
//! Contracts cite `specs/Walks.antt` (walks, their labels and the table of routes) and
//! `specs/Best.antt` (the best route for an address). [`laws`] has that a host's table is determined.
#![tactic(auto)]

mod choice;
mod graph;
pub mod laws;
mod routes;
mod search;

pub use choice::best;
pub use graph::{Arm, Graph, Period, RipEntry, Route};
pub use routes::shortest;
