//! The best routes of a host for all addresses, found by halving in place of a look at every route.
//!
//! Where no block of a route begins or ends between two addresses, they have the same best route. So a
//! [`RouteTable`] keeps the addresses at which blocks begin and end, in rising order, and for each of
//! them the place of its best route.
//!
//! Contracts cite `specs/Tables.antt`.
#![tactic(auto)]

mod bounds;
mod paint;
mod table;

pub use table::RouteTable;

#[cfg(test)]
mod tests;
