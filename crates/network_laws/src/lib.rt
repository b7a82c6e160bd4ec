//! Laws on the networks of resolved trees.
//!
//! The laws are the contracts of the functions in [`laws`], which have empty bodies. They cite
//! `NetworkOf` (the network of a tree) and `Networks` (what every network meets) of the specs of
//! `net_graph`.
#![tactic(auto)]

pub mod laws;
