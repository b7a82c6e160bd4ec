//! Tests of the crates of networks, where no command shows what is tested: blocks of sizes that no file holds, arms
//! in another order, the next route to an address, values that a model leaves out, rows of sessions and servers, the last
//! tick, the Nets of rings, and lines of traces. They stand above those crates, since a crate with tests is
//! proved twice.
#![tactic(auto)]

#[cfg(test)]
mod blocks;
#[cfg(test)]
mod keys;
#[cfg(test)]
mod networks;
#[cfg(test)]
mod periods;
#[cfg(test)]
mod rings;
#[cfg(test)]
mod routes;
#[cfg(test)]
mod traces;
