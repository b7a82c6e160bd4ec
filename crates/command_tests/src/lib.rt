//! Tests of the commands over files and sinks that fail, and of runs by workers. They stand above `ssfnet_top`, since a crate with
//! tests is proved twice; cases without failures stand in the folder `tools/cases`.
#![tactic(auto)]

#[cfg(test)]
mod commands;
#[cfg(test)]
mod gates;
#[cfg(test)]
mod generated;
#[cfg(test)]
mod meeting;
#[cfg(test)]
mod stopping;
#[cfg(test)]
mod workers;
