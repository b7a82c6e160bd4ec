//! Resolving the substitutions of a DML tree, and looking up the attributes of a key.
//!
//! An attribute `_find` stands for all attributes that its path names, an attribute `_extends` for the
//! attributes of the list that its path names.
#![tactic(auto)]

mod counter;
mod expanding;
mod levels;
mod members;
mod own_keys;
mod paths;
mod places;
mod resolving;
mod roots;

pub use places::{first, next};
pub use resolving::{PathFault, resolve};
