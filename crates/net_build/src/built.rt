//! A plan with the names and Nets of its entities.

use sim_base::ListOf;
use ssf_model::{Behaviour, Names, Plan};

/// A plan, and for each of its entities the printed name and the number of the innermost Net.
#[derive(Drop)]
pub struct Built<B: Behaviour> {
    pub plan: Plan<B>,
    pub names: Names,
    pub nets: ListOf<u32>,
}
