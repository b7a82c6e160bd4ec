//! Tests of generated models. They stand above `model_gen` and the reader, since a crate with tests is
//! proved twice.
#![tactic(auto)]

#[cfg(test)]
mod tests;
