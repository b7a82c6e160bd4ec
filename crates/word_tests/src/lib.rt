//! Tests of the words of the commands. They stand above `command_words`, since a crate with tests is
//! proved twice.
#![tactic(auto)]

#[cfg(test)]
mod words;
