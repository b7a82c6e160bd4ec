//! The words of a command: which words are those of a command, and what they ask.
//!
//! Contracts cite `specs/Table.antt` (the table of the commands, their options and the ranges of
//! values), `specs/Words.antt` (which words are in the table, and what they ask), `specs/Schedule.antt` (how a schedule is spelt),
//! `specs/Numbers.antt` (numbers among the words) and `specs/Parsed.antt` (the command that `clap`
//! parses, and what its matches have). The rule tests the words, and `clap` assigns those that it
//! takes.
#![tactic(auto)]

mod clap_words;
mod command;
mod fault;
mod name;
mod number;
mod options;
mod rule;
mod schedule;
mod slices;
mod value;
mod words;

pub use command::{Align, Command};
pub use fault::WordsFault;
pub use name::CommandName;
pub use number::read_number;
pub use words::{Request, read_words};
