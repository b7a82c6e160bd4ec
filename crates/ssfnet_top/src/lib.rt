//! The commands of the program, `dml`, `check`, `plan`, `seq`, `step`, `run` and `gen`: from words and files to the
//! bytes written and the status.
//!
//! The whole meaning of a call is `IsAskedDue` of `specs/Outcome.antt`: from what words ask and the files that
//! the library tells to the status and the bytes that are due; `specs/Ending.antt` says how a call
//! ends, measured by that. They cite the definitions of `command_words` (what words ask),
//! `specs/FilePlaces.antt` (in which files attributes stand), `specs/Counts.antt` (the lines of counts)
//! and `specs/Refusals.antt` (statuses and the lines on `err`).
#![tactic(auto)]

mod checking;
mod files;
mod generating;
pub mod laws;
mod model;
mod planning;
mod printing;
mod refusal;
mod reporting;
mod resolving;
mod running;
mod seq;
mod step;
mod telling;
mod threaded;
mod top;
mod workers;
mod writing;

pub use refusal::Refusal;
pub use threaded::ssfnet;
pub use top::offline;
pub use worker_pool::Lane;
