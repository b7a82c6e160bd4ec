//! The text of a trace, which is the records of executed events and the line that ends it, and the
//! report of sums over its lines.
//!
//! Contracts cite `specs/Trace.antt` (what the lines are), `specs/Report.antt` (the sums of a
//! report), `specs/Fields.antt` (how fields stand in a line), `specs/Words.antt` (the words for
//! states, reasons and protocols) and `specs/Merging.antt` (several histories in the order of their
//! keys).
#![tactic(auto)]

mod fields;
mod gathering;
mod heads;
mod histories;
pub mod laws;
mod lines;
mod merging;
mod report;
mod tally;
mod total;
mod trace;
mod words;

pub use histories::{Histories, OneHistory};
pub use merging::{MergeFault, Merger, merge};
pub use report::report_text;
pub use tally::Tally;
pub use total::Total;
pub use trace::{end_line, trace_line};
