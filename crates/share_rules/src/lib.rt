//! What lies at home in a table of turns where the parts of a run are shared out to workers: the
//! timelines, their mails and the barrier.
//!
//! All is said on data (`specs/`): `Places.antt` has the places and the count words, `Runs.antt` facts
//! on the runs for which all parts were sound when the table was made, `Home.antt` what is so of a
//! value at home, by the counts and by the marks of the pass that holds its turn, `Held.antt` what a
//! pass knows of a value that it holds out, by its notes and marks, and `Gathered.antt` what all parts
//! that are gathered again have of those that were shared out. The laws are the contracts of the
//! functions in [`laws`], of what lies at home, and in [`held`], of what is held and of the six steps on
//! it. They have empty bodies.
#![tactic(auto)]

pub mod held;
pub mod laws;
