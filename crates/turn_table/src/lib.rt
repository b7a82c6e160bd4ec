//! A table of values of which each has one holder at a time.
//!
//! A value is at home in its place, or it was moved out by the one pass that has the place's turn. A
//! pass asks for a turn ([`Turns::try_take`]) and is told at once whether it has it; no call waits. It
//! moves the value out and home again ([`Turns::bring`], [`Turns::put`]), gives the turn back
//! ([`Turns::leave`], or both by [`Turns::give`]), and reads and writes count words
//! ([`Turns::load`], [`Turns::write`]), which tie the values of several places to each other. When all
//! passes have come back, all values are gathered in the order of their places ([`Turns::gather`]).
//!
//! `specs/Rule.antt` has the shared rule, which holds at every moment whatever the passes do: one record
//! with a line for each fact. What a value at home is true of, what it owes to the count words, and
//! what the marks of its holder say of it, are members of its type ([`Tenant`]). `specs/Steps.antt`
//! says what each kind of step tells its pass, and `specs/Views.antt` what it makes of the pass's
//! view: the places that it holds, its lost tries, its notes (a count word's number while the pass
//! holds a place of which the word speaks) and its marks (a number that a count word has reached).
//!
//! Nothing is said of waiting, of fairness or of time: no contract says that a try succeeds, or who
//! wins. That a stop is seen by another pass is tested in `turn_examples`, which also has two miniatures.
#![tactic(auto)]

mod cell;
mod gathering;
mod opening;
mod pass;
mod rule;
mod tenant;
mod turns;
mod view;

pub use pass::{Held, Pass, Turn};
pub use tenant::Tenant;
pub use turns::Turns;
pub use view::{Shape, View};
