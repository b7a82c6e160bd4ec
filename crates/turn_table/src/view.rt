//! What a table is told of its places and words, and what a pass knows.

use std::collections::LinkedList;

/// How many places a table has, of which places each of its count words speaks, and which marks are
/// lost where a turn is taken. Proofs alone speak of one.
pub struct Shape {
    /// The number of places.
    pub places: u64,
    /// For each count word the two places of which it speaks. A word that speaks of one place has
    /// that place twice.
    pub words: LinkedList<(u64, u64)>,
    /// Pairs of a place and a count word: who takes the turn of that place loses the mark of that word.
    pub clears: LinkedList<(u64, u64)>,
}

/// What a pass knows of a table. Proofs alone speak of one, and no value of it is made.
pub struct View {
    /// It is the view of the seat that makes passes and takes them in.
    pub is_root: bool,
    /// The number of the pass, from 1 on; 0 for the root and for a pass that was taken in.
    pub number: u64,
    /// How many passes the root has made.
    pub made: u64,
    /// The numbers of the passes that the root has taken in.
    pub back: LinkedList<u64>,
    /// The shape of the table.
    pub shape: Shape,
    /// How each place is held.
    pub held: LinkedList<(u64, u64)>,
    /// How often the turn of each place was found with another pass.
    pub lost: LinkedList<(u64, u64)>,
    /// For each count word that was noted, one more than its number.
    pub notes: LinkedList<(u64, u64)>,
    /// For each count word that was marked, one more than a number that it has reached.
    pub marks: LinkedList<(u64, u64)>,
    /// How often the stop word was read.
    pub stop_loads: u64,
    /// What was found there the last time.
    pub stop_found: u64,
}
