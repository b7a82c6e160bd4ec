//! The table of values of which each has one holder at a time.
ghost use Rattle.std.specs.Prelude.{◌≡◌, ◌≢◌, ℕ, ◌+◌, ◌<◌, ◌≤◌, [], true, ◌↔◌, IsTrue, Some, MatchOption, length, suc};
ghost use Rattle.atomic_table.specs.Seated.{table_id_coded};
ghost use base.Stored.{Coded-set};
ghost use Rattle.turn_table.specs.Passes.{only, is_root_of};

use crate::cell::{Cell, into_value};
use crate::pass::{Held, Pass, Turn};
use crate::rule::{
    About, Clear, Enter, Give, Law, Look, Mark, Raise, Reach, Read, Settle, Try, Write,
};
use crate::tenant::Tenant;
use crate::view::View;
use atomic_table::{Badge, Seat, Table};
use std::alloc::Global;
use std::marker::Brand;

/// The table, with the number of its places.
pub(crate) struct Board<V: Tenant> {
    pub(crate) table: Table<Cell<V>, View, V::Key, Law, Global>,
    pub(crate) places: u32,
    ghost slots: { table.shared.table_id.slots ≡ places + 1 },
}

/// A table of values. Whoever has the turn of a place may move its value out.
///
/// It keeps the seat that made its passes and takes them in again.
pub struct Turns<V: Tenant> {
    pub(crate) board: Board<V>,
    pub(crate) root: Badge<View>,
    ghost rooted: { is_root_of root.views ≡ true },
    ghost table: { root.table_id ≡ board.table.shared.table_id } by { Coded-set table_id_coded _ _ },
    ghost back: { length (only root.views).back ≡ 0 },
}

impl<V: Tenant> Turns<V> {
    ghost use Rattle.turn_table.specs.declared.pass.Pass.{Pass};
    ghost use Rattle.turn_table.specs.Passes.{view_of, holds_at, mark_of, note_of};
    ghost use Rattle.turn_table.specs.Shapes.{spoken};
    ghost use Rattle.turn_table.specs.Turned.{table_of, key_of, count_of, places_of, words_of, IsPassOf};
    ghost use Rattle.turn_table.specs.Steps.{Fits, Above, Tells, Pays, KeepsWith};
    ghost use Rattle.turn_table.specs.Views.{held, moving_out, moving_home, taking, losing, giving, reading, writing, marking, looking};

    /// How many places there are.
    pub fn places(&self) -> u32
        ensures count { result ≡ count_of self.now }
        ensures places { (p : Pass) → IsPassOf V.Tenant self.now p → result ≡ places_of V.Tenant self.now }
    {
        self.board.places
    }

    /// Asks for the turn of a place that this pass does not hold. The value stays at home.
    ///
    /// `None` comes exactly where the pass's count of lost tries of the place rose, which happens where the turn was found held.
    pub fn try_take(&self, pass: &mut Pass, place: u32) -> Option<Turn>
        requires pass { IsPassOf V.Tenant self.now pass.old }
        requires place { place < places_of V.Tenant self.now }
        requires free { holds_at pass.old place ≡ 0 }
        ensures pass { IsPassOf V.Tenant self.now pass.new }
        ensures turn { MatchOption result (view_of pass.new ≡ losing (view_of pass.old) place) (λ t. (t.place ≡ place) × (view_of pass.new ≡ taking (view_of pass.old) place)) }
    {
        let number = pass.number;
        let mut seat = pass.sit();
        let found = self
            .board
            .table
            .shared
            .compare_exchange::<Try>(&mut seat, place as usize + 1, 0, number);
        pass.rest(seat);
        if found == 0 {
            Some(Turn { place })
        } else {
            None
        }
    }

    // Takes the slot, reads its value and gives the slot back, empty.
    fn reach<R: About<V::Key>>(&self, seat: &mut Seat<Cell<V>, View>, place: u32) -> V
        requires about { R.key ≡ Some (key_of self.now) }
        requires table { (seat.old.table_id ≡ table_of self.now) × (seat.old.me.1 ≡ []) }
        requires place { place < places_of V.Tenant self.now }
        requires shape { seat.old.me.0.shape ≡ V.shape (key_of self.now) }
        requires words { place + 1 < (table_of self.now).words }
        requires held { held seat.old.me.0 place ≡ 1 }
        ensures seat { (seat.new.table_id ≡ seat.old.table_id) × (seat.new.me ≡ (moving_out seat.old.me.0 place, [])) }
        ensures value { Tells V.Tenant (key_of self.now) seat.old.me.0 place result }
    {
        let shared = &self.board.table.shared;
        shared.load::<Reach<R>>(seat, place as usize + 1);
        let cell = unsafe { shared.exchange(seat, place as usize, Cell::Empty) };
        shared.load::<Clear>(seat, place as usize + 1);
        into_value(cell)
    }

    /// Moves the value of a held place out.
    pub fn bring(&self, pass: &mut Pass, turn: Turn) -> Held<V>
        requires pass { IsPassOf V.Tenant self.now pass.old }
        requires place { turn.place < places_of V.Tenant self.now }
        requires held { holds_at pass.old turn.place ≡ 1 }
        ensures pass { IsPassOf V.Tenant self.now pass.new }
        ensures view { view_of pass.new ≡ moving_out (view_of pass.old) turn.place }
        ensures place { result.place ≡ turn.place }
        ensures value { Tells V.Tenant (key_of self.now) (view_of pass.old) turn.place result.value }
    {
        let Turn { place } = turn;
        let mut seat = pass.sit();
        let value = self.reach::<Brand>(&mut seat, place);
        pass.rest(seat);
        Held { place, value }
    }

    /// Moves a value home under its place, and keeps the turn.
    pub fn put(&self, pass: &mut Pass, held: Held<V>) -> Turn
        requires pass { IsPassOf V.Tenant self.now pass.old }
        requires place { held.place < places_of V.Tenant self.now }
        requires held { holds_at pass.old held.place ≡ 2 }
        requires pays { Pays V.Tenant (key_of self.now) (view_of pass.old) held.place held.value }
        ensures pass { IsPassOf V.Tenant self.now pass.new }
        ensures view { view_of pass.new ≡ moving_home (view_of pass.old) held.place }
        ensures place { result.place ≡ held.place }
    {
        let Held { place, value } = held;
        let mut seat = pass.sit();
        let shared = &self.board.table.shared;
        shared.load::<Enter>(&mut seat, place as usize + 1);
        let old = unsafe { shared.exchange(&mut seat, place as usize, Cell::Value(value)) };
        let Cell::Empty = old else { unreachable!() };
        shared.load::<Settle>(&mut seat, place as usize + 1);
        pass.rest(seat);
        Turn { place }
    }

    /// Gives a turn whose value is at home.
    pub fn leave(&self, pass: &mut Pass, turn: Turn)
        requires pass { IsPassOf V.Tenant self.now pass.old }
        requires place { turn.place < places_of V.Tenant self.now }
        requires held { holds_at pass.old turn.place ≡ 1 }
        ensures pass { IsPassOf V.Tenant self.now pass.new }
        ensures view { view_of pass.new ≡ giving (view_of pass.old) turn.place }
    {
        let Turn { place } = turn;
        let mut seat = pass.sit();
        self.board
            .table
            .shared
            .store::<Give>(&mut seat, place as usize + 1, 0);
        pass.rest(seat);
    }

    /// Moves a value home under its place, and gives the turn.
    pub fn give(&self, pass: &mut Pass, held: Held<V>)
        requires pass { IsPassOf V.Tenant self.now pass.old }
        requires place { held.place < places_of V.Tenant self.now }
        requires held { holds_at pass.old held.place ≡ 2 }
        requires pays { Pays V.Tenant (key_of self.now) (view_of pass.old) held.place held.value }
        ensures pass { IsPassOf V.Tenant self.now pass.new }
        ensures view { view_of pass.new ≡ giving (moving_home (view_of pass.old) held.place) held.place }
    {
        let turn = self.put(pass, held);
        self.leave(pass, turn);
    }

    /// The number of a count word. It is noted where the word speaks of a place that the pass holds, and marked where the word speaks of one place alone.
    ///
    /// The number is never below the pass's mark, and it is the noted one where the pass has a note.
    pub fn load(&self, pass: &mut Pass, word: u32) -> u64
        requires pass { IsPassOf V.Tenant self.now pass.old }
        requires word { word < words_of V.Tenant self.now }
        ensures pass { IsPassOf V.Tenant self.now pass.new }
        ensures view { view_of pass.new ≡ reading (view_of pass.old) word result }
        ensures mark { mark_of pass.old word ≤ suc result }
        ensures note { 0 < note_of pass.old word → note_of pass.old word ≡ suc result }
    {
        let index = self.board.places as usize + 1 + word as usize;
        let mut seat = pass.sit();
        let found = self.board.table.shared.load::<Read>(&mut seat, index);
        pass.rest(seat);
        found
    }

    /// Writes a count word, which must not fall, whose number the pass has noted, and which speaks of places that it holds as out.
    pub fn write(&self, pass: &mut Pass, word: u32, n: u64)
        requires pass { IsPassOf V.Tenant self.now pass.old }
        requires word { word < words_of V.Tenant self.now }
        requires first { holds_at pass.old (spoken (V.shape (key_of self.now)) word).0 ≡ 2 }
        requires second { holds_at pass.old (spoken (V.shape (key_of self.now)) word).1 ≡ 2 }
        requires noted { 0 < note_of pass.old word }
        requires rises { note_of pass.old word ≤ suc n }
        requires keeps { KeepsWith V.Tenant (key_of self.now) (view_of pass.old) word n }
        ensures pass { IsPassOf V.Tenant self.now pass.new }
        ensures view { view_of pass.new ≡ writing (view_of pass.old) word n }
    {
        let index = self.board.places as usize + 1 + word as usize;
        let mut seat = pass.sit();
        self.board.table.shared.store::<Write>(&mut seat, index, n);
        pass.rest(seat);
    }

    /// Marks each count word with the number that it has at one moment of this call. No count word is loaded for that:
    /// that a word has reached a number is known to proofs alone.
    pub fn mark(&self, pass: &mut Pass)
        requires { IsPassOf V.Tenant self.now pass.old }
        ensures pass { IsPassOf V.Tenant self.now pass.new }
        ensures marks { (f : ℕ → ℕ) × Fits (view_of pass.old) f × Above (view_of pass.old) f × (view_of pass.new ≡ marking (view_of pass.old) f) }
    {
        let mut seat = pass.sit();
        self.board.table.shared.load::<Mark>(&mut seat, 0);
        pass.rest(seat);
    }

    /// Raises the stop word.
    pub fn stop(&self, pass: &mut Pass)
        requires { IsPassOf V.Tenant self.now pass.old }
        ensures pass { IsPassOf V.Tenant self.now pass.new }
        ensures view { view_of pass.new ≡ view_of pass.old }
    {
        let mut seat = pass.sit();
        self.board.table.shared.store::<Raise>(&mut seat, 0, 1);
        pass.rest(seat);
    }

    /// Loads the stop word once, and tells whether the number that the pass now keeps of it is not 0.
    pub fn stopped(&self, pass: &mut Pass) -> bool
        requires { IsPassOf V.Tenant self.now pass.old }
        ensures pass { IsPassOf V.Tenant self.now pass.new }
        ensures view { view_of pass.new ≡ looking (view_of pass.old) (view_of pass.new).stop_found }
        ensures answer { IsTrue result ↔ ((view_of pass.new).stop_found ≢ 0) }
    {
        let mut seat = pass.sit();
        let found = self.board.table.shared.load::<Look>(&mut seat, 0);
        pass.rest(seat);
        found != 0
    }
}
