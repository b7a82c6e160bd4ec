//! What a worker has of a table of turns.
ghost use Rattle.std.specs.Prelude.{◌≡◌, ◌∷◌, []};

use crate::view::View;
use atomic_table::{Badge, Seat};
use std::mem;

/// One worker's pass: by it the worker takes turns, and in it lies what it knows of the table.
#[derive(Drop)]
pub struct Pass {
    pub(crate) badge: Badge<View>,
    pub(crate) number: u64,
}

/// The right to one place, whose value is at home. It must be given back.
pub struct Turn {
    pub(crate) place: u32,
}

/// A turn whose value was moved out. It must be given back.
pub struct Held<V> {
    pub(crate) place: u32,
    pub(crate) value: V,
}

impl Pass {
    ghost use Rattle.turn_table.specs.Passes.{view_of};

    // The pass as a seat of the table, which holds no slot.
    pub(crate) fn sit<S>(&mut self) -> Seat<S, View>
        requires { self.old.badge.views ≡ view_of self.old ∷ [] }
        ensures table { result.table_id ≡ self.old.badge.table_id }
        ensures me { result.me ≡ (view_of self.old, []) }
        ensures number { self.new.number ≡ self.old.number }
    {
        mem::replace(&mut self.badge, Badge::blank()).into_seat()
    }

    // The seat that holds no slot goes back into the pass.
    pub(crate) fn rest<S>(&mut self, seat: Seat<S, View>)
        requires { seat.me.1 ≡ [] }
        ensures table { self.new.badge.table_id ≡ seat.table_id }
        ensures views { self.new.badge.views ≡ seat.me.0 ∷ [] }
        ensures number { self.new.number ≡ self.old.number }
    {
        self.badge = seat.into_badge();
    }
}

impl Turn {
    /// The place.
    pub fn place(&self) -> u32
        ensures { result ≡ self.now.place }
    {
        self.place
    }
}

impl<V> Held<V> {
    ghost use Rattle.std.specs.Borrow.{sem};
    ghost use Rattle.turn_table.specs.Lending.{LendsValue};

    /// The value.
    pub fn value(&mut self) -> &mut V
        ensures* writes_back { sem 𝓛 (LendsValue V.row self.entry result) }
        ensures value { result.now ≡ self.old.value }
    {
        &mut self.value
    }

    /// The place.
    pub fn place(&self) -> u32
        ensures { result ≡ self.now.place }
    {
        self.place
    }
}
