//! Histories: lists of executed events.
ghost use Rattle.std.specs.Prelude.{◌≡◌, ◌<◌, ◌∷◌, [], List, length, slice_get, Some};
ghost use Rattle.ssf_model.specs.declared.event.Entry.{Entry};

use ssf_model::Entry;
use std::marker::Model;

/// Several lists of executed events.
pub trait Histories {
    /// The lists.
    ghost lists: { Self → List (List Entry) };

    /// How many lists there are.
    fn count(&self) -> usize
        ensures { result ≡ length (lists self.now) };

    /// One of the lists.
    fn history(&self, i: usize) -> &[Entry]
        requires { i < length (lists self.now) }
        ensures { slice_get (lists self.now) i ≡ Some result.now };
}

/// A single list of executed events. Contracts see that list.
#[derive(Drop)]
pub struct OneHistory<'a> {
    entries: &'a [Entry],
}

impl<'a> Model for OneHistory<'a> {
    ghost use Rattle.std.specs.Prelude.{List};
    ghost use Rattle.ssf_model.specs.declared.event.Entry.{Entry};

    ghost Value = { List Entry };

    ghost view = { λ h. h.entries.now };
}

impl<'a> OneHistory<'a> {
    /// The one list of these events.
    pub fn new(entries: &'a [Entry]) -> OneHistory<'a>
        ensures { result ≡ entries.now }
    {
        OneHistory { entries }
    }
}

impl<'a> Histories for OneHistory<'a> {
    ghost lists = { λ h. h ∷ [] };

    fn count(&self) -> usize {
        1
    }

    fn history(&self, _i: usize) -> &[Entry] {
        self.entries
    }
}
