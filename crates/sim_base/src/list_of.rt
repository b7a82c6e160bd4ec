//! A list that contracts see as the list of its items, wherever a definition has a list as a field.
ghost use Rattle.std.specs.Prelude.{◌≡◌, ◌+◌, ◌<◌, ◌∷◌, ◌++◌, [], length, slice_get, slice_set, Some, IfErr, OnErr, OnOk};

use crate::Memory;
use std::alloc::Global;
use std::marker::Model;

/// A list over a `Vec`. Contracts see its items alone.
#[derive(Drop)]
pub struct ListOf<T> {
    items: Vec<T>,
}

impl<T> Model for ListOf<T> {
    ghost use Rattle.std.specs.Prelude.{List};

    ghost Value = { List T };

    ghost view = { λ l. l.items.items };
}

impl<T> ListOf<T> {
    /// The empty list, which will grow on this allocator.
    pub fn new(alloc: Global) -> ListOf<T>
        ensures { result ≡ [] }
    {
        ListOf {
            items: Vec::new(alloc),
        }
    }

    /// The list of these items; takes no memory.
    pub fn from_vec(items: Vec<T>) -> ListOf<T>
        ensures { result ≡ items.items }
    {
        ListOf { items }
    }

    /// The items as a slice.
    pub fn as_slice(&self) -> &[T]
        ensures { result.now ≡ self.now }
    {
        self.items.as_slice()
    }

    /// How many items there are.
    pub fn len(&self) -> usize
        ensures { result ≡ length self.now }
    {
        self.items.len()
    }

    /// The items as a `Vec`; takes no memory.
    pub fn into_vec(self) -> Vec<T>
        ensures { result.items ≡ self }
    {
        let ListOf { items } = self;
        items
    }

    /// Adds an item at the end. Without memory the item comes back and the list stays.
    pub fn push(&mut self, item: T) -> Result<(), (T, Memory)>
        ensures pushed { OnOk result (self.new ≡ self.old ++ item ∷ []) }
        ensures kept { OnErr result (self.new ≡ self.old) }
        ensures returned { IfErr result (λ back. back.0 ≡ item) }
    {
        match self.items.push(item) {
            Ok(()) => Ok(()),
            Err(refused) => Err((refused.value, Memory)),
        }
    }

    /// Puts an item in the place of the one at `index`, which comes back.
    pub fn replace(&mut self, index: usize, item: T) -> T
        requires { index < length self.old }
        ensures list { self.new ≡ slice_set self.old index item }
        ensures was { slice_get self.old index ≡ Some result }
    {
        std::mem::replace(&mut self.items[index], item)
    }
}
