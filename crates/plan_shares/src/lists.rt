//! Lists of items, one for each timeline.

ghost use Rattle.std.specs.Prelude.{◌≡◌, ◌<◌, ◌∷◌, ◌++◌, [], length, slice_set, OnOk};
ghost use Rattle.plan_shares.specs.Lists.{for_each, list_at};

use sim_base::{ListOf, Memory};
use std::alloc::Global;
use std::marker::Model;

/// A list of items for each timeline. Contracts see the list of these.
#[derive(Drop)]
pub(crate) struct Lists<T> {
    lists: Vec<ListOf<T>>,
}

impl<T> Model for Lists<T> {
    ghost use Rattle.std.specs.Prelude.{List};

    ghost Value = { List (List T) };

    ghost view = { λ l. l.lists.items };
}

impl<T: Drop> Lists<T> {
    /// No lists; they will be kept on this allocator.
    pub(crate) fn new(alloc: Global) -> Lists<T>
        ensures { result ≡ [] }
    {
        Lists {
            lists: Vec::new(alloc),
        }
    }

    /// Adds an empty list for each of so many timelines. After `Memory` there are some of them.
    pub(crate) fn open(&mut self, alloc: Global, count: u32) -> Result<(), Memory>
        requires { self.old ≡ [] }
        ensures { OnOk result (self.new ≡ for_each count (λ _. [])) }
    {
        for _line in 0..count {
            self.lists.push(ListOf::new(alloc))?;
        }
        Ok(())
    }

    /// Adds an item to the list of a timeline. After `Memory` it is lost.
    pub(crate) fn put(&mut self, line: u32, item: T) -> Result<(), Memory>
        requires { line < length self.old }
        ensures { OnOk result (self.new ≡ slice_set self.old line (list_at self.old line ++ item ∷ [])) }
    {
        let list = &mut self.lists[line as usize];
        match list.push(item) {
            Ok(()) => Ok(()),
            Err(_) => Err(Memory),
        }
    }

    /// Takes out the list of a timeline, and leaves an empty one.
    pub(crate) fn take(&mut self, alloc: Global, line: u32) -> ListOf<T>
        requires { line < length self.old }
        ensures list { result ≡ list_at self.old line }
        ensures rest { self.new ≡ slice_set self.old line [] }
    {
        std::mem::replace(&mut self.lists[line as usize], ListOf::new(alloc))
    }
}
