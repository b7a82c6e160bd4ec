//! The queue itself.

ghost use Rattle.std.specs.Prelude.{◌≡◌, ◌+◌, ◌<◌, ◌≤◌, ◌↔◌, [], ◌∷◌, length, Some, IsSome, IsNone, IsOk, OnOk, OnErr, IfErr, IfSome, slice_get};
ghost use Rattle.event_order.specs.Pending.{put, Among, IsRising};
ghost use Rattle.pending_queue.specs.Queue.{queue};

use crate::heap::{rise, settle};
use event_order::Keyed;
use sim_base::Memory;
use std::alloc::Global;
use std::marker::Model;

/// Items in the order of their keys, no two of which are the same. The contracts see the list of the
/// items, and how many more can be put in without memory, `spare`.
#[derive(Drop)]
pub struct Pending<T: Keyed> {
    items: Vec<T>,
}

impl<T: Keyed> Model for Pending<T> {
    ghost use Rattle.std.specs.Prelude.{◌-◌, length, vec_capacity};
    ghost use Rattle.pending_queue.specs.Queue.{Queue, queue, queue_code, sorted, IsQueue};

    ghost Value = { Queue T };

    ghost coded = { queue_code T.code };

    ghost view = { λ q. queue (sorted T.key_of q.items.items) (vec_capacity q.items - length q.items.items) };

    ghost invariant = { λ q. IsQueue T.key_of q.items.items };
}

impl<T: Keyed + Drop> Pending<T> {
    /// An empty queue, which has taken no memory.
    pub fn new(alloc: Global) -> Pending<T>
        ensures { result ≡ queue [] 0 }
    {
        Pending {
            items: Vec::new(alloc),
        }
    }

    /// How many items there are.
    pub fn len(&self) -> usize
        ensures { result ≡ length self.now.items }
    {
        self.items.len()
    }

    /// Says to proofs that the keys of the items rise. It does nothing.
    pub fn keys_rise(&self)
        ensures { IsRising T.key_of self.now.items }
    {
        let _ = &self.items;
    }

    /// Makes room for at least `n` more items.
    ///
    /// # Errors
    /// `Memory`, and then nothing has changed.
    pub fn reserve(&mut self, n: usize) -> Result<(), Memory>
        ensures items { self.new.items ≡ self.old.items }
        ensures spare { OnOk result (n ≤ self.new.spare) }
        ensures no_less { self.old.spare ≤ self.new.spare }
        ensures enough { n ≤ self.old.spare → IsOk result }
        ensures err { OnErr result (self.new ≡ self.old) }
    {
        self.items.reserve(n)?;
        Ok(())
    }

    /// Puts in an item with a key that no other item has.
    ///
    /// # Errors
    /// The item and `Memory`, only where `spare` is 0, and then nothing has changed.
    pub fn insert(&mut self, item: T) -> Result<(), (T, Memory)>
        requires { (other : T) → Among other self.old.items → T.key_of other ≡ T.key_of item → ⊥ }
        ensures items { OnOk result (self.new.items ≡ put T.key_of item self.old.items) }
        ensures spare { OnOk result (self.old.spare ≤ self.new.spare + 1) }
        ensures room { 0 < self.old.spare → IsOk result }
        ensures item { IfErr result (λ refused. refused.0 ≡ item) }
        ensures err { OnErr result (self.new ≡ self.old) }
    {
        if self.items.reserve(1).is_err() {
            return Err((item, Memory));
        }
        let last = self.items.len();
        self.items.push_reserved(item);
        rise(&mut self.items, last);
        Ok(())
    }

    /// The item with the least key, and None where the queue is empty.
    pub fn least(&self) -> Option<&T>
        ensures none { IsNone result ↔ (self.now.items ≡ []) }
        ensures least { IfSome result (λ item. slice_get self.now.items 0 ≡ Some item.now) }
        ensures rising { IsRising T.key_of self.now.items }
    {
        self.items.first()
    }

    /// Takes out the item with the least key, and answers None where the queue is empty. It takes no
    /// memory, and leaves room for one more item.
    pub fn take_least(&mut self) -> Option<T>
        ensures none { IsNone result ↔ (self.old.items ≡ []) }
        ensures empty { IsNone result → self.new ≡ self.old }
        ensures least { IfSome result (λ item. self.old.items ≡ item ∷ self.new.items) }
        ensures spare { IsSome result → self.new.spare ≡ self.old.spare + 1 }
        ensures rising { IsRising T.key_of self.old.items }
    {
        if self.items.is_empty() {
            return None;
        }
        let least = self.items.swap_remove(0);
        settle(&mut self.items);
        Some(least)
    }
}
