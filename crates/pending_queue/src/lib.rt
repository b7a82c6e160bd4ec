//! The queue of pending events: a heap.
//!
//! Contracts see a queue as the list of its items in the order of their keys, and as the number
//! `spare` of items that can still be put in without memory (`specs/Queue.antt`). An item comes to
//! its place in that list (`insert`), and the first one is seen (`least`) and taken (`take_least`).
//! Lists in key order, and what it is to put an item into one, are `event_order`'s
//! (`specs/Pending.antt`).
//!
//! The items themselves stand in one vector. Below the item at `i` stand those at `4 * i + 1` to
//! `4 * i + 4`, and no item comes before the one above it (`specs/Heap.antt`). So the least is the
//! first, `spare` is the room of the vector less its length, and no item has a place elsewhere that
//! must be kept in step with it.
//!
//! An item that comes is put behind the others and goes up, past those above it with greater keys. When
//! the least is taken, the last item goes to the front and from there to the bottom, past the least
//! of each four, and then up as far as it must. So a call takes at most as many steps as the heap has
//! levels, ten for a million items, whatever the times of the items and the order in which they come;
//! only a call that makes room may copy all of them. No contract says anything of time;
//! `docs/QUEUE.md` has what was measured.
#![tactic(auto)]

mod heap;
mod pending;
#[cfg(test)]
mod tests;

pub use pending::Pending;
