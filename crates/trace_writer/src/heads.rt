//! The entries of several histories that come next, in a heap with the least of them at its top.
ghost use Rattle.std.specs.Prelude.{◌≡◌, ℕ, ◌+◌, ◌<◌, ◌≤◌, [], ◌∷◌, ◌++◌, List, length, slice_get, Some, MatchOption};
ghost use Rattle.std.specs.List.Sorted.{IsPermutation};
ghost use Rattle.std.specs.BinaryHeap.{heap_items, heap_len, heap_capacity, IsHeap};
ghost use Rattle.ssf_model.specs.declared.event.Entry.{Entry as EntryValue};
ghost use Rattle.event_order.specs.Pending.{Among};
ghost use Rattle.trace_writer.specs.Merging.{IsInOrder};
ghost use Rattle.trace_writer.specs.Heads.{AreHeads, head_at, head_order, left_in_order};

use crate::Histories;
use event_order::Key;
use ssf_model::Entry;
use std::cmp::Reverse;
use std::collections::BinaryHeap;

/// The next entry of a history: its key, the history's number, and its place there.
#[derive(Clone, Copy, Debug, PartialEq, Eq, PartialOrd, Ord)]
pub(crate) struct Head {
    pub(crate) key: Key,
    pub(crate) history: usize,
    pub(crate) at: usize,
}

/// Fills an empty heap with the first entries of the histories, where they are below the bound.
pub(crate) fn begin<H: Histories>(heap: &mut BinaryHeap<Reverse<Head>>, histories: &H, below: u64)
    requires empty { heap_items heap.old ≡ [] }
    requires heap { IsHeap head_order (heap_items heap.old) }
    requires len { heap_len heap.old ≡ 0 }
    requires room { length (H.lists histories.now) ≤ heap_capacity heap.old }
    ensures heap { IsHeap head_order (heap_items heap.new) }
    ensures heads { AreHeads (H.lists histories.now) below (λ _. 0) (length (H.lists histories.now)) (heap_items heap.new) }
    ensures len { heap_len heap.new ≤ length (H.lists histories.now) }
    ensures capacity { heap_capacity heap.old ≤ heap_capacity heap.new }
{
    for history in 0..histories.count() {
        add_head(heap, histories, history, 0, below);
    }
}

/// Takes the least of the next entries, and puts the one that follows it in its history in its place.
/// None exactly where nothing is left below the bound.
pub(crate) fn take_next<'a, H: Histories>(
    heap: &mut BinaryHeap<Reverse<Head>>,
    histories: &'a H,
    below: u64,
) -> Option<&'a Entry>
    requires heap { IsHeap head_order (heap_items heap.old) }
    requires heads { (at : ℕ → ℕ) × AreHeads (H.lists histories.now) below at (length (H.lists histories.now)) (heap_items heap.old) }
    requires order { (history : List EntryValue) → Among history (H.lists histories.now) → IsInOrder history }
    requires room { heap_len heap.old ≤ heap_capacity heap.old }
    ensures heap { IsHeap head_order (heap_items heap.new) }
    ensures next { MatchOption result
        ((at : ℕ → ℕ) → AreHeads (H.lists histories.now) below at (length (H.lists histories.now)) (heap_items heap.old) → left_in_order (H.lists histories.now) below at ≡ [])
        (λ entry. (at : ℕ → ℕ) → AreHeads (H.lists histories.now) below at (length (H.lists histories.now)) (heap_items heap.old) → (after : ℕ → ℕ)
        × AreHeads (H.lists histories.now) below after (length (H.lists histories.now)) (heap_items heap.new)
        × (left_in_order (H.lists histories.now) below at ≡ entry.now ∷ left_in_order (H.lists histories.now) below after)) }
    ensures len { heap_len heap.new ≤ heap_len heap.old }
    ensures capacity { heap_capacity heap.old ≤ heap_capacity heap.new }
{
    let Reverse(head) = heap.pop()?;
    let entries = histories.history(head.history);
    let entry = &entries[head.at];
    add_head(heap, histories, head.history, head.at + 1, below);
    Some(entry)
}

/// Adds the entry at a place of a history, where there is one below the bound.
fn add_head<H: Histories>(
    heap: &mut BinaryHeap<Reverse<Head>>,
    histories: &H,
    history: usize,
    at: usize,
    below: u64,
)
    requires history { history < length (H.lists histories.now) }
    requires room { heap_len heap.old < heap_capacity heap.old }
    requires heap { IsHeap head_order (heap_items heap.old) }
    ensures heap { IsHeap head_order (heap_items heap.new) }
    ensures items { IsPermutation (head_at (H.lists histories.now) below history at ++ heap_items heap.old) (heap_items heap.new) }
    ensures len { heap_len heap.new ≤ heap_len heap.old + 1 }
    ensures capacity { heap_capacity heap.old ≤ heap_capacity heap.new }
{
    if let Some(entry) = histories.history(history).get(at)
        && entry.key.time < below
    {
        let key = entry.key;
        match heap.push(Reverse(Head { key, history, at })) {
            Ok(()) => (),
            Err(_) => unreachable!(),
        }
    }
}
