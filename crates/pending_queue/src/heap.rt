//! The heap: where items go up and down in their list.

ghost use Rattle.std.specs.Prelude.{◌≡◌, ℕ, ◌+◌, ◌<◌, ◌≤◌, ◌⊎◌, length};
ghost use Rattle.std.specs.List.Sorted.{IsPermutation};
ghost use Rattle.event_order.specs.Order.{comes_before};
ghost use Rattle.pending_queue.specs.Heap.{AreInOrder, CanRise, IsHeap, IsHeapBut};

use event_order::{Key, Keyed};

/// How many items stand right below one.
const CHILDREN: usize = 4;

/// Whether the key `a` is smaller than `b`. This is `Key::is_before` without branches: which of two
/// keys is the smaller cannot be foreseen, and a heap asks it several times for each level.
#[tactic(auto, unfolding(event_order::specs::Order::comes_before))]
fn comes_first(a: &Key, b: &Key) -> bool
    ensures { result ≡ comes_before a.now b.now }
{
    let number = a.number < b.number;
    let channel = (a.channel < b.channel) | ((a.channel == b.channel) & number);
    let priority = (a.priority < b.priority) | ((a.priority == b.priority) & channel);
    let round = (a.round < b.round) | ((a.round == b.round) & priority);
    (a.time < b.time) | ((a.time == b.time) & round)
}

/// Which of the items at these two places has the smaller key.
fn lesser<T: Keyed>(items: &[T], a: usize, b: usize) -> usize
    requires a { a < length items.now }
    requires b { b < length items.now }
    ensures one { (result ≡ a) ⊎ (result ≡ b) }
    ensures first { AreInOrder T.key_of items.now result a }
    ensures second { AreInOrder T.key_of items.now result b }
{
    if comes_first(&items[b].key(), &items[a].key()) {
        b
    } else {
        a
    }
}

/// The place of the least of the four items from `first` on.
fn least_of_four<T: Keyed>(items: &[T], first: usize) -> usize
    requires { first + 3 < length items.now }
    ensures place { (first ≤ result) × (result < length items.now) × (result < first + 4) }
    ensures least { (c : ℕ) → first ≤ c → c < first + 4 → AreInOrder T.key_of items.now result c }
{
    let left = lesser(items, first, first + 1);
    let right = lesser(items, first + 2, first + 3);
    lesser(items, left, right)
}

/// The place of the least of all items from `first` on.
fn least_from<T: Keyed>(items: &[T], first: usize) -> usize
    requires { first < length items.now }
    ensures place { (first ≤ result) × (result < length items.now) }
    ensures least { (c : ℕ) → first ≤ c → c < length items.now → AreInOrder T.key_of items.now result c }
{
    let mut least = first;
    for child in first + 1..items.len() {
        least = lesser(items, least, child);
    }
    least
}

/// Moves the item at `at` up, past all items above it that have greater keys.
pub(crate) fn rise<T: Keyed>(items: &mut [T], mut at: usize)
    requires place { at < length items.old }
    requires can { CanRise T.key_of items.old at }
    ensures heap { IsHeap T.key_of items.new }
    ensures same { IsPermutation items.old items.new }
{
    while at > 0 {
        let over = (at - 1) / CHILDREN;
        if !comes_first(&items[at].key(), &items[over].key()) {
            return;
        }
        items.swap(over, at);
        at = over;
    }
}

/// Moves the first item down to a place with none below it, past the least item of each level, and
/// answers that place.
fn sink<T: Keyed>(items: &mut [T]) -> usize
    requires some { 0 < length items.old }
    requires heap { IsHeapBut T.key_of items.old 0 }
    ensures place { result < length items.new }
    ensures can { CanRise T.key_of items.new result }
    ensures same { IsPermutation items.old items.new }
{
    let last = items.len() - 1;
    let mut at = 0;
    while at < last / CHILDREN {
        let child = least_of_four(items, CHILDREN * at + 1);
        items.swap(at, child);
        at = child;
    }
    if at == last / CHILDREN && CHILDREN * at < last {
        let child = least_from(items, CHILDREN * at + 1);
        items.swap(at, child);
        at = child;
    }
    at
}

/// Moves the first item to where the list is a heap, if all the others are one. The first item was
/// the last of the heap, so that it belongs far down: it goes to the bottom and up from there, which
/// asks for fewer comparisons than to look at each level whether it stays.
pub(crate) fn settle<T: Keyed>(items: &mut [T])
    requires { IsHeapBut T.key_of items.old 0 }
    ensures heap { IsHeap T.key_of items.new }
    ensures same { IsPermutation items.old items.new }
{
    if items.is_empty() {
        return;
    }
    let at = sink(items);
    rise(items, at);
}
