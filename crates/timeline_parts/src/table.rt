//! Tables: lists of items with numbers, which rise.

ghost use Rattle.std.specs.Prelude.{◌≡◌, ◌<◌, IfSome, IfNone, length, slice_index};
ghost use Rattle.event_order.specs.Pending.{Among};
ghost use Rattle.timeline_parts.specs.Tables.{numbers_of, AreNumbered};

/// The place of the item with this number, by halving.
pub fn place_of<T>(items: &[(u32, T)], number: u32) -> Option<usize>
    requires { AreNumbered items.now }
    ensures within { IfSome result (λ place. place < length items.now) }
    ensures found { IfSome result (λ place. slice_index (numbers_of items.now) place ≡ number) }
    ensures none { IfNone result (Among number (numbers_of items.now) → ⊥) }
{
    let mut low = 0;
    let mut high = items.len();
    while low < high {
        let middle = low + (high - low) / 2;
        if items[middle].0 < number {
            low = middle + 1;
        } else {
            high = middle;
        }
    }
    if low < items.len() && items[low].0 == number {
        Some(low)
    } else {
        None
    }
}
