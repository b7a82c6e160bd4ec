//! How far a timeline may execute.

ghost use Rattle.std.specs.Prelude.{◌≡◌, false, slice_index};
ghost use Rattle.timeline.specs.Holding.{least_held as least_held_of, holder_of as holder_at, has_taken as has_taken_all};

use crate::answers::Holder;
use timeline_parts::InEnd;

/// The least of the window and the appointments that are held.
pub fn least_held(entered: u64, ends: &[(u32, InEnd)]) -> u64
    ensures { result ≡ least_held_of entered ends.now }
{
    let mut bound = entered;
    for end in ends {
        if end.1.appointed {
            bound = bound.min(end.1.held);
        }
    }
    bound
}

/// The first channel whose appointment is this time, if there is one.
pub fn holder_of(bound: u64, ends: &[(u32, InEnd)]) -> Holder
    ensures { result ≡ holder_at bound ends.now }
{
    for end in ends {
        if end.1.appointed && end.1.held == bound {
            return Holder::Channel(end.0);
        }
    }
    Holder::Window
}

/// The least of the window and the appointments that are held, with its holder: worked out anew where
/// it can be another one than this bound, and else this one.
pub fn bound_after(
    anew: bool,
    bound: u64,
    holder: Holder,
    entered: u64,
    ends: &[(u32, InEnd)],
) -> (u64, Holder)
    requires bound { anew ≡ false → bound ≡ least_held_of entered ends.now }
    requires holder { anew ≡ false → holder ≡ holder_at bound ends.now }
    ensures bound { result.0 ≡ least_held_of entered ends.now }
    ensures holder { result.1 ≡ holder_at result.0 ends.now }
{
    if anew {
        let least = least_held(entered, ends);
        (least, holder_of(least, ends))
    } else {
        (bound, holder)
    }
}

/// Whether as much was taken from each channel as these counts say, which stand at the channels'
/// places.
pub fn has_taken(ends: &[(u32, InEnd)], counts: &[u64]) -> bool
    ensures { result ≡ has_taken_all ends.now counts.now }
{
    for end in ends {
        if count_at(counts, end.1.place) > end.1.taken {
            return false;
        }
    }
    true
}

/// The count at a place, and 0 where there is none.
fn count_at(counts: &[u64], place: u32) -> u64
    ensures { result ≡ slice_index counts.now place }
{
    match counts.get(place as usize) {
        Some(count) => *count,
        None => 0,
    }
}
