//! The best routes at bounds, as one route after another is taken into account.
ghost use Rattle.std.specs.Prelude.{◌+◌, ◌<◌, ◌≤◌, ℕ, length, slice_index_or, MatchBool};
ghost use Rattle.std.specs.List.Sorted.{IsStrictlyIncreasing};
ghost use Rattle.spf_routes.specs.Best.{HoldsAt, IsChoice};
ghost use Rattle.route_table.specs.Tables.{AreChosen};

use crate::bounds::block_at;
use ip_blocks::holds;
use spf_routes::Route;

/// The best of the routes up to this place, whose block holds the address, from the best of those
/// before it.
fn better(routes: &[Route], old: Option<usize>, place: usize, address: u32) -> Option<usize>
    requires place { place < length routes.now }
    requires holds { HoldsAt routes.now address place }
    requires old { IsChoice routes.now address place old }
    ensures { IsChoice routes.now address (place + 1) result }
{
    match old {
        Some(old) if routes[old].block.bits >= routes[place].block.bits => Some(old),
        _ => Some(place),
    }
}

/// Whether the block of the route of this place holds the address.
fn is_held(routes: &[Route], place: usize, address: u32) -> bool
    requires { place < length routes.now }
    ensures { MatchBool result (HoldsAt routes.now address place) (HoldsAt routes.now address place → ⊥) }
{
    holds(block_at(routes, place), address)
}

/// The place of the first bound that is not below an address, by halving.
fn first_from(bounds: &[u32], address: u32) -> usize
    requires rising { IsStrictlyIncreasing bounds.now }
    ensures before { (k : ℕ) → k < result → slice_index_or bounds.now k 0 < address }
    ensures behind { (k : ℕ) → result ≤ k → k < length bounds.now → address ≤ slice_index_or bounds.now k 0 }
    ensures within { result ≤ length bounds.now }
{
    bounds.partition_point(|bound| *bound < address)
}

/// Takes the route of this place into account at each of the bounds that its block holds.
pub(crate) fn paint(routes: &[Route], bounds: &[u32], best: &mut Vec<Option<usize>>, place: usize)
    requires place { place < length routes.now }
    requires rising { IsStrictlyIncreasing bounds.now }
    requires best { AreChosen routes.now bounds.now place best.old.items }
    ensures { AreChosen routes.now bounds.now (place + 1) best.new.items }
{
    let block = block_at(routes, place);
    let first = first_from(bounds, block.base);
    for at in first..bounds.len() {
        if !is_held(routes, place, bounds[at]) {
            return;
        }
        best[at] = better(routes, best[at], place, bounds[at]);
    }
}
