//! The best route for an address.
ghost use Rattle.std.specs.Prelude.{◌≡◌, ℕ, ◌+◌, ◌<◌, ◌≤◌, length, IfSome, IfNone, EachIndex};
ghost use Rattle.spf_routes.specs.Best.{IsBest, HoldsAt, IsChoice};

use crate::graph::Route;
use ip_blocks::holds;

/// The place of the route with the longest block that holds the address, the first of equals; none
/// exactly where no block holds it.
pub fn best(routes: &[Route], address: u32) -> Option<usize>
    ensures found { IfSome result (λ place. IsBest routes.now address (length routes.now) place) }
    ensures none { IfNone result (EachIndex routes.now (λ k. HoldsAt routes.now address k → ⊥)) }
{
    let mut best = None;
    for place in 0..routes.len() {
        best = better(routes, address, best, place);
    }
    best
}

/// The best of the routes up to this place, from the best of those before it.
fn better(routes: &[Route], address: u32, best: Option<usize>, place: usize) -> Option<usize>
    requires place { place < length routes.now }
    requires best { IsChoice routes.now address place best }
    ensures { IsChoice routes.now address (place + 1) result }
{
    let block = routes[place].block;
    if !holds(block, address) {
        return best;
    }
    match best {
        None => Some(place),
        Some(old) if routes[old].block.bits < block.bits => Some(place),
        Some(old) => Some(old),
    }
}
