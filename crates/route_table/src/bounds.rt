//! The addresses at which blocks begin and end.
ghost use Rattle.std.specs.Prelude.{◌≡◌, ◌≤◌, ◌<◌, ◌^◌, ℕ, length, Contains, IfOk, OnOk, IfSome, IfNone};
ghost use Rattle.std.specs.List.Sorted.{IsStrictlyIncreasing};
ghost use Rattle.ip_blocks.specs.Blocks.{block_end};
ghost use Rattle.spf_routes.specs.Best.{route_at};
ghost use Rattle.route_table.specs.Tables.{HasBounds};

use ip_blocks::Block;
use sim_base::Memory;
use spf_routes::Route;
use std::alloc::Global;

/// The first address behind a block; none where the block ends with the last address of all.
fn behind(block: Block) -> Option<u32>
    ensures some { IfSome result (λ end. end ≡ block_end block) }
    ensures none { IfNone result (2 ^ 32 ≤ block_end block) }
{
    let size = 1u64 << (32 - block.bits.min(32));
    u32::try_from(u64::from(block.base) + size).ok()
}

/// The block of the route of this place.
pub(crate) fn block_at(routes: &[Route], place: usize) -> Block
    requires { place < length routes.now }
    ensures { result ≡ (route_at routes.now place).block }
{
    routes[place].block
}

/// Adds the address at which a block begins, and the first one behind it, where there is one.
#[tactic(auto, using(crate::proofs::Bounding::still, crate::proofs::Bounding::pushed))]
fn push_bounds(bounds: &mut Vec<u32>, block: Block) -> Result<(), Memory>
    ensures kept { OnOk result ((x : ℕ) → Contains bounds.old.items x → Contains bounds.new.items x) }
    ensures begins { OnOk result (Contains bounds.new.items block.base) }
    ensures ends { OnOk result (block_end block < 2 ^ 32 → Contains bounds.new.items (block_end block)) }
{
    bounds.push(block.base)?;
    if let Some(end) = behind(block) {
        bounds.push(end)?;
    }
    Ok(())
}

/// The addresses at which blocks of the routes begin, and those right behind them, and 0, all in
/// rising order.
pub(crate) fn bounds_of(alloc: Global, routes: &[Route]) -> Result<Vec<u32>, Memory>
    ensures rising { IfOk result (λ bounds. IsStrictlyIncreasing bounds.items) }
    ensures all { IfOk result (λ bounds. HasBounds routes.now (length routes.now) bounds.items) }
{
    let mut bounds = vec![in alloc; 0; 1]?;
    for place in 0..routes.len() {
        push_bounds(&mut bounds, block_at(routes, place))?;
    }
    bounds.sort_unstable();
    bounds.dedup();
    Ok(bounds)
}
