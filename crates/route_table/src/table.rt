//! The table of the best routes.
ghost use Rattle.std.specs.Prelude.{◌≡◌, ◌<◌, length, IfOk};

use crate::bounds::bounds_of;
use crate::paint::paint;
use sim_base::Memory;
use spf_routes::Route;
use std::alloc::Global;
use std::marker::Model;

/// For each address the place of its best route. Contracts see the bounds and what is kept at each.
///
/// For n routes whose blocks do not overlap, and some that hold many of the others, the work of making
/// it is in proportion to n log n, and the memory to n; to find a place takes work in proportion to
/// log n, and no memory.
#[derive(Drop)]
pub struct RouteTable {
    bounds: Vec<u32>,
    best: Vec<Option<usize>>,
}

impl Model for RouteTable {
    ghost use Rattle.route_table.specs.Tables.{KeptPlaces, AreBounds};

    ghost Value = { KeptPlaces };

    ghost view = { λ t. record { bounds = t.bounds.items; places = t.best.items } };

    ghost invariant = { λ t. AreBounds t.bounds.items t.best.items };
}

impl RouteTable {
    ghost use Rattle.std.specs.Prelude.{◌≡◌, IfOk};
    ghost use Rattle.route_table.specs.Tables.{IsTableOf, place_for};

    /// The table of these routes.
    ///
    /// # Errors
    /// `Memory`.
    pub fn new(alloc: Global, routes: &[Route]) -> Result<RouteTable, Memory>
        ensures { IfOk result (λ table. IsTableOf routes.now table) }
    {
        let bounds = bounds_of(alloc, routes)?;
        let mut best = vec![in alloc; None; bounds.len()]?;
        for place in 0..routes.len() {
            paint(routes, bounds.as_slice(), &mut best, place);
        }
        Ok(RouteTable { bounds, best })
    }

    /// The place of the best route to an address; none where no block holds it.
    pub fn best(&self, address: u32) -> Option<usize>
        ensures { result ≡ place_for self.now address }
    {
        let within = self
            .bounds
            .as_slice()
            .partition_point(|bound| *bound <= address);
        self.best[within.saturating_sub(1)]
    }
}
