//! A law of the table of least routes.
ghost use Rattle.std.specs.Prelude.{◌≡◌, ℕ, List};
ghost use Rattle.spf_routes.specs.declared.graph.Graph.{Graph};
ghost use Rattle.spf_routes.specs.declared.graph.Route.{Route};
ghost use Rattle.spf_routes.specs.Walks.{IsTable};

/// A host has at most one table of least routes.
pub fn one_table()
    ensures { (graph : Graph) (from : ℕ) (a b : List Route) → IsTable graph from a → IsTable graph from b → a ≡ b }
{}
