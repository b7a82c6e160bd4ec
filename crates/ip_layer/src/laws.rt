//! Laws of verdicts: contracts of functions with empty bodies.
ghost use Rattle.std.specs.Prelude.{ℕ, ◌≡◌, List, length, Some};
ghost use Rattle.spf_routes.specs.declared.graph.Route.{Route};
ghost use Rattle.spf_routes.specs.Best.{IsBest, IsChoice};
ghost use Rattle.ip_layer.specs.declared.verdict.Verdict.TheVariants.{Forward};
ghost use Rattle.ip_layer.specs.Packets.{PacketFields};
ghost use Rattle.ip_layer.specs.Forwarding.{best_route, sent, received};

/// The best route to an address is the first with the longest block that holds it, and there is none
/// only where no block holds it.
pub fn best_routes_are_best()
    ensures { (routes : List Route) (address : ℕ) → IsChoice routes address (length routes) (best_route routes address) }
{}

/// A packet that is sent leaves by the best route to its destination.
pub fn sent_packets_leave_by_the_best_route()
    ensures { (own : List ℕ) (routes : List Route) (p : PacketFields) (k : ℕ) → sent own routes p ≡ Forward k → IsBest routes p.dst (length routes) k }
{}

/// A packet that is passed on leaves by the best route to its destination.
pub fn received_packets_leave_by_the_best_route()
    ensures { (own : List ℕ) (routes : List Route) (p : PacketFields) (k : ℕ) → received own routes p ≡ Forward k → IsBest routes p.dst (length routes) k }
{}
