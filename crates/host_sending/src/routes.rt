//! The routes of a host at a tick.
ghost use Rattle.std.specs.Prelude.{◌≡◌, ◌<◌, length};
ghost use Rattle.spf_routes.specs.Best.{route_at};
ghost use Rattle.ip_layer.specs.Forwarding.{sent, received};

use ip_layer::{Packet, Verdict};
use route_table::RouteTable;
use sim_base::Reason;
use spf_routes::Route;
use std::marker::Model;

/// The routes of a host at a tick, with the table of the best of them. Contracts see the routes.
#[derive(Drop)]
pub struct Routes<'a> {
    routes: &'a [Route],
    table: Option<&'a RouteTable>,
}

impl<'a> Model for Routes<'a> {
    ghost use Rattle.std.specs.Prelude.{◌≡◌, [], List, MatchOption};
    ghost use Rattle.spf_routes.specs.declared.graph.Route.{Route};
    ghost use Rattle.route_table.specs.Tables.{IsTableOf};

    ghost Value = { List Route };

    ghost view = { λ r. r.routes.now };

    ghost invariant = { λ r. MatchOption r.table (r.routes.now ≡ []) (λ table. IsTableOf r.routes.now table.now) };
}

impl<'a> Routes<'a> {
    ghost use Rattle.std.specs.Prelude.{◌≡◌, ◌<◌, [], length};
    ghost use Rattle.spf_routes.specs.Best.{route_at};
    ghost use Rattle.ip_layer.specs.Forwarding.{best_route};
    ghost use Rattle.route_table.specs.Tables.{IsTableOf};

    /// No routes.
    pub fn none() -> Routes<'a>
        ensures { result ≡ [] }
    {
        Routes {
            routes: &[],
            table: None,
        }
    }

    /// These routes, whose best ones the table tells.
    pub fn of(routes: &'a [Route], table: &'a RouteTable) -> Routes<'a>
        requires { IsTableOf routes.now table.now }
        ensures { result ≡ routes.now }
    {
        Routes {
            routes,
            table: Some(table),
        }
    }

    /// The place of the best route to an address; none where no block holds it.
    #[tactic(auto, unfolding(ip_layer::specs::Forwarding::best_route))]
    pub fn best(&self, address: u32) -> Option<usize>
        ensures { result ≡ best_route self.now address }
    {
        match self.table {
            Some(table) => table.best(address),
            None => None,
        }
    }

    /// The route of this place.
    pub fn route(&self, place: usize) -> &Route
        requires { place < length self.now }
        ensures { result.now ≡ route_at self.now place }
    {
        route_at(self.routes, place)
    }
}

/// The route of this place.
fn route_at(routes: &[Route], place: usize) -> &Route
    requires { place < length routes.now }
    ensures { result.now ≡ route_at routes.now place }
{
    &routes[place]
}

/// What becomes of a packet that a host with these addresses and routes sends, as `ip_layer` says.
#[tactic(auto, unfolding(ip_layer::specs::Forwarding::sent))]
pub(crate) fn sent(own: &[u32], routes: &Routes, packet: &Packet) -> Verdict
    ensures { result ≡ sent own.now routes.now packet.now }
{
    if own.contains(&packet.dst) {
        return Verdict::Dropped(Reason::Route);
    }
    match routes.best(packet.dst) {
        Some(place) => Verdict::Forward(place),
        None => Verdict::Dropped(Reason::Route),
    }
}

/// What becomes of a packet that a host with these addresses and routes receives, as `ip_layer` says.
#[tactic(auto, unfolding(ip_layer::specs::Forwarding::received, ip_layer::specs::Forwarding::sent))]
pub(crate) fn received(own: &[u32], routes: &Routes, packet: &Packet) -> Verdict
    ensures { result ≡ received own.now routes.now packet.now }
{
    if own.contains(&packet.dst) {
        return Verdict::Local;
    }
    if packet.ttl <= 1 {
        return Verdict::Dropped(Reason::Ttl);
    }
    sent(own, routes, packet)
}
