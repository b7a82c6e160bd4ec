//! The verdicts of IP.
ghost use Rattle.std.specs.Prelude.{◌≡◌, length, IfSome, IfNone, Some, None};
ghost use Rattle.ip_layer.specs.Forwarding.{sent, received, best_route};

use crate::Packet;
use sim_base::Reason;
use spf_routes::{Route, best};

/// What becomes of a packet.
#[derive(Clone, Copy, Debug, PartialEq, Eq)]
pub enum Verdict {
    /// It is for this host.
    Local,
    /// It leaves by the route of this place in the list of routes.
    Forward(usize),
    /// It is dropped: its time to live has ended, no route holds its destination, or the host sends it to itself.
    Dropped(Reason),
}

/// What becomes of a packet that a host with these addresses and routes receives. One that is not
/// for it and has a time to live of at most 1 is dropped; any other is passed on as [`send`] says.
#[tactic(auto, unfolding(crate::specs::Forwarding::received, crate::specs::Forwarding::sent))]
pub fn receive(own: &[u32], routes: &[Route], packet: &Packet) -> Verdict
    ensures { result ≡ received own.now routes.now packet.now }
{
    if own.contains(&packet.dst) {
        return Verdict::Local;
    }
    if packet.ttl <= 1 {
        return Verdict::Dropped(Reason::Ttl);
    }
    send(own, routes, packet)
}

/// What becomes of a packet that a host with these addresses and routes sends: it leaves by the best
/// route, and is dropped where it is for the host itself or no route holds its destination.
#[tactic(auto, unfolding(crate::specs::Forwarding::sent))]
pub fn send(own: &[u32], routes: &[Route], packet: &Packet) -> Verdict
    ensures { result ≡ sent own.now routes.now packet.now }
{
    if own.contains(&packet.dst) {
        return Verdict::Dropped(Reason::Route);
    }
    match best_place(routes, packet.dst) {
        Some(place) => Verdict::Forward(place),
        None => Verdict::Dropped(Reason::Route),
    }
}

/// The place of the best route to an address: the one with the longest block that holds it, the first
/// of equals; none where no block holds it.
pub fn best_place(routes: &[Route], address: u32) -> Option<usize>
    ensures { result ≡ best_route routes.now address }
{
    best(routes, address)
}
