//! The default routes of hosts.
ghost use Rattle.std.specs.Prelude.{◌≡◌, ◌<◌, length, All, IfOk, IfSome};
ghost use Rattle.std.specs.Option.{ForSome, unwrap_or};
ghost use Rattle.std.specs.List.{find, remove};
ghost use Rattle.net_graph.specs.Networks.{IsNetwork, IsGateway, host_at, interface_at, link_at};
ghost use Rattle.net_layout.specs.Addresses.{AreBlocks};
ghost use Rattle.net_layout.specs.Gateways.{belongs_to_router, others_of, next_hop, default_route, route_by, gateway_route};

use crate::arms::{address, attachment_of, place_of};
use ip_blocks::{Block, Blocks};
use net_graph::{Gateway, Network};
use sim_base::Memory;
use spf_routes::Route;
use std::alloc::Global;

/// The default route of a host, where it has one: to all addresses, by its gateway's interface.
///
/// # Errors
/// `Memory` where there was no memory.
#[tactic(auto, unfolding(crate::specs::Gateways::gateway_route))]
pub fn gateway_route(
    alloc: Global,
    network: &Network,
    blocks: &Blocks,
    host: u32,
) -> Result<Option<Route>, Memory>
    requires network { IsNetwork network.now }
    requires blocks { AreBlocks network.now blocks.now }
    requires host { host < length network.now.hosts }
    ensures { IfOk result (λ route. route ≡ gateway_route network.now host) }
{
    match gateway_of(network, host) {
        Some(gateway) => route_by(alloc, network, blocks, host, gateway),
        None => Ok(None),
    }
}

/// The gateway of a host.
fn gateway_of(network: &Network, host: u32) -> Option<Gateway>
    requires { host < length network.now.hosts }
    ensures { result ≡ (host_at network.now host).gateway }
{
    network.hosts.as_slice()[host as usize].gateway
}

/// The route by a gateway of a host.
fn route_by(
    alloc: Global,
    network: &Network,
    blocks: &Blocks,
    host: u32,
    gateway: Gateway,
) -> Result<Option<Route>, Memory>
    requires network { IsNetwork network.now }
    requires blocks { AreBlocks network.now blocks.now }
    requires gateway { IsGateway network.now host gateway }
    ensures { IfOk result (λ route. route ≡ route_by network.now gateway) }
{
    let others = others_of(alloc, network, gateway.interface)?;
    match next_hop(network, gateway.next, others.as_slice()) {
        Some(next) => Ok(Some(default_route(network, blocks, gateway.interface, next))),
        None => Ok(None),
    }
}

/// The other attachments of the link on which an interface lies.
fn others_of(alloc: Global, network: &Network, interface: u32) -> Result<Vec<u32>, Memory>
    requires network { IsNetwork network.now }
    requires interface { interface < length network.now.interfaces }
    ensures others { IfOk result (λ others. others.items ≡ others_of network.now interface) }
    ensures there { IfOk result (λ others. All (λ i. i < length network.now.interfaces) others.items) }
{
    match attachment_of(network, interface) {
        Some(at) => {
            let others = without(alloc, attached_of(network, at.0), at.1)?;
            Ok(others)
        }
        None => Ok(Vec::new(alloc)),
    }
}

/// The attachments of a link.
fn attached_of(network: &Network, link: u32) -> &[u32]
    requires network { IsNetwork network.now }
    requires link { link < length network.now.links }
    ensures value { result.now ≡ (link_at network.now link).attached }
    ensures there { All (λ i. i < length network.now.interfaces) result.now }
{
    network.links.as_slice()[link as usize].attached.as_slice()
}

/// These attachments without the one at a place.
fn without(alloc: Global, attached: &[u32], place: u32) -> Result<Vec<u32>, Memory>
    requires { place < length attached.now }
    ensures { IfOk result (λ others. others.items ≡ remove attached.now place) }
{
    let mut others = Vec::from_slice(alloc, attached)?;
    others.remove(place as usize);
    Ok(others)
}

/// The stated next hop, else the first of the others that belongs to a router, else the first of
/// them; none without others.
fn next_hop(network: &Network, stated: Option<u32>, others: &[u32]) -> Option<u32>
    requires network { IsNetwork network.now }
    requires stated { ForSome stated (λ next. next < length network.now.interfaces) }
    requires others { All (λ i. i < length network.now.interfaces) others.now }
    ensures next { result ≡ next_hop network.now stated others.now }
    ensures there { IfSome result (λ next. next < length network.now.interfaces) }
{
    if others.is_empty() {
        return None;
    }
    match stated {
        Some(next) => Some(next),
        None => Some(first_router(network, others).unwrap_or(others[0])),
    }
}

/// The first of these interfaces that belongs to a router.
fn first_router(network: &Network, others: &[u32]) -> Option<u32>
    requires network { IsNetwork network.now }
    requires others { All (λ i. i < length network.now.interfaces) others.now }
    ensures found { result ≡ find (belongs_to_router network.now) others.now }
    ensures there { IfSome result (λ next. next < length network.now.interfaces) }
{
    for other in others {
        if belongs_to_router(network, *other) {
            return Some(*other);
        }
    }
    None
}

/// Whether an interface belongs to a router.
fn belongs_to_router(network: &Network, interface: u32) -> bool
    requires network { IsNetwork network.now }
    requires interface { interface < length network.now.interfaces }
    ensures { result ≡ belongs_to_router network.now interface }
{
    let host = network.interfaces.as_slice()[interface as usize].host;
    network.hosts.as_slice()[host as usize].router
}

/// The route to all addresses by an interface, with this next hop.
fn default_route(network: &Network, blocks: &Blocks, interface: u32, next: u32) -> Route
    requires network { IsNetwork network.now }
    requires blocks { AreBlocks network.now blocks.now }
    requires interface { interface < length network.now.interfaces }
    requires next { next < length network.now.interfaces }
    ensures { result ≡ default_route network.now interface next }
{
    Route {
        block: Block { base: 0, bits: 0 },
        interface: place_of(network, interface),
        next: address(network, blocks, next).unwrap_or(0),
        cost: 0,
    }
}
