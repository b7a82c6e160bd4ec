//! The blocks and periods of a network, or the first fault that keeps it from having a plan.
ghost use Rattle.std.specs.Prelude.{◌≡◌, ◌⊎◌, true, false, map, None, Some, IfOk, IfErr, OnOk};
ghost use Rattle.net_graph.specs.Networks.{IsNetwork, link_sizes, net_parents};
ghost use Rattle.net_layout.specs.Periods.{periods_of};
ghost use Rattle.net_layout.specs.Addresses.{AreBlocks};
ghost use Rattle.net_layout.specs.Faults.{first_fault, has_no_space};

use crate::downs::periods;
use crate::limits::{has_long_delay, has_many_channels, has_many_routes, has_many_transfers};
use ip_blocks::{BlockFault, Blocks, LinkSize, NetParent, assign};
use net_graph::{Network, ShapeFault, too_many};
use sim_base::{ListOf, Memory};
use std::alloc::Global;

/// The blocks of a network's Nets and links, and the ticks at which its periods begin.
#[derive(Drop)]
pub struct Layout {
    pub blocks: Blocks,
    pub periods: ListOf<u64>,
}

/// The layout of a network.
///
/// # Errors
/// The first of these: `TooMany transfers` where the client sessions of a host times the servers of
/// that host are above 50,000; `TooMany routes` where the hosts with an OSPF session times the links
/// times the periods are above 16,777,216; `NoSpace` where the top Net needs more than 2^24
/// addresses; `DelayTooLong` where a time is above 10^15 ticks: an attached interface's latency plus
/// its link's delay, the time in which an interface's full buffer and one byte leave, a client's
/// latest start, its wait between two datagrams, or twice a host's maximum segment lifetime;
/// `TooManyChannels` where the start, timer and mapping channels are above 262,144. And `Memory`.
#[tactic(auto, using(crate::proofs::Outcomes::at_transfers, crate::proofs::Outcomes::at_routes, crate::proofs::Outcomes::at_space, crate::proofs::Outcomes::at_delay, crate::proofs::Outcomes::at_channels, crate::proofs::Outcomes::no_fault))]
pub fn lay_out(alloc: Global, network: &Network) -> Result<Layout, ShapeFault>
    requires { IsNetwork network.now }
    ensures faultless { OnOk result (first_fault network.now ≡ None) }
    ensures blocks { IfOk result (λ layout. AreBlocks network.now layout.blocks) }
    ensures periods { IfOk result (λ layout. layout.periods ≡ periods_of network.now) }
    ensures cause { IfErr result (λ fault. (fault ≡ ShapeFault.Memory) ⊎ (first_fault network.now ≡ Some fault)) }
{
    if has_many_transfers(alloc, network)? {
        return Err(too_many(alloc, b"transfers"));
    }
    let periods = periods(alloc, network)?;
    if has_many_routes(network, periods.len()) {
        return Err(too_many(alloc, b"routes"));
    }
    let blocks = network_blocks(alloc, network)?;
    if has_long_delay(network) {
        return Err(ShapeFault::DelayTooLong);
    }
    if has_many_channels(network) {
        return Err(ShapeFault::TooManyChannels);
    }
    Ok(Layout {
        blocks,
        periods: ListOf::from_vec(periods),
    })
}

/// The blocks of a network's Nets and links.
///
/// # Errors
/// `NoSpace` exactly where the top Net needs more than 2^24 addresses, and `Memory`.
fn network_blocks(alloc: Global, network: &Network) -> Result<Blocks, ShapeFault>
    requires { IsNetwork network.now }
    ensures blocks { IfOk result (λ blocks. AreBlocks network.now blocks) }
    ensures space { OnOk result (has_no_space network.now ≡ false) }
    ensures cause { IfErr result (λ fault. (fault ≡ ShapeFault.Memory) ⊎ ((fault ≡ ShapeFault.NoSpace) × (has_no_space network.now ≡ true))) }
{
    let links = link_sizes(alloc, network)?;
    let nets = net_parents(alloc, network)?;
    match assign(alloc, links.as_slice(), nets.as_slice()) {
        Ok(blocks) => Ok(blocks),
        Err(BlockFault::NoSpace) => Err(ShapeFault::NoSpace),
        Err(BlockFault::Memory) => Err(ShapeFault::Memory),
    }
}

/// The links as the blocks of addresses want them.
fn link_sizes(alloc: Global, network: &Network) -> Result<Vec<LinkSize>, Memory>
    requires { IsNetwork network.now }
    ensures { IfOk result (λ sizes. sizes.items ≡ link_sizes network.now) }
{
    let mut sizes = Vec::new(alloc);
    for link in network.links.as_slice() {
        sizes.push(LinkSize {
            net: link.net,
            order: link.order,
            attachments: link.attached.len() as u32,
        })?;
    }
    Ok(sizes)
}

/// The Nets as the blocks of addresses want them.
fn net_parents(alloc: Global, network: &Network) -> Result<Vec<NetParent>, Memory>
    ensures { IfOk result (λ parents. parents.items ≡ net_parents network.now) }
{
    let mut parents = Vec::new(alloc);
    for net in network.nets.as_slice() {
        parents.push(NetParent {
            parent: net.parent,
            order: net.order,
        })?;
    }
    Ok(parents)
}
