//! The interfaces of hosts, and the graph of a period.
ghost use Rattle.std.specs.Prelude.{◌≡◌, ◌<◌, ◌≤◌, ◌++◌, length, IfOk, OnOk};
ghost use Rattle.spf_routes.specs.Walks.{IsGraph};
ghost use Rattle.net_graph.specs.Networks.{IsNetwork, link_at, attachment_of};
ghost use Rattle.net_layout.specs.Addresses.{AreBlocks, address_in};
ghost use Rattle.net_layout.specs.Arms.{first_interface, place_of, arm_at, arm_of, arms_of, graph_of};

use crate::downs::is_up;
use ip_blocks::{Block, Blocks};
use net_graph::Network;
use sim_base::{ListOf, Memory};
use spf_routes::{Arm, Graph};
use std::alloc::Global;

/// How many interfaces stand before those of a host; the interfaces stand host by host.
#[tactic(auto, unfolding(crate::specs::Arms::first_interface))]
pub fn first_interface(network: &Network, host: u32) -> u32
    requires { IsNetwork network.now }
    ensures first { result ≡ first_interface network.now host }
    ensures within { result ≤ length network.now.interfaces }
{
    network
        .interfaces
        .as_slice()
        .partition_point(|interface| interface.host < host) as u32
}

/// The number of an interface within its host's list of interfaces.
pub fn place_of(network: &Network, interface: u32) -> u32
    requires network { IsNetwork network.now }
    requires interface { interface < length network.now.interfaces }
    ensures { result ≡ place_of network.now interface }
{
    let host = network.interfaces.as_slice()[interface as usize].host;
    interface.saturating_sub(first_interface(network, host))
}

/// The graph of the period to which a tick belongs: the arms on links that are up.
///
/// # Errors
/// `Memory` where there was no memory.
pub fn graph(alloc: Global, network: &Network, blocks: &Blocks, tick: u64) -> Result<Graph, Memory>
    requires network { IsNetwork network.now }
    requires blocks { AreBlocks network.now blocks.now }
    ensures graph { IfOk result (λ graph. graph ≡ graph_of network.now tick) }
    ensures lawful { IfOk result (λ graph. IsGraph graph) }
{
    let hosts = network.hosts.len() as u32;
    let arms = arms(alloc, network, blocks, tick)?;
    let blocks = link_blocks(alloc, network, blocks)?;
    Ok(Graph {
        hosts,
        blocks: ListOf::from_vec(blocks),
        arms: ListOf::from_vec(arms),
    })
}

/// The blocks of the links.
fn link_blocks(alloc: Global, network: &Network, blocks: &Blocks) -> Result<Vec<Block>, Memory>
    requires network { IsNetwork network.now }
    requires blocks { AreBlocks network.now blocks.now }
    ensures { IfOk result (λ list. list.items ≡ blocks.now.links) }
{
    let mut list = Vec::new(alloc);
    for link in 0..network.links.len() {
        list.push(blocks.link(link as u32))?;
    }
    Ok(list)
}

/// The arms at a tick, in the order of the interfaces.
#[tactic(auto, unfolding(crate::specs::Arms::arms_of))]
fn arms(alloc: Global, network: &Network, blocks: &Blocks, tick: u64) -> Result<Vec<Arm>, Memory>
    requires network { IsNetwork network.now }
    requires blocks { AreBlocks network.now blocks.now }
    ensures { IfOk result (λ arms. arms.items ≡ arms_of network.now tick) }
{
    let mut arms = Vec::new(alloc);
    for interface in 0..network.interfaces.len() {
        push_arm(&mut arms, network, blocks, tick, interface as u32)?;
    }
    Ok(arms)
}

/// Appends the arm of an interface, where a link that is up attaches it.
#[tactic(auto, unfolding(crate::specs::Arms::arm_of))]
fn push_arm(
    arms: &mut Vec<Arm>,
    network: &Network,
    blocks: &Blocks,
    tick: u64,
    interface: u32,
) -> Result<(), Memory>
    requires network { IsNetwork network.now }
    requires blocks { AreBlocks network.now blocks.now }
    requires interface { interface < length network.now.interfaces }
    ensures { OnOk result (arms.new.items ≡ arms.old.items ++ arm_of network.now tick interface) }
{
    let Some(at) = attachment_of(network, interface) else {
        return Ok(());
    };
    if is_up(&network.links.as_slice()[at.0 as usize], tick) {
        arms.push(arm_at(network, blocks, interface, at.0, at.1))?;
    }
    Ok(())
}

/// The link on which an interface lies, and the interface's place among its attachments.
pub fn attachment_of(network: &Network, interface: u32) -> Option<(u32, u32)>
    requires { interface < length network.now.interfaces }
    ensures { result ≡ attachment_of network.now interface }
{
    network.interfaces.as_slice()[interface as usize].link
}

/// The address of an interface; without a link it has none.
pub fn address(network: &Network, blocks: &Blocks, interface: u32) -> Option<u32>
    requires network { IsNetwork network.now }
    requires blocks { AreBlocks network.now blocks.now }
    requires interface { interface < length network.now.interfaces }
    ensures { result ≡ address_in blocks.now network.now interface }
{
    match attachment_of(network, interface) {
        Some(at) => Some(blocks.address(at.0, at.1)),
        None => None,
    }
}

/// The arm of an interface at a place of a link.
fn arm_at(network: &Network, blocks: &Blocks, interface: u32, link: u32, place: u32) -> Arm
    requires network { IsNetwork network.now }
    requires blocks { AreBlocks network.now blocks.now }
    requires interface { interface < length network.now.interfaces }
    requires link { link < length network.now.links }
    requires place { place < length (link_at network.now link).attached }
    ensures { result ≡ arm_at network.now interface link place }
{
    let row = network.interfaces.as_slice()[interface as usize];
    let relays = network.hosts.as_slice()[row.host as usize].ospf;
    Arm {
        host: row.host,
        interface: place_of(network, interface),
        link,
        address: blocks.address(link, place),
        cost: row.cost,
        relays,
    }
}
