//! The network of a resolved tree.
ghost use Rattle.std.specs.Prelude.{◌≡◌, ◌≤◌, ◌⊎◌, None, Ok, Err, IfOk, IfErr};
ghost use Rattle.dml_tree.specs.TreeView.{attributes};
ghost use Rattle.net_graph.specs.Networks.{IsNetwork};
ghost use Rattle.net_graph.specs.NetworkOf.{network_of, net_network, rows_of, rows_with, attachments};
ghost use Rattle.net_graph.specs.Steps.{IsFew};
ghost use Rattle.net_resolve.specs.Parts.{network_with};
ghost use Rattle.net_resolve.specs.Tables.{IsTable, link_rows_from};

use crate::found::Found;
use crate::hosts::{host_rows, session_rows, summaries_of};
use crate::links::{attach_all, interface_rows, no_places};
use crate::servers::server_rows;
use dml_tree::Tree;
use net_graph::{
    HostRow, InterfaceRow, LinkRow, Network, Seen, SessionRow, ShapeFault, first_list,
    read_frequency, walk_over,
};
use sim_base::{ListOf, ServerRow};
use std::alloc::Global;

/// The network of a resolved tree whose model is a Net, or that has no model.
///
/// # Errors
/// The first fault: `NoModel` without a list `Net`; then those of the walk (`BadNumber`, `Missing`,
/// `BadNhi`, `UnknownSession`, `DoubleId`, `TooMany`); then `UnknownNhi` and `AttachedTwice` of
/// attachments, in the order of links; `UnknownNhi` of gateways, in the order of hosts; `UnknownNhi` of
/// clients and servers, in the order of patterns; and `Memory`.
pub fn build_network(alloc: Global, tree: &Tree) -> Result<Network, ShapeFault>
    ensures network { IfOk result (λ network. network_of (attributes tree.now) ≡ Ok network) }
    ensures lawful { IfOk result (λ network. IsNetwork network) }
    ensures cause { IfErr result (λ fault. (fault ≡ ShapeFault.Memory) ⊎ (network_of (attributes tree.now) ≡ Err fault)) }
{
    let Some(net) = first_list(tree, b"Net") else {
        return Err(ShapeFault::NoModel);
    };
    net_network(alloc, net)
}

/// The network of the tree of a Net.
fn net_network(alloc: Global, tree: &Tree) -> Result<Network, ShapeFault>
    ensures network { IfOk result (λ network. net_network tree.now ≡ Ok network) }
    ensures cause { IfErr result (λ fault. (fault ≡ ShapeFault.Memory) ⊎ (net_network tree.now ≡ Err fault)) }
{
    let frequency = read_frequency(alloc, tree)?;
    let seen = walk_over(alloc, frequency, tree)?;
    rows_of(alloc, frequency, seen)
}

/// The network of what the walk met.
fn rows_of(alloc: Global, frequency: u64, seen: Seen) -> Result<Network, ShapeFault>
    requires frequency { frequency ≤ 1000000000000 }
    requires few { IsFew seen }
    ensures network { IfOk result (λ network. rows_of frequency seen ≡ Ok network) }
    ensures cause { IfErr result (λ fault. (fault ≡ ShapeFault.Memory) ⊎ (rows_of frequency seen ≡ Err fault)) }
{
    let found = Found::new(alloc, seen)?;
    let parts = parts_of(alloc, frequency, &found)?;
    Ok(joined(frequency, found.into_seen(), parts))
}

/// The rows of a network but for those of its Nets, and the count of its servers.
#[derive(Drop)]
pub struct Parts {
    pub patterns: u32,
    pub hosts: ListOf<HostRow>,
    pub interfaces: ListOf<InterfaceRow>,
    pub links: ListOf<LinkRow>,
    pub sessions: ListOf<SessionRow>,
    pub servers: ListOf<ServerRow>,
}

/// The network of its parts.
fn joined(frequency: u64, seen: Seen, parts: Parts) -> Network
    ensures { result ≡ network_with frequency seen.nets parts }
{
    Network {
        frequency,
        patterns: parts.patterns,
        nets: seen.nets,
        hosts: parts.hosts,
        interfaces: parts.interfaces,
        links: parts.links,
        sessions: parts.sessions,
        servers: parts.servers,
    }
}

/// The parts of the network of what the walk met.
fn parts_of(alloc: Global, frequency: u64, found: &Found) -> Result<Parts, ShapeFault>
    requires { frequency ≤ 1000000000000 }
    ensures parts { IfOk result (λ parts. rows_of frequency found.now ≡ Ok (network_with frequency found.now.nets parts)) }
    ensures cause { IfErr result (λ fault. (fault ≡ ShapeFault.Memory) ⊎ (rows_of frequency found.now ≡ Err fault)) }
{
    let mut places = no_places(alloc, found.seen().interfaces.len())?;
    let links = attach_all(alloc, found, places.as_mut_slice())?;
    parts_with(alloc, frequency, found, places.as_slice(), links)
}

/// The parts of the network of what the walk met, where all links are attached.
fn parts_with(
    alloc: Global,
    frequency: u64,
    found: &Found,
    places: &[Option<(u32, u32)>],
    links: Vec<LinkRow>,
) -> Result<Parts, ShapeFault>
    requires frequency { frequency ≤ 1000000000000 }
    requires table { IsTable (attachments found.now) places.now }
    requires links { links.items ≡ link_rows_from found.now 0 found.now.links }
    ensures parts { IfOk result (λ parts. rows_with frequency found.now (attachments found.now) None ≡ Ok (network_with frequency found.now.nets parts)) }
    ensures cause { IfErr result (λ fault. (fault ≡ ShapeFault.Memory) ⊎ (rows_with frequency found.now (attachments found.now) None ≡ Err fault)) }
{
    let seen = found.seen();
    let summaries = summaries_of(alloc, seen.hosts.len(), seen.sessions.as_slice())?;
    let hosts = host_rows(alloc, found, places, summaries.as_slice(), frequency)?;
    let servers = server_rows(alloc, found, places)?;
    let interfaces = interface_rows(alloc, places, seen.interfaces.as_slice())?;
    let sessions = session_rows(alloc, seen.sessions.as_slice())?;
    let patterns = servers.len() as u32;
    Ok(Parts {
        patterns,
        hosts: ListOf::from_vec(hosts),
        interfaces: ListOf::from_vec(interfaces),
        links: ListOf::from_vec(links),
        sessions: ListOf::from_vec(sessions),
        servers: ListOf::from_vec(servers),
    })
}
