//! The rows of each host of a network.
ghost use Rattle.std.specs.Prelude.{◌≡◌, ◌<◌, ◌≤◌, ◌+◌, [], length, map, slice_set, All, IfOk, OnOk};
ghost use Rattle.ssf_model.specs.Drafts.{MostChannels};
ghost use Rattle.net_graph.specs.Networks.{IsNetwork, IsServer, numbers, host_at};
ghost use Rattle.net_layout.specs.Addresses.{AreBlocks};
ghost use Rattle.net_layout.specs.Arms.{first_interface};
ghost use Rattle.net_layout.specs.Periods.{periods_of};
ghost use Rattle.net_layout.specs.Wiring.{first_channel, wires_of, poke_channel};
ghost use Rattle.net_layout.specs.Ports.{ports_of, outs_of, downs_of, span_of};
ghost use Rattle.net_layout.specs.Sessions.{server_address};
ghost use Rattle.net_layout.specs.HostRoutes.{AreTables};
ghost use Rattle.net_hosts.specs.HostRowsOf.{port_row, host_rows_of, AreHostRows};
ghost use Rattle.net_hosts.specs.Left.{AreLeft, HasParts};

use crate::parts::{Parts, gather, take_list};
use host_rules::{HostPort, HostRows};
use ip_blocks::Blocks;
use net_graph::{Down, Network};
use net_layout::{Layout, address, attachment_of, first_interface};
use sim_base::{ListOf, Memory, ServerRow, TcpConfig};
use std::alloc::Global;

/// The rows of all hosts of a network, in their order. The channels of the network's plan are few
/// enough, as they are in every network without a fault.
///
/// # Errors
/// `Memory` where there was no memory.
pub fn host_rows(alloc: Global, network: &Network, layout: &Layout) -> Result<Vec<HostRows>, Memory>
    requires network { IsNetwork network.now }
    requires blocks { AreBlocks network.now layout.now.blocks }
    requires periods { layout.now.periods ≡ periods_of network.now }
    requires few { first_channel network.now + length (wires_of network.now) ≤ MostChannels }
    ensures { IfOk result (λ rows. AreHostRows network.now rows.items) }
{
    let mut parts = gather(alloc, network, layout)?;
    let rows = joined(alloc, network, &layout.blocks, &mut parts)?;
    Ok(rows)
}

/// The rows of all hosts, into which these parts are moved.
fn joined(
    alloc: Global,
    network: &Network,
    blocks: &Blocks,
    parts: &mut Parts,
) -> Result<Vec<HostRows>, Memory>
    requires network { IsNetwork network.now }
    requires blocks { AreBlocks network.now blocks.now }
    requires parts { HasParts network.now 0 parts.old }
    ensures { IfOk result (λ rows. rows.items ≡ map (host_rows_of network.now parts.old.tables) (numbers (length network.now.hosts))) }
{
    let mut rows = Vec::new(alloc);
    for host in 0..network.hosts.len() {
        rows.push(parts.take_host(alloc, network, blocks, host as u32)?)?;
    }
    Ok(rows)
}

impl Parts {
    /// The rows of the next host, into which its parts are moved.
    fn take_host(
        &mut self,
        alloc: Global,
        network: &Network,
        blocks: &Blocks,
        host: u32,
    ) -> Result<HostRows, Memory>
        requires network { IsNetwork network.now }
        requires blocks { AreBlocks network.now blocks.now }
        requires host { host < length network.now.hosts }
        requires parts { HasParts network.now host self.old }
        ensures rows { IfOk result (λ rows. rows ≡ host_rows_of network.now self.old.tables host) }
        ensures parts { OnOk result (HasParts network.now (host + 1) self.new) }
        ensures tables { OnOk result (self.new.tables ≡ slice_set self.old.tables host []) }
    {
        let place = host as usize;
        let given = self.servers.as_slice()[place].as_slice();
        let addresses = server_addresses(alloc, network, blocks, given)?;
        let ports = take_ports(alloc, network, blocks, host, &mut self.outs)?;
        let routes = take_list(alloc, &mut self.tables, place);
        let clients = take_list(alloc, &mut self.clients, place);
        let servers = take_list(alloc, &mut self.servers, place);
        let listens = take_list(alloc, &mut self.listens, place);
        Ok(HostRows {
            number: host,
            ports: ListOf::from_vec(ports),
            routes,
            clients,
            servers,
            addresses: ListOf::from_vec(addresses),
            listens,
            tcp: tcp_of(network, host),
            poke_in: poke_channel(network, host),
            poke_out: host,
        })
    }
}

/// The settings of TCP of a host.
fn tcp_of(network: &Network, host: u32) -> TcpConfig
    requires { host < length network.now.hosts }
    ensures { result ≡ (host_at network.now host).tcp }
{
    network.hosts.as_slice()[host as usize].tcp
}

/// The in-channel by which a host is poked, behind those of its interfaces.
fn poke_channel(network: &Network, host: u32) -> u32
    requires network { IsNetwork network.now }
    requires host { host < length network.now.hosts }
    ensures { result ≡ poke_channel network.now host }
{
    first_interface(network, host + 1) + host
}

/// The interface of each of these servers, and its address.
fn server_addresses(
    alloc: Global,
    network: &Network,
    blocks: &Blocks,
    servers: &[ServerRow],
) -> Result<Vec<(u32, u32)>, Memory>
    requires network { IsNetwork network.now }
    requires blocks { AreBlocks network.now blocks.now }
    requires servers { All (IsServer network.now) servers.now }
    ensures { IfOk result (λ addresses. addresses.items ≡ map (server_address network.now) servers.now) }
{
    let mut addresses = Vec::new(alloc);
    for server in servers {
        let place = address(network, blocks, server.interface);
        addresses.push((server.interface, place.unwrap_or(0)))?;
    }
    Ok(addresses)
}

/// The interfaces of a host as it sees them, into which the out-channels of each are moved.
fn take_ports(
    alloc: Global,
    network: &Network,
    blocks: &Blocks,
    host: u32,
    outs: &mut ListOf<ListOf<(u32, u32)>>,
) -> Result<Vec<HostPort>, Memory>
    requires network { IsNetwork network.now }
    requires blocks { AreBlocks network.now blocks.now }
    requires host { host < length network.now.hosts }
    requires outs { AreLeft (outs_of network.now) (first_interface network.now host) (length network.now.interfaces) outs.old }
    ensures ports { IfOk result (λ ports. ports.items ≡ map (port_row network.now) (ports_of network.now host)) }
    ensures outs { OnOk result (AreLeft (outs_of network.now) (first_interface network.now (host + 1)) (length network.now.interfaces) outs.new) }
{
    let mut ports = Vec::new(alloc);
    for interface in first_interface(network, host)..first_interface(network, host + 1) {
        let own = take_list(alloc, outs, interface as usize);
        ports.push(port_row(alloc, network, blocks, interface, own)?)?;
    }
    Ok(ports)
}

/// An interface as its host sees it; these are the addresses and out-channels to which it sends.
fn port_row(
    alloc: Global,
    network: &Network,
    blocks: &Blocks,
    interface: u32,
    outs: ListOf<(u32, u32)>,
) -> Result<HostPort, Memory>
    requires network { IsNetwork network.now }
    requires blocks { AreBlocks network.now blocks.now }
    requires interface { interface < length network.now.interfaces }
    requires outs { outs ≡ outs_of network.now interface }
    ensures { IfOk result (λ port. port ≡ port_row network.now interface) }
{
    let downs = downs_of(alloc, network, interface)?;
    let row = network.interfaces.as_slice()[interface as usize];
    Ok(HostPort {
        id: row.id,
        bitrate: row.bitrate,
        buffer: row.buffer,
        address: address(network, blocks, interface),
        in_channel: interface + row.host,
        outs,
        downs: ListOf::from_vec(downs),
    })
}

/// When the link of an interface is down: from the one tick on and before the other.
fn downs_of(alloc: Global, network: &Network, interface: u32) -> Result<Vec<(u64, u64)>, Memory>
    requires network { IsNetwork network.now }
    requires interface { interface < length network.now.interfaces }
    ensures { IfOk result (λ downs. downs.items ≡ downs_of network.now interface) }
{
    match attachment_of(network, interface) {
        Some(at) => {
            let downs = network.links.as_slice()[at.0 as usize].downs.as_slice();
            spans(alloc, downs)
        }
        None => Ok(Vec::new(alloc)),
    }
}

/// The ticks at which each of these downs begins and ends.
fn spans(alloc: Global, downs: &[Down]) -> Result<Vec<(u64, u64)>, Memory>
    ensures { IfOk result (λ spans. spans.items ≡ map span_of downs.now) }
{
    let mut spans = Vec::new(alloc);
    for down in downs {
        spans.push((down.from, down.to))?;
    }
    Ok(spans)
}
