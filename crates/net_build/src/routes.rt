//! The lines of routes.
ghost use Rattle.std.specs.Prelude.{◌≡◌, ◌<◌, ◌++◌, ℕ, List, length, OnOk};
ghost use Rattle.std.specs.List.{flat_map};
ghost use Rattle.spf_routes.specs.Walks.{IsGraph};
ghost use Rattle.net_graph.specs.Networks.{IsNetwork};
ghost use Rattle.net_layout.specs.Periods.{periods_of};
ghost use Rattle.net_layout.specs.Addresses.{AreBlocks};
ghost use Rattle.net_layout.specs.Arms.{first_interface, graph_of};
ghost use Rattle.net_build.specs.PlanText.{AreTexts, IsHostText, IsPeriodText, IsRoutesText, host_text, id_at, route_line, period_line};

use crate::fields::{end_line, push_address, push_block, push_bytes, push_decimal, push_field};
use crate::names::host_name;
use ip_blocks::Blocks;
use net_graph::Network;
use net_layout::{Layout, first_interface, graph, has_downs, host_period};
use sim_base::Memory;
use spf_routes::{Graph, Route};
use std::alloc::Global;

/// Appends the routes of all hosts in each period.
pub(crate) fn push_periods(
    alloc: Global,
    network: &Network,
    layout: &Layout,
    out: &mut Vec<u8>,
) -> Result<(), Memory>
    requires network { IsNetwork network.now }
    requires blocks { AreBlocks network.now layout.now.blocks }
    requires periods { layout.now.periods ≡ periods_of network.now }
    ensures { OnOk result ((text : List ℕ) × IsRoutesText network.now text × (out.new.items ≡ out.old.items ++ text)) }
{
    for period in 0..layout.periods.len() {
        push_one_period(alloc, network, layout, period, out)?;
    }
    Ok(())
}

/// Appends the routes of all hosts in the period of this number.
fn push_one_period(
    alloc: Global,
    network: &Network,
    layout: &Layout,
    period: usize,
    out: &mut Vec<u8>,
) -> Result<(), Memory>
    requires network { IsNetwork network.now }
    requires blocks { AreBlocks network.now layout.now.blocks }
    requires periods { layout.now.periods ≡ periods_of network.now }
    requires period { period < length layout.now.periods }
    ensures { OnOk result ((text : List ℕ) × IsPeriodText network.now period text × (out.new.items ≡ out.old.items ++ text)) }
{
    let tick = layout.periods.as_slice()[period];
    push_period(network, tick, out)?;
    let graph = graph(alloc, network, &layout.blocks, tick)?;
    push_routes(alloc, network, &layout.blocks, &graph, tick, out)
}

/// Appends the line of a period, where the network has downs.
#[tactic(auto, unfolding(crate::specs::PlanText::period_line))]
fn push_period(network: &Network, tick: u64, out: &mut Vec<u8>) -> Result<(), Memory>
    ensures { OnOk result (out.new.items ≡ out.old.items ++ period_line network.now tick) }
{
    if has_downs(network) {
        push_bytes(out, b"period")?;
        push_decimal(out, tick)?;
        end_line(out)?;
    }
    Ok(())
}

/// Appends the routes of all hosts in one period.
fn push_routes(
    alloc: Global,
    network: &Network,
    blocks: &Blocks,
    graph: &Graph,
    tick: u64,
    out: &mut Vec<u8>,
) -> Result<(), Memory>
    requires network { IsNetwork network.now }
    requires blocks { AreBlocks network.now blocks.now }
    requires graph { graph.now ≡ graph_of network.now tick }
    requires lawful { IsGraph graph.now }
    ensures { OnOk result ((text : List ℕ) × AreTexts (IsHostText network.now tick) (length network.now.hosts) text × (out.new.items ≡ out.old.items ++ text)) }
{
    for host in 0..network.hosts.len() {
        push_host(alloc, network, blocks, graph, tick, host as u32, out)?;
    }
    Ok(())
}

/// Appends the routes of a host in one period.
fn push_host(
    alloc: Global,
    network: &Network,
    blocks: &Blocks,
    graph: &Graph,
    tick: u64,
    host: u32,
    out: &mut Vec<u8>,
) -> Result<(), Memory>
    requires network { IsNetwork network.now }
    requires blocks { AreBlocks network.now blocks.now }
    requires graph { graph.now ≡ graph_of network.now tick }
    requires lawful { IsGraph graph.now }
    requires host { host < length network.now.hosts }
    ensures { OnOk result ((text : List ℕ) × IsHostText network.now tick host text × (out.new.items ≡ out.old.items ++ text)) }
{
    let name = host_name(alloc, network, host)?;
    let first = first_interface(network, host);
    let period = host_period(alloc, network, blocks, graph, tick, host)?;
    push_table(
        network,
        host,
        first,
        name.as_slice(),
        period.routes.as_slice(),
        out,
    )
}

/// Appends the lines of these routes of a host with this name and first interface.
fn push_table(
    network: &Network,
    host: u32,
    first: u32,
    name: &[u8],
    routes: &[Route],
    out: &mut Vec<u8>,
) -> Result<(), Memory>
    requires first { first ≡ first_interface network.now host }
    requires name { name.now ≡ host_text network.now host }
    ensures { OnOk result (out.new.items ≡ out.old.items ++ flat_map (route_line network.now host) routes.now) }
{
    for route in routes {
        push_route(network, host, first, name, *route, out)?;
    }
    Ok(())
}

/// Appends the line of a route of a host with this name and first interface.
#[tactic(auto, unfolding(crate::specs::PlanText::route_line))]
fn push_route(
    network: &Network,
    host: u32,
    first: u32,
    name: &[u8],
    route: Route,
    out: &mut Vec<u8>,
) -> Result<(), Memory>
    requires first { first ≡ first_interface network.now host }
    requires name { name.now ≡ host_text network.now host }
    ensures { OnOk result (out.new.items ≡ out.old.items ++ route_line network.now host route) }
{
    let id = id_at(network, host, first, route.interface);
    push_bytes(out, b"route")?;
    push_field(out, name)?;
    push_block(out, route.block)?;
    push_decimal(out, u64::from(id))?;
    push_address(out, route.next)?;
    push_decimal(out, route.cost)?;
    end_line(out)
}

/// The id of the interface at a place of the list of a host with this first interface; 0 past the
/// last interface.
fn id_at(network: &Network, host: u32, first: u32, place: u32) -> u32
    requires { first ≡ first_interface network.now host }
    ensures { result ≡ id_at network.now host place }
{
    let _host = host;
    match network
        .interfaces
        .as_slice()
        .get(first as usize + place as usize)
    {
        Some(row) => row.id,
        None => 0,
    }
}
