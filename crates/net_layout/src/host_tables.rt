//! The routes of each host, period by period.
ghost use Rattle.std.specs.Prelude.{◌≡◌, ◌<◌, ◌+◌, ◌++◌, length, option_to_list, IfOk, OnOk};
ghost use Rattle.spf_routes.specs.Walks.{IsGraph};
ghost use Rattle.net_graph.specs.Networks.{IsNetwork};
ghost use Rattle.net_layout.specs.Periods.{periods_of};
ghost use Rattle.net_layout.specs.Addresses.{AreBlocks};
ghost use Rattle.net_layout.specs.Arms.{graph_of};
ghost use Rattle.net_layout.specs.HostRoutes.{AreHostRoutes, AreTables, AreTablesSoFar};

use crate::arms::graph;
use crate::gateways::gateway_route;
use crate::layout::Layout;
use crate::lists::{append_at, empty_lists};
use ip_blocks::Blocks;
use net_graph::Network;
use sim_base::{ListOf, Memory};
use spf_routes::{Graph, Period, Route, shortest};
use std::alloc::Global;

/// The periods of each host with its routes, host by host. They are found one period at a time, since
/// the graphs of all periods together may be large.
///
/// # Errors
/// `Memory` where there was no memory.
pub fn tables(
    alloc: Global,
    network: &Network,
    layout: &Layout,
) -> Result<Vec<ListOf<Period>>, Memory>
    requires network { IsNetwork network.now }
    requires blocks { AreBlocks network.now layout.now.blocks }
    requires periods { layout.now.periods ≡ periods_of network.now }
    ensures { IfOk result (λ tables. AreTables network.now tables.items) }
{
    let mut tables = empty_lists(alloc, network.hosts.len())?;
    for period in 0..layout.periods.len() {
        add_period(alloc, network, layout, period, &mut tables)?;
    }
    Ok(tables)
}

/// Appends the period of this number to the periods of each host.
fn add_period(
    alloc: Global,
    network: &Network,
    layout: &Layout,
    period: usize,
    tables: &mut Vec<ListOf<Period>>,
) -> Result<(), Memory>
    requires network { IsNetwork network.now }
    requires blocks { AreBlocks network.now layout.now.blocks }
    requires periods { layout.now.periods ≡ periods_of network.now }
    requires period { period < length layout.now.periods }
    requires tables { AreTablesSoFar network.now period 0 tables.old.items }
    ensures { OnOk result (AreTablesSoFar network.now (period + 1) 0 tables.new.items) }
{
    let tick = layout.periods.as_slice()[period];
    let graph = graph(alloc, network, &layout.blocks, tick)?;
    for host in 0..network.hosts.len() {
        let routes = host_period(alloc, network, &layout.blocks, &graph, tick, host as u32)?;
        append_at(tables, host, Some(routes))?;
    }
    Ok(())
}

/// The routes of a host at a tick, which has this graph, as a period that begins then: the least
/// routes, and then the default route, where the host has one.
///
/// # Errors
/// `Memory` where there was no memory.
pub fn host_period(
    alloc: Global,
    network: &Network,
    blocks: &Blocks,
    graph: &Graph,
    tick: u64,
    host: u32,
) -> Result<Period, Memory>
    requires network { IsNetwork network.now }
    requires blocks { AreBlocks network.now blocks.now }
    requires graph { graph.now ≡ graph_of network.now tick }
    requires lawful { IsGraph graph.now }
    requires host { host < length network.now.hosts }
    ensures from { IfOk result (λ period. period.from ≡ tick) }
    ensures routes { IfOk result (λ period. AreHostRoutes network.now host tick period.routes) }
{
    let mut routes = shortest(alloc, graph, host)?;
    let default = gateway_route(alloc, network, blocks, host)?;
    push_route(&mut routes, default)?;
    Ok(Period {
        from: tick,
        routes: ListOf::from_vec(routes),
    })
}

/// Appends a route, where there is one.
fn push_route(routes: &mut Vec<Route>, route: Option<Route>) -> Result<(), Memory>
    ensures { OnOk result (routes.new.items ≡ routes.old.items ++ option_to_list route) }
{
    if let Some(route) = route {
        routes.push(route)?;
    }
    Ok(())
}
