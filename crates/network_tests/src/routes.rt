//! Worked tables of routes. Hosts and links are numbered from 0, and addresses stand behind 10.0.0.0.
ghost use Rattle.std.specs.Prelude.{◌≡◌, ◌<◌, ◌≤◌, false, length, slice_index_or, IfOk};
ghost use Rattle.spf_routes.specs.Walks.{IsGraph};

use ip_blocks::Block;
use sim_base::{ListOf, Memory};
use spf_routes::{Arm, Graph, Route, best, shortest};
use std::alloc::Global;
use std::process::Abort;
use std::test::Fail;

const BASE: u32 = 10 << 24;

/// An arm by its host, its number there, its link, the last byte of its address and its cost.
type ArmRow = (u32, u32, u32, u8, u32);

/// A route by its link, its interface, the last byte of the next address (0 for none) and its cost.
type RouteRow = (usize, u32, u8, u64);

fn arm(rt: &impl Abort, relays: &[bool], links: usize, row: ArmRow) -> Arm
    ensures host { result.host < length relays.now }
    ensures link { result.link < links }
    ensures cost { result.cost ≤ 65535 }
    ensures relays { result.relays ≡ slice_index_or relays.now result.host false }
{
    let (host, interface, link, address, cost) = row;
    let place = host as usize;
    assert!(rt; place < relays.len());
    assert!(rt; (link as usize) < links);
    assert!(rt; cost <= 65_535);
    Arm {
        host,
        interface,
        link,
        address: BASE + u32::from(address),
        cost,
        relays: relays[place],
    }
}

/// The graph of hosts that relay or not, of links with these blocks, by the last byte of the base and
/// the bits, and of these arms.
fn graph(
    rt: &impl Abort,
    alloc: Global,
    relays: &[bool],
    blocks: &[(u8, u8)],
    arms: &[ArmRow],
) -> Result<Graph, Memory>
    ensures { IfOk result (λ graph. IsGraph graph) }
{
    assert!(rt; relays.len() < 100);
    let mut links = Vec::new(alloc);
    for (base, bits) in blocks {
        let base = BASE + u32::from(*base);
        links.push(Block { base, bits: *bits })?;
    }
    assert!(rt; links.len() < 100);
    let mut list = Vec::new(alloc);
    for row in arms {
        list.push(arm(rt, relays, links.len(), *row))?;
    }
    Ok(Graph {
        hosts: relays.len() as u32,
        blocks: ListOf::from_vec(links),
        arms: ListOf::from_vec(list),
    })
}

/// The table of the host has these routes, and no others.
fn has_routes(
    rt: &impl Abort,
    alloc: Global,
    graph: &Graph,
    from: u32,
    wanted: &[RouteRow],
) -> Result<(), Memory>
    requires { IsGraph graph.now }
{
    assert!(rt; from < graph.hosts);
    let routes = shortest(alloc, graph, from)?;
    let blocks = graph.blocks.as_slice();
    assert_eq!(rt; routes.len(), wanted.len(), "from {from}");
    for k in 0..wanted.len() {
        let (link, interface, next, cost) = wanted[k];
        assert!(rt; link < blocks.len());
        let next = if next == 0 { 0 } else { BASE + u32::from(next) };
        let route = Route {
            block: blocks[link],
            interface,
            next,
            cost,
        };
        assert_eq!(rt; routes[k], route, "from {from} to {link}");
    }
    Ok(())
}

/// Hosts 0, 1 and 2 share a link, and hosts 1 and 2 a farther one.
#[test]
fn takes_the_least_address_whatever_the_order_of_arms(rt: HostRuntime) -> Result<(), Fail> {
    let alloc = rt.alloc();
    let relays = [true; 3];
    let blocks = [(0, 29), (8, 30)];
    let arms = [
        (2, 1, 1, 10, 1),
        (1, 1, 1, 9, 1),
        (2, 0, 0, 3, 1),
        (1, 0, 0, 2, 1),
        (0, 0, 0, 1, 1),
    ];
    let turned = graph(&rt, alloc, &relays, &blocks, &arms)?;
    has_routes(&rt, alloc, &turned, 0, &[(0, 0, 0, 1), (1, 0, 2, 2)])?;
    Ok(())
}

/// A route to a block.
fn route(base: u32, bits: u8) -> Route {
    Route {
        block: Block { base, bits },
        interface: 0,
        next: 0,
        cost: 1,
    }
}

#[test]
fn takes_the_longest_and_the_first(rt: HostRuntime) {
    let base = 10 << 24;
    let nested = [
        route(0, 0),
        route(base, 28),
        route(base + 8, 30),
        route(base + 8, 30),
    ];
    for (address, place) in [(base + 9, Some(2)), (base + 1, Some(1)), (1, Some(0))] {
        assert_eq!(rt; best(&nested, address), place);
    }
    assert_eq!(rt; best(&[route(base, 28)], base + 16), None);
}
