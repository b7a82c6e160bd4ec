//! The table of least routes of a host.
ghost use Rattle.std.specs.Prelude.{◌≡◌, ℕ, ◌+◌, ◌^◌, ◌<◌, ◌≤◌, List, length, All, Contains, IfOk, MatchBool};
ghost use Rattle.spf_routes.specs.Walks.{IsGraph, IsTable};
ghost use Rattle.spf_routes.specs.Arms.{IsLesser, AreDirect, AreEntries, AreArms, AreRoutes, SomeRelays, NoneRelays};

use crate::graph::{Arm, Graph, Route};
use crate::search::{Edge, Label, Start, settle};
use ip_blocks::Block;
use sim_base::Memory;
use std::alloc::Global;

/// The one of two labels that is there, and the lesser where both are.
fn lesser(a: Option<Label>, b: Option<Label>) -> Option<Label>
    ensures { IsLesser a b result }
{
    match (a, b) {
        (None, _) => b,
        (Some(_), None) => a,
        (Some(first), Some(second)) if second < first => b,
        (Some(_), Some(_)) => a,
    }
}

/// For each link the least label of a walk by one arm of the host.
fn direct_labels(
    alloc: Global,
    links: usize,
    arms: &[Arm],
    from: u32,
) -> Result<Vec<Option<Label>>, Memory>
    requires { All (λ (arm : Arm). arm.link < links) arms.now }
    ensures { IfOk result (λ direct. AreDirect arms.now from links direct.items) }
{
    let mut direct = vec![in alloc; None; links]?;
    for arm in arms {
        if arm.host != from {
            continue;
        }
        let label = Label {
            cost: u64::from(arm.cost),
            interface: arm.interface,
            next: 0,
        };
        let link = arm.link as usize;
        direct[link] = lesser(direct[link], Some(label));
    }
    Ok(direct)
}

/// Whether the host relays.
fn relays(arms: &[Arm], from: u32) -> bool
    ensures { MatchBool result (SomeRelays arms.now from) (NoneRelays arms.now from) }
{
    for arm in arms {
        if arm.host != from {
            continue;
        }
        if arm.relays {
            return true;
        }
    }
    false
}

/// The starts of the search: every host that relays and that the host reaches over one of its links,
/// and none where the host itself does not relay.
fn starts(
    alloc: Global,
    arms: &[Arm],
    direct: &[Option<Label>],
    from: u32,
) -> Result<Vec<Start>, Memory>
    requires links { All (λ (arm : Arm). arm.link < length direct.now) arms.now }
    requires direct { AreDirect arms.now from (length direct.now) direct.now }
    requires relays { (a b : Arm) → Contains arms.now a → Contains arms.now b → a.host ≡ b.host → a.relays ≡ b.relays }
    ensures { IfOk result (λ starts. AreEntries arms.now from (length direct.now) starts.items) }
{
    let mut starts = Vec::new(alloc);
    if !relays(arms, from) {
        return Ok(starts);
    }
    for second in arms {
        if second.host == from {
            continue;
        }
        if !second.relays {
            continue;
        }
        let Some(label) = direct[second.link as usize] else {
            continue;
        };
        let next = second.address;
        starts.push(Start {
            label: Label { next, ..label },
            node: direct.len() + second.host as usize,
        })?;
    }
    Ok(starts)
}

/// The edges of the search: from each relaying host to its links, and back.
fn edges(alloc: Global, links: usize, nodes: usize, arms: &[Arm]) -> Result<Vec<Vec<Edge>>, Memory>
    requires links { All (λ (arm : Arm). arm.link < links) arms.now }
    requires hosts { All (λ (arm : Arm). links + arm.host < nodes) arms.now }
    ensures { IfOk result (λ edges. AreArms arms.now links nodes edges.items) }
{
    let mut edges = Vec::new(alloc);
    for _node in 0..nodes {
        edges.push(Vec::new(alloc))?;
    }
    for arm in arms {
        if !arm.relays {
            continue;
        }
        let link = arm.link as usize;
        let host = links + arm.host as usize;
        edges[host].push(Edge {
            to: link,
            weight: arm.cost,
        })?;
        edges[link].push(Edge {
            to: host,
            weight: 0,
        })?;
    }
    Ok(edges)
}

/// The routes to the links that have a label, in their order.
fn table(
    alloc: Global,
    blocks: &[Block],
    direct: &[Option<Label>],
    best: &[Option<Label>],
) -> Result<Vec<Route>, Memory>
    requires direct { length direct.now ≡ length blocks.now }
    requires best { length blocks.now ≤ length best.now }
    ensures { IfOk result (λ routes. (links : List ℕ) × AreRoutes blocks.now direct.now best.now (length blocks.now) routes.items links) }
{
    let mut routes = Vec::new(alloc);
    for link in 0..blocks.len() {
        let Some(label) = lesser(direct[link], best[link]) else {
            continue;
        };
        routes.push(Route {
            block: blocks[link],
            interface: label.interface,
            next: label.next,
            cost: label.cost,
        })?;
    }
    Ok(routes)
}

/// For each link that a walk reaches from the host its least route, in the order of the links.
///
/// `from` is the host's number, below the count of hosts. In the graph the numbers of hosts and links
/// are in range, costs are at most 65,535, and the arms of one host have the same `relays`. A host
/// that does not relay has only the routes of its own links.
///
/// With E arms and V hosts and links the work is in proportion to V + E log E, and the memory to
/// V + E. For a host that does not relay, or that has no neighbor that does, the work is in
/// proportion to E and the links, and the memory to the links.
///
/// # Errors
/// `Memory` where there was no memory.
pub fn shortest(alloc: Global, graph: &Graph, from: u32) -> Result<Vec<Route>, Memory>
    requires graph { IsGraph graph.now }
    requires from { from < graph.now.hosts }
    ensures { IfOk result (λ routes. IsTable graph.now from routes.items) }
{
    let arms = graph.arms.as_slice();
    let blocks = graph.blocks.as_slice();
    let links = blocks.len();
    let direct = direct_labels(alloc, links, arms, from)?;
    let starts = starts(alloc, arms, direct.as_slice(), from)?;
    if starts.is_empty() {
        let none = vec![in alloc; None; links]?;
        return table(alloc, blocks, direct.as_slice(), none.as_slice());
    }
    let edges = edges(alloc, links, links + graph.hosts as usize, arms)?;
    let best = settle(alloc, starts.as_slice(), edges.as_slice())?;
    table(alloc, blocks, direct.as_slice(), best.as_slice())
}
