//! The search with a settled set (Dijkstra's), over nodes with edges between them.
ghost use Rattle.std.specs.Prelude.{◌≡◌, ℕ, ◌+◌, ◌^◌, ◌<◌, ◌≤◌, length, All, IfOk, IfSome, IfNone, OnOk};
ghost use Rattle.std.specs.Ordering.{ordering_then, nat_cmp};
ghost use Rattle.std.specs.BinaryHeap.{heap_items, IsHeap};
ghost use Rattle.spf_routes.specs.Paths.{order, IsNextOf, AllSettled, AreAdded, AreStarts, AreEdges, AreLeast, HoldsStarts};

use sim_base::Memory;
use std::alloc::Global;
use std::cmp::Reverse;
use std::collections::BinaryHeap;

/// What is known of a walk: its cost, its first interface and its next address. The least is sought
/// in this order.
#[derive(Clone, Copy, PartialEq, Eq, PartialOrd, Ord)]
pub(crate) struct Label {
    pub cost: u64,
    pub interface: u32,
    pub next: u32,
}

/// An edge to a node.
#[derive(Clone, Copy)]
pub(crate) struct Edge {
    pub to: usize,
    pub weight: u32,
}

/// Where the search begins: a node and the label with which it is reached.
#[derive(Clone, Copy)]
pub(crate) struct Start {
    pub label: Label,
    pub node: usize,
}

/// The node of least label that is not settled yet, with that label.
fn next_unsettled(
    queue: &mut BinaryHeap<Reverse<(Label, usize)>>,
    best: &[Option<Label>],
) -> Option<(Label, usize)>
    requires nodes { All (λ entry. entry.0.1 < length best.now) (heap_items queue.old) }
    requires heap { IsHeap order (heap_items queue.old) }
    ensures heap { IsHeap order (heap_items queue.new) }
    ensures found { IfSome result (λ entry. IsNextOf (heap_items queue.old) best.now entry.0 entry.1 (heap_items queue.new)) }
    ensures none { IfNone result (AllSettled (heap_items queue.old) best.now) }
{
    while let Some(Reverse((label, node))) = queue.pop() {
        if best[node].is_none() {
            return Some((label, node));
        }
    }
    None
}

/// Adds the neighbors of a node that was settled with this label.
fn add_edges(
    queue: &mut BinaryHeap<Reverse<(Label, usize)>>,
    label: Label,
    edges: &[Edge],
) -> Result<(), Memory>
    requires fits { label.cost + 65535 < 2 ^ 64 }
    requires weights { All (λ (edge : Edge). edge.weight ≤ 65535) edges.now }
    requires heap { IsHeap order (heap_items queue.old) }
    ensures heap { OnOk result (IsHeap order (heap_items queue.new)) }
    ensures added { OnOk result (AreAdded (heap_items queue.old) label edges.now (heap_items queue.new)) }
{
    for edge in edges {
        let cost = label.cost + u64::from(edge.weight);
        let next = Label { cost, ..label };
        queue.push(Reverse((next, edge.to)))?;
    }
    Ok(())
}

/// The least label of each node to which a path leads from a start.
pub(crate) fn settle(
    alloc: Global,
    starts: &[Start],
    edges: &[Vec<Edge>],
) -> Result<Vec<Option<Label>>, Memory>
    requires starts { AreStarts starts.now (length edges.now) }
    requires edges { AreEdges edges.now }
    requires few { length edges.now ≤ 2 ^ 33 }
    ensures { IfOk result (λ best. AreLeast starts.now edges.now best.items) }
{
    let mut queue = first_queue(alloc, starts)?;
    let mut best = vec![in alloc; None; edges.len()]?;
    for _settled in 0..edges.len() {
        let Some((label, node)) = next_unsettled(&mut queue, best.as_slice()) else {
            return Ok(best);
        };
        best[node] = Some(label);
        add_edges(&mut queue, label, edges[node].as_slice())?;
    }
    Ok(best)
}

/// The queue of the starts.
fn first_queue(
    alloc: Global,
    starts: &[Start],
) -> Result<BinaryHeap<Reverse<(Label, usize)>>, Memory>
    ensures heap { IfOk result (λ queue. IsHeap order (heap_items queue)) }
    ensures starts { IfOk result (λ queue. HoldsStarts starts.now (heap_items queue)) }
{
    let mut queue = BinaryHeap::new(alloc);
    for start in starts {
        queue.push(Reverse((start.label, start.node)))?;
    }
    Ok(queue)
}
