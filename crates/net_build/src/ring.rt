//! The plan of a ring.
ghost use Rattle.std.specs.Prelude.{◌≡◌, ◌≤◌, ◌<◌, ◌⊎◌, ◌++◌, ℕ, List, false, length, map, replicate, decimal, Ok, Err, IfOk, IfErr, OnOk, OnErr};
ghost use Rattle.std.specs.List.{All, list_any, range_with_len};
ghost use Rattle.dml_tree.specs.TreeView.{attributes};
ghost use Rattle.net_graph.specs.Keys.{values_of, has_net};
ghost use Rattle.ssf_model.specs.Deliver.{MostWrites};
ghost use Rattle.ssf_model.specs.Run.{Fits};
ghost use Rattle.ring_model.specs.Reacting.{IsRing, AnyPayload};
ghost use Rattle.net_build.specs.RingModel.{first_number, absent_number, tokens_in, hops_in, hop_of, is_long, build, built_of, ring_of, ring_plan_of, HasFewTokens, ring_counts_of};
ghost use Rattle.net_build.specs.PlanText.{ring_text_of};

use crate::Built;
use crate::fields::push_bytes;
use crate::maps::push_maps;
use dml_tree::{Tree, Value};
use net_graph::{ShapeFault, first_list, first_value, has_key, missing, number_in};
use ring_model::{Hop, Ring, ring_builder};
use sim_base::{ListOf, Memory, Text, push_number};
use ssf_model::{BuildFault, LONGEST_DELAY, MOST_CHANNELS, Names};
use std::alloc::Global;

/// The number of nodes is below this.
const NODES_END: u64 = 65_537;

/// A delay has at most 18 digits, so it is below this.
const DELAY_END: u64 = 1_000_000_000_000_000_000;

/// A priority is below this.
const PRIORITY_END: u64 = 256;

/// The plan of the ring that is the model of a tree. Its entities are the nodes, named by their
/// decimal numbers, and all of them share Net 0.
///
/// # Errors
/// `NoModel` where there is no list `ring`; then the first fault of its keys: `nodes`, each
/// `token`, and for each `hop` its `from`, `to`, `delay` and `priority`, where a key that has to
/// stand and does not is `Missing`, and a value that is no number in its range, `BadNumber`; then
/// `DelayTooLong` where a hop's delay is above 10^15 ticks; then `TooManyChannels`; `Memory`.
pub fn ring_plan(alloc: Global, tree: &Tree) -> Result<Built<Ring>, ShapeFault>
    requires model { has_net (attributes tree.now) ≡ false }
    requires few { HasFewTokens (attributes tree.now) }
    ensures built { IfOk result (λ built. ring_plan_of (attributes tree.now) ≡ Ok built) }
    ensures fits { IfOk result (λ built. Fits IsRing AnyPayload built.plan) }
    ensures named { IfOk result (λ built. length built.names.names ≡ length built.plan.entities) }
    ensures cause { IfErr result (λ fault. (fault ≡ ShapeFault.Memory) ⊎ (ring_plan_of (attributes tree.now) ≡ Err fault)) }
{
    let keys = ring_keys(alloc, tree)?;
    build_ring(
        alloc,
        keys.nodes,
        keys.tokens.as_slice(),
        keys.hops.as_slice(),
    )
}

/// Appends the text of the plan of the ring that is the model of a tree: a line for each mapping.
///
/// # Errors
/// Those of `ring_plan`. Then nothing is appended.
pub fn ring_text(alloc: Global, tree: &Tree, out: &mut Vec<u8>) -> Result<(), ShapeFault>
    requires model { has_net (attributes tree.now) ≡ false }
    requires few { HasFewTokens (attributes tree.now) }
    ensures text { OnOk result ((text : List ℕ) × (ring_text_of (attributes tree.now) ≡ Ok text) × (out.new.items ≡ out.old.items ++ text)) }
    ensures kept { OnErr result (out.new.items ≡ out.old.items) }
    ensures cause { IfErr result (λ fault. (fault ≡ ShapeFault.Memory) ⊎ (ring_text_of (attributes tree.now) ≡ Err fault)) }
{
    let built = ring_plan(alloc, tree)?;
    let mut text = Vec::new(alloc);
    push_maps(&built.names, built.plan.mappings.as_slice(), &mut text)?;
    push_bytes(out, text.as_slice())?;
    Ok(())
}

/// How many nodes, tokens and hops a ring has.
#[derive(Clone, Copy, Debug, PartialEq, Eq)]
pub struct RingCounts {
    pub nodes: u64,
    pub tokens: u64,
    pub hops: u64,
}

/// How many nodes, tokens and hops the ring has that is the model of a tree.
///
/// # Errors
/// Those of `ring_plan`.
pub fn ring_counts(alloc: Global, tree: &Tree) -> Result<RingCounts, ShapeFault>
    requires { has_net (attributes tree.now) ≡ false }
    ensures counts { IfOk result (λ counts. ring_counts_of (attributes tree.now) ≡ Ok counts) }
    ensures cause { IfErr result (λ fault. (fault ≡ ShapeFault.Memory) ⊎ (ring_counts_of (attributes tree.now) ≡ Err fault)) }
{
    let keys = ring_keys(alloc, tree)?;
    check_size(&keys)?;
    Ok(RingCounts {
        nodes: u64::from(keys.nodes),
        tokens: keys.tokens.len() as u64,
        hops: keys.hops.len() as u64,
    })
}

/// Whether a ring has a plan.
///
/// # Errors
/// `DelayTooLong` where a hop's delay is above 10^15 ticks, else `TooManyChannels` where the nodes
/// and hops together are above 262,144.
fn check_size(keys: &Keys) -> Result<(), ShapeFault>
    requires { keys.now.nodes ≤ 65536 }
    ensures built { OnOk result (build (record { nodes = keys.now.nodes; tokens = keys.now.tokens; hops = keys.now.hops }) ≡ Ok (built_of (record { nodes = keys.now.nodes; tokens = keys.now.tokens; hops = keys.now.hops }))) }
    ensures cause { IfErr result (λ fault. build (record { nodes = keys.now.nodes; tokens = keys.now.tokens; hops = keys.now.hops }) ≡ Err fault) }
{
    if has_long_delay(keys.hops.as_slice()) {
        return Err(ShapeFault::DelayTooLong);
    }
    if keys.hops.len() > MOST_CHANNELS - keys.nodes as usize {
        return Err(ShapeFault::TooManyChannels);
    }
    Ok(())
}

/// What a ring's keys say: how many nodes there are, the nodes that have a token at the start, one
/// for each token, and the hops.
#[derive(Drop)]
struct Keys {
    nodes: u32,
    tokens: ListOf<u32>,
    hops: ListOf<Hop>,
}

/// The keys of the ring that is the model of a tree.
///
/// # Errors
/// `NoModel` where there is no list `ring`, then the first fault of its keys; `Memory`.
fn ring_keys(alloc: Global, tree: &Tree) -> Result<Keys, ShapeFault>
    ensures read { IfOk result (λ keys. ring_of (attributes tree.now) ≡ Ok (record { nodes = keys.nodes; tokens = keys.tokens; hops = keys.hops })) }
    ensures nodes { IfOk result (λ keys. keys.nodes ≤ 65536) }
    ensures tokens { IfOk result (λ keys. All (λ t. t < keys.nodes) keys.tokens) }
    ensures hops { IfOk result (λ keys. All (λ h. (h.from < keys.nodes) × (h.to < keys.nodes)) keys.hops) }
    ensures few { IfOk result (λ keys. HasFewTokens (attributes tree.now) → length keys.tokens ≤ MostWrites) }
    ensures cause { IfErr result (λ fault. (fault ≡ ShapeFault.Memory) ⊎ (ring_of (attributes tree.now) ≡ Err fault)) }
{
    let Some(ring) = first_list(tree, b"ring") else {
        return Err(ShapeFault::NoModel);
    };
    let nodes = number(alloc, ring, b"nodes", NODES_END, None)? as u32;
    let tokens = read_tokens(alloc, ring, nodes)?;
    let hops = read_hops(alloc, ring, nodes)?;
    Ok(Keys {
        nodes,
        tokens: ListOf::from_vec(tokens),
        hops: ListOf::from_vec(hops),
    })
}

/// The plan of a ring with these nodes, tokens and hops.
fn build_ring(
    alloc: Global,
    nodes: u32,
    tokens: &[u32],
    hops: &[Hop],
) -> Result<Built<Ring>, ShapeFault>
    requires nodes { nodes ≤ 65536 }
    requires tokens { All (λ t. t < nodes) tokens.now }
    requires few { length tokens.now ≤ MostWrites }
    requires hops { All (λ h. (h.from < nodes) × (h.to < nodes)) hops.now }
    ensures built { IfOk result (λ built. build (record { nodes = nodes; tokens = tokens.now; hops = hops.now }) ≡ Ok built) }
    ensures fits { IfOk result (λ built. Fits IsRing AnyPayload built.plan) }
    ensures named { IfOk result (λ built. length built.names.names ≡ length built.plan.entities) }
    ensures cause { IfErr result (λ fault. (fault ≡ ShapeFault.Memory) ⊎ (build (record { nodes = nodes; tokens = tokens.now; hops = hops.now }) ≡ Err fault)) }
{
    if has_long_delay(hops) {
        return Err(ShapeFault::DelayTooLong);
    }
    let builder = match ring_builder(alloc, nodes, tokens, hops) {
        Ok(builder) => builder,
        Err(BuildFault::TooManyChannels) => return Err(ShapeFault::TooManyChannels),
        Err(_) => return Err(ShapeFault::Memory),
    };
    let plan = builder.finish()?;
    let names = node_names(alloc, nodes)?;
    let nets = one_net(alloc, nodes)?;
    Ok(Built { plan, names, nets })
}

/// Whether a hop has a delay above the longest one.
fn has_long_delay(hops: &[Hop]) -> bool
    ensures { result ≡ list_any is_long hops.now }
{
    hops.iter().any(|hop| hop.delay > LONGEST_DELAY)
}

/// The whole number of the first attribute with this key, below `end`; without one the default.
fn number(
    alloc: Global,
    tree: &Tree,
    key: &[u8],
    end: u64,
    default: Option<u64>,
) -> Result<u64, ShapeFault>
    ensures read { IfOk result (λ n. first_number key.now end (absent_number key.now default) (values_of key.now (attributes tree.now)) ≡ Ok n) }
    ensures cause { IfErr result (λ fault. (fault ≡ ShapeFault.Memory) ⊎ (first_number key.now end (absent_number key.now default) (values_of key.now (attributes tree.now)) ≡ Err fault)) }
{
    match (first_value(tree, key), default) {
        (Some(value), _) => number_in(alloc, key, value, 0, end),
        (None, Some(default)) => Ok(default),
        (None, None) => Err(missing(alloc, key)),
    }
}

/// The nodes that the attributes `token` name, in their order.
fn read_tokens(alloc: Global, ring: &Tree, nodes: u32) -> Result<Vec<u32>, ShapeFault>
    ensures read { IfOk result (λ tokens. tokens_in nodes (attributes ring.now) ≡ Ok tokens.items) }
    ensures cause { IfErr result (λ fault. (fault ≡ ShapeFault.Memory) ⊎ (tokens_in nodes (attributes ring.now) ≡ Err fault)) }
{
    let mut tokens = Vec::new(alloc);
    for attribute in ring.attributes() {
        if has_key(attribute, b"token") {
            let token = number_in(alloc, b"token", &attribute.value, 0, u64::from(nodes))?;
            tokens.push(token as u32)?;
        }
    }
    Ok(tokens)
}

/// The hops that the lists `hop` describe, in their order.
fn read_hops(alloc: Global, ring: &Tree, nodes: u32) -> Result<Vec<Hop>, ShapeFault>
    ensures read { IfOk result (λ hops. hops_in nodes (attributes ring.now) ≡ Ok hops.items) }
    ensures cause { IfErr result (λ fault. (fault ≡ ShapeFault.Memory) ⊎ (hops_in nodes (attributes ring.now) ≡ Err fault)) }
{
    let mut hops = Vec::new(alloc);
    for attribute in ring.attributes() {
        if has_key(attribute, b"hop") {
            if let Value::List(hop) = &attribute.value {
                hops.push(read_hop(alloc, hop, nodes)?)?;
            }
        }
    }
    Ok(hops)
}

/// The hop that these attributes describe.
fn read_hop(alloc: Global, hop: &Tree, nodes: u32) -> Result<Hop, ShapeFault>
    ensures read { IfOk result (λ read. hop_of nodes (attributes hop.now) ≡ Ok read) }
    ensures cause { IfErr result (λ fault. (fault ≡ ShapeFault.Memory) ⊎ (hop_of nodes (attributes hop.now) ≡ Err fault)) }
{
    let from = number(alloc, hop, b"from", u64::from(nodes), None)? as u32;
    let to = number(alloc, hop, b"to", u64::from(nodes), None)? as u32;
    let delay = number(alloc, hop, b"delay", DELAY_END, None)?;
    let priority = number(alloc, hop, b"priority", PRIORITY_END, Some(0))? as u8;
    Ok(Hop {
        from,
        to,
        delay,
        priority,
    })
}

/// The decimal numbers of the nodes.
fn node_names(alloc: Global, nodes: u32) -> Result<Names, Memory>
    ensures { IfOk result (λ names. names.names ≡ map decimal (range_with_len 0 nodes)) }
{
    let mut names = Vec::new(alloc);
    for node in 0..nodes {
        let mut name = Vec::new(alloc);
        push_number(&mut name, u64::from(node))?;
        names.push(Text::from_vec(name))?;
    }
    Ok(Names::new(names))
}

/// Net 0 for each node.
#[tactic(auto, using(std::proofs::lemmas::List::replicate_more))]
fn one_net(alloc: Global, nodes: u32) -> Result<ListOf<u32>, Memory>
    ensures { IfOk result (λ nets. nets ≡ replicate nodes 0) }
{
    let mut nets = Vec::new(alloc);
    for _ in 0..nodes {
        nets.push(0u32)?;
    }
    Ok(ListOf::from_vec(nets))
}
