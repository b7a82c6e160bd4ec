//! Plans of rings.

ghost use Rattle.std.specs.Prelude.{◌≡◌, ◌≤◌, ◌<◌, ◌⊎◌, ◌↔◌, ℕ, length, IfOk, IfErr, IsTrue, Some};
ghost use Rattle.std.specs.List.{All};
ghost use Rattle.ssf_model.specs.Deliver.{MostWrites};
ghost use Rattle.ssf_model.specs.Drafts.{planned};
ghost use Rattle.ssf_model.specs.Run.{Fits};
ghost use Rattle.ring_model.specs.Reacting.{IsRing, AnyPayload};
ghost use Rattle.ring_model.specs.Rings.{ring_draft, with_hops, ring_refusal};
ghost use Rattle.list_examples.specs.RingFaults.{AreKnown, IsCause};

use ring_model::{Hop, Ring, ring_builder};
use ssf_model::{BuildFault, Plan};
use std::alloc::Global;

/// The most tokens of a ring.
pub const MOST_TOKENS: usize = 4_194_304;

/// Why there is no plan of a ring.
#[derive(Clone, Copy, Debug, PartialEq, Eq)]
pub enum RingFault {
    /// There are more tokens than `MOST_TOKENS`.
    TooManyTokens,
    /// A token names no node, or a hop does not lead from a node to a node.
    UnknownNode,
    /// The builder's refusal: too many nodes or hops, a delay that is too long, or no memory.
    Refused(BuildFault),
}

/// The plan of a ring of nodes 0 up to `nodes`, of which each has as many tokens as name it, with
/// these hops. The faults come in the order in which `RingFault` lists them.
pub fn ring_plan(
    alloc: Global,
    nodes: u32,
    tokens: &[u32],
    hops: &[Hop],
) -> Result<Plan<Ring>, RingFault>
    ensures made { IfOk result (λ plan. plan ≡ planned (with_hops (ring_draft (record {}) nodes tokens.now) hops.now)) }
    ensures fits { IfOk result (λ plan. Fits IsRing AnyPayload plan) }
    ensures known { IfOk result (λ _. (length tokens.now ≤ MostWrites) × AreKnown nodes tokens.now hops.now) }
    ensures cause { IfErr result (λ fault. IsCause nodes tokens.now hops.now fault) }
{
    if tokens.len() > MOST_TOKENS {
        return Err(RingFault::TooManyTokens);
    }
    if !are_tokens(tokens, nodes) || !are_hops(hops, nodes) {
        return Err(RingFault::UnknownNode);
    }
    match known_ring_plan(alloc, nodes, tokens, hops) {
        Ok(plan) => Ok(plan),
        Err(fault) => Err(RingFault::Refused(fault)),
    }
}

/// The plan of a ring whose tokens and hops name its nodes.
fn known_ring_plan(
    alloc: Global,
    nodes: u32,
    tokens: &[u32],
    hops: &[Hop],
) -> Result<Plan<Ring>, BuildFault>
    requires tokens { All (λ t. t < nodes) tokens.now }
    requires hops { All (λ h. (h.from < nodes) × (h.to < nodes)) hops.now }
    requires few { length tokens.now ≤ MostWrites }
    ensures made { IfOk result (λ plan. plan ≡ planned (with_hops (ring_draft (record {}) nodes tokens.now) hops.now)) }
    ensures fits { IfOk result (λ plan. Fits IsRing AnyPayload plan) }
    ensures cause { IfErr result (λ fault. (fault ≡ BuildFault.Memory) ⊎ (ring_refusal (record {}) nodes tokens.now hops.now ≡ Some fault)) }
{
    let builder = ring_builder(alloc, nodes, tokens, hops)?;
    let plan = builder.finish()?;
    Ok(plan)
}

/// Whether all these tokens name nodes.
fn are_tokens(tokens: &[u32], nodes: u32) -> bool
    ensures { IsTrue result ↔ All (λ t. t < nodes) tokens.now }
{
    for token in tokens {
        if *token >= nodes {
            return false;
        }
    }
    true
}

/// Whether all these hops lead from nodes to nodes.
fn are_hops(hops: &[Hop], nodes: u32) -> bool
    ensures { IsTrue result ↔ All (λ h. (h.from < nodes) × (h.to < nodes)) hops.now }
{
    for hop in hops {
        if hop.from >= nodes || hop.to >= nodes {
            return false;
        }
    }
    true
}
