//! Nodes that pass tokens on, and rings of them.

ghost use Rattle.std.specs.Prelude.{◌≡◌, ◌<◌, ◌≤◌, ◌^◌, ◌⊎◌, ◌++◌, ◌↔◌, ◌∷◌, [], false, ℕ, length, nat_eq, map, replicate, slice_index, IsTrue, OnOk, IfOk, IfErr, None, Some};
ghost use Rattle.std.specs.List.{All, count_by};
ghost use Rattle.ssf_model.specs.Reaction.{is_timed, Each};
ghost use Rattle.ssf_model.specs.Deliver.{MostWrites};
ghost use Rattle.ssf_model.specs.Drafts.{entity_refusal, IsValidDraft, MostChannels};
ghost use Rattle.ring_model.specs.Reacting.{AreOnePatient, IsRing, token};
ghost use Rattle.ring_model.specs.Rings.{ring_draft, with_hops, hops_refusal, ring_refusal, tokens_of, node_of, with_node};

use sim_base::Memory;
use ssf_model::{Behaviour, BuildFault, ChannelList, Out, PlanBuilder, Process, Wait, Wake};
use std::alloc::Global;

/// The most tokens of one node: as many as one event may write on one out-channel.
pub const MOST_WRITES: u32 = 4_194_304;

/// The behaviour of the nodes of a ring.
#[derive(Clone, Copy, Debug)]
pub struct Ring {}

/// A token, which carries nothing.
#[derive(Clone, Copy, Debug)]
pub struct RingPayload {}

/// A node: its number, which is also that of its in-channel and of its out-channel, and how many
/// tokens it has at the start. Neither ever changes.
#[derive(Clone, Copy, Debug)]
pub struct RingState {
    pub node: u32,
    pub tokens: u32,
}

/// A hop from one node to another or the same: its delay in ticks and its priority.
#[derive(Clone, Copy, Debug, PartialEq, Eq)]
pub struct Hop {
    pub from: u32,
    pub to: u32,
    pub delay: u64,
    pub priority: u8,
}

/// Writes a token `count` times on an out-channel.
#[tactic(auto, using(std::proofs::lemmas::List::replicate_more, std::proofs::Common::append_assoc))]
fn write_tokens(out: &mut Out<RingPayload>, node: u32, count: u32) -> Result<(), Memory>
    ensures writes { OnOk result (out.new.writes ≡ out.old.writes ++ replicate count (token node)) }
    ensures lines { OnOk result (out.new.lines ≡ out.old.lines) }
{
    for _ in 0..count {
        out.write(node, 0, RingPayload {})?;
    }
    Ok(())
}

/// Whether these are one channel with this number.
fn is_only(channels: &[u32], number: u32) -> bool
    ensures { IsTrue result ↔ (channels.now ≡ number ∷ []) }
{
    match channels {
        [channel] => *channel == number,
        _ => false,
    }
}

/// Whether these are one process that is not timed.
fn is_one_untimed(processes: &[Process]) -> bool
    ensures { IsTrue result ↔ (map is_timed processes.now ≡ false ∷ []) }
{
    match processes {
        [process] => process.timer.is_none(),
        _ => false,
    }
}

/// Whether these are the waits of one process that is not timed.
fn is_one_patient(waits: &[Wait]) -> bool
    ensures { IsTrue result ↔ AreOnePatient waits.now }
{
    match waits {
        [wait] => wait.delay().is_none(),
        _ => false,
    }
}

impl Behaviour for Ring {
    ghost use Rattle.std.specs.Prelude.{◌≡◌, ◌++◌};
    ghost use Rattle.ring_model.specs.Reacting.{ring_reaction, IsRing, AnyPayload};
    ghost use Rattle.ring_model.specs.RingLaws.{ring_sound, ring_modest};

    type State = RingState;

    type Payload = RingPayload;

    ghost reaction = { λ _. ring_reaction };

    ghost valid = { λ _. IsRing };

    ghost carried = { λ _. AnyPayload };

    ghost sound = { λ _. ring_sound };

    ghost modest = { λ _. ring_modest };

    fn action(
        &self,
        alloc: Global,
        state: &mut RingState,
        _process: u32,
        _now: u64,
        wake: &Wake<RingPayload>,
        out: &mut Out<RingPayload>,
    ) -> Result<Wait, Memory> {
        let wait = Wait::On(ChannelList::of(alloc, &[state.node])?);
        match wake {
            Wake::Begin => write_tokens(out, state.node, state.tokens)?,
            Wake::Timer => {}
            Wake::Message { .. } => write_tokens(out, state.node, 1)?,
        }
        Ok(wait)
    }

    fn known(&self, _payload: &RingPayload) {}

    fn is_valid(
        &self,
        state: &RingState,
        ins: &[u32],
        outs: &[u32],
        processes: &[Process],
        waits: &[Wait],
    ) -> bool {
        is_one_untimed(processes)
            && is_one_patient(waits)
            && is_only(ins, state.node)
            && is_only(outs, state.node)
            && state.tokens <= MOST_WRITES
    }
}

/// For each of `nodes` nodes, how many of the tokens name it.
fn count_tokens(alloc: Global, nodes: u32, tokens: &[u32]) -> Result<Vec<u32>, Memory>
    requires named { All (λ t. t < nodes) tokens.now }
    requires few { length tokens.now < 2 ^ 32 }
    ensures size { IfOk result (λ counts. length counts.items ≡ nodes) }
    ensures counts { IfOk result (λ counts. (n : ℕ) → n < nodes → slice_index counts.items n ≡ tokens_of tokens.now n) }
{
    let mut counts = Vec::new(alloc);
    for _ in 0..nodes {
        counts.push(0u32)?;
    }
    for token in tokens {
        counts[*token as usize] += 1;
    }
    Ok(counts)
}

/// Makes the next node with this many tokens.
fn add_node(builder: &mut PlanBuilder<Ring>, node: u32, tokens: u32) -> Result<(), BuildFault>
    requires entities { length builder.old.entities ≡ node }
    requires ins { length builder.old.in_owners ≡ node }
    requires outs { length builder.old.outs ≡ node }
    requires mappings { builder.old.mappings ≡ [] }
    requires few { node ≤ MostChannels }
    ensures made { OnOk result (builder.new ≡ with_node builder.old (node_of node tokens)) }
    ensures room { OnOk result (entity_refusal builder.old (false ∷ []) ≡ None) }
    ensures cause { IfErr result (λ fault. (fault ≡ BuildFault.Memory) ⊎ (entity_refusal builder.old (false ∷ []) ≡ Some fault)) }
{
    if let Err((_, fault)) = builder.entity(RingState { node, tokens }, &[false]) {
        return Err(fault);
    }
    builder.in_channel(node)?;
    builder.out_channel(node, 0)?;
    Ok(())
}

/// A builder with the nodes of a ring and no hops yet.
fn add_nodes(alloc: Global, nodes: u32, tokens: &[u32]) -> Result<PlanBuilder<Ring>, BuildFault>
    requires named { All (λ t. t < nodes) tokens.now }
    requires few { length tokens.now < 2 ^ 32 }
    ensures made { IfOk result (λ builder. builder ≡ ring_draft (record {}) nodes tokens.now) }
    ensures room { IfOk result (λ _. nodes ≤ MostChannels) }
    ensures cause { IfErr result (λ fault. (fault ≡ BuildFault.Memory) ⊎ ((fault ≡ BuildFault.TooManyChannels) × (MostChannels < nodes))) }
{
    let mut builder = PlanBuilder::new(alloc, Ring {})?;
    let counts = count_tokens(alloc, nodes, tokens)?;
    for node in 0..nodes {
        match add_node(&mut builder, node, counts[node as usize]) {
            Ok(()) => {}
            Err(fault) => return Err(fault),
        }
    }
    Ok(builder)
}

/// Adds the hops one after another.
fn add_hops(builder: &mut PlanBuilder<Ring>, hops: &[Hop]) -> Result<(), BuildFault>
    ensures made { OnOk result ((hops_refusal builder.old hops.now ≡ None) × (builder.new ≡ with_hops builder.old hops.now)) }
    ensures cause { IfErr result (λ fault. (fault ≡ BuildFault.Memory) ⊎ (hops_refusal builder.old hops.now ≡ Some fault)) }
{
    for hop in hops {
        builder.mapto_at(hop.from, hop.to, hop.delay, hop.priority)?;
    }
    Ok(())
}

/// A builder with the nodes and hops of a ring: nodes 0 up to `nodes`, of which each has as many
/// tokens as name it, and the hops in their order. Refusals: `TooManyChannels` where the nodes are
/// too many, then the first refusal of a hop, `DelayTooLong` or `TooManyChannels`; `Memory`.
pub fn ring_builder(
    alloc: Global,
    nodes: u32,
    tokens: &[u32],
    hops: &[Hop],
) -> Result<PlanBuilder<Ring>, BuildFault>
    requires tokens { All (λ t. t < nodes) tokens.now }
    requires hops { All (λ h. (h.from < nodes) × (h.to < nodes)) hops.now }
    requires few { length tokens.now ≤ MostWrites }
    ensures made { IfOk result (λ builder. (ring_refusal (record {}) nodes tokens.now hops.now ≡ None) × (builder ≡ with_hops (ring_draft (record {}) nodes tokens.now) hops.now)) }
    ensures valid { IfOk result (λ builder. Each (IsValidDraft IsRing) builder.entities) }
    ensures cause { IfErr result (λ fault. (fault ≡ BuildFault.Memory) ⊎ (ring_refusal (record {}) nodes tokens.now hops.now ≡ Some fault)) }
{
    let mut builder = add_nodes(alloc, nodes, tokens)?;
    add_hops(&mut builder, hops)?;
    Ok(builder)
}
