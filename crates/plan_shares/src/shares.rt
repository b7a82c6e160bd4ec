//! How a plan is shared out.

ghost use Rattle.std.specs.Prelude.{◌≡◌, ℕ, length, IfOk};
ghost use Rattle.ssf_model.specs.Run.{Fits};
ghost use Rattle.alignment.specs.Classes.{classified};
ghost use Rattle.plan_shares.specs.Shares.{shares_of};

use crate::CrossEnd;
use crate::drafts::Drafts;
use crate::entities::put_entities;
use alignment::{Alignment, Classes};
use sim_base::{ListOf, Memory};
use ssf_model::{Behaviour, Plan};
use std::alloc::Global;
use timeline_parts::Part;

/// A plan that is shared out to timelines.
#[derive(Drop)]
pub struct Shares<B: Behaviour> {
    /// The plan's behaviour.
    pub behaviour: B,
    /// The share of each timeline, by the timeline's number.
    pub parts: ListOf<Part<B>>,
    /// The ends of the mappings between two timelines, in the rising order of their channels.
    pub ends: ListOf<CrossEnd>,
    /// How many writes each start channel counts, which are the channels with the entities' numbers.
    pub starts: ListOf<u64>,
    /// How many events went before.
    pub before: u64,
}

/// Shares a plan out to the timelines of an alignment of it, with the classes of its mappings by this
/// alignment and a threshold. The entities are moved, so without memory the plan is lost.
pub fn share_out<B: Behaviour>(
    alloc: Global,
    plan: Plan<B>,
    alignment: &Alignment,
    classes: &Classes,
) -> Result<Shares<B>, Memory>
    requires fits { Fits (B.valid plan.behaviour) (B.carried plan.behaviour) plan }
    requires aligned { length alignment.now ≡ length plan.entities }
    requires classes { (threshold : ℕ) × (classes.now ≡ classified alignment.now threshold plan.mappings) }
    ensures { IfOk result (λ shares. (threshold : ℕ) → classes.now ≡ classified alignment.now threshold plan.mappings → shares ≡ shares_of plan alignment.now threshold) }
{
    let mut drafts = Drafts::new(alloc);
    drafts.fill(alloc, &plan, alignment, classes)?;
    let Plan {
        behaviour,
        entities,
        before,
        ..
    } = plan;
    put_entities(&mut drafts.entities, entities, alignment)?;
    drafts.join(alloc, alignment.count());
    let Drafts {
        ends,
        starts,
        parts,
        ..
    } = drafts;
    Ok(Shares {
        behaviour,
        parts: ListOf::from_vec(parts),
        ends: ListOf::from_vec(ends),
        starts: ListOf::from_vec(starts),
        before,
    })
}
