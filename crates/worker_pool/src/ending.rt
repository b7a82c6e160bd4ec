//! How workers have ended.

ghost use Rattle.std.specs.Prelude.{◌≡◌, ◌≤◌, ◌<◌, ◌+◌, ◌^◌, ◌⊎◌, ℕ, true, false, IfSome, IfNone, length};
ghost use Rattle.core_rules.specs.Cores.{IsCoreOfRun};
ghost use Rattle.sync_core.specs.Driving.{EndsFirstAt};
ghost use Rattle.timeline.specs.Holding.{low_in, is_over};
ghost use Rattle.worker_pool.specs.Carried.{AreCarriedOn};
ghost use Rattle.worker_pool.specs.Lanes.{WasStopped};
ghost use Rattle.worker_pool.specs.Ends.{WasStoppedIn, IsFirstStopped, AreNotStopped, IsStopFirst, IsInBudget, IsOverAt, IsTrueEnd};

use crate::lane::Lane;
use crate::pool::PoolEnd;
use sim_base::{Gate, Memory};
use ssf_model::Behaviour;
use sync_core::{Core, CoreEnd};
use timeline::Timeline;
use worker_turns::Turned;

/// How workers have ended, where the barrier, which was in the round `first`, is to be crossed so often; what they left is
/// done where nothing else is due. A stop goes before all else.
pub(crate) fn end_of<B: Behaviour, G: Gate>(
    core: &mut Core<B>,
    lanes: &[Lane<G>],
    ended: bool,
    refused: bool,
    first: u64,
    crossings: u64,
) -> PoolEnd
    requires run { IsCoreOfRun (B.valid core.old.behaviour) (B.carried core.old.behaviour) (B.reaction core.old.behaviour) core.old }
    requires ended { ended ≡ core.old.barrier.ended }
    requires lanes { length lanes.now < 2 ^ 32 }
    requires few { length core.old.timelines < 2 ^ 32 }
    requires crossings { 1 ≤ crossings }
    ensures on { AreCarriedOn (B.valid core.old.behaviour) (B.carried core.old.behaviour) (B.reaction core.old.behaviour) core.old core.new }
    ensures end { IsTrueEnd (WasStoppedIn G.stops lanes.now) (first + crossings) core.new result }
    ensures first { IsStopFirst (WasStoppedIn G.stops lanes.now) result }
{
    if let Some(worker) = stopped_in(lanes) {
        return PoolEnd::Stopped(worker);
    }
    if refused || refused_in(lanes) {
        return budget_or(core, PoolEnd::Memory);
    }
    if !has_crossed(core, first, crossings) {
        return drive_on(core);
    }
    if ended {
        return PoolEnd::Finished;
    }
    budget_or(core, PoolEnd::Crossed)
}

/// Whether the barrier was crossed so often since the round `first`.
fn has_crossed<B: Behaviour>(core: &Core<B>, first: u64, crossings: u64) -> bool
    requires crossings { 1 ≤ crossings }
    ensures { result ≡ true → first + crossings ≤ core.now.barrier.round }
{
    core.windows().0.saturating_sub(first) >= crossings
}

/// Goes on to the end.
fn drive_on<B: Behaviour>(core: &mut Core<B>) -> PoolEnd
    requires run { IsCoreOfRun (B.valid core.old.behaviour) (B.carried core.old.behaviour) (B.reaction core.old.behaviour) core.old }
    requires few { length core.old.timelines < 2 ^ 32 }
    ensures on { AreCarriedOn (B.valid core.old.behaviour) (B.carried core.old.behaviour) (B.reaction core.old.behaviour) core.old core.new }
    ensures end { (last : ℕ) → IsTrueEnd (λ w. ⊥) last core.new result }
{
    match core.drive(&[]) {
        Ok(CoreEnd::Finished) => PoolEnd::Finished,
        Ok(CoreEnd::OverBudget(timeline)) => PoolEnd::OverBudget(timeline),
        Err(Memory) => budget_or(core, PoolEnd::Memory),
    }
}

/// The first lane whose worker was stopped.
fn stopped_in<G: Gate>(lanes: &[Lane<G>]) -> Option<u32>
    requires { length lanes.now < 2 ^ 32 }
    ensures some { IfSome result (λ w. IsFirstStopped (WasStoppedIn G.stops lanes.now) w) }
    ensures none { IfNone result (AreNotStopped (WasStoppedIn G.stops lanes.now)) }
{
    for place in 0..lanes.len() {
        if was_stopped(&lanes[place]) {
            return Some(place as u32);
        }
    }
    None
}

/// Whether the worker of a lane was stopped by its gate.
fn was_stopped<G: Gate>(lane: &Lane<G>) -> bool
    ensures yes { result ≡ true → WasStopped G.stops lane.now }
    ensures no { result ≡ false → WasStopped G.stops lane.now → ⊥ }
{
    match lane.last {
        Turned::Stopped => true,
        Turned::Worked | Turned::Nothing | Turned::Over | Turned::Memory => {
            lane.stops_before < lane.gate.stops()
        }
    }
}

/// Whether the worker of a lane found no memory.
fn refused_in<G>(lanes: &[Lane<G>]) -> bool {
    for lane in lanes {
        if lane.last == Turned::Memory {
            return true;
        }
    }
    false
}

/// The end of the budget, where it ends at some timeline, and else this end.
fn budget_or<B: Behaviour>(core: &Core<B>, end: PoolEnd) -> PoolEnd
    requires run { IsCoreOfRun (B.valid core.now.behaviour) (B.carried core.now.behaviour) (B.reaction core.now.behaviour) core.now }
    requires few { length core.now.timelines < 2 ^ 32 }
    ensures { ((i : ℕ) × (result ≡ PoolEnd.OverBudget i) × IsOverAt core.now i) ⊎ ((result ≡ end) × IsInBudget core.now) }
{
    match budget_end(core) {
        Some(timeline) => PoolEnd::OverBudget(timeline),
        None => end,
    }
}

/// The first timeline at which the budget ends.
fn budget_end<B: Behaviour>(core: &Core<B>) -> Option<u32>
    requires few { length core.now.timelines < 2 ^ 32 }
    ensures some { IfSome result (λ i. EndsFirstAt core.now i) }
    ensures none { IfNone result (IsInBudget core.now) }
{
    let timelines = core.histories();
    let bound = core.safe_bound();
    for number in 0..timelines.len() {
        if is_over_at(&timelines[number], bound) {
            return Some(number as u32);
        }
    }
    None
}

/// Whether the timeline's budget is spent, with its lower bound at this time, in ticks.
fn is_over_at<B: Behaviour>(timeline: &Timeline<B>, bound: u64) -> bool
    ensures yes { result ≡ true → (is_over timeline.now ≡ true) × (low_in timeline.now ≡ bound) }
    ensures no { result ≡ false → is_over timeline.now ≡ true → low_in timeline.now ≡ bound → ⊥ }
{
    timeline.over() && timeline.lower_bound() == bound
}
