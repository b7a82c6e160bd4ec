//! Workers in threads.

ghost use Rattle.std.specs.Prelude.{◌≡◌, ◌<◌, ◌≤◌, ◌+◌, ◌^◌, ℕ, true, false, length, vec_len, slice_index};
ghost use Rattle.core_rules.specs.Cores.{IsCoreOfRun, IsSoundFor};
ghost use Rattle.core_rules.specs.Reading.{safe_bound_in, BudgetEndsIn};
ghost use Rattle.sync_core.specs.Cores.{core_of, IsOrdered};
ghost use Rattle.sync_core.specs.Driving.{EndsFirstAt};
ghost use Rattle.share_rules.specs.Gathered.{IsOfSame};
ghost use Rattle.share_rules.specs.Runs.{OfItsRuns};
ghost use Rattle.share_rules.specs.Places.{shape_of};
ghost use Rattle.turn_table.specs.Shapes.{words_in};
ghost use Rattle.turn_table.specs.Rule.{AreHome};
ghost use Rattle.worker_pool.specs.Lanes.{HasStopped, HaveNotFallen, HaveStood, EachIs, EachBecame, IsIdle, IsCarried};
ghost use Rattle.worker_pool.specs.Carried.{AreSince, AreGathered, AreCarriedOn, CanWork};

use crate::carrying::{MOST_WORKERS, Work, carry_turns};
use crate::ending::end_of;
use crate::lane::{Lane, clear_all};
use crate::laying::{Tables, gather_into, lay_out, tables_in};
use share_turns::Share;
use sim_base::{Gate, Memory};
use ssf_model::Behaviour;
use std::alloc::Global;
use std::snapshot::Snapshot;
use std::sync::Wait;
use std::thread::Threads;
use sync_core::{Core, Parts};
use turn_table::{Tenant, Turns};

/// How workers ended.
#[derive(Clone, Copy, Debug, PartialEq, Eq)]
pub enum PoolEnd {
    /// The barrier has ended.
    Finished,
    /// The gate of this worker is closed, the first such one.
    Stopped(u32),
    /// The budget ends at this timeline, the first such one.
    OverBudget(u32),
    /// There was no memory.
    Memory,
    /// The barrier was crossed as often as was asked for.
    Crossed,
}

/// All parts after workers have carried them on, and how they ended.
#[derive(Drop)]
pub struct Pool<B: Behaviour> {
    pub core: Core<B>,
    pub end: PoolEnd,
}

/// Lets a worker for each lane carry a run on, in a thread of its own, until the barrier has ended, the budget ends, a gate is
/// closed, there is no memory, or the barrier was crossed so often. What workers leave is then done on this thread, unless
/// a gate was closed, there was no memory, or the barrier was crossed so often.
///
/// `Stopped` goes before all other answers: it names the first worker whose gate's count of stops rose, and where it does not
/// come no gate's count did.
///
/// `Memory` also comes where there are more than 10^9 timelines, or channels between them.
pub fn run_workers<R: Threads + Wait + Sync, B: Behaviour + Sync, G: Gate + Send>(
    rt: &R,
    alloc: Global,
    core: Core<B>,
    lanes: &mut [Lane<G>],
    crossings: u64,
) -> Pool<B>
    requires run { IsCoreOfRun (B.valid core.behaviour) (B.carried core.behaviour) (B.reaction core.behaviour) core }
    requires some { 1 ≤ length lanes.old }
    requires few { length lanes.old ≤ MOST_WORKERS }
    requires crossings { 1 ≤ crossings }
    ensures run { IsCoreOfRun (B.valid result.core.behaviour) (B.carried result.core.behaviour) (B.reaction result.core.behaviour) result.core }
    ensures sound { OfItsRuns (B.valid core.behaviour) (B.carried core.behaviour) (B.reaction core.behaviour) core (λ plan line s. (at : ℕ → ℕ) × (v : ℕ) × IsSoundFor plan line s result.core at v) }
    ensures same { IsOfSame core result.core }
    ensures since { AreSince core result.core }
    ensures safe { safe_bound_in core ≤ safe_bound_in result.core }
    ensures finished { result.end ≡ PoolEnd.Finished → result.core.barrier.ended ≡ true }
    ensures stopped { (w : ℕ) → result.end ≡ PoolEnd.Stopped w → HasStopped G.stops w lanes.old lanes.new }
    ensures first { (w : ℕ) → result.end ≡ PoolEnd.Stopped w → HaveStood G.stops w lanes.old lanes.new }
    ensures unstopped { ((w : ℕ) → result.end ≡ PoolEnd.Stopped w → ⊥) → HaveStood G.stops (length lanes.old) lanes.old lanes.new }
    ensures over { (i : ℕ) → result.end ≡ PoolEnd.OverBudget i → (result.core.barrier.ended ≡ false) × EndsFirstAt result.core i }
    ensures memory { result.end ≡ PoolEnd.Memory → (i : ℕ) → BudgetEndsIn result.core i → ⊥ }
    ensures crossed { result.end ≡ PoolEnd.Crossed → core.barrier.round + crossings ≤ result.core.barrier.round }
    ensures on { result.end ≡ PoolEnd.Crossed → (result.core.barrier.ended ≡ false) × ((i : ℕ) → BudgetEndsIn result.core i → ⊥) }
    ensures lanes { length lanes.new ≡ length lanes.old }
    ensures gates { HaveNotFallen G.stops lanes.old lanes.new }
{
    let first = core.windows().0;
    let last = first.saturating_add(crossings);
    let Carried {
        mut core,
        ended,
        refused,
    } = carry_core(rt, alloc, core, lanes, last);
    let end = end_of(&mut core, lanes, ended, refused, first, crossings);
    Pool { core, end }
}

/// All parts after workers have carried them on, whether the barrier has ended, and whether there was no memory.
#[derive(Drop)]
struct Carried<B: Behaviour> {
    core: Core<B>,
    ended: bool,
    refused: bool,
}

/// Lets workers carry all parts on, until one of them stops all.
fn carry_core<R: Threads + Wait + Sync, B: Behaviour + Sync, G: Gate + Send>(
    rt: &R,
    alloc: Global,
    core: Core<B>,
    lanes: &mut [Lane<G>],
    last: u64,
) -> Carried<B>
    requires run { IsCoreOfRun (B.valid core.behaviour) (B.carried core.behaviour) (B.reaction core.behaviour) core }
    requires some { 1 ≤ length lanes.old }
    requires few { length lanes.old ≤ MOST_WORKERS }
    ensures on { AreCarriedOn (B.valid core.behaviour) (B.carried core.behaviour) (B.reaction core.behaviour) core result.core }
    ensures ended { result.ended ≡ result.core.barrier.ended }
    ensures few { length result.core.timelines < 2 ^ 32 }
    ensures lanes { EachBecame (IsCarried G.stops) lanes.old lanes.new }
{
    clear_all(lanes);
    let about = Snapshot::of(&core);
    let parts = core.take_apart();
    let (parts, refused) = carry_parts(rt, alloc, &about, parts, lanes, last);
    parts.barrier.known();
    let ended = parts.barrier.ended();
    Carried {
        core: Core::put_together(alloc, parts),
        ended,
        refused,
    }
}

/// Lets workers carry these parts on. Tells whether there was no memory.
fn carry_parts<R: Threads + Wait + Sync, B: Behaviour + Sync, G: Gate + Send>(
    rt: &R,
    alloc: Global,
    about: &Snapshot<Core<B>>,
    parts: Parts<B>,
    lanes: &mut [Lane<G>],
    last: u64,
) -> (Parts<B>, bool)
    requires own { core_of parts ≡ about.now.value }
    requires run { IsCoreOfRun (B.valid parts.behaviour) (B.carried parts.behaviour) (B.reaction parts.behaviour) (core_of parts) }
    requires ordered { IsOrdered (core_of parts) }
    requires some { 1 ≤ length lanes.old }
    requires few { length lanes.old ≤ MOST_WORKERS }
    requires idle { EachIs (IsIdle G.stops) lanes.old }
    ensures gathered { AreGathered (B.valid parts.behaviour) (B.carried parts.behaviour) (B.reaction parts.behaviour) (core_of parts) (core_of result.0) }
    ensures lanes { EachBecame (IsCarried G.stops) lanes.old lanes.new }
{
    if parts.timelines.is_empty() {
        return (parts, false);
    }
    let Ok(tables) = tables_in(alloc, &parts) else {
        return (parts, true);
    };
    let count = parts.timelines.len();
    let Ok(mut values) = Vec::with_capacity(alloc, 2 * count + 1) else {
        return (parts, true);
    };
    let Parts {
        behaviour,
        mut timelines,
        mut mails,
        barrier,
        ends,
        until,
        budget,
        before,
        starts,
    } = parts;
    let Tables { counts, near } = tables;
    lay_out(&mut timelines, &mut mails, barrier, &mut values);
    let work = Work {
        alloc,
        behaviour: &behaviour,
        ends: ends.as_slice(),
        near: &near,
        workers: lanes.len() as u32,
        last,
    };
    let (gathered, refused) = carry_values(rt, &work, about, values, counts, lanes);
    let barrier = gather_into(count, gathered, &mut timelines, &mut mails);
    let parts = Parts {
        behaviour,
        timelines,
        mails,
        barrier,
        ends,
        until,
        budget,
        before,
        starts,
    };
    (parts, refused)
}

/// Lets workers carry these values on, which have these numbers. Tells whether there was no memory.
fn carry_values<R: Threads + Wait + Sync, B: Behaviour + Sync, G: Gate + Send>(
    rt: &R,
    work: &Work<B>,
    about: &Snapshot<Core<B>>,
    values: Vec<Share<B>>,
    counts: Vec<u64>,
    lanes: &mut [Lane<G>],
) -> (Vec<Share<B>>, bool)
    requires work { CanWork B.valid B.carried B.reaction about.now.value work.now.behaviour.now work.now.ends.now work.now.near.now.rows.items }
    requires workers { work.now.workers ≡ length lanes.old }
    requires few { work.now.workers < 2 ^ 32 }
    requires some { 1 ≤ length lanes.old }
    requires idle { EachIs (IsIdle G.stops) lanes.old }
    requires counts { vec_len counts ≡ words_in (shape_of about.now.value) }
    requires values { AreHome ⟦<Share<B> as Tenant>⟧ about.now (λ c. slice_index counts.items c) values.items }
    ensures values { (counts : ℕ → ℕ) × AreHome ⟦<Share<B> as Tenant>⟧ about.now counts result.0.items }
    ensures lanes { EachBecame (IsCarried G.stops) lanes.old lanes.new }
{
    match Turns::new(work.alloc, values, counts, work.workers, about) {
        Ok((turns, passes)) => (carry_turns(rt, work, turns, passes, lanes), false),
        Err((values, Memory)) => (values, true),
    }
}
