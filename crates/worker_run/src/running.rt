//! A run by workers: a plan is aligned and shared out, and workers in threads carry its timelines on.

ghost use Rattle.std.specs.Prelude.{◌≡◌, ◌+◌, ◌<◌, ◌≤◌, ◌⊎◌, ℕ, List, [], length, min, IfOk, OnOk, OnErr, Err};
ghost use Rattle.sim_base.specs.Outside.{Rose, Appends, AppendsPrefix};
ghost use Rattle.ssf_model.specs.Reaction.{LatestTime};
ghost use Rattle.ssf_model.specs.Run.{Fits};
ghost use Rattle.ssf_model.specs.Truth.{AreFew};
ghost use Rattle.run_health.specs.Healthy.{MostEvents};
ghost use Rattle.alignment.specs.declared.labels.Mode.{Mode as ModeValue};
ghost use Rattle.alignment.specs.Alignment.{IsAlignment, timeline_count};
ghost use Rattle.alignment.specs.Classes.{classified};
ghost use Rattle.trace_writer.specs.Trace.{entries_text};
ghost use Rattle.trace_writer.specs.Merging.{CanMerge, HasRoom, merged};
ghost use Rattle.core_traces.specs.Kept.{histories_of};
ghost use Rattle.core_traces.specs.Ends.{AreWindows, IsInBudget, EndsBudget};
ghost use Rattle.step_run.specs.Telling.{MostCounted, IsTallied};
ghost use Rattle.step_run.specs.Endings.{IfFinished, IfOverBudget, IfMemoryBelow, IfTooMany, IfWrite, IfNotBegun, IsTraced, IsWrittenBelow, IsPartWritten, OnTimelines, HasStoppedAt};
ghost use Rattle.step_run.specs.Going.{Task, IsGiven, Output};
ghost use Rattle.worker_pool.specs.Lanes.{HasStopped, HaveNotFallen, HaveStood};
ghost use Rattle.worker_run.specs.Working.{IfEnded, IfStopped, IfUnstopped, IfBegun, IsSafeBound};
ghost use Rattle.worker_run.specs.Going.{IsUnderWay, GoesOn, HasWorked, IsWorkTold, HasAdvanced, IfFurther, IfOver, IfOn, IsCaused, has_finished, piece_bound, piece_left, outcome};

use alignment::{AlignFault, Mode};
use sim_base::{Gate, Memory, Sink};
use ssf_model::{Behaviour, Names, Plan};
use std::alloc::Global;
use std::sync::Wait;
use std::thread::Threads;
use step_run::{Prepared, Records, StepEnd, StepOrder, prepare, write_end};
use sync_core::Core;
use trace_writer::{MergeFault, Tally};
use worker_pool::{Lane, Pool, PoolEnd, run_workers};

/// After so many crossings of the barrier a piece of the trace is written.
const CROSSINGS: u64 = 1024;

/// How a run by workers ended.
#[derive(Clone, Copy, Debug, PartialEq, Eq)]
pub enum WorkEnd {
    /// It ended as runs by steps do.
    Ended(StepEnd),
    /// The gate of this worker stopped it. Exactly the records below this time, in ticks, were written.
    Stopped { worker: u32, below: u64 },
}

/// How a plan is run: up to the time `until`, in ticks, at most `budget` events of each timeline, and the mode and the
/// threshold of its alignment.
#[derive(Clone, Copy)]
pub struct WorkOrder {
    pub until: u64,
    pub budget: u64,
    pub mode: Mode,
    pub threshold: u64,
}

/// What became of a run in one turn.
#[derive(Clone, Copy, Debug, PartialEq, Eq)]
enum Advanced {
    /// It goes on.
    Further,
    /// All was executed, and its records were written.
    Whole,
    /// It ended otherwise.
    Over(WorkEnd),
}

/// The parts of a run after one turn, and what became of it.
#[derive(Drop)]
struct Piece<B: Behaviour> {
    core: Core<B>,
    advanced: Advanced,
}

/// Runs a plan by workers in threads, one for each lane (1 to 64), and writes its trace while it goes on: the records of
/// the events with times up to `until`, in ticks, and the line that ends it. Each timeline executes at most `budget`
/// events, at most 10^12. `nets` has the innermost Net of each entity, and `names` its name. The tally gets all events that
/// are written. This call may wait.
///
/// What is written when it finishes is the same for any number of lanes, whatever the threads do, and for every mode and
/// threshold. The room for writing is taken before the run, but for a table of the histories at each piece.
///
/// The run is stopped only by a gate whose `stops` rose in this call, and `Stopped` names the first such worker. Where it
/// finishes, where a budget ends, and where nothing was begun, no gate's `stops` rose. Of `Write` and `MemoryBelow` this is
/// not said: what was executed is written also after a stop, and where that fails, this is answered in place of the stop.
pub fn run_by_workers<R: Threads + Wait + Sync, B: Behaviour + Sync, K: Sink, G: Gate + Send>(
    rt: &R,
    alloc: Global,
    plan: Plan<B>,
    names: &Names,
    nets: &[u32],
    order: &WorkOrder,
    lanes: &mut [Lane<G>],
    tally: &mut Tally,
    out: &mut K,
) -> WorkEnd
    requires plan { Fits (B.valid plan.behaviour) (B.carried plan.behaviour) plan }
    requires named { length names.now.names ≡ length plan.entities }
    requires nets { length nets.now ≡ length plan.entities }
    requires until { order.now.until ≤ LatestTime }
    requires budget { order.now.budget ≤ MostEvents }
    requires some { 1 ≤ length lanes.old }
    requires lanes { length lanes.old ≤ 64 }
    ensures trace { IfEnded result (λ end. IfFinished end (λ crossed last. IsTraced (B.reaction plan.behaviour) plan names.now order.now.until order.now.budget (K.held out.old) (K.held out.new) tally.old tally.new)) }
    ensures few { IfEnded result (λ end. IfFinished end (λ crossed last. OnTimelines (B.reaction plan.behaviour) plan nets.now order.now.mode order.now.threshold order.now.until order.now.budget (λ s. AreFew s order.now.budget))) }
    ensures windows { IfEnded result (λ end. IfFinished end (λ crossed last. OnTimelines (B.reaction plan.behaviour) plan nets.now order.now.mode order.now.threshold order.now.until order.now.budget (λ s. AreWindows s crossed last))) }
    ensures over { IfEnded result (λ end. IfOverBudget end (λ timeline below. IsWrittenBelow (B.reaction plan.behaviour) plan names.now order.now.until order.now.budget below (K.held out.old) (K.held out.new))) }
    ensures budget_ends { IfEnded result (λ end. IfOverBudget end (λ timeline below. OnTimelines (B.reaction plan.behaviour) plan nets.now order.now.mode order.now.threshold order.now.until order.now.budget (λ s. EndsBudget s order.now.budget timeline below))) }
    ensures first_over { IfEnded result (λ end. IfOverBudget end (λ timeline below. HasStoppedAt (B.reaction plan.behaviour) plan nets.now order.now.mode order.now.threshold order.now.until order.now.budget timeline)) }
    ensures inside { IfEnded result (λ end. IfMemoryBelow end (λ below. below ≤ order.now.until + 1)) }
    ensures memory_below { IfEnded result (λ end. IfMemoryBelow end (λ below. IsWrittenBelow (B.reaction plan.behaviour) plan names.now order.now.until order.now.budget below (K.held out.old) (K.held out.new))) }
    ensures in_budget { IfEnded result (λ end. IfMemoryBelow end (λ below. OnTimelines (B.reaction plan.behaviour) plan nets.now order.now.mode order.now.threshold order.now.until order.now.budget (λ s. IsInBudget s order.now.budget below))) }
    ensures nothing { IfEnded result (λ end. IfNotBegun end (Appends [] (K.held out.old) (K.held out.new))) }
    ensures too_many { IfEnded result (λ end. IfTooMany end (λ count. (lines : List ℕ) × IsAlignment plan nets.now order.now.mode lines × (4096 < timeline_count lines) × (count ≡ timeline_count lines))) }
    ensures begun { IfBegun result ((lines : List ℕ) × IsAlignment plan nets.now order.now.mode lines × (timeline_count lines ≤ 4096)) }
    ensures part { IfEnded result (λ end. IfWrite end (IsPartWritten (B.reaction plan.behaviour) plan names.now nets.now order.now.mode order.now.threshold order.now.until order.now.budget (K.held out.old) (K.held out.new))) }
    ensures cause { IfEnded result (λ end. IfWrite end (Rose (K.faults out.old) (K.faults out.new))) }
    ensures never_falls { K.faults out.old ≤ K.faults out.new }
    ensures stopped { IfStopped result (λ worker below. IsWrittenBelow (B.reaction plan.behaviour) plan names.now order.now.until order.now.budget below (K.held out.old) (K.held out.new)) }
    ensures stopped_inside { IfStopped result (λ worker below. below ≤ order.now.until + 1) }
    ensures stopped_in_budget { IfStopped result (λ worker below. OnTimelines (B.reaction plan.behaviour) plan nets.now order.now.mode order.now.threshold order.now.until order.now.budget (λ s. IsInBudget s order.now.budget below)) }
    ensures stopped_safe { IfStopped result (λ worker below. IsSafeBound (B.reaction plan.behaviour) plan nets.now order.now.mode order.now.threshold order.now.until order.now.budget below) }
    ensures stopped_by { IfStopped result (λ worker below. HasStopped G.stops worker lanes.old lanes.new) }
    ensures stopped_first { IfStopped result (λ worker below. HaveStood G.stops worker lanes.old lanes.new) }
    ensures unstopped { IfUnstopped result (HaveStood G.stops (length lanes.old) lanes.old lanes.new) }
    ensures gates { HaveNotFallen G.stops lanes.old lanes.new }
    ensures lanes { length lanes.new ≡ length lanes.old }
{
    let steps = StepOrder {
        until: order.until,
        budget: order.budget,
        mode: order.mode,
        threshold: order.threshold,
        schedule: &[],
    };
    match prepare(alloc, &plan, names, nets, &steps) {
        Ok(mut prepared) => run_prepared(
            rt,
            alloc,
            plan,
            names,
            &mut prepared,
            order,
            lanes,
            tally,
            out,
        ),
        Err(AlignFault::TooManyTimelines(count)) => {
            WorkEnd::Ended(StepEnd::TooManyTimelines(count))
        }
        Err(AlignFault::Memory) => WorkEnd::Ended(StepEnd::Memory),
    }
}

/// Shares the plan out by its alignment, and runs it to the end.
#[tactic(none)]
fn run_prepared<R: Threads + Wait + Sync, B: Behaviour + Sync, K: Sink, G: Gate + Send>(
    rt: &R,
    alloc: Global,
    plan: Plan<B>,
    names: &Names,
    prepared: &mut Prepared,
    order: &WorkOrder,
    lanes: &mut [Lane<G>],
    tally: &mut Tally,
    out: &mut K,
) -> WorkEnd
    requires plan { Fits (B.valid plan.behaviour) (B.carried plan.behaviour) plan }
    requires named { length names.now.names ≡ length plan.entities }
    requires until { order.now.until ≤ LatestTime }
    requires budget { order.now.budget ≤ MostEvents }
    requires aligned { (nets : List ℕ) × (mode : ModeValue) × IsAlignment plan nets mode prepared.old.alignment }
    requires most { timeline_count prepared.old.alignment ≤ 4096 }
    requires classes { prepared.old.classes ≡ classified prepared.old.alignment order.now.threshold plan.mappings }
    requires room { HasRoom names.now (timeline_count prepared.old.alignment) prepared.old.records.room }
    requires none { (prepared.old.records.count ≡ 0) × (prepared.old.records.below ≡ 0) }
    requires some { 1 ≤ length lanes.old }
    requires lanes { length lanes.old ≤ 64 }
    ensures told { (nets : List ℕ) (mode : ModeValue) → IsAlignment plan nets mode prepared.old.alignment
        → IsWorkTold (B.reaction plan.behaviour) names.now order.now.until (record { plan = plan; nets = nets; mode = mode; lines = prepared.old.alignment; threshold = order.now.threshold; budget = order.now.budget })
        (record { held = K.held out.old; tally = tally.old }) (record { held = K.held out.new; tally = tally.new }) result }
    ensures cause { IsCaused (K.faults out.old) (K.faults out.new) result }
    ensures never_falls { K.faults out.old ≤ K.faults out.new }
    ensures stopped_by { IfStopped result (λ worker below. HasStopped G.stops worker lanes.old lanes.new) }
    ensures stopped_first { IfStopped result (λ worker below. HaveStood G.stops worker lanes.old lanes.new) }
    ensures unstopped { IfUnstopped result (HaveStood G.stops (length lanes.old) lanes.old lanes.new) }
    ensures gates { HaveNotFallen G.stops lanes.old lanes.new }
    ensures lanes { length lanes.new ≡ length lanes.old }
{
    let before = plan.before;
    let Prepared {
        alignment,
        classes,
        records,
    } = prepared;
    match Core::new(alloc, plan, alignment, classes, order.until, order.budget) {
        Ok(core) => go_on(
            rt,
            alloc,
            core,
            records,
            names,
            order.until,
            before,
            lanes,
            tally,
            out,
        ),
        Err(Memory) => WorkEnd::Ended(StepEnd::Memory),
    }
}

/// Goes on to the end. `before` is how many events went before.
#[tactic(none)]
fn go_on<R: Threads + Wait + Sync, B: Behaviour + Sync, K: Sink, G: Gate + Send>(
    rt: &R,
    alloc: Global,
    core: Core<B>,
    records: &mut Records,
    names: &Names,
    until: u64,
    before: u64,
    lanes: &mut [Lane<G>],
    tally: &mut Tally,
    out: &mut K,
) -> WorkEnd
    requires goes_on { GoesOn B.valid B.carried B.reaction names.now until core }
    requires room { HasRoom names.now (length core.timelines) records.old.room }
    requires some { 1 ≤ length lanes.old }
    requires lanes { length lanes.old ≤ 64 }
    ensures ended { (task : Task B B.State B.Payload) → IsGiven (B.valid task.plan.behaviour) (B.carried task.plan.behaviour) names.now until task → task.plan.before ≡ before
        → IsUnderWay (B.reaction task.plan.behaviour) names.now until task core records.old (record { held = K.held out.old; tally = tally.old }) (record { held = K.held out.old; tally = tally.old })
        → HasWorked (B.reaction task.plan.behaviour) names.now until task (record { held = K.held out.old; tally = tally.old }) (record { held = K.held out.new; tally = tally.new }) result }
    ensures cause { IsCaused (K.faults out.old) (K.faults out.new) result }
    ensures never_falls { K.faults out.old ≤ K.faults out.new }
    ensures stopped_by { IfStopped result (λ worker below. HasStopped G.stops worker lanes.old lanes.new) }
    ensures stopped_first { IfStopped result (λ worker below. HaveStood G.stops worker lanes.old lanes.new) }
    ensures unstopped { IfUnstopped result (HaveStood G.stops (length lanes.old) lanes.old lanes.new) }
    ensures gates { HaveNotFallen G.stops lanes.old lanes.new }
    ensures lanes { length lanes.new ≡ length lanes.old }
{
    let mut core = core;
    loop {
        let Piece {
            core: next,
            advanced,
        } = advance(rt, alloc, core, records, names, until, lanes, tally, out);
        match advanced {
            Advanced::Further => core = next,
            Advanced::Whole => {
                return WorkEnd::Ended(write_end(&next, records, until, before, out));
            }
            Advanced::Over(end) => return end,
        }
    }
}

/// Lets workers carry the run on until the barrier was crossed some times or it ends, and writes the next piece of the
/// trace.
#[tactic(none)]
fn advance<R: Threads + Wait + Sync, B: Behaviour + Sync, K: Sink, G: Gate + Send>(
    rt: &R,
    alloc: Global,
    core: Core<B>,
    records: &mut Records,
    names: &Names,
    until: u64,
    lanes: &mut [Lane<G>],
    tally: &mut Tally,
    out: &mut K,
) -> Piece<B>
    requires goes_on { GoesOn B.valid B.carried B.reaction names.now until core }
    requires room { HasRoom names.now (length core.timelines) records.old.room }
    requires some { 1 ≤ length lanes.old }
    requires lanes { length lanes.old ≤ 64 }
    ensures advanced { (task : Task B B.State B.Payload) (first : Output) → IsGiven (B.valid task.plan.behaviour) (B.carried task.plan.behaviour) names.now until task
        → IsUnderWay (B.reaction task.plan.behaviour) names.now until task core records.old first (record { held = K.held out.old; tally = tally.old })
        → HasAdvanced (B.reaction task.plan.behaviour) names.now until task result.core records.new first (record { held = K.held out.new; tally = tally.new }) result.advanced }
    ensures goes_on { IfFurther result.advanced (GoesOn B.valid B.carried B.reaction names.now until result.core) }
    ensures room { IfFurther result.advanced (HasRoom names.now (length result.core.timelines) records.new.room) }
    ensures risen { IfFurther result.advanced (core.barrier.round + CROSSINGS ≤ result.core.barrier.round) }
    ensures cause { IfOver result.advanced (λ end. IsCaused (K.faults out.old) (K.faults out.new) end) }
    ensures never_falls { K.faults out.old ≤ K.faults out.new }
    ensures stopped_by { IfOver result.advanced (λ end. IfStopped end (λ worker below. HasStopped G.stops worker lanes.old lanes.new)) }
    ensures stopped_first { IfOver result.advanced (λ end. IfStopped end (λ worker below. HaveStood G.stops worker lanes.old lanes.new)) }
    ensures unstopped { IfOn result.advanced (HaveStood G.stops (length lanes.old) lanes.old lanes.new) }
    ensures gates { HaveNotFallen G.stops lanes.old lanes.new }
    ensures lanes { length lanes.new ≡ length lanes.old }
{
    let Pool { mut core, end } = run_workers(rt, alloc, core, lanes, CROSSINGS);
    let written = write_next(
        alloc,
        &mut core,
        is_last(end),
        records,
        names,
        until,
        tally,
        out,
    );
    match written {
        Ok(()) => {
            let advanced = outcome_of(end, records.below());
            Piece { core, advanced }
        }
        Err(MergeFault::WriteFault) => {
            let advanced = Advanced::Over(WorkEnd::Ended(StepEnd::Write));
            Piece { core, advanced }
        }
        Err(MergeFault::Memory) => {
            let end = StepEnd::MemoryBelow(records.below());
            let advanced = Advanced::Over(WorkEnd::Ended(end));
            Piece { core, advanced }
        }
    }
}

/// Writes the next piece of the trace: up to the safe bound, or up to the end, where it is the last one.
fn write_next<B: Behaviour, K: Sink>(
    alloc: Global,
    core: &mut Core<B>,
    last: bool,
    records: &mut Records,
    names: &Names,
    until: u64,
    tally: &mut Tally,
    out: &mut K,
) -> Result<(), MergeFault>
    requires until { until ≤ LatestTime }
    requires room { HasRoom names.now (length core.old.timelines) records.old.room }
    requires histories { CanMerge names.now (histories_of core.old) }
    ensures bound { OnOk result (records.new.below ≡ piece_bound last until core.old) }
    ensures text { OnOk result (Appends (entries_text names.now (merged (histories_of core.old) (piece_bound last until core.old))) (K.held out.old) (K.held out.new)) }
    ensures part { result ≡ Err MergeFault.WriteFault → AppendsPrefix (entries_text names.now (merged (histories_of core.old) (piece_bound last until core.old))) (K.held out.old) (K.held out.new) }
    ensures cause { result ≡ Err MergeFault.WriteFault → Rose (K.faults out.old) (K.faults out.new) }
    ensures never_falls { K.faults out.old ≤ K.faults out.new }
    ensures count { OnOk result (records.new.count ≡ min (records.old.count + length (merged (histories_of core.old) (piece_bound last until core.old))) MostCounted) }
    ensures tally { OnOk result (IsTallied tally.old tally.new (merged (histories_of core.old) (piece_bound last until core.old))) }
    ensures left { OnOk result (core.new ≡ piece_left last core.old) }
    ensures room { (records.old.room.line ≤ records.new.room.line) × (records.old.room.places ≤ records.new.room.places) }
    ensures nothing { result ≡ Err MergeFault.Memory → Appends [] (K.held out.old) (K.held out.new) }
    ensures kept { result ≡ Err MergeFault.Memory → records.new ≡ records.old }
{
    if last {
        records.write_below(alloc, names, core, until + 1, tally, out)
    } else {
        records.write_piece(alloc, names, core, tally, out)
    }
}

/// Whether workers have left a barrier that has ended, so that the next piece is the last one.
fn is_last(end: PoolEnd) -> bool
    ensures { result ≡ has_finished end }
{
    match end {
        PoolEnd::Finished => true,
        PoolEnd::Stopped(_) | PoolEnd::OverBudget(_) | PoolEnd::Memory | PoolEnd::Crossed => false,
    }
}

/// What became of a run that workers have left so, and whose records below this time were written.
fn outcome_of(end: PoolEnd, below: u64) -> Advanced
    ensures { result ≡ outcome end below }
{
    match end {
        PoolEnd::Finished => Advanced::Whole,
        PoolEnd::Stopped(worker) => Advanced::Over(WorkEnd::Stopped { worker, below }),
        PoolEnd::OverBudget(timeline) => {
            Advanced::Over(WorkEnd::Ended(StepEnd::OverBudget { timeline, below }))
        }
        PoolEnd::Memory => Advanced::Over(WorkEnd::Ended(StepEnd::MemoryBelow(below))),
        PoolEnd::Crossed => Advanced::Further,
    }
}
