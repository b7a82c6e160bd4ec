//! A run by steps: a plan is aligned and shared out, and its timelines take turns on one thread.

ghost use Rattle.std.specs.Prelude.{◌≡◌, ◌+◌, ◌<◌, ◌≤◌, ◌⊎◌, ℕ, List, [], length, IfOk, IfErr};
ghost use Rattle.sim_base.specs.Outside.{Rose, Appends};
ghost use Rattle.ssf_model.specs.Reaction.{LatestTime};
ghost use Rattle.ssf_model.specs.Run.{Fits, IsWired};
ghost use Rattle.ssf_model.specs.Truth.{AreFew};
ghost use Rattle.run_health.specs.Healthy.{MostEvents};
ghost use Rattle.alignment.specs.declared.labels.Mode.{Mode as ModeValue};
ghost use Rattle.alignment.specs.Alignment.{IsAlignment, timeline_count};
ghost use Rattle.alignment.specs.Classes.{classified};
ghost use Rattle.trace_writer.specs.Merging.{HasRoom};
ghost use Rattle.core_rules.specs.Reading.{safe_bound_in};
ghost use Rattle.core_traces.specs.Ends.{AreWindows, IsInBudget, EndsBudget};
ghost use Rattle.step_run.specs.Endings.{IfFinished, IfOverBudget, IfMemoryBelow, IfTooMany, IfWrite, IfNotBegun, IfBegun, IsTraced, IsWrittenBelow, IsPartWritten, OnTimelines, HasStoppedAt};
ghost use Rattle.step_run.specs.Going.{Task, IsGiven, Output, IsUnderWay, GoesOn, IsWhole, HasEnded, IsTold, HasAdvanced, HasCause, IfFurther, IsCaused, IsDrivenOn, outcome};
ghost use Rattle.ssf_model.specs.declared.event.Names.{Names as NamesValue};
ghost use Rattle.trace_writer.specs.Report.{Totals};

use crate::records::Records;
use alignment::{AlignFault, Alignment, Classes, Mode, align, classify};
use sim_base::{Memory, Sink};
use ssf_model::{Behaviour, Names, Plan};
use std::alloc::Global;
use sync_core::{Core, DriveEnd, Driven, Step};
use trace_writer::{MergeFault, Tally};

/// After so many crossings of the barrier a piece of the trace is written.
const CROSSINGS: u64 = 1024;

/// How a run by steps ended.
#[derive(Clone, Copy, Debug, PartialEq, Eq)]
pub enum StepEnd {
    /// The whole trace was written. So many windows were crossed, without the first one, and the last of
    /// them, in ticks; (0, 0) where none was.
    Finished { crossed: u64, last: u64 },
    /// A timeline has more events than the budget: the first one at which the budget ends where the run stopped. Exactly
    /// the records below this time, in ticks, were written.
    OverBudget { timeline: u32, below: u64 },
    /// There was no memory to go on. Exactly the records below this time, in ticks, were written; it is at most a tick after the end.
    MemoryBelow(u64),
    /// There was no memory to begin. Nothing was written.
    Memory,
    /// There are so many timelines, which is more than `MOST_TIMELINES`. Nothing was written.
    TooManyTimelines(u32),
    /// The sink failed.
    Write,
}

/// How a plan is run: up to the time `until`, in ticks, at most `budget` events of each timeline, the mode and the
/// threshold of its alignment, and the steps that are tried first.
#[derive(Clone, Copy)]
pub struct StepOrder<'a> {
    pub until: u64,
    pub budget: u64,
    pub mode: Mode,
    pub threshold: u64,
    pub schedule: &'a [Step],
}

/// What became of a run in one turn.
#[derive(Clone, Copy, Debug, PartialEq, Eq)]
enum Advanced {
    /// So many scheduled steps were tried, and it goes on.
    Further(usize),
    /// All was executed, and its records were written.
    Whole,
    /// It ended otherwise.
    Ended(StepEnd),
}

/// Runs a plan by steps of its timelines, and writes its trace while it goes on: the records of the events with times up to
/// `until`, in ticks, and the line that ends it. Each timeline executes at most `budget` events, at most 10^12. `nets`
/// has the innermost Net of each entity, and `names` its name. The tally gets all events that are written.
///
/// What is written when it finishes is the same for every schedule, mode and threshold. The room for writing is taken before the
/// first step, but for a table of the histories, one place a timeline, which is made for each piece of the trace.
#[tactic(none)]
pub fn run_steps<B: Behaviour, K: Sink>(
    alloc: Global,
    plan: Plan<B>,
    names: &Names,
    nets: &[u32],
    order: &StepOrder,
    tally: &mut Tally,
    out: &mut K,
) -> StepEnd
    requires plan { Fits (B.valid plan.behaviour) (B.carried plan.behaviour) plan }
    requires named { length names.now.names ≡ length plan.entities }
    requires nets { length nets.now ≡ length plan.entities }
    requires until { order.now.until ≤ LatestTime }
    requires budget { order.now.budget ≤ MostEvents }
    ensures trace { IfFinished result (λ crossed last. IsTraced (B.reaction plan.behaviour) plan names.now order.now.until order.now.budget (K.held out.old) (K.held out.new) tally.old tally.new) }
    ensures few { IfFinished result (λ crossed last. OnTimelines (B.reaction plan.behaviour) plan nets.now order.now.mode order.now.threshold order.now.until order.now.budget (λ s. AreFew s order.now.budget)) }
    ensures windows { IfFinished result (λ crossed last. OnTimelines (B.reaction plan.behaviour) plan nets.now order.now.mode order.now.threshold order.now.until order.now.budget (λ s. AreWindows s crossed last)) }
    ensures over { IfOverBudget result (λ timeline below. IsWrittenBelow (B.reaction plan.behaviour) plan names.now order.now.until order.now.budget below (K.held out.old) (K.held out.new)) }
    ensures budget_ends { IfOverBudget result (λ timeline below. OnTimelines (B.reaction plan.behaviour) plan nets.now order.now.mode order.now.threshold order.now.until order.now.budget (λ s. EndsBudget s order.now.budget timeline below)) }
    ensures stopped { IfOverBudget result (λ timeline below. HasStoppedAt (B.reaction plan.behaviour) plan nets.now order.now.mode order.now.threshold order.now.until order.now.budget timeline) }
    ensures inside { IfMemoryBelow result (λ below. below ≤ order.now.until + 1) }
    ensures memory_below { IfMemoryBelow result (λ below. IsWrittenBelow (B.reaction plan.behaviour) plan names.now order.now.until order.now.budget below (K.held out.old) (K.held out.new)) }
    ensures in_budget { IfMemoryBelow result (λ below. OnTimelines (B.reaction plan.behaviour) plan nets.now order.now.mode order.now.threshold order.now.until order.now.budget (λ s. IsInBudget s order.now.budget below)) }
    ensures nothing { IfNotBegun result (Appends [] (K.held out.old) (K.held out.new)) }
    ensures too_many { IfTooMany result (λ count. (lines : List ℕ) × IsAlignment plan nets.now order.now.mode lines × (4096 < timeline_count lines) × (count ≡ timeline_count lines)) }
    ensures begun { IfBegun result ((lines : List ℕ) × IsAlignment plan nets.now order.now.mode lines × (timeline_count lines ≤ 4096)) }
    ensures part { IfWrite result (IsPartWritten (B.reaction plan.behaviour) plan names.now nets.now order.now.mode order.now.threshold order.now.until order.now.budget (K.held out.old) (K.held out.new)) }
    ensures cause { IfWrite result (Rose (K.faults out.old) (K.faults out.new)) }
    ensures never_falls { K.faults out.old ≤ K.faults out.new }
{
    match prepare(alloc, &plan, names, nets, order) {
        Ok(mut prepared) => run_prepared(alloc, plan, names, &mut prepared, order, tally, out),
        Err(AlignFault::TooManyTimelines(count)) => StepEnd::TooManyTimelines(count),
        Err(AlignFault::Memory) => StepEnd::Memory,
    }
}

/// An alignment of a plan with the classes of its mappings, and the room for writing.
#[derive(Drop)]
pub struct Prepared {
    pub alignment: Alignment,
    pub classes: Classes,
    pub records: Records,
}

/// Aligns a plan, and takes the room for writing.
///
/// # Errors
/// `AlignFault`, with `Memory` too where there is no room for writing.
pub fn prepare<B: Behaviour>(
    alloc: Global,
    plan: &Plan<B>,
    names: &Names,
    nets: &[u32],
    order: &StepOrder,
) -> Result<Prepared, AlignFault>
    requires wired { IsWired plan.now }
    requires nets { length nets.now ≡ length plan.now.entities }
    ensures aligned { IfOk result (λ p. IsAlignment plan.now nets.now order.now.mode p.alignment) }
    ensures most { IfOk result (λ p. timeline_count p.alignment ≤ 4096) }
    ensures classes { IfOk result (λ p. p.classes ≡ classified p.alignment order.now.threshold plan.now.mappings) }
    ensures room { IfOk result (λ p. HasRoom names.now (timeline_count p.alignment) p.records.room) }
    ensures none { IfOk result (λ p. (p.records.count ≡ 0) × (p.records.below ≡ 0)) }
    ensures cause { IfErr result (λ fault. (fault ≡ AlignFault.Memory) ⊎ ((lines : List ℕ) × IsAlignment plan.now nets.now order.now.mode lines × (4096 < timeline_count lines) × (fault ≡ AlignFault.TooManyTimelines (timeline_count lines)))) }
{
    let alignment = align(alloc, plan, nets, order.mode)?;
    let classes = classify(alloc, plan, &alignment, order.threshold)?;
    let records = Records::new(alloc, names, alignment.count())?;
    Ok(Prepared {
        alignment,
        classes,
        records,
    })
}

/// Shares the plan out by its alignment, and runs it to the end.
#[tactic(none)]
fn run_prepared<B: Behaviour, K: Sink>(
    alloc: Global,
    plan: Plan<B>,
    names: &Names,
    prepared: &mut Prepared,
    order: &StepOrder,
    tally: &mut Tally,
    out: &mut K,
) -> StepEnd
    requires plan { Fits (B.valid plan.behaviour) (B.carried plan.behaviour) plan }
    requires named { length names.now.names ≡ length plan.entities }
    requires until { order.now.until ≤ LatestTime }
    requires budget { order.now.budget ≤ MostEvents }
    requires aligned { (nets : List ℕ) × (mode : ModeValue) × IsAlignment plan nets mode prepared.old.alignment }
    requires most { timeline_count prepared.old.alignment ≤ 4096 }
    requires classes { prepared.old.classes ≡ classified prepared.old.alignment order.now.threshold plan.mappings }
    requires room { HasRoom names.now (timeline_count prepared.old.alignment) prepared.old.records.room }
    requires none { (prepared.old.records.count ≡ 0) × (prepared.old.records.below ≡ 0) }
    ensures told { (nets : List ℕ) (mode : ModeValue) → IsAlignment plan nets mode prepared.old.alignment
        → IsTold (B.reaction plan.behaviour) names.now order.now.until (record { plan = plan; nets = nets; mode = mode; lines = prepared.old.alignment; threshold = order.now.threshold; budget = order.now.budget })
        (record { held = K.held out.old; tally = tally.old }) (record { held = K.held out.new; tally = tally.new }) result }
    ensures cause { IsCaused (K.faults out.old) (K.faults out.new) result }
    ensures never_falls { K.faults out.old ≤ K.faults out.new }
{
    let before = plan.before;
    let Prepared {
        alignment,
        classes,
        records,
    } = prepared;
    match Core::new(alloc, plan, alignment, classes, order.until, order.budget) {
        Ok(mut core) => { go_on(alloc, &mut core, records, names, order, before, tally, out) }
        Err(Memory) => StepEnd::Memory,
    }
}

/// Goes on to the end. `before` is how many events went before.
fn go_on<B: Behaviour, K: Sink>(
    alloc: Global,
    core: &mut Core<B>,
    records: &mut Records,
    names: &Names,
    order: &StepOrder,
    before: u64,
    tally: &mut Tally,
    out: &mut K,
) -> StepEnd
    requires goes_on { GoesOn B.valid B.carried B.reaction names.now order.now.until core.old }
    requires room { HasRoom names.now (length core.old.timelines) records.old.room }
    ensures ended { (task : Task B B.State B.Payload) → IsGiven (B.valid task.plan.behaviour) (B.carried task.plan.behaviour) names.now order.now.until task → task.plan.before ≡ before
        → IsUnderWay (B.reaction task.plan.behaviour) names.now order.now.until task core.old records.old (record { held = K.held out.old; tally = tally.old }) (record { held = K.held out.old; tally = tally.old })
        → HasEnded (B.reaction task.plan.behaviour) names.now order.now.until task (record { held = K.held out.old; tally = tally.old }) (record { held = K.held out.new; tally = tally.new }) result }
    ensures cause { IsCaused (K.faults out.old) (K.faults out.new) result }
    ensures never_falls { K.faults out.old ≤ K.faults out.new }
{
    let mut used = 0;
    loop {
        match advance(
            alloc,
            core,
            records,
            names,
            &order.schedule[used..],
            order.until,
            tally,
            out,
        ) {
            Advanced::Further(tried) => used += tried,
            Advanced::Whole => return write_end(core, records, order.until, before, out),
            Advanced::Ended(end) => return end,
        }
    }
}

/// Makes steps until the barrier was crossed some times or the run ends, and writes the next piece of the trace.
#[tactic(none)]
fn advance<B: Behaviour, K: Sink>(
    alloc: Global,
    core: &mut Core<B>,
    records: &mut Records,
    names: &Names,
    schedule: &[Step],
    until: u64,
    tally: &mut Tally,
    out: &mut K,
) -> Advanced
    requires goes_on { GoesOn B.valid B.carried B.reaction names.now until core.old }
    requires room { HasRoom names.now (length core.old.timelines) records.old.room }
    ensures advanced { (task : Task B B.State B.Payload) (first : Output) → IsGiven (B.valid task.plan.behaviour) (B.carried task.plan.behaviour) names.now until task
        → IsUnderWay (B.reaction task.plan.behaviour) names.now until task core.old records.old first (record { held = K.held out.old; tally = tally.old })
        → HasAdvanced (B.reaction task.plan.behaviour) names.now until task core.new records.new first (record { held = K.held out.new; tally = tally.new }) result }
    ensures goes_on { IfFurther result (λ used. GoesOn B.valid B.carried B.reaction names.now until core.new) }
    ensures room { IfFurther result (λ used. HasRoom names.now (length core.new.timelines) records.new.room) }
    ensures streamed { IfFurther result (λ used. records.new.below ≡ safe_bound_in core.new) }
    ensures risen { IfFurther result (λ used. core.new.barrier.round ≡ core.old.barrier.round + 1024) }
    ensures used { IfFurther result (λ used. used ≤ length schedule.now) }
    ensures driven { IfFurther result (λ used. IsDrivenOn (B.reaction core.old.behaviour) (core.old.barrier.round + 1024) schedule.now used core.old core.new records.new.below) }
    ensures cause { HasCause (K.faults out.old) (K.faults out.new) result }
    ensures never_falls { K.faults out.old ≤ K.faults out.new }
{
    let driven = core.drive_some(schedule, CROSSINGS);
    match records.write_piece(alloc, names, core, tally, out) {
        Ok(()) => outcome_of(driven, records.below()),
        Err(MergeFault::WriteFault) => Advanced::Ended(StepEnd::Write),
        Err(MergeFault::Memory) => Advanced::Ended(StepEnd::MemoryBelow(records.below())),
    }
}

/// What became of a run whose records below this time were written.
fn outcome_of(driven: Result<Driven, Memory>, below: u64) -> Advanced
    ensures { result ≡ outcome driven below }
{
    match driven {
        Err(Memory) => Advanced::Ended(StepEnd::MemoryBelow(below)),
        Ok(driven) => match driven.end {
            DriveEnd::Crossed => Advanced::Further(driven.used),
            DriveEnd::Finished => Advanced::Whole,
            DriveEnd::OverBudget(timeline) => {
                Advanced::Ended(StepEnd::OverBudget { timeline, below })
            }
        },
    }
}

/// Writes the line that ends the trace of a run whose records were all written. `before` is how many events
/// went before. It answers `Finished`, or why this line was not written.
#[tactic(none)]
pub fn write_end<B: Behaviour, K: Sink>(
    core: &Core<B>,
    records: &mut Records,
    until: u64,
    before: u64,
    out: &mut K,
) -> StepEnd
    ensures ended { (task : Task B B.State B.Payload) (names : NamesValue) (first : Output) (tally : Totals) → IsGiven (B.valid task.plan.behaviour) (B.carried task.plan.behaviour) names until task → task.plan.before ≡ before
        → IsWhole (B.reaction task.plan.behaviour) names until task records.old core.now.barrier.round core.now.barrier.window first (record { held = K.held out.old; tally = tally })
        → HasEnded (B.reaction task.plan.behaviour) names until task first (record { held = K.held out.new; tally = tally }) result }
    ensures cause { IsCaused (K.faults out.old) (K.faults out.new) result }
    ensures never_falls { K.faults out.old ≤ K.faults out.new }
{
    match records.write_end(until, before, out) {
        Ok(()) => {
            let (crossed, last) = core.windows();
            StepEnd::Finished { crossed, last }
        }
        Err(MergeFault::WriteFault) => StepEnd::Write,
        Err(MergeFault::Memory) => StepEnd::MemoryBelow(records.below()),
    }
}
