//! The command `step`: the run of a plan on timelines, on one thread, and its trace.
ghost use Rattle.std.specs.Prelude.{◌≡◌, ◌≤◌, ◌+◌, ◌⊎◌, [], true, length, vec_len, IfErr, OnOk};
ghost use Rattle.std.specs.Vec.{vec_capacity};
ghost use Rattle.ssf_model.specs.Run.{Fits};
ghost use Rattle.command_words.specs.Table.{LatestUntil, LargestBudget};
ghost use Rattle.sim_base.specs.Outside.{Rose, Appends};
ghost use Rattle.step_run.specs.Endings.{IfFinished};
ghost use Rattle.ssfnet_top.specs.Refusals.{status_of};
ghost use Rattle.ssfnet_top.specs.Outcome.{IsDueOn, IsMidwayOn};
ghost use Rattle.ssfnet_top.specs.Answering.{Answers, AnswersMidway, IsUntold, answer_of, told_text, told_with, IsOfSteps};
ghost use Rattle.ssfnet_top.specs.Ending.{IsLongReport};

use crate::Refusal;
use crate::reporting::{self, REPORT_ROOM};
use crate::running::Told;
use net_build::Built;
use net_graph::ShapeFault;
use sim_base::{Memory, Sink};
use ssf_model::Behaviour;
use std::alloc::Global;
use step_run::{StepEnd, StepOrder, run_steps};
use trace_writer::Tally;

/// Runs a plan on timelines, and writes the trace while it goes on. Where a report is wanted, tells it and the windows; the room for
/// it is taken before the run.
///
/// # Errors
/// `Shape` for more than 4096 timelines, `TimelineBudget` where a timeline has more events, `Write` only where the
/// sink's `faults` rose, `Memory` with nothing written, and else `MemoryBelow`.
pub fn run_on_timelines<B: Behaviour, K: Sink>(
    alloc: Global,
    built: Built<B>,
    order: &StepOrder,
    report: bool,
    out: &mut K,
    told: &mut Told,
) -> Result<(), Refusal>
    requires plan { Fits (B.valid built.plan.behaviour) (B.carried built.plan.behaviour) built.plan }
    requires named { length built.names.names ≡ length built.plan.entities }
    requires nets { length built.nets ≡ length built.plan.entities }
    requires until { order.now.until ≤ LatestUntil }
    requires budget { order.now.budget ≤ LargestBudget }
    requires untold { IsUntold told.old }
    ensures due { Answers (IsDueOn (B.reaction built.plan.behaviour) built.plan built.names built.nets order.now.mode order.now.threshold order.now.until order.now.budget report) (told_text told.new) result (K.faults out.old) (K.faults out.new) (K.held out.old) (K.held out.new)
        ⊎ AnswersMidway (IsMidwayOn (B.reaction built.plan.behaviour) built.plan built.names built.nets order.now.mode order.now.threshold order.now.until order.now.budget) result (K.faults out.old) (K.faults out.new) (K.held out.old) (K.held out.new) }
    ensures cause { IfErr result (λ r. IsOfSteps order.now.budget r) }
    ensures write { IfErr result (λ r. r ≡ Refusal.Write → Rose (K.faults out.old) (K.faults out.new)) }
    ensures told { OnOk result (IsLongReport report (told_text told.new)) }
    ensures nothing { IfErr result (λ r. status_of r ≡ 6 → Appends [] (K.held out.old) (K.held out.new)) }
    ensures unbegun { IfErr result (λ r. r ≡ Refusal.Memory → Appends [] (K.held out.old) (K.held out.new)) }
{
    let Built { plan, names, nets } = built;
    if let Err(Memory) = make_room(report, told) {
        return Err(Refusal::Memory);
    }
    let mut tally = Tally::new();
    let end = run_steps(alloc, plan, &names, nets.as_slice(), order, &mut tally, out);
    answer_end(end, order.budget, report, &tally, told)
}

/// What a command answers whose run on timelines ended so. Where the run finished and a report is wanted, tells it and the windows.
pub fn answer_end(
    end: StepEnd,
    budget: u64,
    report: bool,
    tally: &Tally,
    told: &mut Told,
) -> Result<(), Refusal>
    requires untold { IsUntold told.old }
    requires room { report ≡ true → vec_len told.old.report + REPORT_ROOM ≤ vec_capacity told.old.report }
    ensures answer { result ≡ answer_of budget end }
    ensures told { IfFinished end (λ crossed last. told_text told.new ≡ told_with report tally.now crossed last) }
{
    match end {
        StepEnd::Finished { crossed, last } => {
            tell_run(report, tally, crossed, last, told);
            Ok(())
        }
        StepEnd::OverBudget { timeline, below } => Err(Refusal::TimelineBudget {
            timeline,
            budget,
            below,
        }),
        StepEnd::MemoryBelow(below) => Err(Refusal::MemoryBelow(below)),
        StepEnd::Memory => Err(Refusal::Memory),
        StepEnd::TooManyTimelines(count) => {
            Err(Refusal::Shape(ShapeFault::TooManyTimelines(count)))
        }
        StepEnd::Write => Err(Refusal::Write),
    }
}

/// Takes the room for a report where one is wanted.
pub fn make_room(report: bool, told: &mut Told) -> Result<(), Memory>
    requires { IsUntold told.old }
    ensures untold { IsUntold told.new }
    ensures room { OnOk result (report ≡ true → vec_len told.new.report + REPORT_ROOM ≤ vec_capacity told.new.report) }
{
    reporting::make_room(report, &mut told.report)
}

/// Tells the report of a run and its windows, where one is wanted.
fn tell_run(report: bool, tally: &Tally, crossed: u64, last: u64, told: &mut Told)
    requires untold { IsUntold told.old }
    requires room { report ≡ true → vec_len told.old.report + REPORT_ROOM ≤ vec_capacity told.old.report }
    ensures { told_text told.new ≡ told_with report tally.now crossed last }
{
    if !report {
        return;
    }
    match tally.text(&mut told.report) {
        Ok(()) => told.windows = Some((crossed, last)),
        Err(Memory) => unreachable!(),
    }
}
