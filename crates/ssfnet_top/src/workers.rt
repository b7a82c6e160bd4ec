//! The command `run`: the run of a model on timelines by workers in threads, and its trace.
ghost use Rattle.std.specs.Prelude.{◌≡◌, ◌≤◌, ◌⊎◌, ℕ, [], length, map, string_bytes, IfErr, OnOk};
ghost use Rattle.ssf_model.specs.Run.{Fits};
ghost use Rattle.command_words.specs.Table.{LatestUntil, LargestBudget, MostWorkers};
ghost use Rattle.sim_base.specs.Outside.{Rose, Appends};
ghost use Rattle.worker_pool.specs.Lanes.{HasStopped, HaveNotFallen};
ghost use Rattle.ssfnet_top.specs.Refusals.{status_of};
ghost use Rattle.ssfnet_top.specs.Outcome.{Course, resolved_of, IsDueOn, IsMidwayOn, IsModelRun};
ghost use Rattle.ssfnet_top.specs.Outcome.Course.{Ended, Midway};
ghost use Rattle.ssfnet_top.specs.FilePlaces.{ArePlaced};
ghost use Rattle.ssfnet_top.specs.Answering.{Answers, AnswersMidway, IsOfModel, IsOfSteps, IsStop, IsUntold, by_workers, told_text};
ghost use Rattle.ssfnet_top.specs.Ending.{IsLongReport};

use crate::Refusal;
use crate::model::{Planned, plan_model};
use crate::running::Told;
use crate::step::{answer_end, make_room};
use dml_tree::Tree;
use net_build::Built;
use sim_base::{Gate, Memory, Sink};
use ssf_model::Behaviour;
use std::alloc::Global;
use std::sync::Wait;
use std::thread::Threads;
use trace_writer::Tally;
use worker_pool::Lane;
use worker_run::{WorkEnd, WorkOrder, run_by_workers};

/// Runs the model of the joined tree of files with these names by workers in threads, one for each lane, and writes the trace. Where a
/// report is wanted, tells it and the windows. This call may wait.
///
/// # Errors
/// `Path` and `Shape` for a tree that has no plan, and for more than 4096 timelines; `TimelineBudget` where a timeline has more
/// events; `Stopped` only where the worker's gate was found closed; `Write` only where the sink's `faults` rose; `Memory`, and
/// `MemoryBelow` in the middle of the run.
pub fn run_model_by_workers<R: Threads + Wait + Sync, K: Sink, G: Gate + Send>(
    rt: &R,
    alloc: Global,
    order: &WorkOrder,
    report: bool,
    names: &[String],
    tree: &Tree,
    out: &mut K,
    told: &mut Told,
    lanes: &mut [Lane<G>],
) -> Result<(), Refusal>
    requires until { order.now.until ≤ LatestUntil }
    requires budget { order.now.budget ≤ LargestBudget }
    requires placed { ArePlaced (map string_bytes names.now) tree.now }
    requires untold { IsUntold told.old }
    requires some { 1 ≤ length lanes.old }
    requires few { length lanes.old ≤ MostWorkers }
    ensures due { Answers (λ due. IsModelRun (by_workers order.now report) (resolved_of (map string_bytes names.now) tree.now) (Ended due)) (told_text told.new) result (K.faults out.old) (K.faults out.new) (K.held out.old) (K.held out.new)
        ⊎ AnswersMidway (λ below text. IsModelRun (by_workers order.now report) (resolved_of (map string_bytes names.now) tree.now) (Midway below text)) result (K.faults out.old) (K.faults out.new) (K.held out.old) (K.held out.new) }
    ensures cause { IfErr result (λ r. IsOfModel (map string_bytes names.now) r ⊎ (IsOfSteps order.now.budget r ⊎ IsStop (length lanes.old) r)) }
    ensures stopped { IfErr result (λ r. (worker below : ℕ) → r ≡ Refusal.Stopped worker below → HasStopped G.stops worker lanes.old lanes.new) }
    ensures write { IfErr result (λ r. r ≡ Refusal.Write → Rose (K.faults out.old) (K.faults out.new)) }
    ensures told { OnOk result (IsLongReport report (told_text told.new)) }
    ensures nothing { IfErr result (λ r. IsOfModel (map string_bytes names.now) r → ¬ (r ≡ Refusal.Memory) → Appends [] (K.held out.old) (K.held out.new)) }
    ensures unbegun { IfErr result (λ r. r ≡ Refusal.Memory → Appends [] (K.held out.old) (K.held out.new)) }
    ensures gates { HaveNotFallen G.stops lanes.old lanes.new }
    ensures lanes { length lanes.new ≡ length lanes.old }
{
    match plan_model(alloc, names, tree) {
        Ok(Planned::Hosts(built)) => run_with_workers(
            rt, alloc, built, order, report, out, told, lanes,
        ),
        Ok(Planned::Ring(built)) => run_with_workers(
            rt, alloc, built, order, report, out, told, lanes,
        ),
        Err(refusal) => Err(refusal),
    }
}

/// Runs a plan on timelines by workers, and writes the trace while it goes on. Where a report is wanted, tells it and the windows; the
/// room for it is taken before the run.
///
/// # Errors
/// `Shape` for more than 4096 timelines, `TimelineBudget` where a timeline has more events, `Stopped` only where the worker's gate was
/// found closed, `Write` only where the sink's `faults` rose, `Memory` with nothing written, and else `MemoryBelow`.
fn run_with_workers<R: Threads + Wait + Sync, B: Behaviour + Sync, K: Sink, G: Gate + Send>(
    rt: &R,
    alloc: Global,
    built: Built<B>,
    order: &WorkOrder,
    report: bool,
    out: &mut K,
    told: &mut Told,
    lanes: &mut [Lane<G>],
) -> Result<(), Refusal>
    requires plan { Fits (B.valid built.plan.behaviour) (B.carried built.plan.behaviour) built.plan }
    requires named { length built.names.names ≡ length built.plan.entities }
    requires nets { length built.nets ≡ length built.plan.entities }
    requires until { order.now.until ≤ LatestUntil }
    requires budget { order.now.budget ≤ LargestBudget }
    requires untold { IsUntold told.old }
    requires some { 1 ≤ length lanes.old }
    requires few { length lanes.old ≤ MostWorkers }
    ensures due { Answers (IsDueOn (B.reaction built.plan.behaviour) built.plan built.names built.nets order.now.mode order.now.threshold order.now.until order.now.budget report) (told_text told.new) result (K.faults out.old) (K.faults out.new) (K.held out.old) (K.held out.new)
        ⊎ AnswersMidway (IsMidwayOn (B.reaction built.plan.behaviour) built.plan built.names built.nets order.now.mode order.now.threshold order.now.until order.now.budget) result (K.faults out.old) (K.faults out.new) (K.held out.old) (K.held out.new) }
    ensures cause { IfErr result (λ r. IsOfSteps order.now.budget r ⊎ IsStop (length lanes.old) r) }
    ensures stopped { IfErr result (λ r. (worker below : ℕ) → r ≡ Refusal.Stopped worker below → HasStopped G.stops worker lanes.old lanes.new) }
    ensures write { IfErr result (λ r. r ≡ Refusal.Write → Rose (K.faults out.old) (K.faults out.new)) }
    ensures told { OnOk result (IsLongReport report (told_text told.new)) }
    ensures nothing { IfErr result (λ r. status_of r ≡ 6 → Appends [] (K.held out.old) (K.held out.new)) }
    ensures unbegun { IfErr result (λ r. r ≡ Refusal.Memory → Appends [] (K.held out.old) (K.held out.new)) }
    ensures gates { HaveNotFallen G.stops lanes.old lanes.new }
    ensures lanes { length lanes.new ≡ length lanes.old }
{
    let Built { plan, names, nets } = built;
    if let Err(Memory) = make_room(report, told) {
        return Err(Refusal::Memory);
    }
    let mut tally = Tally::new();
    match run_by_workers(
        rt,
        alloc,
        plan,
        &names,
        nets.as_slice(),
        order,
        lanes,
        &mut tally,
        out,
    ) {
        WorkEnd::Ended(end) => answer_end(end, order.budget, report, &tally, told),
        WorkEnd::Stopped { worker, below } => Err(Refusal::Stopped { worker, below }),
    }
}
