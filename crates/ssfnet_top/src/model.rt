//! Models: from a tree to its plan, and to the run of the plan on one thread, in the way that is asked.
ghost use Rattle.std.specs.Prelude.{◌≡◌, ◌≤◌, ◌⊎◌, ℕ, List, [], true, false, Err, None, Some, option_map, length, map, string_bytes, IfOk, IfErr, IsOkAnd, OnOk};
ghost use Rattle.dml_tree.specs.TreeView.{attributes};
ghost use Rattle.net_graph.specs.Keys.{has_net};
ghost use Rattle.net_build.specs.RingModel.{HasFewTokens};
ghost use Rattle.net_plan.specs.NetPlan.{IsPlanOf};
ghost use Rattle.host_rules.specs.Limits.{IsHost};
ghost use Rattle.ip_layer.specs.Packets.{IsPacket};
ghost use Rattle.ssf_model.specs.Run.{Fits};
ghost use Rattle.command_words.specs.Schedule.{is_schedule};
ghost use Rattle.command_words.specs.Table.{LatestUntil, LargestBudget};
ghost use Rattle.sync_steps.specs.Schedules.{steps_of};
ghost use Rattle.sim_base.specs.Outside.{Rose, Appends};
ghost use Rattle.ssfnet_top.specs.Refusals.{status_of};
ghost use Rattle.ssfnet_top.specs.Outcome.{Course, resolved_of, planned_network, IsCourse, IsModelRun};
ghost use Rattle.ssfnet_top.specs.Outcome.Course.{Ended, Midway};
ghost use Rattle.ssfnet_top.specs.FilePlaces.{ArePlaced};
ghost use Rattle.ssfnet_top.specs.Answering.{Answers, AnswersMidway, IsOfModel, IsOfRun, IsOnTimelines, IsToldBy, IsUntold, told_text};
ghost use Rattle.ssfnet_top.specs.Planning.{IsPlanned, IsPlannedIn, IsFault, IsFaultIn, IsReady};

use crate::Refusal;
use crate::resolving::resolve_files;
use crate::running::{Running, Told, Way};
use crate::seq::run_by_list;
use crate::step::run_on_timelines;
use dml_tree::Tree;
use host_stack::Host;
use net_build::{Built, ring_plan};
use net_graph::{ShapeFault, is_net};
use net_plan::plan_of;
use net_resolve::build_network;
use ring_model::Ring;
use sim_base::{Memory, Sink};
use ssf_model::Behaviour;
use std::alloc::Global;
use step_run::StepOrder;
use sync_steps::{ScheduleFault, Step, read_schedule};

/// The plan of a model: a network of hosts, or a ring.
#[derive(Drop)]
pub enum Planned {
    Hosts(Built<Host>),
    Ring(Built<Ring>),
}

/// Runs the model of the joined tree of files with these names, and writes the trace. On timelines the
/// steps of the schedule are tried first. Where a report is wanted it is told.
///
/// # Errors
/// `Path` and `Shape` for a tree that has no plan, and for more than 4096 timelines; `Budget` and `TimelineBudget` where the run
/// or a timeline has more events; `Write` only where the sink's `faults` rose; `Memory`, and `MemoryBelow` in the middle of a run on timelines.
pub fn run_model<K: Sink>(
    alloc: Global,
    running: &Running,
    schedule: &[Step],
    names: &[String],
    tree: &Tree,
    out: &mut K,
    told: &mut Told,
) -> Result<(), Refusal>
    requires until { running.now.until ≤ LatestUntil }
    requires budget { running.now.budget ≤ LargestBudget }
    requires placed { ArePlaced (map string_bytes names.now) tree.now }
    requires untold { IsUntold told.old }
    ensures due { Answers (λ due. IsModelRun running.now (resolved_of (map string_bytes names.now) tree.now) (Ended due)) (told_text told.new) result (K.faults out.old) (K.faults out.new) (K.held out.old) (K.held out.new)
        ⊎ AnswersMidway (λ below text. IsModelRun running.now (resolved_of (map string_bytes names.now) tree.now) (Midway below text)) result (K.faults out.old) (K.faults out.new) (K.held out.old) (K.held out.new) }
    ensures cause { IfErr result (λ r. IsOfModel (map string_bytes names.now) r ⊎ IsOfRun running.now r) }
    ensures write { IfErr result (λ r. r ≡ Refusal.Write → Rose (K.faults out.old) (K.faults out.new)) }
    ensures told { OnOk result (IsToldBy running.now.way running.now.report (told_text told.new)) }
    ensures nothing { IfErr result (λ r. IsOfModel (map string_bytes names.now) r → ¬ (r ≡ Refusal.Memory) → Appends [] (K.held out.old) (K.held out.new)) }
    ensures unbegun { IfErr result (λ r. r ≡ Refusal.Memory → IsOnTimelines running.now.way → Appends [] (K.held out.old) (K.held out.new)) }
{
    match plan_model(alloc, names, tree) {
        Ok(Planned::Hosts(built)) => simulate(alloc, built, running, schedule, out, told),
        Ok(Planned::Ring(built)) => simulate(alloc, built, running, schedule, out, told),
        Err(refusal) => Err(refusal),
    }
}

/// Runs the model as [`run_model`] does, with the schedule that a word spells where there is one.
pub fn run_scheduled<K: Sink>(
    alloc: Global,
    running: &Running,
    schedule: &Option<String>,
    names: &[String],
    tree: &Tree,
    out: &mut K,
    told: &mut Told,
) -> Result<(), Refusal>
    requires until { running.now.until ≤ LatestUntil }
    requires budget { running.now.budget ≤ LargestBudget }
    requires placed { ArePlaced (map string_bytes names.now) tree.now }
    requires untold { IsUntold told.old }
    requires spelt { (word : List ℕ) → option_map string_bytes schedule.now ≡ Some word → is_schedule word ≡ true }
    ensures due { Answers (λ due. IsModelRun running.now (resolved_of (map string_bytes names.now) tree.now) (Ended due)) (told_text told.new) result (K.faults out.old) (K.faults out.new) (K.held out.old) (K.held out.new)
        ⊎ AnswersMidway (λ below text. IsModelRun running.now (resolved_of (map string_bytes names.now) tree.now) (Midway below text)) result (K.faults out.old) (K.faults out.new) (K.held out.old) (K.held out.new) }
    ensures cause { IfErr result (λ r. IsOfModel (map string_bytes names.now) r ⊎ IsOfRun running.now r) }
    ensures write { IfErr result (λ r. r ≡ Refusal.Write → Rose (K.faults out.old) (K.faults out.new)) }
    ensures told { OnOk result (IsToldBy running.now.way running.now.report (told_text told.new)) }
    ensures nothing { IfErr result (λ r. IsOfModel (map string_bytes names.now) r → ¬ (r ≡ Refusal.Memory) → Appends [] (K.held out.old) (K.held out.new)) }
    ensures unbegun { IfErr result (λ r. r ≡ Refusal.Memory → IsOnTimelines running.now.way → Appends [] (K.held out.old) (K.held out.new)) }
{
    match schedule_of(alloc, schedule) {
        Ok(steps) => run_model(alloc, running, steps.as_slice(), names, tree, out, told),
        Err(Memory) => Err(Refusal::Memory),
    }
}

/// The steps of a schedule, and none without one.
fn schedule_of(alloc: Global, schedule: &Option<String>) -> Result<Vec<Step>, Memory>
    requires spelt { (word : List ℕ) → option_map string_bytes schedule.now ≡ Some word → is_schedule word ≡ true }
    ensures none { option_map string_bytes schedule.now ≡ None → IfOk result (λ steps. steps.items ≡ []) }
    ensures read { (word : List ℕ) → option_map string_bytes schedule.now ≡ Some word → IfOk result (λ steps. steps_of word ≡ Some steps.items) }
{
    let Some(word) = schedule else {
        return Ok(Vec::new(alloc));
    };
    match read_schedule(alloc, word.as_bytes()) {
        Ok(steps) => Ok(steps),
        Err(ScheduleFault::Memory) => Err(Memory),
        Err(ScheduleFault::BadStep) => unreachable!(),
    }
}

/// The plan of the model of the joined tree of files with these names.
///
/// # Errors
/// `Path` and `Shape` with the first fault of the tree, and `Memory`.
pub fn plan_model(alloc: Global, names: &[String], tree: &Tree) -> Result<Planned, Refusal>
    requires { ArePlaced (map string_bytes names.now) tree.now }
    ensures planned { IfOk result (λ planned. IsPlanned (resolved_of (map string_bytes names.now) tree.now) planned) }
    ensures ready { IfOk result (λ planned. IsReady planned) }
    ensures fault { IfErr result (λ r. (r ≡ Refusal.Memory) ⊎ IsFault (resolved_of (map string_bytes names.now) tree.now) r) }
    ensures cause { IfErr result (λ r. IsOfModel (map string_bytes names.now) r) }
{
    let resolved = match resolve_files(alloc, names, tree) {
        Ok(resolved) => resolved,
        Err(refusal) => return Err(refusal),
    };
    match plan_resolved(alloc, &resolved) {
        Ok(planned) => Ok(planned),
        Err(fault) => Err(Refusal::from(fault)),
    }
}

/// The plan of the model of a resolved tree.
fn plan_resolved(alloc: Global, tree: &Tree) -> Result<Planned, ShapeFault>
    requires { HasFewTokens (attributes tree.now) }
    ensures planned { IfOk result (λ planned. IsPlannedIn (has_net (attributes tree.now)) (attributes tree.now) planned) }
    ensures ready { IfOk result (λ planned. IsReady planned) }
    ensures cause { IfErr result (λ fault. (fault ≡ ShapeFault.Memory) ⊎ IsFaultIn (has_net (attributes tree.now)) (attributes tree.now) fault) }
{
    if is_net(tree) {
        match build_hosts(alloc, tree) {
            Ok(built) => Ok(Planned::Hosts(built)),
            Err(fault) => Err(fault),
        }
    } else {
        match ring_plan(alloc, tree) {
            Ok(built) => Ok(Planned::Ring(built)),
            Err(fault) => Err(fault),
        }
    }
}

/// The plan of the network of hosts of a resolved tree.
fn build_hosts(alloc: Global, tree: &Tree) -> Result<Built<Host>, ShapeFault>
    ensures built { IfOk result (λ built. IsOkAnd (planned_network (attributes tree.now)) (λ network. IsPlanOf network built)) }
    ensures fits { IfOk result (λ built. Fits IsHost IsPacket built.plan) }
    ensures named { IfOk result (λ built. length built.names.names ≡ length built.plan.entities) }
    ensures nets { IfOk result (λ built. length built.nets ≡ length built.plan.entities) }
    ensures cause { IfErr result (λ fault. (fault ≡ ShapeFault.Memory) ⊎ (planned_network (attributes tree.now) ≡ Err fault)) }
{
    let network = build_network(alloc, tree)?;
    let built = plan_of(alloc, &network)?;
    Ok(built)
}

/// Runs a plan in the way that is asked.
fn simulate<B: Behaviour, K: Sink>(
    alloc: Global,
    built: Built<B>,
    running: &Running,
    schedule: &[Step],
    out: &mut K,
    told: &mut Told,
) -> Result<(), Refusal>
    requires plan { Fits (B.valid built.plan.behaviour) (B.carried built.plan.behaviour) built.plan }
    requires named { length built.names.names ≡ length built.plan.entities }
    requires nets { length built.nets ≡ length built.plan.entities }
    requires until { running.now.until ≤ LatestUntil }
    requires budget { running.now.budget ≤ LargestBudget }
    requires untold { IsUntold told.old }
    ensures due { Answers (λ due. IsCourse (B.reaction built.plan.behaviour) built running.now (Ended due)) (told_text told.new) result (K.faults out.old) (K.faults out.new) (K.held out.old) (K.held out.new)
        ⊎ AnswersMidway (λ below text. IsCourse (B.reaction built.plan.behaviour) built running.now (Midway below text)) result (K.faults out.old) (K.faults out.new) (K.held out.old) (K.held out.new) }
    ensures cause { IfErr result (λ r. IsOfRun running.now r) }
    ensures write { IfErr result (λ r. r ≡ Refusal.Write → Rose (K.faults out.old) (K.faults out.new)) }
    ensures told { OnOk result (IsToldBy running.now.way running.now.report (told_text told.new)) }
    ensures nothing { IfErr result (λ r. status_of r ≡ 6 → Appends [] (K.held out.old) (K.held out.new)) }
    ensures unbegun { IfErr result (λ r. r ≡ Refusal.Memory → IsOnTimelines running.now.way → Appends [] (K.held out.old) (K.held out.new)) }
{
    let Running {
        until,
        budget,
        report,
        way,
    } = *running;
    match way {
        Way::OneList => run_by_list(alloc, built, until, budget, report, out, &mut told.report),
        Way::Timelines { mode, threshold } => {
            let order = StepOrder {
                until,
                budget,
                mode,
                threshold,
                schedule,
            };
            run_on_timelines(alloc, built, &order, report, out, told)
        }
    }
}
