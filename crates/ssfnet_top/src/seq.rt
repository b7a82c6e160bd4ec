//! The command `seq`: the run of a plan by one event list, and its trace.
ghost use Rattle.std.specs.Prelude.{◌≡◌, ◌≤◌, ◌⊎◌, [], length, IfErr, OnOk};
ghost use Rattle.ssf_model.specs.Run.{Fits};
ghost use Rattle.command_words.specs.Table.{LatestUntil, LargestBudget};
ghost use Rattle.sim_base.specs.Outside.{Rose};
ghost use Rattle.ssfnet_top.specs.Outcome.{IsRunDue};
ghost use Rattle.ssfnet_top.specs.Answering.{Answers};
ghost use Rattle.ssfnet_top.specs.Ending.{IsReport};

use crate::Refusal;
use crate::reporting::{add_report, make_room};
use list_run::{ListEnd, ListFault, run_list};
use net_build::Built;
use sim_base::{Memory, Sink};
use ssf_model::Behaviour;
use std::alloc::Global;
use trace_writer::Tally;

/// Runs a plan by one event list up to `until`, in ticks, and at most `budget` events, and writes
/// the trace while it goes on. Where a report is wanted, appends it to `report`; the room for it is taken
/// before the run.
///
/// # Errors
/// `Budget` where the run has more events, `Write` only where the sink's `faults` rose, `Memory`.
pub fn run_by_list<B: Behaviour, K: Sink>(
    alloc: Global,
    built: Built<B>,
    until: u64,
    budget: u64,
    wanted: bool,
    out: &mut K,
    report: &mut Vec<u8>,
) -> Result<(), Refusal>
    requires plan { Fits (B.valid built.plan.behaviour) (B.carried built.plan.behaviour) built.plan }
    requires named { length built.names.names ≡ length built.plan.entities }
    requires until { until ≤ LatestUntil }
    requires budget { budget ≤ LargestBudget }
    requires empty { report.old.items ≡ [] }
    ensures due { Answers (IsRunDue (B.reaction built.plan.behaviour) built.plan built.names until budget wanted) report.new.items result (K.faults out.old) (K.faults out.new) (K.held out.old) (K.held out.new) }
    ensures cause { IfErr result (λ r. (r ≡ Refusal.Memory) ⊎ ((r ≡ Refusal.Write) ⊎ (r ≡ Refusal.Budget budget))) }
    ensures write { IfErr result (λ r. r ≡ Refusal.Write → Rose (K.faults out.old) (K.faults out.new)) }
    ensures told { OnOk result (IsReport wanted report.new.items) }
{
    let Built {
        plan,
        names,
        nets: _,
    } = built;
    if let Err(Memory) = make_room(wanted, report) {
        return Err(Refusal::Memory);
    }
    let mut tally = Tally::new();
    match run_list(alloc, plan, &names, until, budget, &mut tally, out) {
        Ok(ListEnd::Finished) => {
            add_report(wanted, &tally, report);
            Ok(())
        }
        Ok(ListEnd::OverBudget) => Err(Refusal::Budget(budget)),
        Err(ListFault::Write) => Err(Refusal::Write),
        Err(ListFault::Memory) => Err(Refusal::Memory),
    }
}
