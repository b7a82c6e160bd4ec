//! The run of a plan by one event list, and its trace.
ghost use Rattle.std.specs.Prelude.{◌≡◌, ◌<◌, ◌≤◌, ◌++◌, length, is_some, IfOk, IfSome, OnOk, OnErr, IsErrOf, Ok};
ghost use Rattle.event_order.specs.Machine.{option_list};
ghost use Rattle.sim_base.specs.Outside.{Rose, Appends, AppendsPrefix};
ghost use Rattle.ssf_model.specs.Reaction.{LatestTime};
ghost use Rattle.ssf_model.specs.Run.{Fits};
ghost use Rattle.run_health.specs.Healthy.{MostEvents};
ghost use Rattle.trace_writer.specs.Trace.{entries_text, end_line as end_text};
ghost use Rattle.global_list.specs.Standing.{CanGoOn, standing, advanced, next_event, next_entry};
ghost use Rattle.list_run.specs.Sending.{Sends};
ghost use Rattle.list_run.specs.Endings.{IsTallied, IsTraced, IsOverBudget, IsPartWritten};

use crate::sending::{PIECE, flush, send_end, send_entry};
use global_list::RunningList;
use sim_base::{Memory, Sink};
use ssf_model::{Behaviour, Names, Plan};
use std::alloc::Global;
use trace_writer::Tally;

/// How a run by one event list ended.
#[derive(Clone, Copy, Debug, PartialEq, Eq)]
pub enum ListEnd {
    /// The run has no further event, and its whole trace was written.
    Finished,
    /// The run has more events than the budget. Exactly the records of the first ones, as many as the budget, were
    /// written.
    OverBudget,
}

/// Why a run by one event list did not come to its end.
#[derive(Clone, Copy, Debug, PartialEq, Eq)]
pub enum ListFault {
    /// The sink failed; its count of faults rose.
    Write,
    /// There was no memory.
    Memory,
}

impl From<Memory> for ListFault {
    ghost use Rattle.std.specs.Prelude.{◌≡◌};
    ghost use Rattle.list_run.specs.declared.running.ListFault.TheVariants as fault;

    ghost from_gives = { λ _ e. e ≡ fault.Memory };

    fn from(_memory: Memory) -> ListFault {
        ListFault::Memory
    }
}

/// Executes a plan's events one by one in the order of their keys, those with times of at most `until`, in ticks, and
/// at most `budget` of them, and writes the trace while it goes on: the records of the events, and the line that ends
/// it. `names` has the name of each entity. The tally gets all events that are written. No entry is kept: the memory
/// that a run wants does not grow with the number of its events.
///
/// `until` is at most 10^18, and `budget` at most 10^12.
///
/// # Errors
/// After each a part of what is due was written, from its beginning: of the trace, or where the run has more events
/// than the budget of the records of the first ones.
/// - `Write` only where the sink's `faults` rose in this call.
/// - `Memory` where there was none.
pub fn run_list<B: Behaviour, K: Sink>(
    alloc: Global,
    plan: Plan<B>,
    names: &Names,
    until: u64,
    budget: u64,
    tally: &mut Tally,
    out: &mut K,
) -> Result<ListEnd, ListFault>
    requires plan { Fits (B.valid plan.behaviour) (B.carried plan.behaviour) plan }
    requires named { length names.now.names ≡ length plan.entities }
    requires until { until ≤ LatestTime }
    requires budget { budget ≤ MostEvents }
    ensures trace { result ≡ Ok ListEnd.Finished → IsTraced (B.reaction plan.behaviour) plan names.now until budget (K.held out.old) (K.held out.new) tally.old tally.new }
    ensures over { result ≡ Ok ListEnd.OverBudget → IsOverBudget (B.reaction plan.behaviour) plan names.now until budget (K.held out.old) (K.held out.new) }
    ensures part { OnErr result (IsPartWritten (B.reaction plan.behaviour) plan names.now until budget (K.held out.old) (K.held out.new)) }
    ensures cause { IsErrOf result ListFault.Write → Rose (K.faults out.old) (K.faults out.new) }
    ensures never_falls { K.faults out.old ≤ K.faults out.new }
{
    let before = plan.before;
    let mut list = RunningList::open(alloc, plan)?;
    let Ok(mut gathered) = Vec::with_capacity(alloc, PIECE) else {
        return Err(ListFault::Memory);
    };
    for executed in 0..budget {
        match write_next(alloc, names, until, &mut list, tally, &mut gathered, out) {
            Ok(true) => {}
            Ok(false) => return finish(until, before + executed, &mut gathered, out),
            Err(fault) => return Err(fault),
        }
    }
    if list.has_next(until) {
        stop(&mut gathered, out)
    } else {
        finish(until, before + budget, &mut gathered, out)
    }
}

/// Writes what was gathered, and behind it the line that ends a trace up to the time `until`, in ticks, whose last event
/// has the number `count`.
fn finish<K: Sink>(
    until: u64,
    count: u64,
    gathered: &mut Vec<u8>,
    out: &mut K,
) -> Result<ListEnd, ListFault>
    ensures all { result ≡ Ok ListEnd.Finished → Appends (gathered.old.items ++ end_text until count) (K.held out.old) (K.held out.new) }
    ensures end { (result ≡ Ok ListEnd.OverBudget) → ⊥ }
    ensures part { OnErr result (AppendsPrefix (gathered.old.items ++ end_text until count) (K.held out.old) (K.held out.new)) }
    ensures cause { IsErrOf result ListFault.Write → Rose (K.faults out.old) (K.faults out.new) }
    ensures never_falls { K.faults out.old ≤ K.faults out.new }
{
    send_end(until, count, gathered, out)?;
    Ok(ListEnd::Finished)
}

/// Writes what was gathered, and nothing behind it.
fn stop<K: Sink>(gathered: &mut Vec<u8>, out: &mut K) -> Result<ListEnd, ListFault>
    ensures all { result ≡ Ok ListEnd.OverBudget → Appends gathered.old.items (K.held out.old) (K.held out.new) }
    ensures end { (result ≡ Ok ListEnd.Finished) → ⊥ }
    ensures part { OnErr result (AppendsPrefix gathered.old.items (K.held out.old) (K.held out.new)) }
    ensures cause { IsErrOf result ListFault.Write → Rose (K.faults out.old) (K.faults out.new) }
    ensures never_falls { K.faults out.old ≤ K.faults out.new }
{
    flush(gathered, out)?;
    Ok(ListEnd::OverBudget)
}

/// Executes the next event, if there is one, adds it to the tally, and gathers its record. Answers whether there was
/// one.
fn write_next<B: Behaviour, K: Sink>(
    alloc: Global,
    names: &Names,
    until: u64,
    list: &mut RunningList<B>,
    tally: &mut Tally,
    gathered: &mut Vec<u8>,
    out: &mut K,
) -> Result<bool, ListFault>
    requires list { CanGoOn (B.valid list.old.behaviour) (B.carried list.old.behaviour) (B.reaction list.old.behaviour) until (standing list.old) }
    requires named { IfSome (next_entry (B.reaction list.old.behaviour) until (standing list.old)) (λ e. e.entity < length names.now.names) }
    ensures next { OnOk result (standing list.new ≡ advanced (B.reaction list.old.behaviour) until (standing list.old)) }
    ensures more { IfOk result (λ more. more ≡ is_some (next_event until (standing list.old))) }
    ensures sent { OnOk result (Sends (gathered.old.items ++ entries_text names.now (option_list (next_entry (B.reaction list.old.behaviour) until (standing list.old)))) gathered.new.items (K.held out.old) (K.held out.new)) }
    ensures tally { OnOk result (IsTallied tally.old tally.new (option_list (next_entry (B.reaction list.old.behaviour) until (standing list.old)))) }
    ensures part { OnErr result (AppendsPrefix (gathered.old.items ++ entries_text names.now (option_list (next_entry (B.reaction list.old.behaviour) until (standing list.old)))) (K.held out.old) (K.held out.new)) }
    ensures cause { IsErrOf result ListFault.Write → Rose (K.faults out.old) (K.faults out.new) }
    ensures never_falls { K.faults out.old ≤ K.faults out.new }
{
    match list.execute_next(alloc, until)? {
        Some(entry) => {
            send_entry(names, &entry, gathered, out)?;
            tally.add(&entry);
            Ok(true)
        }
        None => Ok(false),
    }
}
