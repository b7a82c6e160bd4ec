//! The run of a plan by one event list.

ghost use Rattle.std.specs.Prelude.{◌≡◌, ◌≤◌, ◌⊎◌, ◌++◌, ℕ, [], length, is_some, IsSome, None, IfOk, OnOk, OnErr};
ghost use Rattle.event_order.specs.Machine.{within, all_kept, option_list};
ghost use Rattle.ssf_model.specs.Reaction.{LatestTime};
ghost use Rattle.ssf_model.specs.Run.{Fits, run_event, run_entries};
ghost use Rattle.run_health.specs.Healthy.{MostEvents};
ghost use Rattle.global_list.specs.Standing.{CanGoOn, standing, advanced, next_event, next_entry};

use crate::running::RunningList;
use sim_base::{ListOf, Memory};
use ssf_model::{Behaviour, Entry, Plan};
use std::alloc::Global;

/// How a run by the one list ended.
#[derive(Clone, Copy, Debug, PartialEq, Eq)]
pub enum SingleEnd {
    /// The run has no further event.
    Finished,
    /// The run has more events than the budget.
    OverBudget,
    /// There was no memory.
    Memory,
}

/// What a run by the one list executed, in order, and how it ended.
#[derive(Drop)]
pub struct Single {
    pub entries: ListOf<Entry>,
    pub end: SingleEnd,
}

/// Executes a plan's events one by one in the order of their keys: those with times of at most
/// `until`, in ticks, and at most `budget` of them.
///
/// `until` is at most 10^18, and `budget` from 1 to 10^12. The entries are the first of the plan's
/// run, whatever its cut, as long as the cut drops no round up to `budget`. `Finished` says that
/// they are all of it, and `OverBudget` that there are `budget` of them and the run goes on. A run
/// of more than `budget` events ends so, or for want of memory.
pub fn run_single<B: Behaviour>(alloc: Global, plan: Plan<B>, until: u64, budget: u64) -> Single
    requires plan { Fits (B.valid plan.behaviour) (B.carried plan.behaviour) plan }
    requires until { until ≤ LatestTime }
    requires least { 1 ≤ budget }
    requires budget { budget ≤ MostEvents }
    ensures prefix { (R : ℕ) → budget ≤ R → result.entries ≡ run_entries (B.reaction plan.behaviour) plan until (within R) (length result.entries) }
    ensures most { length result.entries ≤ budget }
    ensures finished { result.end ≡ SingleEnd.Finished → (R : ℕ) → budget ≤ R → run_event (B.reaction plan.behaviour) plan until (within R) (length result.entries) ≡ None }
    ensures over { result.end ≡ SingleEnd.OverBudget → (length result.entries ≡ budget) × ((R : ℕ) → budget ≤ R → IsSome (run_event (B.reaction plan.behaviour) plan until (within R) budget)) }
    ensures exceeded { (R : ℕ) → budget ≤ R → IsSome (run_event (B.reaction plan.behaviour) plan until (within R) budget) → (result.end ≡ SingleEnd.OverBudget) ⊎ (result.end ≡ SingleEnd.Memory) }
{
    let mut entries = Vec::new(alloc);
    let end = run(alloc, plan, until, budget, &mut entries);
    Single {
        entries: ListOf::from_vec(entries),
        end,
    }
}

/// Executes at most `budget` events and adds their entries.
fn run<B: Behaviour>(
    alloc: Global,
    plan: Plan<B>,
    until: u64,
    budget: u64,
    entries: &mut Vec<Entry>,
) -> SingleEnd
    requires plan { Fits (B.valid plan.behaviour) (B.carried plan.behaviour) plan }
    requires until { until ≤ LatestTime }
    requires budget { budget ≤ MostEvents }
    requires none { entries.old.items ≡ [] }
    ensures prefix { entries.new.items ≡ run_entries (B.reaction plan.behaviour) plan until all_kept (length entries.new.items) }
    ensures most { length entries.new.items ≤ budget }
    ensures finished { result ≡ SingleEnd.Finished → run_event (B.reaction plan.behaviour) plan until all_kept (length entries.new.items) ≡ None }
    ensures over { result ≡ SingleEnd.OverBudget → (length entries.new.items ≡ budget) × IsSome (run_event (B.reaction plan.behaviour) plan until all_kept budget) }
{
    let Ok(mut list) = RunningList::open(alloc, plan) else {
        return SingleEnd::Memory;
    };
    for _executed in 0..budget {
        match add_next(alloc, until, &mut list, entries) {
            Ok(true) => {}
            Ok(false) => return SingleEnd::Finished,
            Err(Memory) => return SingleEnd::Memory,
        }
    }
    if list.has_next(until) {
        SingleEnd::OverBudget
    } else {
        SingleEnd::Finished
    }
}

/// Executes the next event, if there is one, and adds its entry. Answers whether there was one. Without
/// memory no entry is added.
fn add_next<B: Behaviour>(
    alloc: Global,
    until: u64,
    list: &mut RunningList<B>,
    entries: &mut Vec<Entry>,
) -> Result<bool, Memory>
    requires { CanGoOn (B.valid list.old.behaviour) (B.carried list.old.behaviour) (B.reaction list.old.behaviour) until (standing list.old) }
    ensures next { OnOk result (standing list.new ≡ advanced (B.reaction list.old.behaviour) until (standing list.old)) }
    ensures more { IfOk result (λ more. more ≡ is_some (next_event until (standing list.old))) }
    ensures entries { OnOk result (entries.new.items ≡ entries.old.items ++ option_list (next_entry (B.reaction list.old.behaviour) until (standing list.old))) }
    ensures kept { OnErr result (entries.new.items ≡ entries.old.items) }
{
    match list.execute_next(alloc, until)? {
        Some(entry) => {
            entries.push(entry)?;
            Ok(true)
        }
        None => Ok(false),
    }
}
