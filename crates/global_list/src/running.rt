//! A run by one event list while it goes on.

ghost use Rattle.std.specs.Prelude.{◌≡◌, ℕ, IfOk, OnOk, is_some};
ghost use Rattle.ssf_model.specs.Run.{Fits};
ghost use Rattle.global_list.specs.Standing.{CanGoOn, standing, standing_after, advanced, next_event, next_entry};

use crate::one_list::OneList;
use sim_base::Memory;
use ssf_model::{Behaviour, Entry, Plan};
use std::alloc::Global;
use std::marker::Model;

/// The run of a plan by one event list, which goes on event by event. Contracts see where it stands.
#[derive(Drop)]
pub struct RunningList<B: Behaviour> {
    list: OneList<B>,
}

impl<B: Behaviour> Model for RunningList<B> {
    ghost use Rattle.global_list.specs.Standing.{ListView};
    ghost use Rattle.global_list.specs.Executed.{view_of};

    ghost Value = { ListView B B.State B.Payload };

    ghost view = { λ r. view_of r.list };
}

impl<B: Behaviour> RunningList<B> {
    /// The run of a plan before its first event.
    ///
    /// # Errors
    /// `Memory`.
    pub fn open(alloc: Global, plan: Plan<B>) -> Result<RunningList<B>, Memory>
        requires { Fits (B.valid plan.behaviour) (B.carried plan.behaviour) plan }
        ensures { (until : ℕ) → IfOk result (λ run. standing run ≡ standing_after (B.reaction plan.behaviour) plan until 0) }
    {
        let list = OneList::open(alloc, plan)?;
        Ok(RunningList { list })
    }

    /// Executes the event of the least key, if its time is at most `until`, in ticks, and answers its entry,
    /// or that there is none. An event that tells no lines takes no memory but what its writes want.
    ///
    /// # Errors
    /// `Memory`. Nothing is then said of the run.
    pub fn execute_next(&mut self, alloc: Global, until: u64) -> Result<Option<Entry>, Memory>
        requires { CanGoOn (B.valid self.old.behaviour) (B.carried self.old.behaviour) (B.reaction self.old.behaviour) until (standing self.old) }
        ensures next { OnOk result (standing self.new ≡ advanced (B.reaction self.old.behaviour) until (standing self.old)) }
        ensures entry { IfOk result (λ entry. entry ≡ next_entry (B.reaction self.old.behaviour) until (standing self.old)) }
    {
        self.list.execute_next(alloc, until)
    }

    /// Whether there is an event with a time of at most `until`, in ticks, to execute.
    pub fn has_next(&self, until: u64) -> bool
        ensures { result ≡ is_some (next_event until (standing self.now)) }
    {
        self.list.agenda.pending.has_due(until)
    }
}
