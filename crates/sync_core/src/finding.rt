//! Which steps are enabled.

ghost use Rattle.std.specs.Prelude.{◌≡◌, ℕ, ◌++◌, ◌∷◌, [], ◌<◌, ◌&&◌, not, is_none, map, length, Some, IfOk, OnOk, slice_get};
ghost use Rattle.std.specs.List.{filter, flat_map, enumerate_from};
ghost use Rattle.timeline.specs.View.{TimelineOf};
ghost use Rattle.timeline.specs.Executing.{refusal};
ghost use Rattle.barrier_window.specs.Crossings.{first_without};
ghost use Rattle.sync_steps.specs.declared.steps.Step.TheVariants.{Execute, Post, Take, Enter, Report, Cross};
ghost use Rattle.core_rules.specs.Cores.{IsCoreOfRun};
ghost use Rattle.core_rules.specs.Stepping.{is_enabled, can_execute_in, can_post_in, can_take_in, can_enter_in, can_report_in, can_cross};
ghost use Rattle.sync_core.specs.Steps.{MayStep, numbers_in, posts_of, enabled_steps};

use crate::core_parts::Core;
use barrier_window::Barrier;
use sim_base::Memory;
use ssf_model::Behaviour;
use sync_steps::{Step, has_mail, may_enter, may_post, may_report};
use timeline::Timeline;

impl<B: Behaviour> Core<B> {
    /// Whether a step is enabled.
    pub(crate) fn can(&self, step: Step) -> bool
        requires may { MayStep (B.valid self.now.behaviour) (B.reaction self.now.behaviour) self.now }
        ensures { result ≡ is_enabled self.now step }
    {
        match step {
            Step::Execute(timeline) => self.can_execute(timeline),
            Step::Post(timeline, channel) => self.can_post(timeline, channel),
            Step::Take(timeline) => self.can_take(timeline),
            Step::Enter(timeline) => self.can_enter(timeline),
            Step::Report(timeline) => self.can_report(timeline),
            Step::Cross => may_cross(&self.parts.barrier, self.count()),
        }
    }

    fn can_execute(&self, number: u32) -> bool
        ensures { result ≡ can_execute_in self.now number }
    {
        if !self.has(number) {
            return false;
        }
        may_execute(&self.parts.timelines[number as usize])
    }

    fn can_post(&self, number: u32, channel: u32) -> bool
        requires may { MayStep (B.valid self.now.behaviour) (B.reaction self.now.behaviour) self.now }
        ensures { result ≡ can_post_in self.now number channel }
    {
        let Some(receiver) = self.receiver(number, channel) else {
            return false;
        };
        self.has_ends(number, channel, receiver);
        may_post(
            &self.parts.timelines[number as usize],
            channel,
            &self.parts.mails[receiver as usize],
            self.parts.until,
        )
    }

    fn can_take(&self, number: u32) -> bool
        requires may { MayStep (B.valid self.now.behaviour) (B.reaction self.now.behaviour) self.now }
        ensures { result ≡ can_take_in self.now number }
    {
        if !self.has(number) {
            return false;
        }
        let place = number as usize;
        has_mail(&self.parts.timelines[place], &self.parts.mails[place])
    }

    fn can_enter(&self, number: u32) -> bool
        ensures { result ≡ can_enter_in self.now number }
    {
        if !self.has(number) {
            return false;
        }
        may_enter(&self.parts.timelines[number as usize], &self.parts.barrier)
    }

    fn can_report(&self, number: u32) -> bool
        requires may { MayStep (B.valid self.now.behaviour) (B.reaction self.now.behaviour) self.now }
        ensures { result ≡ can_report_in self.now number }
    {
        if !self.has(number) {
            return false;
        }
        may_report(
            &self.parts.timelines[number as usize],
            number,
            &self.parts.barrier,
        )
    }

    /// The enabled steps of the parts of a run, in the order of their kinds and then of their numbers.
    ///
    /// # Errors
    /// `Memory`.
    pub fn enabled(&self) -> Result<Vec<Step>, Memory>
        requires run { IsCoreOfRun (B.valid self.now.behaviour) (B.carried self.now.behaviour) (B.reaction self.now.behaviour) self.now }
        ensures { IfOk result (λ steps. steps.items ≡ enabled_steps self.now) }
    {
        self.listed()
    }

    /// The enabled steps.
    fn listed(&self) -> Result<Vec<Step>, Memory>
        requires may { MayStep (B.valid self.now.behaviour) (B.reaction self.now.behaviour) self.now }
        ensures { IfOk result (λ steps. steps.items ≡ enabled_steps self.now) }
    {
        let mut steps = Vec::new(self.alloc);
        self.add_executes(&mut steps)?;
        self.add_posts(&mut steps)?;
        self.add_takes(&mut steps)?;
        self.add_enters(&mut steps)?;
        self.add_reports(&mut steps)?;
        self.add(&mut steps, Step::Cross)?;
        Ok(steps)
    }

    /// Adds a step where it is enabled.
    fn add(&self, steps: &mut Vec<Step>, step: Step) -> Result<(), Memory>
        requires may { MayStep (B.valid self.now.behaviour) (B.reaction self.now.behaviour) self.now }
        ensures { OnOk result (steps.new.items ≡ steps.old.items ++ filter (is_enabled self.now) (step ∷ [])) }
    {
        if self.can(step) {
            steps.push(step)?;
        }
        Ok(())
    }

    fn add_executes(&self, steps: &mut Vec<Step>) -> Result<(), Memory>
        requires may { MayStep (B.valid self.now.behaviour) (B.reaction self.now.behaviour) self.now }
        ensures { OnOk result (steps.new.items ≡ steps.old.items ++ filter (is_enabled self.now) (map Execute (numbers_in self.now))) }
    {
        for number in 0..self.count() {
            self.add(steps, Step::Execute(number))?;
        }
        Ok(())
    }

    fn add_posts(&self, steps: &mut Vec<Step>) -> Result<(), Memory>
        requires may { MayStep (B.valid self.now.behaviour) (B.reaction self.now.behaviour) self.now }
        ensures { OnOk result (steps.new.items ≡ steps.old.items ++ filter (is_enabled self.now) (flat_map posts_of (enumerate_from 0 self.now.timelines))) }
    {
        for number in 0..self.count() {
            self.add_posts_of(steps, number)?;
        }
        Ok(())
    }

    fn add_posts_of(&self, steps: &mut Vec<Step>, number: u32) -> Result<(), Memory>
        requires may { MayStep (B.valid self.now.behaviour) (B.reaction self.now.behaviour) self.now }
        requires number { number < length self.now.timelines }
        ensures { OnOk result ((t : TimelineOf B B.State B.Payload) → slice_get self.now.timelines number ≡ Some t → steps.new.items ≡ steps.old.items ++ filter (is_enabled self.now) (posts_of (number, t))) }
    {
        let outs = self.parts.timelines[number as usize].outs();
        for cross in outs {
            self.add(steps, Step::Post(number, cross.mapping.channel))?;
        }
        Ok(())
    }

    fn add_takes(&self, steps: &mut Vec<Step>) -> Result<(), Memory>
        requires may { MayStep (B.valid self.now.behaviour) (B.reaction self.now.behaviour) self.now }
        ensures { OnOk result (steps.new.items ≡ steps.old.items ++ filter (is_enabled self.now) (map Take (numbers_in self.now))) }
    {
        for number in 0..self.count() {
            self.add(steps, Step::Take(number))?;
        }
        Ok(())
    }

    fn add_enters(&self, steps: &mut Vec<Step>) -> Result<(), Memory>
        requires may { MayStep (B.valid self.now.behaviour) (B.reaction self.now.behaviour) self.now }
        ensures { OnOk result (steps.new.items ≡ steps.old.items ++ filter (is_enabled self.now) (map Enter (numbers_in self.now))) }
    {
        for number in 0..self.count() {
            self.add(steps, Step::Enter(number))?;
        }
        Ok(())
    }

    fn add_reports(&self, steps: &mut Vec<Step>) -> Result<(), Memory>
        requires may { MayStep (B.valid self.now.behaviour) (B.reaction self.now.behaviour) self.now }
        ensures { OnOk result (steps.new.items ≡ steps.old.items ++ filter (is_enabled self.now) (map Report (numbers_in self.now))) }
    {
        for number in 0..self.count() {
            self.add(steps, Step::Report(number))?;
        }
        Ok(())
    }

    /// How many timelines there are.
    pub(crate) fn count(&self) -> u32
        requires reports { length self.now.barrier.reports ≡ length self.now.timelines }
        ensures { result ≡ length self.now.timelines }
    {
        self.parts.barrier.known();
        self.parts.timelines.len() as u32
    }
}

/// Whether nothing refuses the timeline's next event.
fn may_execute<B: Behaviour>(timeline: &Timeline<B>) -> bool
    ensures { result ≡ is_none (refusal timeline.now) }
{
    let (bound, _holder) = timeline.bound();
    let free = timeline.lower_bound() < bound;
    no_cause(timeline.spent(), timeline.done(), free, timeline.over())
}

/// Whether there is no cause to refuse an event: its timeline is not spent, has one in time, which is before
/// the bound, and is not over.
fn no_cause(spent: bool, done: bool, free: bool, over: bool) -> bool
    ensures { result ≡ (not spent && (not done && (free && not over))) }
{
    !spent && !done && free && !over
}

/// Whether the barrier, which has so many timelines, has not ended, and all of them have reported.
pub(crate) fn may_cross(barrier: &Barrier, timelines: u32) -> bool
    requires { length barrier.now.reports ≡ timelines }
    ensures { result ≡ can_cross barrier.now }
{
    !barrier.ended() && all_reported(barrier, timelines)
}

/// Whether all timelines of a barrier, which has so many, have reported.
fn all_reported(barrier: &Barrier, timelines: u32) -> bool
    requires { length barrier.now.reports ≡ timelines }
    ensures { result ≡ is_none (first_without 0 barrier.now.reports) }
{
    for timeline in 0..timelines {
        if !barrier.has_reported(timeline) {
            return false;
        }
    }
    true
}
