//! Steps one after the other, up to an end.

ghost use Rattle.std.specs.Prelude.{◌≡◌, ◌↔◌, ℕ, ◌+◌, ◌<◌, ◌≤◌, true, false, cond, nat_lt, min, drop, length, Some, None, IfSome, IfNone, IfOk, OnOk, OnErr};
ghost use Rattle.core_rules.specs.Cores.{CoreView, IsCoreOfRun};
ghost use Rattle.core_rules.specs.Leading.{AreCoreSteps};
ghost use Rattle.core_rules.specs.Reading.{BudgetEndsIn};
ghost use Rattle.core_rules.specs.Stepping.{IsMade};
ghost use Rattle.sync_core.specs.Steps.{MayStep};
ghost use Rattle.sync_core.specs.Driving.{EndsFirstAt, HasCome, GoesOn, IsTried, AreTries, AreTriesUpTo, IsOnward};
ghost use Rattle.sync_core.specs.Choosing.{IsWorkOf, HasMarks, IsMarkedAt, own_timeline, taker_of, last_round, IsNotPast, IsDue, IsNextStep, IsNextTry, IsLeft};

use crate::core_parts::Core;
use crate::work::Work;
use sim_base::Memory;
use ssf_model::Behaviour;
use sync_steps::{Step, Stepped};

/// How a run ended.
#[derive(Clone, Copy, Debug, PartialEq, Eq)]
pub enum CoreEnd {
    /// The barrier has ended.
    Finished,
    /// The budget ends at this timeline, the first such one.
    OverBudget(u32),
}

/// How some of a run ended.
#[derive(Clone, Copy, Debug, PartialEq, Eq)]
pub enum DriveEnd {
    /// The barrier has ended.
    Finished,
    /// The budget ends at this timeline, the first such one.
    OverBudget(u32),
    /// The barrier was crossed as often as was asked for.
    Crossed,
}

/// What was done of a run.
#[derive(Clone, Copy, Debug, PartialEq, Eq)]
pub struct Driven {
    /// How many scheduled steps were tried.
    pub used: usize,
    pub end: DriveEnd,
}

impl<B: Behaviour> Core<B> {
    /// Tries the scheduled steps in order, passing over those that are not enabled, and then makes the
    /// first enabled step again and again, up to the end. The parts are those of a run, and stay so.
    ///
    /// # Errors
    /// `Memory`, also where a timeline is spent and no step is enabled. The steps made before it stand.
    pub fn drive(&mut self, schedule: &[Step]) -> Result<CoreEnd, Memory>
        requires run { IsCoreOfRun (B.valid self.old.behaviour) (B.carried self.old.behaviour) (B.reaction self.old.behaviour) self.old }
        ensures finished { IfOk result (λ end. (end ≡ CoreEnd.Finished) ↔ (self.new.barrier.ended ≡ true)) }
        ensures over { IfOk result (λ end. (i : ℕ) → (end ≡ CoreEnd.OverBudget i) ↔ ((self.new.barrier.ended ≡ false) × EndsFirstAt self.new i)) }
        ensures driven { IfOk result (λ end. (tries : ℕ) × AreTries (B.reaction self.old.behaviour) None tries schedule.now self.old self.new) }
        ensures stopped { OnErr result (AreTriesUpTo (B.reaction self.old.behaviour) None schedule.now self.old self.new) }
        ensures onward { IsOnward self.old self.new }
        ensures steps { AreCoreSteps (B.valid self.old.behaviour) (B.carried self.old.behaviour) (B.reaction self.old.behaviour) self.old self.new }
        ensures run { IsCoreOfRun (B.valid self.new.behaviour) (B.carried self.new.behaviour) (B.reaction self.new.behaviour) self.new }
    {
        match self.go_on(schedule, None)?.end {
            DriveEnd::Finished => Ok(CoreEnd::Finished),
            DriveEnd::OverBudget(timeline) => Ok(CoreEnd::OverBudget(timeline)),
            DriveEnd::Crossed => unreachable!(),
        }
    }

    /// Does what `drive` does, up to the end or until the barrier was crossed `crossings` times, which is
    /// at least once.
    ///
    /// # Errors
    /// As `drive`.
    pub fn drive_some(&mut self, schedule: &[Step], crossings: u64) -> Result<Driven, Memory>
        requires run { IsCoreOfRun (B.valid self.old.behaviour) (B.carried self.old.behaviour) (B.reaction self.old.behaviour) self.old }
        requires crossings { 1 ≤ crossings }
        ensures finished { IfOk result (λ driven. (driven.end ≡ DriveEnd.Finished) ↔ (self.new.barrier.ended ≡ true)) }
        ensures over { IfOk result (λ driven. (i : ℕ) → (driven.end ≡ DriveEnd.OverBudget i) ↔ ((self.new.barrier.ended ≡ false) × EndsFirstAt self.new i)) }
        ensures crossed { IfOk result (λ driven. (driven.end ≡ DriveEnd.Crossed) ↔ ((self.new.barrier.ended ≡ false) × (self.new.barrier.round ≡ self.old.barrier.round + crossings))) }
        ensures used { IfOk result (λ driven. driven.used ≤ length schedule.now) }
        ensures driven { IfOk result (λ driven. (tries : ℕ) × (driven.used ≡ min tries (length schedule.now)) × AreTries (B.reaction self.old.behaviour) (Some (self.old.barrier.round + crossings)) tries schedule.now self.old self.new) }
        ensures stopped { OnErr result (AreTriesUpTo (B.reaction self.old.behaviour) (Some (self.old.barrier.round + crossings)) schedule.now self.old self.new) }
        ensures onward { IsOnward self.old self.new }
        ensures steps { AreCoreSteps (B.valid self.old.behaviour) (B.carried self.old.behaviour) (B.reaction self.old.behaviour) self.old self.new }
        ensures run { IsCoreOfRun (B.valid self.new.behaviour) (B.carried self.new.behaviour) (B.reaction self.new.behaviour) self.new }
    {
        self.go_on(schedule, Some(crossings))
    }

    /// Makes steps up to the end, or until the barrier was crossed `crossings` times, where a number is
    /// given.
    fn go_on(&mut self, schedule: &[Step], crossings: Option<u64>) -> Result<Driven, Memory>
        requires run { IsCoreOfRun (B.valid self.old.behaviour) (B.carried self.old.behaviour) (B.reaction self.old.behaviour) self.old }
        requires crossings { IfSome crossings (λ count. 1 ≤ count) }
        ensures due { IfOk result (λ driven. IsDue (last_round self.old.barrier.round crossings) self.new driven.end) }
        ensures apart { HasCome (last_round self.old.barrier.round crossings) self.new → (i : ℕ) → BudgetEndsIn self.new i → ⊥ }
        ensures driven { IfOk result (λ driven. (tries : ℕ) × (driven.used ≡ min tries (length schedule.now)) × AreTries (B.reaction self.old.behaviour) (last_round self.old.barrier.round crossings) tries schedule.now self.old self.new) }
        ensures stopped { OnErr result (AreTriesUpTo (B.reaction self.old.behaviour) (last_round self.old.barrier.round crossings) schedule.now self.old self.new) }
        ensures onward { IsOnward self.old self.new }
        ensures steps { AreCoreSteps (B.valid self.old.behaviour) (B.carried self.old.behaviour) (B.reaction self.old.behaviour) self.old self.new }
        ensures run { IsCoreOfRun (B.valid self.new.behaviour) (B.carried self.new.behaviour) (B.reaction self.new.behaviour) self.new }
    {
        let mut work = self.all_work()?;
        let first = self.parts.barrier.round();
        let mut used = 0;
        loop {
            if let Some(end) = self.end_due(&mut work, first, crossings) {
                return Ok(Driven { used, end });
            }
            self.try_next(&mut work, schedule, &mut used)?;
        }
    }

    /// All that the timelines may do.
    fn all_work(&self) -> Result<Work, Memory>
        requires reports { length self.now.barrier.reports ≡ length self.now.timelines }
        ensures { IfOk result (λ work. IsWorkOf self.now work) }
    {
        Work::all(self.alloc, self.count() as usize)
    }

    /// The end that is due, if there is one.
    fn end_due(&self, work: &mut Work, first: u64, crossings: Option<u64>) -> Option<DriveEnd>
        requires reports { length self.now.barrier.reports ≡ length self.now.timelines }
        requires work { IsWorkOf self.now work.old }
        requires crossings { IfSome crossings (λ count. 1 ≤ count) }
        requires short { IsNotPast (last_round first crossings) self.now }
        ensures work { IsWorkOf self.now work.new }
        ensures due { IfSome result (λ end. IsDue (last_round first crossings) self.now end) }
        ensures on { IfNone result (GoesOn (last_round first crossings) self.now) }
    {
        if self.parts.barrier.ended() {
            return Some(DriveEnd::Finished);
        }
        if let Some(timeline) = self.budget_end(work) {
            return Some(DriveEnd::OverBudget(timeline));
        }
        if self.has_crossed(first, crossings) {
            return Some(DriveEnd::Crossed);
        }
        None
    }

    /// Whether the barrier was crossed so many times since the round `first`, where a number is given.
    fn has_crossed(&self, first: u64, crossings: Option<u64>) -> bool
        requires crossings { IfSome crossings (λ count. 1 ≤ count) }
        requires short { IsNotPast (last_round first crossings) self.now }
        ensures yes { result ≡ true → HasCome (last_round first crossings) self.now }
        ensures no { result ≡ false → HasCome (last_round first crossings) self.now → ⊥ }
    {
        match crossings {
            None => false,
            Some(count) => self.parts.barrier.round().saturating_sub(first) >= count,
        }
    }

    /// Tries the next scheduled step, or makes the first enabled one where none is left.
    fn try_next(
        &mut self,
        work: &mut Work,
        schedule: &[Step],
        used: &mut usize,
    ) -> Result<(), Memory>
        requires run { IsCoreOfRun (B.valid self.old.behaviour) (B.carried self.old.behaviour) (B.reaction self.old.behaviour) self.old }
        requires work { IsWorkOf self.old work.old }
        ensures work { OnOk result (IsWorkOf self.new work.new) }
        ensures used { OnOk result (used.new ≡ used.old + cond (nat_lt used.old (length schedule.now)) 1 0) }
        ensures onward { IsOnward self.old self.new }
        ensures tried { OnOk result (IsNextTry (B.reaction self.old.behaviour) (drop used.old schedule.now) self.old self.new) }
        ensures left { OnErr result (IsLeft self.old self.new) }
        ensures steps { AreCoreSteps (B.valid self.old.behaviour) (B.carried self.old.behaviour) (B.reaction self.old.behaviour) self.old self.new }
        ensures run { IsCoreOfRun (B.valid self.new.behaviour) (B.carried self.new.behaviour) (B.reaction self.new.behaviour) self.new }
    {
        let Some(step) = self.next_step(work, schedule, used) else {
            return Err(Memory);
        };
        self.step_on(work, step)?;
        Ok(())
    }

    /// The next scheduled step, or the first enabled one where none is left.
    fn next_step(&self, work: &mut Work, schedule: &[Step], used: &mut usize) -> Option<Step>
        requires may { MayStep (B.valid self.now.behaviour) (B.reaction self.now.behaviour) self.now }
        requires work { IsWorkOf self.now work.old }
        ensures work { IsWorkOf self.now work.new }
        ensures used { used.new ≡ used.old + cond (nat_lt used.old (length schedule.now)) 1 0 }
        ensures next { IfSome result (λ step. IsNextStep (drop used.old schedule.now) self.now step) }
    {
        if *used < schedule.len() {
            let step = schedule[*used];
            *used += 1;
            return Some(step);
        }
        self.first_enabled(work)
    }

    /// Makes a step, where it is enabled, and marks what it may have enabled.
    fn step_on(&mut self, work: &mut Work, step: Step) -> Result<(), Memory>
        requires run { IsCoreOfRun (B.valid self.old.behaviour) (B.carried self.old.behaviour) (B.reaction self.old.behaviour) self.old }
        requires work { IsWorkOf self.old work.old }
        ensures work { OnOk result (IsWorkOf self.new work.new) }
        ensures onward { IsOnward self.old self.new }
        ensures tried { OnOk result (IsTried (B.reaction self.old.behaviour) step self.old self.new) }
        ensures left { OnErr result (IsLeft self.old self.new) }
        ensures steps { AreCoreSteps (B.valid self.old.behaviour) (B.carried self.old.behaviour) (B.reaction self.old.behaviour) self.old self.new }
        ensures run { IsCoreOfRun (B.valid self.new.behaviour) (B.carried self.new.behaviour) (B.reaction self.new.behaviour) self.new }
    {
        match self.step(step)? {
            Stepped::Did => self.mark_after(work, step),
            Stepped::NotEnabled => {}
        }
        Ok(())
    }

    /// Marks what a step that was made may have enabled.
    fn mark_after(&self, work: &mut Work, step: Step)
        requires may { MayStep (B.valid self.now.behaviour) (B.reaction self.now.behaviour) self.now }
        requires made { (core : CoreView B B.State B.Payload) × IsMade (B.reaction core.behaviour) step core self.now × IsWorkOf core work.old }
        ensures { IsWorkOf self.now work.new }
    {
        match own_timeline(step) {
            Some(timeline) => self.mark_at(work, timeline, self.taker(step, timeline)),
            None => work.mark_crossed(),
        }
    }

    /// The timeline that may take after a step of this one: the receiver of a post, and else this one.
    fn taker(&self, step: Step, timeline: u32) -> u32
        ensures { result ≡ taker_of self.now step timeline }
    {
        match step {
            Step::Post(_, channel) => self.receiver(timeline, channel).unwrap_or(timeline),
            _ => timeline,
        }
    }

    /// Marks what a timeline may do after a step of its own, and that a receiver may take. Where the
    /// timeline's budget is spent then, the budget may end there.
    fn mark_at(&self, work: &mut Work, timeline: u32, receiver: u32)
        requires timeline { timeline < length self.now.timelines }
        requires receiver { receiver < length self.now.timelines }
        requires marks { HasMarks (length self.now.timelines) work.old }
        ensures { IsMarkedAt self.now timeline receiver work.old work.new }
    {
        work.mark(timeline, receiver);
        let own = &self.parts.timelines[timeline as usize];
        if own.over() {
            work.over = work.over.min(own.lower_bound());
        }
    }
}

/// The timeline that makes a step, if one does.
fn own_timeline(step: Step) -> Option<u32>
    ensures { result ≡ own_timeline step }
{
    match step {
        Step::Execute(timeline)
        | Step::Post(timeline, _)
        | Step::Take(timeline)
        | Step::Enter(timeline)
        | Step::Report(timeline) => Some(timeline),
        Step::Cross => None,
    }
}
