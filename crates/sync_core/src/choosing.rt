//! Which step is next, and where the budget ends.

ghost use Rattle.std.specs.Prelude.{◌≡◌, ℕ, ◌<◌, ◌≤◌, true, false, length, [], ◌∷◌, Some, slice_get, IfSome, IfNone};
ghost use Rattle.std.specs.List.{filter};
ghost use Rattle.timeline.specs.View.{TimelineOf};
ghost use Rattle.timeline.specs.Holding.{low_in, is_over};
ghost use Rattle.core_rules.specs.Stepping.{is_enabled};
ghost use Rattle.core_rules.specs.Reading.{safe_bound_in, BudgetEndsIn};
ghost use Rattle.sync_core.specs.Steps.{MayStep, posts_of, enabled_steps};
ghost use Rattle.sync_core.specs.Driving.{EndsFirstAt};
ghost use Rattle.sync_core.specs.Choosing.{steps_of, all_of, Covers, IsWorkOf};

use crate::core_parts::Core;
use crate::work::{Kind, Work};
use marked_numbers::Marks;
use ssf_model::Behaviour;
use sync_steps::Step;
use timeline::Timeline;

impl<B: Behaviour> Core<B> {
    /// The first enabled step, in the order of `enabled`. A timeline that has none of a kind is marked for
    /// it no more.
    pub(crate) fn first_enabled(&self, work: &mut Work) -> Option<Step>
        requires may { MayStep (B.valid self.now.behaviour) (B.reaction self.now.behaviour) self.now }
        requires work { IsWorkOf self.now work.old }
        ensures work { IsWorkOf self.now work.new }
        ensures first { result ≡ slice_get (enabled_steps self.now) 0 }
    {
        if let Some(step) = self.first_of(Kind::Executes, &mut work.executes) {
            return Some(step);
        }
        if let Some(step) = self.first_of(Kind::Posts, &mut work.posts) {
            return Some(step);
        }
        if let Some(step) = self.first_of(Kind::Takes, &mut work.takes) {
            return Some(step);
        }
        if let Some(step) = self.first_of(Kind::Enters, &mut work.enters) {
            return Some(step);
        }
        if let Some(step) = self.first_of(Kind::Reports, &mut work.reports) {
            return Some(step);
        }
        self.if_enabled(Step::Cross)
    }

    /// The first enabled step of a kind.
    fn first_of(&self, kind: Kind, marks: &mut Marks) -> Option<Step>
        requires may { MayStep (B.valid self.now.behaviour) (B.reaction self.now.behaviour) self.now }
        requires covers { Covers kind self.now marks.old }
        ensures covers { Covers kind self.now marks.new }
        ensures first { result ≡ slice_get (filter (is_enabled self.now) (all_of kind self.now)) 0 }
    {
        while let Some(number) = marks.first() {
            if let Some(step) = self.first_at(kind, number) {
                return Some(step);
            }
            marks.unmark(number);
        }
        None
    }

    /// The first enabled step of a kind of a timeline.
    fn first_at(&self, kind: Kind, number: u32) -> Option<Step>
        requires may { MayStep (B.valid self.now.behaviour) (B.reaction self.now.behaviour) self.now }
        requires number { number < length self.now.timelines }
        ensures { result ≡ slice_get (filter (is_enabled self.now) (steps_of kind self.now number)) 0 }
    {
        match kind {
            Kind::Executes => self.if_enabled(Step::Execute(number)),
            Kind::Posts => self.first_post(number),
            Kind::Takes => self.if_enabled(Step::Take(number)),
            Kind::Enters => self.if_enabled(Step::Enter(number)),
            Kind::Reports => self.if_enabled(Step::Report(number)),
        }
    }

    /// The first enabled post of a timeline.
    fn first_post(&self, number: u32) -> Option<Step>
        requires may { MayStep (B.valid self.now.behaviour) (B.reaction self.now.behaviour) self.now }
        requires number { number < length self.now.timelines }
        ensures { (t : TimelineOf B B.State B.Payload) → slice_get self.now.timelines number ≡ Some t → result ≡ slice_get (filter (is_enabled self.now) (posts_of (number, t))) 0 }
    {
        let outs = self.parts.timelines[number as usize].outs();
        for cross in outs {
            let step = Step::Post(number, cross.mapping.channel);
            if self.can(step) {
                return Some(step);
            }
        }
        None
    }

    /// The step, where it is enabled.
    fn if_enabled(&self, step: Step) -> Option<Step>
        requires may { MayStep (B.valid self.now.behaviour) (B.reaction self.now.behaviour) self.now }
        ensures { result ≡ slice_get (filter (is_enabled self.now) (step ∷ [])) 0 }
    {
        if self.can(step) { Some(step) } else { None }
    }

    /// The least timeline at which the budget ends. All timelines are looked at only where one whose budget
    /// is spent may have the least lower bound.
    pub(crate) fn budget_end(&self, work: &mut Work) -> Option<u32>
        requires reports { length self.now.barrier.reports ≡ length self.now.timelines }
        requires work { IsWorkOf self.now work.old }
        ensures work { IsWorkOf self.now work.new }
        ensures some { IfSome result (λ i. EndsFirstAt self.now i) }
        ensures none { IfNone result ((i : ℕ) → BudgetEndsIn self.now i → ⊥) }
    {
        if self.is_behind(work.behind, work.over) {
            return None;
        }
        let bound = self.safe_bound();
        let (over, behind) = self.least_over(bound);
        work.over = over;
        work.behind = behind;
        self.first_over(bound)
    }

    /// Whether there is a timeline with this number, and its lower bound is before a time, in ticks.
    fn is_behind(&self, number: u32, time: u64) -> bool
        ensures { result ≡ true → (t : TimelineOf B B.State B.Payload) × (slice_get self.now.timelines number ≡ Some t) × (low_in t < time) }
    {
        if !self.has(number) {
            return false;
        }
        self.parts.timelines[number as usize].lower_bound() < time
    }

    /// A time, in ticks, before which no timeline whose budget is spent has its lower bound, and a
    /// timeline whose lower bound is `bound`.
    fn least_over(&self, bound: u64) -> (u64, u32)
        requires reports { length self.now.barrier.reports ≡ length self.now.timelines }
        ensures { (i : ℕ) (t : TimelineOf B B.State B.Payload) → slice_get self.now.timelines i ≡ Some t → is_over t ≡ true → result.0 ≤ low_in t }
    {
        let mut least = u64::MAX;
        let mut behind = 0;
        for number in 0..self.count() {
            let timeline = &self.parts.timelines[number as usize];
            let low = timeline.lower_bound();
            if timeline.over() {
                least = least.min(low);
            }
            if low == bound {
                behind = number;
            }
        }
        (least, behind)
    }

    /// The first timeline whose budget is spent and whose lower bound is `bound`.
    fn first_over(&self, bound: u64) -> Option<u32>
        requires reports { length self.now.barrier.reports ≡ length self.now.timelines }
        requires bound { bound ≡ safe_bound_in self.now }
        ensures some { IfSome result (λ i. EndsFirstAt self.now i) }
        ensures none { IfNone result ((i : ℕ) → BudgetEndsIn self.now i → ⊥) }
    {
        for number in 0..self.count() {
            if is_over_at(&self.parts.timelines[number as usize], bound) {
                return Some(number);
            }
        }
        None
    }
}

/// Whether the timeline's budget is spent, with its lower bound at this time, in ticks.
fn is_over_at<B: Behaviour>(timeline: &Timeline<B>, bound: u64) -> bool
    ensures yes { result ≡ true → (is_over timeline.now ≡ true) × (low_in timeline.now ≡ bound) }
    ensures no { result ≡ false → is_over timeline.now ≡ true → low_in timeline.now ≡ bound → ⊥ }
{
    timeline.over() && timeline.lower_bound() == bound
}
