//! The steps on all parts.

ghost use Rattle.std.specs.Prelude.{◌≡◌, ◌<◌, nat_lt, is_none, length, Some, None, Ok, IfOk, OnErr};
ghost use Rattle.timeline.specs.Executing.{refusal, IsRun, spent_of};
ghost use Rattle.timeline.specs.Holding.{IsInOrder};
ghost use Rattle.barrier_window.specs.Crossings.{crossing, after_crossing};
ghost use Rattle.sync_steps.specs.Between.{stepped};
ghost use Rattle.sync_steps.specs.declared.steps.Stepped.TheVariants.{Did, NotEnabled};
ghost use Rattle.sync_steps.specs.declared.steps.Step.TheVariants.{Execute, Post, Take, Enter, Report, Cross};
ghost use Rattle.core_rules.specs.Cores.{IsCoreOfRun};
ghost use Rattle.core_rules.specs.Leading.{AreCoreSteps};
ghost use Rattle.core_rules.specs.Stepping.{is_enabled, can_cross, end_at, IsMade};
ghost use Rattle.sync_core.specs.Steps.{MayExecute, MayStep, IsRefused, receiver_from};

use crate::core_parts::Core;
use crate::ends::end_of;
use crate::finding::may_cross;
use barrier_window::Barrier;
use sim_base::Memory;
use ssf_model::Behaviour;
use sync_steps::{Step, Stepped, enter_from, post_between, report_to, take_between};
use timeline::{Ran, Timeline};

impl<B: Behaviour> Core<B> {
    /// Makes a step, where it is enabled; else nothing changes. The parts are those of a run, and stay so.
    ///
    /// # Errors
    /// `Memory`. After it in Execute the timeline is spent; else nothing has changed.
    pub fn step(&mut self, step: Step) -> Result<Stepped, Memory>
        requires run { IsCoreOfRun (B.valid self.old.behaviour) (B.carried self.old.behaviour) (B.reaction self.old.behaviour) self.old }
        ensures cause { IfOk result (λ done. done ≡ stepped (is_enabled self.old step)) }
        ensures made { result ≡ Ok Did → IsMade (B.reaction self.old.behaviour) step self.old self.new }
        ensures kept { result ≡ Ok NotEnabled → self.new ≡ self.old }
        ensures refused { OnErr result (IsRefused step self.old self.new) }
        ensures steps { AreCoreSteps (B.valid self.old.behaviour) (B.carried self.old.behaviour) (B.reaction self.old.behaviour) self.old self.new }
        ensures run { IsCoreOfRun (B.valid self.new.behaviour) (B.carried self.new.behaviour) (B.reaction self.new.behaviour) self.new }
    {
        self.make(step)
    }

    /// Makes a step, where it is enabled and the parts are fit for it; else nothing changes.
    fn make(&mut self, step: Step) -> Result<Stepped, Memory>
        requires may { MayStep (B.valid self.old.behaviour) (B.reaction self.old.behaviour) self.old }
        ensures cause { IfOk result (λ done. done ≡ stepped (is_enabled self.old step)) }
        ensures made { result ≡ Ok Did → IsMade (B.reaction self.old.behaviour) step self.old self.new }
        ensures kept { result ≡ Ok NotEnabled → self.new ≡ self.old }
        ensures refused { OnErr result (IsRefused step self.old self.new) }
    {
        match step {
            Step::Execute(timeline) => self.execute(timeline),
            Step::Post(timeline, channel) => self.post(timeline, channel),
            Step::Take(timeline) => self.take(timeline),
            Step::Enter(timeline) => Ok(self.enter(timeline)),
            Step::Report(timeline) => self.report(timeline),
            Step::Cross => Ok(self.cross()),
        }
    }

    /// Whether there is a timeline with this number.
    pub(crate) fn has(&self, timeline: u32) -> bool
        ensures { result ≡ nat_lt timeline (length self.now.timelines) }
    {
        (timeline as usize) < self.parts.timelines.len()
    }

    fn execute(&mut self, number: u32) -> Result<Stepped, Memory>
        requires may { MayStep (B.valid self.old.behaviour) (B.reaction self.old.behaviour) self.old }
        ensures cause { IfOk result (λ done. done ≡ stepped (is_enabled self.old (Execute number))) }
        ensures made { result ≡ Ok Did → IsMade (B.reaction self.old.behaviour) (Execute number) self.old self.new }
        ensures kept { result ≡ Ok NotEnabled → self.new ≡ self.old }
        ensures refused { OnErr result (IsRefused (Execute number) self.old self.new) }
    {
        if !self.has(number) {
            return Ok(Stepped::NotEnabled);
        }
        let parts = &mut self.parts;
        execute_next(&mut parts.timelines[number as usize], &parts.behaviour)
    }

    /// The timeline to which a channel goes, where it goes from this one.
    pub(crate) fn receiver(&self, sender: u32, channel: u32) -> Option<u32>
        ensures { result ≡ receiver_from sender (end_at channel self.now.ends) }
    {
        let end = end_of(self.parts.ends.as_slice(), channel)?;
        if end.sender == sender {
            Some(end.receiver)
        } else {
            None
        }
    }

    /// Tells a proof that the two timelines of a channel are there.
    pub(crate) fn has_ends(&self, sender: u32, channel: u32, receiver: u32)
        requires may { MayStep (B.valid self.now.behaviour) (B.reaction self.now.behaviour) self.now }
        requires found { receiver_from sender (end_at channel self.now.ends) ≡ Some receiver }
        ensures sender { sender < length self.now.timelines }
        ensures receiver { receiver < length self.now.mails }
    {}

    fn post(&mut self, number: u32, channel: u32) -> Result<Stepped, Memory>
        requires may { MayStep (B.valid self.old.behaviour) (B.reaction self.old.behaviour) self.old }
        ensures cause { IfOk result (λ done. done ≡ stepped (is_enabled self.old (Post number channel))) }
        ensures made { result ≡ Ok Did → IsMade (B.reaction self.old.behaviour) (Post number channel) self.old self.new }
        ensures kept { result ≡ Ok NotEnabled → self.new ≡ self.old }
        ensures refused { OnErr result (IsRefused (Post number channel) self.old self.new) }
    {
        let Some(receiver) = self.receiver(number, channel) else {
            return Ok(Stepped::NotEnabled);
        };
        self.has_ends(number, channel, receiver);
        let parts = &mut self.parts;
        post_between(
            &mut parts.timelines[number as usize],
            channel,
            &mut parts.mails[receiver as usize],
        )
    }

    fn take(&mut self, number: u32) -> Result<Stepped, Memory>
        requires may { MayStep (B.valid self.old.behaviour) (B.reaction self.old.behaviour) self.old }
        ensures cause { IfOk result (λ done. done ≡ stepped (is_enabled self.old (Take number))) }
        ensures made { result ≡ Ok Did → IsMade (B.reaction self.old.behaviour) (Take number) self.old self.new }
        ensures kept { result ≡ Ok NotEnabled → self.new ≡ self.old }
        ensures refused { OnErr result (IsRefused (Take number) self.old self.new) }
    {
        if !self.has(number) {
            return Ok(Stepped::NotEnabled);
        }
        let parts = &mut self.parts;
        let place = number as usize;
        take_between(&mut parts.timelines[place], &mut parts.mails[place])
    }

    fn enter(&mut self, number: u32) -> Stepped
        requires may { MayStep (B.valid self.old.behaviour) (B.reaction self.old.behaviour) self.old }
        ensures cause { result ≡ stepped (is_enabled self.old (Enter number)) }
        ensures made { result ≡ Did → IsMade (B.reaction self.old.behaviour) (Enter number) self.old self.new }
        ensures kept { result ≡ NotEnabled → self.new ≡ self.old }
    {
        if !self.has(number) {
            return Stepped::NotEnabled;
        }
        let parts = &mut self.parts;
        enter_from(&mut parts.timelines[number as usize], &parts.barrier)
    }

    fn report(&mut self, number: u32) -> Result<Stepped, Memory>
        requires may { MayStep (B.valid self.old.behaviour) (B.reaction self.old.behaviour) self.old }
        ensures cause { IfOk result (λ done. done ≡ stepped (is_enabled self.old (Report number))) }
        ensures made { result ≡ Ok Did → IsMade (B.reaction self.old.behaviour) (Report number) self.old self.new }
        ensures kept { result ≡ Ok NotEnabled → self.new ≡ self.old }
        ensures refused { OnErr result (IsRefused (Report number) self.old self.new) }
    {
        if !self.has(number) {
            return Ok(Stepped::NotEnabled);
        }
        let alloc = self.alloc;
        let parts = &mut self.parts;
        report_to(
            alloc,
            &parts.timelines[number as usize],
            number,
            &mut parts.barrier,
        )
    }

    fn cross(&mut self) -> Stepped
        requires may { MayStep (B.valid self.old.behaviour) (B.reaction self.old.behaviour) self.old }
        ensures cause { result ≡ stepped (is_enabled self.old Cross) }
        ensures made { result ≡ Did → IsMade (B.reaction self.old.behaviour) Cross self.old self.new }
        ensures kept { result ≡ NotEnabled → self.new ≡ self.old }
    {
        let timelines = self.count();
        cross_over(&mut self.parts.barrier, timelines)
    }
}

/// Executes the timeline's first pending event, where nothing refuses it.
fn execute_next<B: Behaviour>(timeline: &mut Timeline<B>, behaviour: &B) -> Result<Stepped, Memory>
    requires may { MayExecute (B.valid behaviour.now) (B.reaction behaviour.now) timeline.old }
    ensures cause { IfOk result (λ done. done ≡ stepped (is_none (refusal timeline.old))) }
    ensures due { result ≡ Ok Did → refusal timeline.old ≡ None }
    ensures made { result ≡ Ok Did → IsRun (B.reaction behaviour.now) timeline.old timeline.new }
    ensures kept { result ≡ Ok NotEnabled → timeline.new ≡ timeline.old }
    ensures free { OnErr result (refusal timeline.old ≡ None) }
    ensures spent { OnErr result (timeline.new ≡ spent_of timeline.old timeline.new) }
    ensures order { OnErr result (IsInOrder timeline.new) }
{
    match timeline.execute(behaviour) {
        Ok(Ran::Ran(_key)) => Ok(Stepped::Did),
        Ok(_refused) => Ok(Stepped::NotEnabled),
        Err(Memory) => {
            timeline.keeps_order();
            Err(Memory)
        }
    }
}

/// Crosses the barrier, which has so many timelines, where it has not ended and all of them have reported.
fn cross_over(barrier: &mut Barrier, timelines: u32) -> Stepped
    requires { length barrier.old.reports ≡ timelines }
    ensures cause { result ≡ stepped (can_cross barrier.old) }
    ensures made { result ≡ Did → barrier.new ≡ after_crossing (crossing barrier.old) barrier.old }
    ensures kept { result ≡ NotEnabled → barrier.new ≡ barrier.old }
{
    if !may_cross(barrier, timelines) {
        return Stepped::NotEnabled;
    }
    let _crossing = barrier.cross();
    Stepped::Did
}
