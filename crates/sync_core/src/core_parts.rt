//! All parts of a run.

ghost use Rattle.std.specs.Prelude.{◌≡◌, ℕ, ◌+◌, ◌≤◌, List, map, length, IfOk};
ghost use Rattle.event_order.specs.Pending.{Among};
ghost use Rattle.ssf_model.specs.Reaction.{LatestTime};
ghost use Rattle.ssf_model.specs.Run.{Fits};
ghost use Rattle.run_health.specs.Healthy.{MostEvents};
ghost use Rattle.alignment.specs.declared.labels.Mode.{Mode};
ghost use Rattle.alignment.specs.Alignment.{IsAlignment};
ghost use Rattle.alignment.specs.Classes.{classified};
ghost use Rattle.timeline_parts.specs.declared.part.Part.{Part as PartValue};
ghost use Rattle.timeline_parts.specs.Parts.{IsPart, channel_of};
ghost use Rattle.timeline_parts.specs.Tables.{AreRising};
ghost use Rattle.timeline.specs.View.{TimelineOf};
ghost use Rattle.timeline.specs.Holding.{low_in};
ghost use Rattle.timeline.specs.Moving.{without};
ghost use Rattle.barrier_window.specs.BarrierFields.{IsLookahead};
ghost use Rattle.barrier_window.specs.Crossings.{first_barrier};
ghost use Rattle.core_rules.specs.Cores.{channel_in, IsCoreOfRun};
ghost use Rattle.core_rules.specs.Stepping.{without_below};
ghost use Rattle.core_rules.specs.Beginning.{IsFirstCore};
ghost use Rattle.core_rules.specs.Reading.{safe_bound_in};
ghost use Rattle.sync_core.specs.Cores.{core_of, IsOrdered, least_low, AreFirst, first_mail_of};

use alignment::{Alignment, Classes};
use appointments::Mail;
use barrier_window::Barrier;
use plan_shares::{CrossEnd, Shares, share_out};
use sim_base::{ListOf, Memory};
use ssf_model::{Behaviour, Plan};
use std::alloc::Global;
use std::marker::Model;
use timeline::{Cross, Part, Timeline};

/// All timelines of a run with their mails, the barrier, and what else there is of the plan.
#[derive(Drop)]
pub struct Parts<B: Behaviour> {
    /// The plan's behaviour.
    pub behaviour: B,
    /// The timelines, by their numbers.
    pub timelines: Vec<Timeline<B>>,
    /// The mail of each timeline.
    pub mails: Vec<Mail<B::Payload>>,
    pub barrier: Barrier,
    /// The channels between two timelines, in rising order.
    pub ends: Vec<CrossEnd>,
    /// The last time that is executed, in ticks, and the most events that a timeline executes.
    pub until: u64,
    pub budget: u64,
    /// How many events went before.
    pub before: u64,
    /// How many writes each start channel counts.
    pub starts: ListOf<u64>,
}

/// All parts of a run.
#[derive(Drop)]
pub struct Core<B: Behaviour> {
    pub(crate) alloc: Global,
    pub(crate) parts: Parts<B>,
}

impl<B: Behaviour> Model for Core<B> {
    ghost use Rattle.core_rules.specs.Cores.{CoreView};

    ghost Value = { CoreView B B.State B.Payload };

    ghost use Rattle.sync_core.specs.Cores.{core_of, IsOrdered};

    ghost view = { λ c. core_of c.parts };

    ghost invariant = { λ c. IsOrdered (core_of c.parts) };
}

impl<B: Behaviour> Core<B> {
    /// Shares a plan out to the timelines of an alignment of it, with the classes of its mappings.
    /// Events are executed up to the time `until`, in ticks, at most 10^18, and at most `budget` of each
    /// timeline, at most 10^12.
    ///
    /// # Errors
    /// `Memory`.
    pub fn new(
        alloc: Global,
        plan: Plan<B>,
        alignment: &Alignment,
        classes: &Classes,
        until: u64,
        budget: u64,
    ) -> Result<Core<B>, Memory>
        requires fits { Fits (B.valid plan.behaviour) (B.carried plan.behaviour) plan }
        requires aligned { (nets : List ℕ) × (mode : Mode) × IsAlignment plan nets mode alignment.now }
        requires classes { (threshold : ℕ) × (classes.now ≡ classified alignment.now threshold plan.mappings) }
        requires until { until ≤ LatestTime }
        requires budget { budget ≤ MostEvents }
        ensures first { IfOk result (λ core. (threshold : ℕ) → classes.now ≡ classified alignment.now threshold plan.mappings → IsFirstCore plan alignment.now threshold until budget core) }
        ensures run { IfOk result (λ core. IsCoreOfRun (B.valid core.behaviour) (B.carried core.behaviour) (B.reaction core.behaviour) core) }
    {
        let shares = share_out(alloc, plan, alignment, classes)?;
        let barrier = barrier_of(
            alloc,
            shares.ends.as_slice(),
            alignment.count(),
            classes.least_windowed(),
            until,
        )?;
        let Shares {
            behaviour,
            parts,
            ends,
            starts,
            before,
        } = shares;
        let timelines = timelines_of(alloc, parts.into_vec(), until, budget)?;
        let mails = mails_of(alloc, timelines.as_slice())?;
        let parts = Parts {
            behaviour,
            timelines,
            mails,
            barrier,
            ends: ends.into_vec(),
            until,
            budget,
            before,
            starts,
        };
        Ok(Core { alloc, parts })
    }

    /// The parts alone.
    pub fn take_apart(self) -> Parts<B>
        ensures parts { core_of result ≡ self }
        ensures ordered { IsOrdered self }
    {
        let Core { parts, .. } = self;
        parts
    }

    /// The parts of a run put together again.
    pub fn put_together(alloc: Global, parts: Parts<B>) -> Core<B>
        requires ordered { IsOrdered (core_of parts) }
        ensures { result ≡ core_of parts }
    {
        Core { alloc, parts }
    }

    /// The time before which each event of the run was executed, in ticks: the least lower bound of
    /// the timelines, up to a tick after the end.
    pub fn safe_bound(&self) -> u64
        ensures { result ≡ safe_bound_in self.now }
    {
        least_low_of(self.parts.timelines.as_slice(), self.parts.until + 1)
    }

    /// How many windows were crossed, and the last one, in ticks; (0, 0) at first.
    pub fn windows(&self) -> (u64, u64)
        ensures crossed { result.0 ≡ self.now.barrier.round }
        ensures last { result.1 ≡ self.now.barrier.window }
    {
        self.parts.barrier.windows()
    }

    /// The timelines, each with its history.
    pub fn histories(&self) -> &[Timeline<B>]
        ensures { result.now ≡ self.now.timelines }
    {
        self.parts.timelines.as_slice()
    }

    /// Takes from each history the entries with times below `below`, in ticks, which is at most the safe
    /// bound.
    pub fn give_up(&mut self, below: u64)
        requires below { below ≤ safe_bound_in self.old }
        ensures given { self.new ≡ without_below below self.old }
        ensures run { IsCoreOfRun (B.valid self.old.behaviour) (B.carried self.old.behaviour) (B.reaction self.old.behaviour) self.old → IsCoreOfRun (B.valid self.new.behaviour) (B.carried self.new.behaviour) (B.reaction self.new.behaviour) self.new }
    {
        give_up_below(&mut self.parts.timelines, below);
    }
}

/// The least of a time and the lower bounds of some timelines, in ticks.
fn least_low_of<B: Behaviour>(timelines: &[Timeline<B>], bound: u64) -> u64
    ensures { result ≡ least_low bound timelines.now }
{
    let mut least = bound;
    for timeline in timelines {
        least = least.min(timeline.lower_bound());
    }
    least
}

/// Takes from the history of each of these timelines the entries with times below `below`.
fn give_up_below<B: Behaviour>(timelines: &mut Vec<Timeline<B>>, below: u64)
    requires bound { (t : TimelineOf B B.State B.Payload) → Among t timelines.old.items → below ≤ low_in t }
    ensures { timelines.new.items ≡ map (without below) timelines.old.items }
{
    for place in 0..timelines.len() {
        timelines[place].give_up(below);
    }
}

/// The barrier of so many timelines and of the channels of these ends.
fn barrier_of(
    alloc: Global,
    ends: &[CrossEnd],
    timelines: u32,
    lookahead: Option<u64>,
    until: u64,
) -> Result<Barrier, Memory>
    requires rising { AreRising (map channel_in ends.now) }
    requires lookahead { IsLookahead lookahead }
    requires until { until ≤ LatestTime }
    ensures { IfOk result (λ b. b ≡ first_barrier timelines (map channel_in ends.now) lookahead until) }
{
    let channels = channels_of(alloc, ends)?;
    Barrier::new(alloc, timelines, channels.as_slice(), lookahead, until)
}

/// The channels of these ends.
fn channels_of(alloc: Global, ends: &[CrossEnd]) -> Result<Vec<u32>, Memory>
    ensures { IfOk result (λ channels. channels.items ≡ map channel_in ends.now) }
{
    let mut channels = Vec::new(alloc);
    for end in ends {
        channels.push(end.channel)?;
    }
    Ok(channels)
}

/// A timeline of each part.
fn timelines_of<B: Behaviour>(
    alloc: Global,
    parts: Vec<Part<B>>,
    until: u64,
    budget: u64,
) -> Result<Vec<Timeline<B>>, Memory>
    requires parts { (p : PartValue B B.State B.Payload) → Among p parts.items → IsPart p }
    requires until { until ≤ LatestTime }
    requires budget { budget ≤ MostEvents }
    ensures { IfOk result (λ timelines. AreFirst until budget parts.items timelines.items) }
{
    let mut timelines = Vec::new(alloc);
    for part in parts {
        match Timeline::new(alloc, part, until, budget) {
            Ok(timeline) => timelines.push(timeline)?,
            Err(_) => return Err(Memory),
        }
    }
    Ok(timelines)
}

/// The mail of each timeline.
fn mails_of<B: Behaviour>(
    alloc: Global,
    timelines: &[Timeline<B>],
) -> Result<Vec<Mail<B::Payload>>, Memory>
    requires rising { (t : TimelineOf B B.State B.Payload) → Among t timelines.now → AreRising (map channel_of t.ins) }
    ensures { IfOk result (λ mails. mails.items ≡ map first_mail_of timelines.now) }
{
    let mut mails = Vec::new(alloc);
    for timeline in timelines {
        mails.push(mail_of(alloc, timeline)?)?;
    }
    Ok(mails)
}

/// The mail of a timeline, on the channels that come to it.
fn mail_of<B: Behaviour>(alloc: Global, timeline: &Timeline<B>) -> Result<Mail<B::Payload>, Memory>
    requires rising { AreRising (map channel_of timeline.now.ins) }
    ensures { IfOk result (λ mail. mail ≡ first_mail_of timeline.now) }
{
    let channels = channels_into(alloc, timeline.ins())?;
    Mail::new(alloc, channels.as_slice())
}

/// The channels of these mappings.
fn channels_into(alloc: Global, ins: &[Cross]) -> Result<Vec<u32>, Memory>
    ensures { IfOk result (λ channels. channels.items ≡ map channel_of ins.now) }
{
    let mut channels = Vec::new(alloc);
    for cross in ins {
        channels.push(cross.mapping.channel)?;
    }
    Ok(channels)
}
