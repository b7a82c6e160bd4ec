//! The barrier, its reports and its crossings.

ghost use Rattle.std.specs.Prelude.{◌≡◌, ◌<◌, ◌≤◌, ◌^◌, drop, length, replicate, None};
ghost use Rattle.std.specs.List.{All, Contains};
ghost use Rattle.std.specs.List.Sorted.{IsStrictlyIncreasing};
ghost use Rattle.ssf_model.specs.Truth.{next_window};
ghost use Rattle.barrier_window.specs.BarrierFields.{IsLookahead};
ghost use Rattle.barrier_window.specs.Crossings.{latest_of, first_without};

use channel_places::place_of;
use sim_base::Memory;
use std::alloc::Global;
use std::marker::Model;

/// What became of a report.
#[derive(Clone, Copy, Debug, PartialEq, Eq)]
pub enum Reported {
    /// It was taken.
    Taken,
    /// It is one of another round than the held one, which is told. Nothing changed.
    Stale(u64),
}

/// What became of a crossing.
#[derive(Clone, Copy, Debug, PartialEq, Eq)]
pub enum Crossing {
    /// The barrier was crossed, and this is the new window, in ticks.
    Crossed(u64),
    /// This is the least timeline that has not reported. Nothing changed.
    Waiting(u32),
    /// The run has ended: no timeline has anything ahead.
    Ended,
}

/// The barrier between the windows of some timelines.
#[derive(Drop)]
pub struct Barrier {
    lookahead: Option<u64>,
    until: u64,
    round: u64,
    window: u64,
    channels: Vec<u32>,
    counts: Vec<u64>,
    sent: Vec<u64>,
    reports: Vec<Option<u64>>,
    // the least timeline that has not reported in this round
    waiting: Option<u32>,
    // the least time that was reported in this round, and the tick after the last one where none is below it
    least: u64,
    ended: bool,
}

impl Model for Barrier {
    ghost use Rattle.barrier_window.specs.BarrierFields.{BarrierFields};

    ghost Value = { BarrierFields };

    ghost use Rattle.barrier_window.specs.Inside.{fields_of, IsBarrierInside};

    ghost view = { fields_of };

    ghost invariant = { IsBarrierInside };
}

/// Puts the numbers of some channels in their places.
fn put_numbers(numbers: &mut [u64], channels: &[u32], pairs: &[(u32, u64)])
    requires rising { IsStrictlyIncreasing channels.now }
    requires each { length numbers.old ≡ length channels.now }
    requires among { All (λ p. Contains channels.now p.0) pairs.now }
    ensures { numbers.new ≡ latest_of pairs.now channels.now numbers.old }
{
    for pair in pairs {
        numbers[place_of(channels, pair.0)] = pair.1;
    }
}

/// The least of so many timelines.
fn first_of(timelines: u32) -> Option<u32>
    ensures { result ≡ first_without 0 (replicate timelines None) }
{
    if timelines == 0 { None } else { Some(0) }
}

/// The least timeline without a report, of those from number `from` on.
fn least_without(reports: &[Option<u64>], from: u32) -> Option<u32>
    requires from { from ≤ length reports.now }
    requires few { length reports.now < 2 ^ 32 }
    ensures { result ≡ first_without from (drop from reports.now) }
{
    for timeline in from as usize..reports.len() {
        if reports[timeline].is_none() {
            return Some(timeline as u32);
        }
    }
    None
}

/// The window that is next where this is the least time ahead.
fn window_after(lookahead: Option<u64>, until: u64, least: u64) -> u64
    requires lookahead { IsLookahead lookahead }
    requires until { until ≤ 10 ^ 18 }
    requires least { least ≤ until }
    ensures { result ≡ next_window lookahead until least }
{
    match lookahead {
        None => until + 1,
        Some(delay) => (least + delay).min(until + 1),
    }
}

impl Barrier {
    ghost use Rattle.std.specs.Prelude.{◌≡◌, ◌+◌, ◌<◌, ◌≤◌, ◌^◌, ◌↔◌, length, false, slice_get, slice_set, Some, None, IfOk};
    ghost use Rattle.std.specs.List.Sorted.{IsStrictlyIncreasing};
    ghost use Rattle.barrier_window.specs.BarrierFields.{BarrierFields, IsBarrier, IsLookahead};
    ghost use Rattle.barrier_window.specs.Crossings.{MayReport, reported, after_report, crossing, after_crossing, crossed_to, first_barrier};

    /// The barrier before its first crossing. `cross` are the cross channels in rising order, `length` is
    /// the least delay of the windowed ones, from 1 to 10^15 ticks, and None where there are none, and
    /// `until` the last tick that is executed, at most 10^18. All its room is taken here.
    ///
    /// # Errors
    /// `Memory`.
    pub fn new(
        alloc: Global,
        timelines: u32,
        cross: &[u32],
        length: Option<u64>,
        until: u64,
    ) -> Result<Barrier, Memory>
        requires rising { IsStrictlyIncreasing cross.now }
        requires lookahead { IsLookahead length }
        requires until { until ≤ 10 ^ 18 }
        ensures { IfOk result (λ b. b ≡ first_barrier timelines cross.now length until) }
    {
        let channels = Vec::from_slice(alloc, cross)?;
        let counts = Vec::from_elem(alloc, 0, cross.len())?;
        let sent = Vec::from_elem(alloc, 0, cross.len())?;
        let reports = Vec::from_elem(alloc, None, timelines as usize)?;
        Ok(Barrier {
            lookahead: length,
            until,
            round: 0,
            window: 0,
            channels,
            counts,
            sent,
            reports,
            waiting: first_of(timelines),
            least: until + 1,
            ended: false,
        })
    }

    /// Tells a proof that the fields are in their ranges.
    pub fn known(&self)
        ensures { IsBarrier self.now }
    {
        let _round = self.round;
    }

    /// Takes the report of a timeline in a round: the least time that it still has ahead, and for some
    /// cross channels how many writes it has made on them. A report of another round than the held one
    /// changes nothing.
    pub fn report(
        &mut self,
        timeline: u32,
        round: u64,
        least: u64,
        counts: &[(u32, u64)],
    ) -> Reported
        requires { MayReport self.old timeline counts.now }
        ensures answer { result ≡ reported round self.old }
        ensures after { self.new ≡ after_report timeline round least counts.now self.old }
    {
        if round != self.round {
            return Reported::Stale(self.round);
        }
        put_numbers(&mut self.sent, &self.channels, counts);
        self.put_report(timeline, least);
        Reported::Taken
    }

    /// Crosses the barrier where all timelines have reported.
    pub fn cross(&mut self) -> Crossing
        ensures answer { result ≡ crossing self.old }
        ensures after { self.new ≡ after_crossing result self.old }
    {
        if self.ended {
            return Crossing::Ended;
        }
        if let Some(timeline) = self.waiting {
            return Crossing::Waiting(timeline);
        }
        if self.least > self.until {
            self.ended = true;
            return Crossing::Ended;
        }
        let window = window_after(self.lookahead, self.until, self.least);
        self.go_on(window);
        Crossing::Crossed(window)
    }

    /// Puts in the report of a timeline that has none in this round.
    fn put_report(&mut self, timeline: u32, least: u64)
        requires { slice_get self.old.reports timeline ≡ Some None }
        ensures { self.new ≡ record self.old { reports = slice_set self.old.reports timeline (Some least) } }
    {
        self.reports[timeline as usize] = Some(least);
        self.least = self.least.min(least);
        if self.waiting == Some(timeline) {
            self.waiting = least_without(&self.reports, timeline + 1);
        }
    }

    /// Begins the next round with this window.
    fn go_on(&mut self, window: u64)
        requires { window ≤ self.old.until + 1 }
        ensures { self.new ≡ crossed_to window self.old }
    {
        self.round = self.round.saturating_add(1);
        self.window = window;
        self.counts.copy_from_slice(&self.sent);
        self.reports.fill(None);
        self.waiting = first_of(self.reports.len() as u32);
        self.least = self.until + 1;
    }

    /// The window that stands, in ticks.
    pub fn window(&self) -> u64
        ensures { result ≡ self.now.window }
    {
        self.window
    }

    /// The round that is held: how often the barrier was crossed.
    pub fn round(&self) -> u64
        ensures { result ≡ self.now.round }
    {
        self.round
    }

    /// For each cross channel, in rising order, the number of writes that was reported when the barrier
    /// was last crossed.
    pub fn counts(&self) -> &[u64]
        ensures { result.now ≡ self.now.counts }
    {
        &self.counts
    }

    /// Whether a timeline has reported in this round.
    pub fn has_reported(&self, timeline: u32) -> bool
        requires { timeline < length self.now.reports }
        ensures { (result ≡ false) ↔ (slice_get self.now.reports timeline ≡ Some None) }
    {
        self.reports[timeline as usize].is_some()
    }

    /// Whether the barrier has ended.
    pub fn ended(&self) -> bool
        ensures { result ≡ self.now.ended }
    {
        self.ended
    }

    /// How many windows were crossed, and the last one; (0, 0) at first.
    pub fn windows(&self) -> (u64, u64)
        ensures crossed { result.0 ≡ self.now.round }
        ensures last { result.1 ≡ self.now.window }
    {
        (self.round, self.window)
    }
}
