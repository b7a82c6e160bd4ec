//! Which timelines may have something to do.

ghost use Rattle.std.specs.Prelude.{◌≡◌, ◌<◌, ◌^◌, true, length, replicate, slice_set, IfOk};

use marked_numbers::Marks;
use sim_base::Memory;
use std::alloc::Global;

/// The kinds of steps that timelines make, in their order.
#[derive(Clone, Copy, Debug, PartialEq, Eq)]
pub(crate) enum Kind {
    Executes,
    Posts,
    Takes,
    Enters,
    Reports,
}

/// For each kind of step the timelines that may make one. A timeline that is not marked cannot.
#[derive(Drop)]
pub(crate) struct Work {
    pub(crate) executes: Marks,
    pub(crate) posts: Marks,
    pub(crate) takes: Marks,
    pub(crate) enters: Marks,
    pub(crate) reports: Marks,
    /// No timeline whose budget is spent has a lower bound before this time, in ticks.
    pub(crate) over: u64,
    /// A timeline whose lower bound may be before that time.
    pub(crate) behind: u32,
}

impl Work {
    /// All that so many timelines may do.
    pub(crate) fn all(alloc: Global, timelines: usize) -> Result<Work, Memory>
        requires { timelines < 2 ^ 32 }
        ensures executes { IfOk result (λ work. work.executes ≡ replicate timelines true) }
        ensures posts { IfOk result (λ work. work.posts ≡ replicate timelines true) }
        ensures takes { IfOk result (λ work. work.takes ≡ replicate timelines true) }
        ensures enters { IfOk result (λ work. work.enters ≡ replicate timelines true) }
        ensures reports { IfOk result (λ work. work.reports ≡ replicate timelines true) }
        ensures over { IfOk result (λ work. work.over ≡ 0) }
    {
        Ok(Work {
            executes: Marks::all(alloc, timelines)?,
            posts: Marks::all(alloc, timelines)?,
            takes: Marks::all(alloc, timelines)?,
            enters: Marks::all(alloc, timelines)?,
            reports: Marks::all(alloc, timelines)?,
            over: 0,
            behind: 0,
        })
    }

    /// Marks a timeline for each kind, and a receiver for taking.
    pub(crate) fn mark(&mut self, timeline: u32, receiver: u32)
        requires executes { timeline < length self.old.executes }
        requires posts { timeline < length self.old.posts }
        requires takes { timeline < length self.old.takes }
        requires receiver { receiver < length self.old.takes }
        requires enters { timeline < length self.old.enters }
        requires reports { timeline < length self.old.reports }
        ensures { self.new ≡ record self.old {
          executes = slice_set self.old.executes timeline true;
          posts = slice_set self.old.posts timeline true;
          takes = slice_set (slice_set self.old.takes timeline true) receiver true;
          enters = slice_set self.old.enters timeline true;
          reports = slice_set self.old.reports timeline true;
        } }
    {
        self.executes.mark(timeline);
        self.posts.mark(timeline);
        self.takes.mark(timeline);
        self.takes.mark(receiver);
        self.enters.mark(timeline);
        self.reports.mark(timeline);
    }

    /// Marks all timelines for what the barrier may have enabled.
    pub(crate) fn mark_crossed(&mut self)
        ensures { self.new ≡ record self.old {
          enters = replicate (length self.old.enters) true;
          reports = replicate (length self.old.reports) true;
        } }
    {
        self.enters.mark_all();
        self.reports.mark_all();
    }
}
