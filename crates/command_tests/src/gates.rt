//! Gates that wait for one another, and gates that keep what they are asked.
use sim_base::Gate;
use std::sync::atomic::{AtomicU64, Ordering};

/// A gate that waits for another looks at most so often.
const MOST_POLLS: u64 = 20_000_000;

/// A gate that at its first question waits until another gate has been asked, too: the two share the count of those that were
/// asked. Where it has waited too long it is shut for this one question.
#[derive(Drop)]
pub(crate) struct MeetingGate<'a> {
    asked: &'a AtomicU64,
    is_first: bool,
    stops: u64,
}

impl<'a> MeetingGate<'a> {
    /// A gate that was not asked yet, with the count of the gates that were.
    pub(crate) fn new(asked: &'a AtomicU64) -> MeetingGate<'a> {
        MeetingGate {
            asked,
            is_first: true,
            stops: 0,
        }
    }
}

/// Waits until two gates have been asked, and tells whether they were.
fn have_two_been_asked(asked: &AtomicU64) -> bool {
    for _poll in 0..MOST_POLLS {
        if asked.load(Ordering::SeqCst) >= 2 {
            return true;
        }
    }
    false
}

impl<'a> Gate for MeetingGate<'a> {
    ghost stops = { λ g. g.stops };

    fn stops(&self) -> u64 {
        self.stops
    }

    fn may_go(&mut self, _timeline: u32, _bound: u64) -> bool {
        if !self.is_first {
            return true;
        }
        self.is_first = false;
        self.asked.fetch_add(1, Ordering::SeqCst);
        if have_two_been_asked(self.asked) {
            return true;
        }
        self.stops = self.stops.saturating_add(1);
        false
    }
}

/// What a gate was asked of one timeline.
#[derive(Clone, Copy)]
struct Asked {
    /// The last lower bound.
    bound: u64,
    /// How often the bound rose.
    rises: u64,
    /// Whether the bound fell.
    fell: bool,
}

impl Asked {
    /// Takes down a question with this lower bound.
    fn note(&mut self, bound: u64) {
        if bound > self.bound {
            self.rises = self.rises.saturating_add(1);
        }
        if bound < self.bound {
            self.fell = true;
        }
        self.bound = bound;
    }
}

/// An open gate that keeps what it was asked of the timelines 0 and 1.
#[derive(Drop)]
pub(crate) struct KeepingGate {
    first: Asked,
    second: Asked,
    questions: u64,
}

impl KeepingGate {
    /// A gate that was not asked yet.
    pub(crate) fn new() -> KeepingGate {
        let none = Asked {
            bound: 0,
            rises: 0,
            fell: false,
        };
        KeepingGate {
            first: none,
            second: none,
            questions: 0,
        }
    }

    /// How often it was asked.
    pub(crate) fn questions(&self) -> u64 {
        self.questions
    }

    /// How often the lower bound of timeline 0 rose, and that of timeline 1.
    pub(crate) fn rises(&self) -> (u64, u64) {
        (self.first.rises, self.second.rises)
    }

    /// Whether a lower bound fell.
    pub(crate) fn has_fallen(&self) -> bool {
        self.first.fell || self.second.fell
    }
}

impl Gate for KeepingGate {
    ghost stops = { λ _. 0 };

    fn stops(&self) -> u64 {
        0
    }

    fn may_go(&mut self, timeline: u32, bound: u64) -> bool {
        self.questions = self.questions.saturating_add(1);
        match timeline {
            0 => self.first.note(bound),
            1 => self.second.note(bound),
            _ => {}
        }
        true
    }
}
