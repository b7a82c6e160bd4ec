//! What the program is asked.

/// How entities are parted into timelines.
#[derive(Clone, Copy, Debug, PartialEq, Eq)]
pub enum Align {
    /// All entities on one timeline.
    One,
    /// Each entity on a timeline of its own, but for those that a mapping without delay joins.
    Host,
    /// The entities of one innermost Net on one timeline, and all nodes of a ring; joined as those of `Host`.
    Net,
    /// So many parts of as many entities as can be, by their numbers; 1 to 4096.
    Parts(u64),
}

/// A command with its numbers, besides the schedule, the report and the names of the files.
///
/// `until` is the end time in ticks, at most 10^18, and `budget` the most events that are run, 1 to 10^12;
/// `threshold` is in ticks, at most 10^15.
#[derive(Clone, Copy, Debug, PartialEq, Eq)]
pub enum Command {
    /// The canonical printing of the files' tree, or, where it is `flat`, of the resolved tree.
    Dml {
        flat: bool,
    },
    /// The counts of the model's parts.
    Check,
    /// The text of the model's plan.
    Plan,
    /// The trace of the model, run by one event list: of its events up to the time `until`, in
    /// ticks, at most `budget`.
    Seq {
        until: u64,
        budget: u64,
    },
    /// The trace of the model, run by steps of its timelines on one thread.
    Step {
        until: u64,
        budget: u64,
        align: Align,
        threshold: u64,
    },
    /// The trace of the model, run by 1 to 64 workers.
    Run {
        until: u64,
        budget: u64,
        align: Align,
        threshold: u64,
        workers: u64,
    },
    /// A generated model of `size` 1 to 1000; `seed` is at most 10^18.
    Gen {
        seed: u64,
        size: u64,
    },
}
