//! The names of the six steps, and what became of a step.

/// A step of the parts of a run.
#[derive(Clone, Copy, Debug, PartialEq, Eq)]
pub enum Step {
    /// The timeline executes its first pending event.
    Execute(u32),
    /// The timeline posts on a channel.
    Post(u32, u32),
    /// The timeline takes its mail.
    Take(u32),
    /// The timeline enters the barrier's window.
    Enter(u32),
    /// The timeline reports to the barrier.
    Report(u32),
    /// The barrier is crossed.
    Cross,
}

/// What became of a step.
#[derive(Clone, Copy, Debug, PartialEq, Eq)]
pub enum Stepped {
    /// It was made.
    Did,
    /// It was not enabled, and nothing changed.
    NotEnabled,
}
