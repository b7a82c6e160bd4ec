//! What a timeline answers.

use event_order::Key;

/// What holds a timeline at its bound: the appointment of a channel, or the window that it entered.
#[derive(Clone, Copy, Debug, PartialEq, Eq)]
pub enum Holder {
    /// The channel with this number, the first of those with this appointment.
    Channel(u32),
    /// The window.
    Window,
}

/// What became of a try to execute the next event.
#[derive(Clone, Copy, Debug, PartialEq, Eq)]
pub enum Ran {
    /// The event with this key was executed.
    Ran(Key),
    /// The next event is not before the bound, in ticks, which this holds.
    Held(u64, Holder),
    /// No event is in time.
    Idle,
    /// As many events were executed as the budget allows.
    Over,
    /// An earlier try found no memory.
    Spent,
}
