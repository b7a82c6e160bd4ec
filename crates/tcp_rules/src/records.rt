//! What a session says, and what it keeps of positions.
use sim_base::{Segment, TcpState};

/// One thing that a session does, in the order in which it does them.
#[derive(Clone, Copy, Debug, PartialEq, Eq)]
pub enum Act {
    /// It entered a state.
    Entered(TcpState),
    /// It delivered so many further bytes in order.
    Delivered(u64),
    /// It sent a segment.
    Send(Segment),
}

/// A position whose round-trip time is being measured, and the tick at which it was sent.
#[derive(Clone, Copy, Debug, PartialEq, Eq)]
pub struct Timing {
    pub position: u64,
    pub since: u64,
}

/// The positions from `from` on and below `to`.
#[derive(Clone, Copy, Debug, PartialEq, Eq)]
pub struct Range {
    pub from: u64,
    pub to: u64,
}
