//! The processes of an entity.

use crate::Wait;

/// A process: what it waits for, its ticket, which rises by one at each of its actions, and its
/// timer channel where it is timed.
#[derive(Drop)]
pub struct Process {
    pub wait: Wait,
    pub ticket: u64,
    pub timer: Option<u32>,
}
