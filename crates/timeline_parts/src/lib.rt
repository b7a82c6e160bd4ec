//! What a timeline is made of: tables by number, the ends of its channels, its mappings by their
//! out-channels, and the desk at which an event's writes get their numbers. [`Part`] is what a timeline
//! begins with.
#![tactic(auto)]

mod desk;
mod ends;
mod outbox;
mod part;
mod routes;
mod settling;
mod table;

pub use desk::Desk;
pub use ends::{InEnd, OutEnd};
pub use outbox::Outbox;
pub use part::{Cross, Part};
pub use routes::Routes;
pub use settling::settle;
pub use table::place_of;
