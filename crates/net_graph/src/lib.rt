//! From a resolved tree to what a model says: which model a tree has, how its keys are looked up,
//! how numbers and seconds are read, what the keys of each kind of list of a Net say, what the walk
//! over the tree of a Net meets, and why there is no model that can run. The rows of a network are
//! declared here too, and a table of names.
//!
//! The definitions stand in `specs/`: `Keys` (the values of a key, and which model a tree has),
//! `Readers` (seconds), `Reads` (reading one thing after another), `ListKeys` (the keys of each kind
//! of list, with their ranges, defaults and order), `Names` (when two names are the same), `Visits`
//! (the walk as one list of visits), `SeenRows` (the row of each visit, and its fault), `WalkedNets`
//! (what the visits make: the rows of each kind, or the first fault) and `Steps` (how that grows visit
//! by visit, and how many of each kind there are at most). Crates above cite `NetworkOf` (the network
//! of a tree, or its first fault) and `Networks` (what every network meets).
#![tactic(auto)]

mod adding;
mod fault;
mod ids;
mod keys;
mod list_keys;
mod names;
mod readers;
mod rows;
mod seen;
mod walk;

pub use fault::{ShapeFault, bad_nhi, bad_number, missing, too_many, unknown_session};
pub use ids::IdPath;
pub use keys::{first_list, first_value, has_key, is_net, number_in};
pub use list_keys::{
    GatewayKeys, InterfaceKeys, LinkKeys, ServerKeys, SessionKeys, default_settings, read_client,
    read_frequency, read_gateway, read_ids, read_interface, read_link, read_server, read_session,
};
pub use names::Paths;
pub use readers::{MOST_DIGITS, MOST_TICKS, read_integer, read_seconds};
pub use rows::{
    Down, Gateway, HostRow, InterfaceRow, LinkRow, NetRow, Network, SessionKind, SessionRow,
};
pub use seen::{HostSeen, LinkSeen, PatternSeen, Seen, ServerSeen, SessionSeen, TrafficSeen};
pub use walk::walk_over;
