//! Models after the SSF API 1.0: entities with processes that wait on in-channels and for times, and
//! out-channels that are mapped to in-channels.
//!
//! A model is a [`Behaviour`]: how a process reacts to what wakes it. [`Entity::deliver`] is the wake
//! rule, [`PlanBuilder`] makes a [`Plan`], and a plan's run is that of a machine of `event_order`.
//!
//! Contracts cite `specs/Wake.antt`, `Reaction.antt` and `Deliver.antt` (what wakes a process, what a
//! behaviour keeps, what an event makes of its entity), `Entities.antt` (entities whose states are
//! valid), `Output.antt` (what actions write and tell), `Channels.antt` (what the writes of an event
//! send), `Drafts.antt` (plans that are being made), `Owners.antt` (who owns the channels meanwhile),
//! `Run.antt` (well-formed plans and their runs), `Openings.antt` (a plan with another opening, and the
//! opening after some events of its run) and `Truth.antt` (facts on a run alone: the events
//! of a timeline, the writes of a channel by their place, promises and true parcels).
#![tactic(auto)]

mod behaviour;
mod builder;
mod entity;
mod event;
mod opening;
mod out;
mod plan;
mod process;
mod wait;

pub use behaviour::Behaviour;
pub use builder::{
    BuildFault, DraftEntity, LONGEST_DELAY, MOST_CHANNELS, MOST_ENDS, OutChannel, PlanBuilder,
};
pub use entity::Entity;
pub use event::{Entry, Event, Line, Names, Parcel};
pub use opening::{LATEST_PENDING, MOST_BEFORE, MOST_COUNT, MOST_TICKET, Opened, Opening};
pub use out::{Out, Written};
pub use plan::{Mapping, Plan};
pub use process::Process;
pub use wait::{ChannelList, Kind, Wait, Wake};
