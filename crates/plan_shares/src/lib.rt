//! A plan shared out to the timelines of an alignment: for each timeline its entities, their pending
//! events, the mappings inside it, to it and from it, and the counts of the channels on which it writes.
//!
//! Contracts cite `specs/Shares.antt` (what is of which timeline) besides the definitions of
//! `alignment` and `timeline_parts`. [`laws`] has what follows for the shares of a plan that fits.
#![tactic(auto)]

mod counts;
mod crosses;
mod drafts;
mod entities;
pub mod laws;
mod lists;
mod shares;

pub use crosses::CrossEnd;
pub use shares::{Shares, share_out};
