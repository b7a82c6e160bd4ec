//! The mail of a timeline: what others have written for it and it has not yet taken, with the appointments
//! that it has with them. An appointment is a time before which nothing comes on a channel but what was
//! posted.
//!
//! Contracts cite `specs/Mails.antt` (what they see of a mail) and `specs/Posts.antt` (what posting and
//! taking make of it). [`laws`] has that a sound mail stays sound.
#![tactic(auto)]

pub mod laws;
mod mail;

pub use mail::{Mail, PostFault};

#[cfg(test)]
mod tests;
