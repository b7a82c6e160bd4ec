//! The steps that keep the timelines of a run in step, on two parts at a time: a timeline and a mail, or
//! a timeline and the barrier; and schedules, which are words that name steps.
//!
//! Contracts cite `specs/Between.antt` (the steps on two parts), `specs/Sounds.antt` (mails and the
//! barrier as the rules see them) and `specs/Schedules.antt` (how schedules are spelt). [`laws`] has that
//! the steps on two parts are those of the rules, and keep both parts sound.
#![tactic(auto)]

mod between;
pub mod laws;
mod schedules;
mod steps;

pub use between::{
    enter_from, has_mail, may_enter, may_post, may_report, post_between, report_to, take_between,
};
pub use schedules::{ScheduleFault, read_schedule};
pub use steps::{Step, Stepped};
