//! Which mappings lead from one timeline to another, and how these are kept in step.
ghost use Rattle.std.specs.Prelude.{◌≡◌, ◌<◌, length, slice_get, IfOk, Some};
ghost use Rattle.ssf_model.specs.Run.{IsWired};
ghost use Rattle.ssf_model.specs.Truth.{lesser};
ghost use Rattle.alignment.specs.Classes.{class_of, classified};

use crate::Alignment;
use sim_base::Memory;
use ssf_model::{Behaviour, Mapping, Plan};
use std::alloc::Global;
use std::marker::Model;

/// What a mapping is under an alignment and a threshold.
#[derive(Clone, Copy, Debug, PartialEq, Eq)]
pub enum Class {
    /// Its two ends lie on one timeline.
    Inside,
    /// It is cross: its ends lie on two timelines. Its delay is below the threshold, and the receiver
    /// goes by the sender's appointments (asynchronous).
    Appointed,
    /// It is cross, with another delay, and goes by windows (synchronous).
    Windowed,
}

/// The classes of a plan's mappings.
#[derive(Drop)]
pub struct Classes {
    classes: Vec<Class>,
    least_windowed: Option<u64>,
}

impl Model for Classes {
    ghost use Rattle.alignment.specs.Classes.{Classified};

    ghost Value = { Classified };

    ghost view = { λ c. record { classes = c.classes.items; least_windowed = c.least_windowed } };
}

impl Classes {
    /// The class of a mapping, by its place in the plan's mappings.
    pub fn class(&self, mapping: u32) -> Class
        requires { mapping < length self.now.classes }
        ensures { slice_get self.now.classes mapping ≡ Some result }
    {
        self.classes[mapping as usize]
    }

    /// The least delay of the windowed mappings, in ticks. None exactly where no mapping is windowed.
    pub fn least_windowed(&self) -> Option<u64>
        ensures { result ≡ self.now.least_windowed }
    {
        self.least_windowed
    }
}

/// Gives each mapping of the plan its class by an alignment of the plan and a threshold, in ticks.
pub fn classify<B: Behaviour>(
    alloc: Global,
    plan: &Plan<B>,
    alignment: &Alignment,
    threshold: u64,
) -> Result<Classes, Memory>
    requires wired { IsWired plan.now }
    requires aligned { length alignment.now ≡ length plan.now.entities }
    ensures { IfOk result (λ classes. classes ≡ classified alignment.now threshold plan.now.mappings) }
{
    let mut classes = Vec::new(alloc);
    let mut least_windowed = None;
    for mapping in plan.mappings() {
        let class = class_of(alignment, threshold, mapping);
        classes.push(class)?;
        if class == Class::Windowed {
            least_windowed = lesser(least_windowed, mapping.delay);
        }
    }
    Ok(Classes {
        classes,
        least_windowed,
    })
}

/// The class of a mapping.
fn class_of(alignment: &Alignment, threshold: u64, mapping: &Mapping) -> Class
    requires from { mapping.now.from < length alignment.now }
    requires to { mapping.now.to < length alignment.now }
    ensures { result ≡ class_of alignment.now threshold mapping.now }
{
    if alignment.timeline(mapping.from) == alignment.timeline(mapping.to) {
        Class::Inside
    } else if mapping.delay < threshold {
        Class::Appointed
    } else {
        Class::Windowed
    }
}

/// The lesser of a number, where there is one, and another.
fn lesser(least: Option<u64>, delay: u64) -> Option<u64>
    ensures { result ≡ lesser least delay }
{
    match least {
        None => Some(delay),
        Some(least) => Some(least.min(delay)),
    }
}
