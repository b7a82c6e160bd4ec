//! The steps of a worker on values that it holds out, each made as often as it is enabled.

ghost use Rattle.std.specs.Prelude.{◌≡◌, ◌+◌, ◌<◌, ◌≤◌, length, Some, Ok, Err, OnOk};
ghost use Rattle.barrier_window.specs.Crossings.{crossing};
ghost use Rattle.sync_steps.specs.declared.steps.Step.TheVariants.{Execute, Post, Take, Enter, Report, Cross};
ghost use Rattle.timeline.specs.declared.answers.Ran.TheVariants.{Over as WasOver};
ghost use Rattle.timeline.specs.Executing.{refusal};
ghost use Rattle.worker_hands.specs.declared.hand.Answer.TheVariants.{Executed};
ghost use Rattle.worker_hands.specs.Hands.{IsAsked, IsToldOn};
ghost use Rattle.worker_hands.specs.Asked.{AreOf, runs_in, last_answer, WasNotEnabled, IsExhausted, IsUncrossed, is_crossed};
ghost use Rattle.worker_hands.specs.Stepping.{IsSomeTimeline, IsSomePair, IsSomePost, IsSomeMeeting, HasStopped, IfExecuted, IfTaken, IfPosted, IfEntered, IfReported, IfCrossed};

use crate::hand::Hand;
use appointments::Mail;
use barrier_window::{Barrier, Crossing};
use sim_base::Memory;
use ssf_model::Behaviour;
use std::alloc::Global;
use sync_steps::{Step, Stepped};
use timeline::{Ran, Timeline};

/// Why a worker's steps ended before their time.
#[derive(Clone, Copy, Debug, PartialEq, Eq)]
pub enum Halt {
    /// The timeline's budget is spent.
    Over,
    /// There was no memory.
    Memory,
}

impl From<Memory> for Halt {
    ghost use Rattle.std.specs.Prelude.{◌≡◌};
    ghost use Rattle.worker_hands.specs.declared.steps.Halt.TheVariants.{Memory as NoMemory};

    ghost from_gives = { λ _ halt. halt ≡ NoMemory };

    fn from(_refused: Memory) -> Halt {
        Halt::Memory
    }
}

/// Executes the timeline's next events, at most `left` of them, and counts `left` down.
///
/// # Errors
/// `Over` where the timeline has executed as many events as its budget has, and would execute one more; `Memory`.
pub fn execute_all<B: Behaviour>(
    hand: &mut Hand,
    number: u32,
    timeline: &mut Timeline<B>,
    behaviour: &B,
    left: &mut u32,
) -> Result<(), Halt>
    requires held { IsSomeTimeline B.valid B.carried B.reaction behaviour.now number timeline.old }
    ensures executed { IfExecuted B.valid B.carried B.reaction behaviour.now number timeline.old timeline.new }
    ensures left { left.new ≤ left.old }
    ensures told { IsToldOn hand.old hand.new }
    ensures asked { IsAsked hand.old hand.new (λ made. AreOf (Execute number) made × (runs_in made + left.new ≡ left.old)) }
    ensures stopped { OnOk result (HasStopped left.new timeline.new) }
    ensures done { OnOk result (IsAsked hand.old hand.new (IsExhausted left.new number)) }
    ensures full { result ≡ Err Halt.Over → refusal timeline.new ≡ Some WasOver }
    ensures over { result ≡ Err Halt.Over → IsAsked hand.old hand.new (λ made. last_answer (Execute number) made ≡ Some (Executed WasOver)) }
{
    while *left > 0 {
        match hand.execute(Step::Execute(number), timeline, behaviour)? {
            Ran::Ran(_key) => *left -= 1,
            Ran::Over => return Err(Halt::Over),
            _ => return Ok(()),
        }
    }
    Ok(())
}

/// Takes all of the timeline's mail.
///
/// # Errors
/// `Memory`.
pub fn take_all<B: Behaviour>(
    hand: &mut Hand,
    number: u32,
    timeline: &mut Timeline<B>,
    mail: &mut Mail<B::Payload>,
) -> Result<(), Memory>
    requires paired { IsSomePair B.valid B.carried B.reaction number number timeline.old mail.old }
    ensures taken { IfTaken B.valid B.carried B.reaction number timeline.old timeline.new mail.old mail.new }
    ensures told { IsToldOn hand.old hand.new }
    ensures asked { IsAsked hand.old hand.new (λ made. AreOf (Take number) made × (runs_in made ≡ 0)) }
    ensures done { OnOk result (IsAsked hand.old hand.new (WasNotEnabled (Take number))) }
{
    let step = Step::Take(number);
    if hand.take(step, timeline, mail)? == Stepped::Did {
        hand.take(step, timeline, mail)?;
    }
    Ok(())
}

/// Posts all that the timeline has for a channel to another one, with its promise, to the mail of the receiver.
///
/// # Errors
/// `Memory`.
pub fn post_all<B: Behaviour>(
    hand: &mut Hand,
    number: u32,
    channel: u32,
    timeline: &mut Timeline<B>,
    mail: &mut Mail<B::Payload>,
) -> Result<(), Memory>
    requires paired { IsSomePost B.valid B.carried B.reaction number channel timeline.old mail.old }
    ensures posted { IfPosted B.valid B.carried B.reaction number channel timeline.old timeline.new mail.old mail.new }
    ensures told { IsToldOn hand.old hand.new }
    ensures asked { IsAsked hand.old hand.new (λ made. AreOf (Post number channel) made × (runs_in made ≡ 0)) }
    ensures done { OnOk result (IsAsked hand.old hand.new (WasNotEnabled (Post number channel))) }
{
    let step = Step::Post(number, channel);
    if hand.post(step, channel, timeline, mail)? == Stepped::Did {
        hand.post(step, channel, timeline, mail)?;
    }
    Ok(())
}

/// Enters the barrier's window.
pub fn enter_all<B: Behaviour>(
    hand: &mut Hand,
    number: u32,
    timeline: &mut Timeline<B>,
    barrier: &Barrier,
)
    ensures entered { IfEntered B.valid B.carried B.reaction number timeline.old timeline.new barrier.now }
    ensures told { IsToldOn hand.old hand.new }
    ensures asked { IsAsked hand.old hand.new (λ made. AreOf (Enter number) made × (runs_in made ≡ 0)) }
    ensures done { IsAsked hand.old hand.new (WasNotEnabled (Enter number)) }
{
    let step = Step::Enter(number);
    if hand.enter(step, timeline, barrier) == Stepped::Did {
        hand.enter(step, timeline, barrier);
    }
}

/// Reports to the barrier.
///
/// # Errors
/// `Memory`.
pub fn report_all<B: Behaviour>(
    alloc: Global,
    hand: &mut Hand,
    number: u32,
    timeline: &Timeline<B>,
    barrier: &mut Barrier,
) -> Result<(), Memory>
    requires met { IsSomeMeeting B.valid B.carried B.reaction number timeline.now barrier.old }
    ensures reported { IfReported B.valid B.carried B.reaction number timeline.now barrier.old barrier.new }
    ensures told { IsToldOn hand.old hand.new }
    ensures asked { IsAsked hand.old hand.new (λ made. AreOf (Report number) made × (runs_in made ≡ 0)) }
    ensures done { OnOk result (IsAsked hand.old hand.new (WasNotEnabled (Report number))) }
{
    let step = Step::Report(number);
    if hand.report(alloc, step, number, timeline, barrier)? == Stepped::Did {
        hand.report(alloc, step, number, timeline, barrier)?;
    }
    Ok(())
}

/// Crosses the barrier. Tells whether it was crossed.
pub fn cross_all<B: Behaviour>(hand: &mut Hand, barrier: &mut Barrier) -> bool
    requires some { 1 ≤ length barrier.old.reports }
    ensures answer { result ≡ is_crossed (crossing barrier.old) }
    ensures crossed { IfCrossed B.valid B.carried B.reaction result barrier.old barrier.new }
    ensures told { IsToldOn hand.old hand.new }
    ensures asked { IsAsked hand.old hand.new (λ made. AreOf Cross made × (runs_in made ≡ 0)) }
    ensures done { IsAsked hand.old hand.new (λ made. IsUncrossed (last_answer Cross made)) }
{
    match hand.cross(barrier) {
        Crossing::Crossed(_window) => {
            hand.cross(barrier);
            true
        }
        _ => false,
    }
}
