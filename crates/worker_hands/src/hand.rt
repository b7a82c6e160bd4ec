//! What makes a worker's steps.

ghost use Rattle.std.specs.Prelude.{◌≡◌, ◌<◌, ◌∷◌, List, map, length, Some, None, Ok, IfOk, OnErr};
ghost use Rattle.std.specs.List.{All, Contains};
ghost use Rattle.event_order.specs.Pending.{Among};
ghost use Rattle.ssf_model.specs.declared.event.Event.{Event as EventValue};
ghost use Rattle.timeline_parts.specs.Parts.{channel_of};
ghost use Rattle.timeline_parts.specs.Tables.{numbers_of};
ghost use Rattle.timeline_parts.specs.Settling.{AreNew};
ghost use Rattle.timeline.specs.declared.answers.Ran.{Ran as RanValue};
ghost use Rattle.timeline.specs.Executing.{refusal, MayRun, IsRun, spent_of};
ghost use Rattle.timeline.specs.Holding.{ahead_in, IsInOrder};
ghost use Rattle.timeline.specs.Lines.{posted_of};
ghost use Rattle.timeline.specs.Moving.{can_enter, entered_at};
ghost use Rattle.appointments.specs.Mails.{mail_at, posted_of as posted_to};
ghost use Rattle.barrier_window.specs.Crossings.{with_report, crossing, after_crossing};
ghost use Rattle.sync_steps.specs.declared.steps.Stepped.TheVariants.{Did};
ghost use Rattle.sync_steps.specs.Between.{stepped, HasItsEnds, can_post, IsPostedTo, IsMailOf, can_take, events_on, IsTakenFrom, can_report, counts_in};
ghost use Rattle.worker_hands.specs.Hands.{after_made, ran_answer, stepped_answer};

use appointments::Mail;
use barrier_window::{Barrier, Crossing};
use sim_base::Memory;
use ssf_model::Behaviour;
use std::alloc::Global;
use std::marker::Model;
use sync_steps::{Step, Stepped, enter_from, post_between, report_to, take_between};
use timeline::{Ran, Timeline};

/// What a hand answered.
#[derive(Clone, Copy, Debug, PartialEq, Eq)]
pub enum Answer {
    /// To Execute.
    Executed(Ran),
    /// To Post, Take, Enter or Report.
    Done(Stepped),
    /// To Cross.
    Crossed(Crossing),
    /// There was no memory.
    Memory,
}

/// A step for which a hand was asked, and its answer.
#[derive(Clone, Copy, Debug, PartialEq, Eq)]
pub struct Made {
    pub step: Step,
    pub answer: Answer,
}

/// Makes the steps of a worker; `step` is the step's own name. It may tell a list of the steps for which it was
/// asked, with its answers, while it has room for that.
#[derive(Drop)]
pub struct Hand {
    telling: bool,
    list: Vec<Made>,
}

impl Model for Hand {
    ghost use Rattle.std.specs.Prelude.{◌-◌, length, vec_capacity};
    ghost use Rattle.worker_hands.specs.Hands.{HandView};

    ghost Value = { HandView };

    ghost view = { λ h. record { telling = h.telling; list = h.list.items; spare = vec_capacity h.list - length h.list.items } };
}

impl Hand {
    ghost use Rattle.std.specs.Prelude.{◌≡◌, ◌≤◌, [], true, false, IfOk, MatchOption};

    /// A hand that tells nothing.
    pub fn plain(alloc: Global) -> Hand
        ensures telling { result.telling ≡ false }
        ensures list { result.list ≡ [] }
    {
        Hand {
            telling: false,
            list: Vec::new(alloc),
        }
    }

    /// A hand that tells its list, with room for so many steps.
    ///
    /// # Errors
    /// `Memory`.
    pub fn telling(alloc: Global, room: usize) -> Result<Hand, Memory>
        ensures telling { IfOk result (λ h. h.telling ≡ true) }
        ensures list { IfOk result (λ h. h.list ≡ []) }
        ensures room { IfOk result (λ h. room ≤ h.spare) }
    {
        let list = Vec::with_capacity(alloc, room)?;
        Ok(Hand {
            telling: true,
            list,
        })
    }

    /// The list, where it is told.
    pub fn list(&self) -> Option<&[Made]>
        ensures { MatchOption result (self.now.telling ≡ false) (λ list. (self.now.telling ≡ true) × (list.now ≡ self.now.list)) }
    {
        if self.telling {
            Some(self.list.as_slice())
        } else {
            None
        }
    }

    /// Adds a step with its answer to the list.
    fn add(&mut self, step: Step, answer: Answer)
        ensures { self.new ≡ after_made (record { step = step; answer = answer }) self.old }
    {
        if self.list.len() < self.list.capacity() {
            self.list.push_reserved(Made { step, answer });
        } else {
            self.telling = false;
        }
    }

    /// Executes the timeline's next event, as `Timeline::execute` does.
    pub fn execute<B: Behaviour>(
        &mut self,
        step: Step,
        timeline: &mut Timeline<B>,
        behaviour: &B,
    ) -> Result<Ran, Memory>
        requires { (event : EventValue B.Payload) (rest : List (EventValue B.Payload)) → timeline.old.pending ≡ event ∷ rest → refusal timeline.old ≡ None → MayRun (B.valid behaviour.now) (B.reaction behaviour.now) timeline.old event rest }
        ensures refused { (told : RanValue) → refusal timeline.old ≡ Some told → (result ≡ Ok told) × (timeline.new ≡ timeline.old) }
        ensures ran { refusal timeline.old ≡ None → IfOk result (λ told. (run : IsRun (B.reaction behaviour.now) timeline.old timeline.new) × (told ≡ RanValue.Ran run.event.key)) }
        ensures spent { OnErr result ((refusal timeline.old ≡ None) × (timeline.new ≡ spent_of timeline.old timeline.new)) }
        ensures order { IsInOrder timeline.new }
        ensures list { self.new ≡ after_made (record { step = step; answer = ran_answer result }) self.old }
    {
        let ran = timeline.execute(behaviour);
        timeline.keeps_order();
        self.add(step, answer_of_ran(&ran));
        ran
    }

    /// Posts on a channel to the mail of its receiver, as `post_between` does.
    pub fn post<B: Behaviour>(
        &mut self,
        step: Step,
        channel: u32,
        timeline: &mut Timeline<B>,
        mail: &mut Mail<B::Payload>,
    ) -> Result<Stepped, Memory>
        requires out { Among channel (numbers_of timeline.old.out_ends) }
        requires mail { Contains mail.old.channels channel }
        requires joined { posted_to (mail_at mail.old channel) ≡ posted_of timeline.old.out_ends channel }
        ensures cause { IfOk result (λ done. done ≡ stepped (can_post timeline.old channel (mail_at mail.old channel))) }
        ensures did { result ≡ Ok Did → IsPostedTo channel timeline.old timeline.new mail.old mail.new }
        ensures kept_timeline { (result ≡ Ok Did → ⊥) → timeline.new ≡ timeline.old }
        ensures kept_mail { (result ≡ Ok Did → ⊥) → mail.new ≡ mail.old }
        ensures list { self.new ≡ after_made (record { step = step; answer = stepped_answer result }) self.old }
    {
        let posted = post_between(timeline, channel, mail);
        self.add(step, answer_of_stepped(&posted));
        posted
    }

    /// Takes the timeline's mail, as `take_between` does.
    pub fn take<B: Behaviour>(
        &mut self,
        step: Step,
        timeline: &mut Timeline<B>,
        mail: &mut Mail<B::Payload>,
    ) -> Result<Stepped, Memory>
        requires own { IsMailOf mail.old timeline.old }
        requires new { AreNew (events_on mail.old mail.old.channels) timeline.old.pending }
        ensures cause { IfOk result (λ done. done ≡ stepped (can_take timeline.old mail.old mail.old.channels)) }
        ensures did { result ≡ Ok Did → IsTakenFrom mail.old mail.new timeline.old timeline.new }
        ensures kept_timeline { (result ≡ Ok Did → ⊥) → timeline.new ≡ timeline.old }
        ensures kept_mail { (result ≡ Ok Did → ⊥) → mail.new ≡ mail.old }
        ensures list { self.new ≡ after_made (record { step = step; answer = stepped_answer result }) self.old }
    {
        let taken = take_between(timeline, mail);
        self.add(step, answer_of_stepped(&taken));
        taken
    }

    /// Enters the barrier's window, as `enter_from` does.
    pub fn enter<B: Behaviour>(
        &mut self,
        step: Step,
        timeline: &mut Timeline<B>,
        barrier: &Barrier,
    ) -> Stepped
        ensures cause { result ≡ stepped (can_enter timeline.old barrier.now.window barrier.now.counts) }
        ensures did { result ≡ Did → timeline.new ≡ entered_at barrier.now.window timeline.old }
        ensures kept { (result ≡ Did → ⊥) → timeline.new ≡ timeline.old }
        ensures list { self.new ≡ after_made (record { step = step; answer = Answer.Done result }) self.old }
    {
        let entered = enter_from(timeline, barrier);
        self.add(step, Answer::Done(entered));
        entered
    }

    /// Reports to the barrier, as `report_to` does.
    pub fn report<B: Behaviour>(
        &mut self,
        alloc: Global,
        step: Step,
        number: u32,
        timeline: &Timeline<B>,
        barrier: &mut Barrier,
    ) -> Result<Stepped, Memory>
        requires number { number < length barrier.old.reports }
        requires ends { HasItsEnds timeline.now }
        requires cross { All (Contains barrier.old.channels) (map channel_of timeline.now.outs) }
        ensures cause { IfOk result (λ done. done ≡ stepped (can_report timeline.now number barrier.old)) }
        ensures did { result ≡ Ok Did → barrier.new ≡ with_report number (ahead_in timeline.now) (counts_in timeline.now) barrier.old }
        ensures kept { (result ≡ Ok Did → ⊥) → barrier.new ≡ barrier.old }
        ensures list { self.new ≡ after_made (record { step = step; answer = stepped_answer result }) self.old }
    {
        let reported = report_to(alloc, timeline, number, barrier);
        self.add(step, answer_of_stepped(&reported));
        reported
    }

    /// Crosses the barrier, as `Barrier::cross` does.
    pub fn cross(&mut self, barrier: &mut Barrier) -> Crossing
        ensures answer { result ≡ crossing barrier.old }
        ensures after { barrier.new ≡ after_crossing result barrier.old }
        ensures list { self.new ≡ after_made (record { step = Step.Cross; answer = Answer.Crossed result }) self.old }
    {
        let crossing = barrier.cross();
        self.add(Step::Cross, Answer::Crossed(crossing));
        crossing
    }
}

/// The answer to Execute.
fn answer_of_ran(ran: &Result<Ran, Memory>) -> Answer
    ensures { result ≡ ran_answer ran.now }
{
    match ran {
        Ok(ran) => Answer::Executed(*ran),
        Err(Memory) => Answer::Memory,
    }
}

/// The answer to a step on two parts.
fn answer_of_stepped(stepped: &Result<Stepped, Memory>) -> Answer
    ensures { result ≡ stepped_answer stepped.now }
{
    match stepped {
        Ok(stepped) => Answer::Done(*stepped),
        Err(Memory) => Answer::Memory,
    }
}
