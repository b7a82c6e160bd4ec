//! The steps of one turn of a worker at a timeline that it holds out.

ghost use Rattle.std.specs.Prelude.{◌≡◌, ◌≤◌, ◌+◌, length, slice_get, Some, Err, OnOk};
ghost use Rattle.turn_table.specs.Passes.{view_of};
ghost use Rattle.turn_table.specs.Turned.{IsPassOf, key_of};
ghost use Rattle.timeline.specs.declared.answers.Ran.TheVariants.{Over as WasOver};
ghost use Rattle.sync_steps.specs.declared.steps.Step.TheVariants.{Execute, Post, Take, Enter, Report, Cross};
ghost use Rattle.core_rules.specs.Cores.{IsCoreOfRun};
ghost use Rattle.share_turns.specs.Shares.{IsTimeline};
ghost use Rattle.share_turns.specs.Tables.{IsTableOf};
ghost use Rattle.share_turns.specs.Holdings.{HasTimeline, HasLostNone};
ghost use Rattle.worker_hands.specs.declared.hand.Answer.TheVariants.{Executed};
ghost use Rattle.worker_hands.specs.Hands.{IsAsked, IsToldOn};
ghost use Rattle.worker_hands.specs.Asked.{AreOf, runs_in, last_answer, WasNotEnabled, IsExhausted, IsUncrossed};
ghost use Rattle.worker_turns.specs.Working.{HasLostMore};
ghost use Rattle.worker_turns.specs.Turning.{AreSteps, AreRuns, AreMeetings, AreTakes, ArePostsOn, ArePostsAt, ArePosts, AreMeetingsOr, AreAtBarrier, CanTake, HasTakenOn, CanExecute, HasExecutedOn, CanPost, HasPostedOn, HasEnteredOn, CanReport, HasReportedOn, CanCross, HasCrossedOn};

use barrier_window::Barrier;
use share_turns::{RunTable, Share};
use sim_base::Memory;
use ssf_model::Behaviour;
use std::alloc::Global;
use sync_core::CrossEnd;
use turn_table::{Held, Pass, Tenant};
use worker_hands::{Halt, Hand, cross_all, enter_all, execute_all, post_all, report_all, take_all};

/// What was seen of the barrier.
#[derive(Clone, Copy, Debug, PartialEq, Eq)]
pub(crate) struct Seen {
    pub(crate) ended: bool,
    pub(crate) round: u64,
}

// Takes the timeline's mail, where its turn is free.
pub(crate) fn take<B: Behaviour>(
    table: &RunTable<B>,
    pass: &mut Pass,
    hand: &mut Hand,
    own: &mut Held<Share<B>>,
) -> Result<(), Memory>
    requires pass { IsPassOf ⟦<Share<B> as Tenant>⟧ table.now.turns.now pass.old }
    requires table { IsTableOf (key_of table.now.turns.now).value table.now.ends.now table.now.near.now.rows.items table.now.layout table.now.number }
    requires run { IsCoreOfRun (B.valid (key_of table.now.turns.now).value.behaviour) (B.carried (key_of table.now.turns.now).value.behaviour) (B.reaction (key_of table.now.turns.now).value.behaviour) (key_of table.now.turns.now).value }
    requires has { HasTimeline B.valid B.carried B.reaction (key_of table.now.turns.now).value (view_of pass.old) table.now.number own.old }
    ensures pass { IsPassOf ⟦<Share<B> as Tenant>⟧ table.now.turns.now pass.new }
    ensures has { HasTimeline B.valid B.carried B.reaction (key_of table.now.turns.now).value (view_of pass.new) table.now.number own.new }
    ensures tries { HasLostMore (key_of table.now.turns.now).value (view_of pass.old) (view_of pass.new) }
    ensures told { IsToldOn hand.old hand.new }
    ensures steps { IsAsked hand.old hand.new (AreSteps (key_of table.now.turns.now).value 0 table.now.number) }
    ensures done { OnOk result (IsAsked hand.old hand.new (AreTakes (key_of table.now.turns.now).value table.now.number (view_of pass.old) (view_of pass.new))) }
{
    let Some(mut mail) = table.bring_mail(pass, table.number) else {
        return Ok(());
    };
    let taken = take_shares(hand, table.number, own.value(), mail.value());
    table.write_taken(pass, own.value().timeline());
    table.give_mail(pass, table.number, mail);
    taken
}

// Executes the timeline's next events, at most `left` of them.
pub(crate) fn execute<B: Behaviour>(
    table: &RunTable<B>,
    behaviour: &B,
    pass: &mut Pass,
    hand: &mut Hand,
    own: &mut Held<Share<B>>,
    left: &mut u32,
) -> Result<(), Halt>
    requires pass { IsPassOf ⟦<Share<B> as Tenant>⟧ table.now.turns.now pass.old }
    requires table { IsTableOf (key_of table.now.turns.now).value table.now.ends.now table.now.near.now.rows.items table.now.layout table.now.number }
    requires run { IsCoreOfRun (B.valid (key_of table.now.turns.now).value.behaviour) (B.carried (key_of table.now.turns.now).value.behaviour) (B.reaction (key_of table.now.turns.now).value.behaviour) (key_of table.now.turns.now).value }
    requires has { HasTimeline B.valid B.carried B.reaction (key_of table.now.turns.now).value (view_of pass.old) table.now.number own.old }
    requires behaviour { behaviour.now ≡ (key_of table.now.turns.now).value.behaviour }
    ensures pass { IsPassOf ⟦<Share<B> as Tenant>⟧ table.now.turns.now pass.new }
    ensures has { HasTimeline B.valid B.carried B.reaction (key_of table.now.turns.now).value (view_of pass.new) table.now.number own.new }
    ensures tries { HasLostNone (view_of pass.old) (view_of pass.new) }
    ensures told { IsToldOn hand.old hand.new }
    ensures asked { IsAsked hand.old hand.new (λ made. AreOf (Execute table.now.number) made × (runs_in made + left.new ≡ left.old)) }
    ensures left { left.new ≤ left.old }
    ensures done { OnOk result (IsAsked hand.old hand.new (AreRuns left.old left.new table.now.number)) }
    ensures over { result ≡ Err Halt.Over → IsAsked hand.old hand.new (λ made. last_answer (Execute table.now.number) made ≡ Some (Executed WasOver)) }
{
    let executed = execute_share(hand, table.number, own.value(), behaviour, left);
    table.write_done(pass, own.value().timeline().executed());
    executed
}

// Posts on each channel that goes from the timeline to another one, where the turn of that one's mail is free. They are among
// those of the timeline's row.
pub(crate) fn post<B: Behaviour>(
    table: &RunTable<B>,
    pass: &mut Pass,
    hand: &mut Hand,
    own: &mut Held<Share<B>>,
) -> Result<(), Memory>
    requires pass { IsPassOf ⟦<Share<B> as Tenant>⟧ table.now.turns.now pass.old }
    requires table { IsTableOf (key_of table.now.turns.now).value table.now.ends.now table.now.near.now.rows.items table.now.layout table.now.number }
    requires run { IsCoreOfRun (B.valid (key_of table.now.turns.now).value.behaviour) (B.carried (key_of table.now.turns.now).value.behaviour) (B.reaction (key_of table.now.turns.now).value.behaviour) (key_of table.now.turns.now).value }
    requires has { HasTimeline B.valid B.carried B.reaction (key_of table.now.turns.now).value (view_of pass.old) table.now.number own.old }
    ensures pass { IsPassOf ⟦<Share<B> as Tenant>⟧ table.now.turns.now pass.new }
    ensures has { HasTimeline B.valid B.carried B.reaction (key_of table.now.turns.now).value (view_of pass.new) table.now.number own.new }
    ensures tries { HasLostMore (key_of table.now.turns.now).value (view_of pass.old) (view_of pass.new) }
    ensures told { IsToldOn hand.old hand.new }
    ensures steps { IsAsked hand.old hand.new (AreSteps (key_of table.now.turns.now).value 0 table.now.number) }
    ensures done { OnOk result (IsAsked hand.old hand.new (ArePosts (key_of table.now.turns.now).value table.now.number (view_of pass.old) (view_of pass.new))) }
{
    for &place in table.near.of(table.number) {
        post_at(table, pass, hand, own, place, &table.ends[place as usize])?;
    }
    Ok(())
}

// Posts on the channel of an end, where the timeline is its sender.
fn post_at<B: Behaviour>(
    table: &RunTable<B>,
    pass: &mut Pass,
    hand: &mut Hand,
    own: &mut Held<Share<B>>,
    place: u32,
    end: &CrossEnd,
) -> Result<(), Memory>
    requires pass { IsPassOf ⟦<Share<B> as Tenant>⟧ table.now.turns.now pass.old }
    requires table { IsTableOf (key_of table.now.turns.now).value table.now.ends.now table.now.near.now.rows.items table.now.layout table.now.number }
    requires run { IsCoreOfRun (B.valid (key_of table.now.turns.now).value.behaviour) (B.carried (key_of table.now.turns.now).value.behaviour) (B.reaction (key_of table.now.turns.now).value.behaviour) (key_of table.now.turns.now).value }
    requires has { HasTimeline B.valid B.carried B.reaction (key_of table.now.turns.now).value (view_of pass.old) table.now.number own.old }
    requires end { slice_get (key_of table.now.turns.now).value.ends place ≡ Some end.now }
    ensures pass { IsPassOf ⟦<Share<B> as Tenant>⟧ table.now.turns.now pass.new }
    ensures has { HasTimeline B.valid B.carried B.reaction (key_of table.now.turns.now).value (view_of pass.new) table.now.number own.new }
    ensures tries { HasLostMore (key_of table.now.turns.now).value (view_of pass.old) (view_of pass.new) }
    ensures told { IsToldOn hand.old hand.new }
    ensures steps { IsAsked hand.old hand.new (AreSteps (key_of table.now.turns.now).value 0 table.now.number) }
    ensures done { OnOk result (IsAsked hand.old hand.new (ArePostsAt (key_of table.now.turns.now).value place table.now.number (view_of pass.old) (view_of pass.new))) }
{
    if end.sender != table.number {
        return Ok(());
    }
    post_on(table, pass, hand, own, place, end)
}

// Posts on the channel of an end, where the turn of the receiver's mail is free.
fn post_on<B: Behaviour>(
    table: &RunTable<B>,
    pass: &mut Pass,
    hand: &mut Hand,
    own: &mut Held<Share<B>>,
    place: u32,
    end: &CrossEnd,
) -> Result<(), Memory>
    requires pass { IsPassOf ⟦<Share<B> as Tenant>⟧ table.now.turns.now pass.old }
    requires table { IsTableOf (key_of table.now.turns.now).value table.now.ends.now table.now.near.now.rows.items table.now.layout table.now.number }
    requires run { IsCoreOfRun (B.valid (key_of table.now.turns.now).value.behaviour) (B.carried (key_of table.now.turns.now).value.behaviour) (B.reaction (key_of table.now.turns.now).value.behaviour) (key_of table.now.turns.now).value }
    requires has { HasTimeline B.valid B.carried B.reaction (key_of table.now.turns.now).value (view_of pass.old) table.now.number own.old }
    requires end { slice_get (key_of table.now.turns.now).value.ends place ≡ Some end.now }
    requires sender { end.now.sender ≡ table.now.number }
    ensures pass { IsPassOf ⟦<Share<B> as Tenant>⟧ table.now.turns.now pass.new }
    ensures has { HasTimeline B.valid B.carried B.reaction (key_of table.now.turns.now).value (view_of pass.new) table.now.number own.new }
    ensures tries { HasLostMore (key_of table.now.turns.now).value (view_of pass.old) (view_of pass.new) }
    ensures told { IsToldOn hand.old hand.new }
    ensures steps { IsAsked hand.old hand.new (AreSteps (key_of table.now.turns.now).value 0 table.now.number) }
    ensures done { OnOk result (IsAsked hand.old hand.new (ArePostsOn (key_of table.now.turns.now).value table.now.number end.now (view_of pass.old) (view_of pass.new))) }
{
    let Some(mut mail) = table.bring_mail(pass, end.receiver) else {
        return Ok(());
    };
    let posted = post_shares(hand, table.number, end.channel, own.value(), mail.value());
    table.write_posted(pass, place, mail.value().mail().posted(end.channel));
    table.give_mail(pass, end.receiver, mail);
    posted
}

// Enters the barrier's window, reports and crosses, where the barrier's turn is free. Tells what was seen of the barrier.
pub(crate) fn meet<B: Behaviour>(
    alloc: Global,
    table: &RunTable<B>,
    pass: &mut Pass,
    hand: &mut Hand,
    own: &mut Held<Share<B>>,
    seen: &mut Seen,
) -> Result<(), Memory>
    requires pass { IsPassOf ⟦<Share<B> as Tenant>⟧ table.now.turns.now pass.old }
    requires table { IsTableOf (key_of table.now.turns.now).value table.now.ends.now table.now.near.now.rows.items table.now.layout table.now.number }
    requires run { IsCoreOfRun (B.valid (key_of table.now.turns.now).value.behaviour) (B.carried (key_of table.now.turns.now).value.behaviour) (B.reaction (key_of table.now.turns.now).value.behaviour) (key_of table.now.turns.now).value }
    requires has { HasTimeline B.valid B.carried B.reaction (key_of table.now.turns.now).value (view_of pass.old) table.now.number own.old }
    ensures pass { IsPassOf ⟦<Share<B> as Tenant>⟧ table.now.turns.now pass.new }
    ensures has { HasTimeline B.valid B.carried B.reaction (key_of table.now.turns.now).value (view_of pass.new) table.now.number own.new }
    ensures tries { HasLostMore (key_of table.now.turns.now).value (view_of pass.old) (view_of pass.new) }
    ensures told { IsToldOn hand.old hand.new }
    ensures steps { IsAsked hand.old hand.new (AreSteps (key_of table.now.turns.now).value 0 table.now.number) }
    ensures done { OnOk result (IsAsked hand.old hand.new (AreMeetingsOr (key_of table.now.turns.now).value table.now.number (view_of pass.old) (view_of pass.new))) }
{
    let Some(mut barrier) = table.bring_barrier(pass) else {
        return Ok(());
    };
    let met = meet_at(alloc, table, pass, hand, own, &mut barrier);
    *seen = seen_of(barrier.value().barrier());
    table.give_barrier(pass, barrier);
    met
}

// Makes the steps on the barrier, and where it was crossed once more.
fn meet_at<B: Behaviour>(
    alloc: Global,
    table: &RunTable<B>,
    pass: &mut Pass,
    hand: &mut Hand,
    own: &mut Held<Share<B>>,
    barrier: &mut Held<Share<B>>,
) -> Result<(), Memory>
    requires pass { IsPassOf ⟦<Share<B> as Tenant>⟧ table.now.turns.now pass.old }
    requires table { IsTableOf (key_of table.now.turns.now).value table.now.ends.now table.now.near.now.rows.items table.now.layout table.now.number }
    requires run { IsCoreOfRun (B.valid (key_of table.now.turns.now).value.behaviour) (B.carried (key_of table.now.turns.now).value.behaviour) (B.reaction (key_of table.now.turns.now).value.behaviour) (key_of table.now.turns.now).value }
    requires at { AreAtBarrier B.valid B.carried B.reaction (key_of table.now.turns.now).value (view_of pass.old) table.now.number own.old barrier.old }
    ensures pass { IsPassOf ⟦<Share<B> as Tenant>⟧ table.now.turns.now pass.new }
    ensures at { AreAtBarrier B.valid B.carried B.reaction (key_of table.now.turns.now).value (view_of pass.new) table.now.number own.new barrier.new }
    ensures tries { HasLostNone (view_of pass.old) (view_of pass.new) }
    ensures told { IsToldOn hand.old hand.new }
    ensures steps { IsAsked hand.old hand.new (AreSteps (key_of table.now.turns.now).value 0 table.now.number) }
    ensures done { OnOk result (IsAsked hand.old hand.new (AreMeetings table.now.number)) }
{
    if meet_once(alloc, table, pass, hand, own, barrier)? {
        meet_once(alloc, table, pass, hand, own, barrier)?;
    }
    Ok(())
}

// Makes the steps on the barrier. Tells whether it was crossed.
fn meet_once<B: Behaviour>(
    alloc: Global,
    table: &RunTable<B>,
    pass: &mut Pass,
    hand: &mut Hand,
    own: &mut Held<Share<B>>,
    barrier: &mut Held<Share<B>>,
) -> Result<bool, Memory>
    requires pass { IsPassOf ⟦<Share<B> as Tenant>⟧ table.now.turns.now pass.old }
    requires table { IsTableOf (key_of table.now.turns.now).value table.now.ends.now table.now.near.now.rows.items table.now.layout table.now.number }
    requires run { IsCoreOfRun (B.valid (key_of table.now.turns.now).value.behaviour) (B.carried (key_of table.now.turns.now).value.behaviour) (B.reaction (key_of table.now.turns.now).value.behaviour) (key_of table.now.turns.now).value }
    requires at { AreAtBarrier B.valid B.carried B.reaction (key_of table.now.turns.now).value (view_of pass.old) table.now.number own.old barrier.old }
    ensures pass { IsPassOf ⟦<Share<B> as Tenant>⟧ table.now.turns.now pass.new }
    ensures at { AreAtBarrier B.valid B.carried B.reaction (key_of table.now.turns.now).value (view_of pass.new) table.now.number own.new barrier.new }
    ensures tries { HasLostNone (view_of pass.old) (view_of pass.new) }
    ensures told { IsToldOn hand.old hand.new }
    ensures steps { IsAsked hand.old hand.new (AreSteps (key_of table.now.turns.now).value 0 table.now.number) }
    ensures done { OnOk result (IsAsked hand.old hand.new (AreMeetings table.now.number)) }
{
    enter_share(hand, table.number, own.value(), barrier.value().barrier());
    report_share(
        alloc,
        hand,
        table.number,
        own.value().timeline(),
        barrier.value(),
    )?;
    let crossed = cross_share::<B>(hand, barrier.value());
    if crossed {
        table.write_round(pass, barrier.value().barrier().round());
    }
    Ok(crossed)
}

fn take_shares<B: Behaviour>(
    hand: &mut Hand,
    number: u32,
    own: &mut Share<B>,
    mail: &mut Share<B>,
) -> Result<(), Memory>
    requires { CanTake B.valid B.carried B.reaction number own.old mail.old }
    ensures taken { HasTakenOn B.valid B.carried B.reaction number own.old own.new mail.old mail.new }
    ensures told { IsToldOn hand.old hand.new }
    ensures asked { IsAsked hand.old hand.new (λ made. AreOf (Take number) made × (runs_in made ≡ 0)) }
    ensures done { OnOk result (IsAsked hand.old hand.new (WasNotEnabled (Take number))) }
{
    let Share::Timeline(timeline) = own else {
        unreachable!();
    };
    let Share::Mail(mail) = mail else {
        unreachable!();
    };
    take_all(hand, number, timeline, mail)
}

fn execute_share<B: Behaviour>(
    hand: &mut Hand,
    number: u32,
    own: &mut Share<B>,
    behaviour: &B,
    left: &mut u32,
) -> Result<(), Halt>
    requires { CanExecute B.valid B.carried B.reaction behaviour.now number own.old }
    ensures executed { HasExecutedOn B.valid B.carried B.reaction behaviour.now number own.old own.new }
    ensures left { left.new ≤ left.old }
    ensures told { IsToldOn hand.old hand.new }
    ensures asked { IsAsked hand.old hand.new (λ made. AreOf (Execute number) made × (runs_in made + left.new ≡ left.old)) }
    ensures done { OnOk result (IsAsked hand.old hand.new (IsExhausted left.new number)) }
    ensures over { result ≡ Err Halt.Over → IsAsked hand.old hand.new (λ made. last_answer (Execute number) made ≡ Some (Executed WasOver)) }
{
    match own {
        Share::Timeline(timeline) => execute_all(hand, number, timeline, behaviour, left),
        _ => unreachable!(),
    }
}

fn post_shares<B: Behaviour>(
    hand: &mut Hand,
    number: u32,
    channel: u32,
    own: &mut Share<B>,
    mail: &mut Share<B>,
) -> Result<(), Memory>
    requires { CanPost B.valid B.carried B.reaction number channel own.old mail.old }
    ensures posted { HasPostedOn B.valid B.carried B.reaction number channel own.old own.new mail.old mail.new }
    ensures told { IsToldOn hand.old hand.new }
    ensures asked { IsAsked hand.old hand.new (λ made. AreOf (Post number channel) made × (runs_in made ≡ 0)) }
    ensures done { OnOk result (IsAsked hand.old hand.new (WasNotEnabled (Post number channel))) }
{
    let Share::Timeline(timeline) = own else {
        unreachable!();
    };
    let Share::Mail(mail) = mail else {
        unreachable!();
    };
    post_all(hand, number, channel, timeline, mail)
}

fn enter_share<B: Behaviour>(hand: &mut Hand, number: u32, own: &mut Share<B>, barrier: &Barrier)
    requires { IsTimeline own.old }
    ensures entered { HasEnteredOn B.valid B.carried B.reaction number own.old own.new barrier.now }
    ensures told { IsToldOn hand.old hand.new }
    ensures asked { IsAsked hand.old hand.new (λ made. AreOf (Enter number) made × (runs_in made ≡ 0)) }
    ensures done { IsAsked hand.old hand.new (WasNotEnabled (Enter number)) }
{
    match own {
        Share::Timeline(timeline) => enter_all(hand, number, timeline, barrier),
        _ => unreachable!(),
    }
}

fn report_share<B: Behaviour>(
    alloc: Global,
    hand: &mut Hand,
    number: u32,
    timeline: &timeline::Timeline<B>,
    barrier: &mut Share<B>,
) -> Result<(), Memory>
    requires { CanReport B.valid B.carried B.reaction number timeline.now barrier.old }
    ensures reported { HasReportedOn B.valid B.carried B.reaction number timeline.now barrier.old barrier.new }
    ensures told { IsToldOn hand.old hand.new }
    ensures asked { IsAsked hand.old hand.new (λ made. AreOf (Report number) made × (runs_in made ≡ 0)) }
    ensures done { OnOk result (IsAsked hand.old hand.new (WasNotEnabled (Report number))) }
{
    match barrier {
        Share::Barrier(barrier) => report_all(alloc, hand, number, timeline, barrier),
        _ => unreachable!(),
    }
}

fn cross_share<B: Behaviour>(hand: &mut Hand, barrier: &mut Share<B>) -> bool
    requires { CanCross B.valid B.carried B.reaction barrier.old }
    ensures crossed { HasCrossedOn B.valid B.carried B.reaction result barrier.old barrier.new }
    ensures told { IsToldOn hand.old hand.new }
    ensures asked { IsAsked hand.old hand.new (λ made. AreOf Cross made × (runs_in made ≡ 0)) }
    ensures done { IsAsked hand.old hand.new (λ made. IsUncrossed (last_answer Cross made)) }
{
    match barrier {
        Share::Barrier(barrier) => cross_all::<B>(hand, barrier),
        _ => unreachable!(),
    }
}

fn seen_of(barrier: &Barrier) -> Seen {
    Seen {
        ended: barrier.ended(),
        round: barrier.round(),
    }
}
