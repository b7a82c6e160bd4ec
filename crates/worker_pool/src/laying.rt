//! The parts of a run as values in the order of their places, with the numbers of their count words.

ghost use Rattle.std.specs.Prelude.{◌≡◌, ◌+◌, ◌<◌, ◌≤◌, ◌∷◌, ◌++◌, [], map, IfOk, IsTrue, vec_len, vec_capacity};
ghost use Rattle.core_rules.specs.Cores.{IsCoreOfRun};
ghost use Rattle.share_rules.specs.Places.{posted_on, taken_from, executed_in, count_of, counts_of};
ghost use Rattle.share_turns.specs.Rows.{AreNear};
ghost use Rattle.share_turns.specs.declared.share.Share.{Share as ShareValue};
ghost use Rattle.share_turns.specs.Shares.{IsTimeline, IsMail, IsBarrier};
ghost use Rattle.sync_core.specs.Cores.{core_of};
ghost use Rattle.worker_pool.specs.Carried.{AreFew};
ghost use Rattle.worker_pool.specs.Laid.{of_timelines, of_mails, laid_out, LastAre, AreLaid};

use appointments::Mail;
use barrier_window::Barrier;
use share_turns::{Near, Share};
use sim_base::Memory;
use ssf_model::Behaviour;
use std::alloc::Global;
use sync_core::Parts;
use timeline::Timeline;

/// Of at most so many timelines and channels between them, 32 bits can tell all places and count words.
const MOST_PARTS: usize = 1_000_000_000;

/// What stands beside the values in a table: the numbers of the count words, and the index of the channels.
#[derive(Drop)]
pub(crate) struct Tables {
    pub(crate) counts: Vec<u64>,
    pub(crate) near: Near,
}

/// What stands beside the values of these parts in a table, where 32 bits can tell all places and count words.
pub(crate) fn tables_in<B: Behaviour>(alloc: Global, parts: &Parts<B>) -> Result<Tables, Memory>
    requires run { IsCoreOfRun (B.valid parts.now.behaviour) (B.carried parts.now.behaviour) (B.reaction parts.now.behaviour) (core_of parts.now) }
    ensures few { IfOk result (λ tables. AreFew (core_of parts.now)) }
    ensures counts { IfOk result (λ tables. tables.counts.items ≡ counts_of (core_of parts.now)) }
    ensures near { IfOk result (λ tables. AreNear parts.now.ends.items (count_of (core_of parts.now)) tables.near.rows.items) }
{
    if !are_few(parts) {
        return Err(Memory);
    }
    let counts = counts_in(alloc, parts)?;
    let near = Near::new(alloc, parts.ends.as_slice(), parts.timelines.len() as u32)?;
    Ok(Tables { counts, near })
}

/// Whether 32 bits can tell all places and count words.
fn are_few<B: Behaviour>(parts: &Parts<B>) -> bool
    ensures { IsTrue result → AreFew (core_of parts.now) }
{
    parts.timelines.len() <= MOST_PARTS && parts.ends.len() <= MOST_PARTS
}

/// The numbers of the count words.
fn counts_in<B: Behaviour>(alloc: Global, parts: &Parts<B>) -> Result<Vec<u64>, Memory>
    requires run { IsCoreOfRun (B.valid parts.now.behaviour) (B.carried parts.now.behaviour) (B.reaction parts.now.behaviour) (core_of parts.now) }
    requires few { AreFew (core_of parts.now) }
    ensures { IfOk result (λ counts. counts.items ≡ counts_of (core_of parts.now)) }
{
    let words = 2 * parts.ends.len() + parts.timelines.len() + 1;
    let mut counts = Vec::with_capacity(alloc, words)?;
    add_posted(parts, &mut counts);
    add_taken(parts, &mut counts);
    add_done(parts, &mut counts);
    counts.push_reserved(parts.barrier.round());
    Ok(counts)
}

/// Adds how much was posted on each channel between timelines.
fn add_posted<B: Behaviour>(parts: &Parts<B>, counts: &mut Vec<u64>)
    requires run { IsCoreOfRun (B.valid parts.now.behaviour) (B.carried parts.now.behaviour) (B.reaction parts.now.behaviour) (core_of parts.now) }
    requires room { vec_len counts.old + vec_len parts.now.ends ≤ vec_capacity counts.old }
    ensures items { counts.new.items ≡ counts.old.items ++ map (posted_on (core_of parts.now)) parts.now.ends.items }
    ensures capacity { vec_capacity counts.new ≡ vec_capacity counts.old }
{
    for end in &parts.ends {
        counts.push_reserved(parts.mails[end.receiver as usize].posted(end.channel));
    }
}

/// Adds how much was taken from each of them.
fn add_taken<B: Behaviour>(parts: &Parts<B>, counts: &mut Vec<u64>)
    requires run { IsCoreOfRun (B.valid parts.now.behaviour) (B.carried parts.now.behaviour) (B.reaction parts.now.behaviour) (core_of parts.now) }
    requires room { vec_len counts.old + vec_len parts.now.ends ≤ vec_capacity counts.old }
    ensures items { counts.new.items ≡ counts.old.items ++ map (taken_from (core_of parts.now)) parts.now.ends.items }
    ensures capacity { vec_capacity counts.new ≡ vec_capacity counts.old }
{
    for end in &parts.ends {
        counts.push_reserved(parts.timelines[end.receiver as usize].taken(end.channel));
    }
}

/// Adds how much each timeline has executed.
fn add_done<B: Behaviour>(parts: &Parts<B>, counts: &mut Vec<u64>)
    requires room { vec_len counts.old + vec_len parts.now.timelines ≤ vec_capacity counts.old }
    ensures items { counts.new.items ≡ counts.old.items ++ map executed_in parts.now.timelines.items }
    ensures capacity { vec_capacity counts.new ≡ vec_capacity counts.old }
{
    for timeline in &parts.timelines {
        counts.push_reserved(timeline.executed());
    }
}

/// Moves the parts into a list of values, in the order of their places.
pub(crate) fn lay_out<B: Behaviour>(
    timelines: &mut Vec<Timeline<B>>,
    mails: &mut Vec<Mail<B::Payload>>,
    barrier: Barrier,
    values: &mut Vec<Share<B>>,
)
    requires none { values.old.items ≡ [] }
    requires room { vec_len timelines.old + vec_len mails.old + 1 ≤ vec_capacity values.old }
    ensures values { values.new.items ≡ laid_out timelines.old.items mails.old.items barrier }
    ensures timelines { timelines.new.items ≡ [] }
    ensures mails { mails.new.items ≡ [] }
    ensures timeline_room { vec_capacity timelines.new ≡ vec_capacity timelines.old }
    ensures mail_room { vec_capacity mails.new ≡ vec_capacity mails.old }
{
    lay_timelines(timelines, values);
    lay_mails(mails, values);
    values.push_reserved(Share::Barrier(barrier));
}

/// Moves the timelines behind other values.
fn lay_timelines<B: Behaviour>(timelines: &mut Vec<Timeline<B>>, values: &mut Vec<Share<B>>)
    requires room { vec_len values.old + vec_len timelines.old ≤ vec_capacity values.old }
    ensures values { values.new.items ≡ values.old.items ++ of_timelines timelines.old.items }
    ensures room { vec_capacity values.new ≡ vec_capacity values.old }
    ensures none { timelines.new.items ≡ [] }
    ensures kept { vec_capacity timelines.new ≡ vec_capacity timelines.old }
{
    timelines.reverse();
    while let Some(timeline) = timelines.pop() {
        values.push_reserved(Share::Timeline(timeline));
    }
}

/// Moves the mails behind other values.
fn lay_mails<B: Behaviour>(mails: &mut Vec<Mail<B::Payload>>, values: &mut Vec<Share<B>>)
    requires room { vec_len values.old + vec_len mails.old ≤ vec_capacity values.old }
    ensures values { values.new.items ≡ values.old.items ++ of_mails mails.old.items }
    ensures room { vec_capacity values.new ≡ vec_capacity values.old }
    ensures none { mails.new.items ≡ [] }
    ensures kept { vec_capacity mails.new ≡ vec_capacity mails.old }
{
    mails.reverse();
    while let Some(mail) = mails.pop() {
        values.push_reserved(Share::Mail(mail));
    }
}

/// Moves the values of so many timelines back, and gives the barrier.
pub(crate) fn gather_into<B: Behaviour>(
    count: usize,
    mut values: Vec<Share<B>>,
    timelines: &mut Vec<Timeline<B>>,
    mails: &mut Vec<Mail<B::Payload>>,
) -> Barrier
    requires laid { AreLaid count values.items }
    requires no_timelines { timelines.old.items ≡ [] }
    requires no_mails { mails.old.items ≡ [] }
    requires timeline_room { count ≤ vec_capacity timelines.old }
    requires mail_room { count ≤ vec_capacity mails.old }
    ensures { values.items ≡ laid_out timelines.new.items mails.new.items result }
{
    let barrier = take_barrier(&mut values);
    take_mails(count, &mut values, mails);
    take_timelines(count, &mut values, timelines);
    barrier
}

/// Takes the barrier, which is the last of these values.
fn take_barrier<B: Behaviour>(values: &mut Vec<Share<B>>) -> Barrier
    requires some { 0 < vec_len values.old }
    requires last { LastAre IsBarrier 1 values.old.items }
    ensures { values.old.items ≡ values.new.items ++ ShareValue.Barrier result ∷ [] }
{
    match values.pop() {
        Some(value) => value.into_barrier(),
        None => unreachable!(),
    }
}

/// Takes so many mails, which are the last of these values.
fn take_mails<B: Behaviour>(
    count: usize,
    values: &mut Vec<Share<B>>,
    mails: &mut Vec<Mail<B::Payload>>,
)
    requires enough { count ≤ vec_len values.old }
    requires last { LastAre IsMail count values.old.items }
    requires none { mails.old.items ≡ [] }
    requires room { count ≤ vec_capacity mails.old }
    ensures values { values.old.items ≡ values.new.items ++ of_mails mails.new.items }
    ensures many { vec_len values.new + count ≡ vec_len values.old }
{
    while mails.len() < count {
        match values.pop() {
            Some(value) => mails.push_reserved(value.into_mail()),
            None => unreachable!(),
        }
    }
    mails.reverse();
}

/// Takes so many timelines, which are the last of these values.
fn take_timelines<B: Behaviour>(
    count: usize,
    values: &mut Vec<Share<B>>,
    timelines: &mut Vec<Timeline<B>>,
)
    requires enough { count ≤ vec_len values.old }
    requires last { LastAre IsTimeline count values.old.items }
    requires none { timelines.old.items ≡ [] }
    requires room { count ≤ vec_capacity timelines.old }
    ensures values { values.old.items ≡ values.new.items ++ of_timelines timelines.new.items }
    ensures many { vec_len values.new + count ≡ vec_len values.old }
{
    while timelines.len() < count {
        match values.pop() {
            Some(value) => timelines.push_reserved(value.into_timeline()),
            None => unreachable!(),
        }
    }
    timelines.reverse();
}
