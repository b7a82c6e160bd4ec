//! The steps on two parts: a timeline and a mail, or a timeline and the barrier.

ghost use Rattle.std.specs.Prelude.{◌≡◌, ◌+◌, ◌-◌, ◌<◌, ◌≤◌, ◌&&◌, nat_lt, nat_le, slice_index, ◌||◌, ◌^◌, ℕ, List, map, take, drop, length, Ok, Err, IfOk, IfSome, IfNone, OnOk, OnErr};
ghost use Rattle.std.specs.List.{All, Contains};
ghost use Rattle.event_order.specs.Pending.{Among};
ghost use Rattle.timeline_parts.specs.Tables.{numbers_of};
ghost use Rattle.timeline_parts.specs.Settling.{AreNew};
ghost use Rattle.timeline.specs.Holding.{held_of, taken_of, has_taken as has_taken_all};
ghost use Rattle.timeline_parts.specs.Parts.{channel_of};
ghost use Rattle.timeline.specs.Moving.{can_enter, entered_at, IsTaken};
ghost use Rattle.timeline.specs.Lines.{posted_of, outbox_of};
ghost use Rattle.appointments.specs.Mails.{mail_at, posted_of as posted_to};
ghost use Rattle.appointments.specs.Posts.{taken_mail, taken_parcel};
ghost use Rattle.barrier_window.specs.Crossings.{with_report};
ghost use Rattle.timeline.specs.Holding.{ahead_in};
ghost use Rattle.sync_steps.specs.declared.steps.Stepped.TheVariants.{Did};
ghost use Rattle.sync_steps.specs.Between.{stepped, HasItsEnds, HasItsCrosses, promise_in, promised_on, promised_among, has_taken_on, can_post, IsPostedTo, IsMailOf, can_take, events_on, taken_all, IsTakenFrom, can_report, count_on, counts_in};

use crate::steps::Stepped;
use appointments::Mail;
use barrier_window::Barrier;
use sim_base::Memory;
use ssf_model::{Behaviour, Parcel};
use std::alloc::Global;
use timeline::{Cross, Timeline};

// ---- post

/// Posts what stands in the timeline's outbox of a channel, with the timeline's promise there, to the
/// mail of the timeline to which the channel goes. It is made exactly where the outbox is not empty or
/// the promise is above the mail's appointment, and else, or without memory, nothing changes.
///
/// # Errors
/// `Memory`.
pub fn post_between<B: Behaviour>(
    timeline: &mut Timeline<B>,
    channel: u32,
    mail: &mut Mail<B::Payload>,
) -> Result<Stepped, Memory>
    requires out { Among channel (numbers_of timeline.old.out_ends) }
    requires mail { Contains mail.old.channels channel }
    requires joined { posted_to (mail_at mail.old channel) ≡ posted_of timeline.old.out_ends channel }
    ensures cause { IfOk result (λ done. done ≡ stepped (can_post timeline.old channel (mail_at mail.old channel))) }
    ensures did { result ≡ Ok Did → IsPostedTo channel timeline.old timeline.new mail.old mail.new }
    ensures kept_timeline { (result ≡ Ok Did → ⊥) → timeline.new ≡ timeline.old }
    ensures kept_mail { (result ≡ Ok Did → ⊥) → mail.new ≡ mail.old }
{
    timeline.keeps_order();
    let waiting = timeline.written(channel) - mail.posted(channel);
    make_room(mail, channel, waiting as usize)?;
    Ok(hand_over(timeline, channel, mail))
}

/// Makes room for `n` more events on a channel of the mail.
fn make_room<P: Drop>(mail: &mut Mail<P>, channel: u32, n: usize) -> Result<(), Memory>
    requires { Contains mail.old.channels channel }
    ensures channels { mail.new.channels ≡ mail.old.channels }
    ensures mail { mail_at mail.new channel ≡ record (mail_at mail.old channel) { spare = (mail_at mail.new channel).spare } }
    ensures spare { OnOk result (n ≤ (mail_at mail.new channel).spare) }
    ensures others { (c : ℕ) → (c ≡ channel → ⊥) → mail_at mail.new c ≡ mail_at mail.old c }
    ensures none { n ≡ 0 → mail.new ≡ mail.old }
    ensures err { OnErr result (mail.new ≡ mail.old) }
{
    if n == 0 {
        return Ok(());
    }
    mail.reserve(channel, n)
}

/// Posts where the mail has room for the outbox.
fn hand_over<B: Behaviour>(
    timeline: &mut Timeline<B>,
    channel: u32,
    mail: &mut Mail<B::Payload>,
) -> Stepped
    requires out { Among channel (numbers_of timeline.old.out_ends) }
    requires mail { Contains mail.old.channels channel }
    requires joined { posted_to (mail_at mail.old channel) ≡ posted_of timeline.old.out_ends channel }
    requires room { length (outbox_of timeline.old.out_ends channel) ≤ (mail_at mail.old channel).spare }
    ensures cause { result ≡ stepped (can_post timeline.old channel (mail_at mail.old channel)) }
    ensures did { result ≡ Did → IsPostedTo channel timeline.old timeline.new mail.old mail.new }
    ensures kept_timeline { (result ≡ Did → ⊥) → timeline.new ≡ timeline.old }
    ensures kept_mail { (result ≡ Did → ⊥) → mail.new ≡ mail.old }
{
    timeline.keeps_order();
    let parcel = timeline.outbox(channel);
    if !has_news(&parcel, mail.appointment(channel)) {
        return Stepped::NotEnabled;
    }
    match mail.post(channel, parcel) {
        Ok(()) => Stepped::Did,
        Err(_) => unreachable!(),
    }
}

/// Whether a parcel has an event, or a promise above this appointment.
fn has_news<P>(parcel: &Parcel<P>, appointment: u64) -> bool
    ensures { result ≡ (nat_lt 0 (length parcel.now.events) || nat_lt appointment parcel.now.promise) }
{
    parcel.events.len() > 0 || parcel.promise > appointment
}

/// Whether the timeline, which executes up to the time `until`, in ticks, can post on a channel: its outbox
/// is not empty, or its promise is above the mail's appointment.
pub fn may_post<B: Behaviour>(
    timeline: &Timeline<B>,
    channel: u32,
    mail: &Mail<B::Payload>,
    until: u64,
) -> bool
    requires until { timeline.now.until ≡ until }
    requires out { Among channel (numbers_of timeline.now.out_ends) }
    requires crosses { HasItsCrosses timeline.now }
    requires mail { Contains mail.now.channels channel }
    requires joined { posted_to (mail_at mail.now channel) ≡ posted_of timeline.now.out_ends channel }
    ensures { result ≡ can_post timeline.now channel (mail_at mail.now channel) }
{
    has_unposted(timeline, channel, mail)
        || promise(timeline, channel, until) > mail.appointment(channel)
}

/// Whether the timeline's outbox on a channel, which goes to this mail, is not empty.
fn has_unposted<B: Behaviour>(timeline: &Timeline<B>, channel: u32, mail: &Mail<B::Payload>) -> bool
    requires out { Among channel (numbers_of timeline.now.out_ends) }
    requires mail { Contains mail.now.channels channel }
    requires joined { posted_to (mail_at mail.now channel) ≡ posted_of timeline.now.out_ends channel }
    ensures { result ≡ nat_lt 0 (length (outbox_of timeline.now.out_ends channel)) }
{
    timeline.keeps_order();
    timeline.written(channel) > mail.posted(channel)
}

/// What the timeline can promise on a channel: 0 on one that is no appointed one to another timeline.
fn promise<B: Behaviour>(timeline: &Timeline<B>, channel: u32, until: u64) -> u64
    requires until { timeline.now.until ≡ until }
    requires crosses { HasItsCrosses timeline.now }
    ensures { result ≡ promise_in timeline.now channel }
{
    timeline.keeps_order();
    promise_among(timeline.outs(), channel, timeline.lower_bound(), until + 1)
}

/// What can be promised on a channel, which is that of the first of these mappings that has it, where the
/// lower bound is `low`, at most `top`.
fn promise_among(outs: &[Cross], channel: u32, low: u64, top: u64) -> u64
    requires { top + 1 < 2 ^ 64 }
    ensures { result ≡ promised_among outs.now channel low top }
{
    for cross in outs {
        if cross.mapping.channel == channel {
            return promise_on(cross, low, top);
        }
    }
    0
}

/// What can be promised on the channel of a mapping where the lower bound is `low`, at most `top`.
fn promise_on(cross: &Cross, low: u64, top: u64) -> u64
    requires { top + 1 < 2 ^ 64 }
    ensures { result ≡ promised_on cross.now low top }
{
    if cross.appointed {
        low.saturating_add(cross.mapping.delay).min(top)
    } else {
        0
    }
}

// ---- take

/// Takes all that stands in the timeline's mail: the events become pending, and the appointments are
/// held. It is made exactly where the mail has an event, or an appointment above the one that the
/// timeline holds, and else, or without memory, nothing changes.
///
/// # Errors
/// `Memory`.
pub fn take_between<B: Behaviour>(
    timeline: &mut Timeline<B>,
    mail: &mut Mail<B::Payload>,
) -> Result<Stepped, Memory>
    requires own { IsMailOf mail.old timeline.old }
    requires new { AreNew (events_on mail.old mail.old.channels) timeline.old.pending }
    ensures cause { IfOk result (λ done. done ≡ stepped (can_take timeline.old mail.old mail.old.channels)) }
    ensures did { result ≡ Ok Did → IsTakenFrom mail.old mail.new timeline.old timeline.new }
    ensures kept_timeline { (result ≡ Ok Did → ⊥) → timeline.new ≡ timeline.old }
    ensures kept_mail { (result ≡ Ok Did → ⊥) → mail.new ≡ mail.old }
{
    if !has_mail(timeline, mail) {
        return Ok(Stepped::NotEnabled);
    }
    let Some(waiting) = events_waiting(timeline, mail) else {
        return Err(Memory);
    };
    timeline.reserve(waiting)?;
    take_all(timeline, mail);
    Ok(Stepped::Did)
}

/// Whether the timeline can take something: its mail has an event, or an appointment above the one that
/// the timeline holds.
pub fn has_mail<B: Behaviour>(timeline: &Timeline<B>, mail: &Mail<B::Payload>) -> bool
    requires { IsMailOf mail.now timeline.now }
    ensures { result ≡ can_take timeline.now mail.now mail.now.channels }
{
    let ins = timeline.ins();
    for cross in ins {
        if has_mail_on(timeline, mail, cross.mapping.channel) {
            return true;
        }
    }
    false
}

/// The same of the mail on one channel.
fn has_mail_on<B: Behaviour>(timeline: &Timeline<B>, mail: &Mail<B::Payload>, channel: u32) -> bool
    requires own { IsMailOf mail.now timeline.now }
    requires known { Among channel mail.now.channels }
    ensures { result ≡ (nat_lt 0 (length (mail_at mail.now channel).events) || nat_lt (held_of timeline.now.in_ends channel) (mail_at mail.now channel).appointment) }
{
    let events = mail.posted(channel) > timeline.taken(channel);
    let appointment = mail.appointment(channel) > timeline.appointment(channel);
    events || appointment
}

/// How many events the mail has, if a number of 64 bits can tell.
fn events_waiting<B: Behaviour>(timeline: &Timeline<B>, mail: &Mail<B::Payload>) -> Option<usize>
    requires { IsMailOf mail.now timeline.now }
    ensures { IfSome result (λ n. n ≡ length (events_on mail.now mail.now.channels)) }
{
    let ins = timeline.ins();
    let mut waiting: usize = 0;
    for cross in ins {
        waiting = waiting.checked_add(events_on_channel(timeline, mail, cross.mapping.channel))?;
    }
    Some(waiting)
}

/// How many events the mail has on one channel.
fn events_on_channel<B: Behaviour>(
    timeline: &Timeline<B>,
    mail: &Mail<B::Payload>,
    channel: u32,
) -> usize
    requires own { IsMailOf mail.now timeline.now }
    requires known { Among channel mail.now.channels }
    ensures { result ≡ length (mail_at mail.now channel).events }
{
    (mail.posted(channel) - timeline.taken(channel)) as usize
}

/// Takes all that stands in the mail, where the timeline has room for it.
fn take_all<B: Behaviour>(timeline: &mut Timeline<B>, mail: &mut Mail<B::Payload>)
    requires own { IsMailOf mail.old timeline.old }
    requires new { AreNew (events_on mail.old mail.old.channels) timeline.old.pending }
    requires room { length (events_on mail.old mail.old.channels) ≤ timeline.old.spare }
    ensures { IsTakenFrom mail.old mail.new timeline.old timeline.new }
{
    timeline.keeps_order();
    for place in 0..timeline.ins().len() {
        let channel = timeline.ins()[place].mapping.channel;
        take_on(timeline, mail, channel);
    }
}

/// Takes what stands in the mail on one channel, where the timeline has room for it.
fn take_on<B: Behaviour>(timeline: &mut Timeline<B>, mail: &mut Mail<B::Payload>, channel: u32)
    requires end { Among channel (numbers_of timeline.old.in_ends) }
    requires known { Contains mail.old.channels channel }
    requires new { AreNew (mail_at mail.old channel).events timeline.old.pending }
    requires room { length (mail_at mail.old channel).events ≤ timeline.old.spare }
    ensures taken { IsTaken timeline.old channel (taken_parcel (mail_at mail.old channel)) timeline.new }
    ensures channels { mail.new.channels ≡ mail.old.channels }
    ensures mail { mail_at mail.new channel ≡ taken_mail (mail_at mail.old channel) }
    ensures others { (c : ℕ) → (c ≡ channel → ⊥) → mail_at mail.new c ≡ mail_at mail.old c }
{
    let _posted = mail.posted(channel);
    let parcel = mail.take(channel);
    match timeline.take_in(channel, parcel) {
        Ok(()) => {}
        Err(_) => unreachable!(),
    }
}

// ---- enter

/// Enters the barrier's window. It is made exactly where that is a later one than the timeline's, which
/// has taken from each channel as much as the barrier counts; else nothing changes.
pub fn enter_from<B: Behaviour>(timeline: &mut Timeline<B>, barrier: &Barrier) -> Stepped
    ensures cause { result ≡ stepped (can_enter timeline.old barrier.now.window barrier.now.counts) }
    ensures did { result ≡ Did → timeline.new ≡ entered_at barrier.now.window timeline.old }
    ensures kept { (result ≡ Did → ⊥) → timeline.new ≡ timeline.old }
{
    if timeline.enter(barrier.window(), barrier.counts()) {
        Stepped::Did
    } else {
        Stepped::NotEnabled
    }
}

/// Whether the timeline can enter the barrier's window.
pub fn may_enter<B: Behaviour>(timeline: &Timeline<B>, barrier: &Barrier) -> bool
    requires { HasItsCrosses timeline.now }
    ensures { result ≡ can_enter timeline.now barrier.now.window barrier.now.counts }
{
    timeline.entered() < barrier.window() && has_taken(timeline, barrier.counts())
}

/// Whether the timeline has taken from each channel as much as the counts say.
fn has_taken<B: Behaviour>(timeline: &Timeline<B>, counts: &[u64]) -> bool
    requires { HasItsCrosses timeline.now }
    ensures { result ≡ has_taken_all timeline.now.in_ends counts.now }
{
    timeline.keeps_order();
    has_taken_from(timeline, timeline.ins(), counts)
}

/// The same of the channels of some mappings.
fn has_taken_from<B: Behaviour>(timeline: &Timeline<B>, ins: &[Cross], counts: &[u64]) -> bool
    requires { numbers_of timeline.now.in_ends ≡ map channel_of ins.now }
    ensures { result ≡ has_taken_on timeline.now.in_ends counts.now ins.now }
{
    for cross in ins {
        let count = count_at(counts, cross.place);
        if !has_taken_up_to(timeline, cross.mapping.channel, count) {
            return false;
        }
    }
    true
}

/// Whether the timeline has taken so many events from a channel.
fn has_taken_up_to<B: Behaviour>(timeline: &Timeline<B>, channel: u32, count: u64) -> bool
    requires known { Among channel (numbers_of timeline.now.in_ends) }
    ensures { result ≡ nat_le count (taken_of timeline.now.in_ends channel) }
{
    count <= timeline.taken(channel)
}

/// The count at a place, and 0 where there is none.
fn count_at(counts: &[u64], place: u32) -> u64
    ensures { result ≡ slice_index counts.now place }
{
    match counts.get(place as usize) {
        Some(count) => *count,
        None => 0,
    }
}

// ---- report

/// Reports to the barrier the timeline's least time ahead, and how many events it has written on each
/// channel that goes to another timeline; `number` is its own. It is made exactly where the barrier has
/// not ended, the timeline has not reported in this round and stands in the barrier's window, and its
/// lower bound is not before that; else, or without memory, nothing changes.
///
/// # Errors
/// `Memory`.
pub fn report_to<B: Behaviour>(
    alloc: Global,
    timeline: &Timeline<B>,
    number: u32,
    barrier: &mut Barrier,
) -> Result<Stepped, Memory>
    requires number { number < length barrier.old.reports }
    requires ends { HasItsEnds timeline.now }
    requires cross { All (Contains barrier.old.channels) (map channel_of timeline.now.outs) }
    ensures cause { IfOk result (λ done. done ≡ stepped (can_report timeline.now number barrier.old)) }
    ensures did { result ≡ Ok Did → barrier.new ≡ with_report number (ahead_in timeline.now) (counts_in timeline.now) barrier.old }
    ensures kept { (result ≡ Ok Did → ⊥) → barrier.new ≡ barrier.old }
{
    if !may_report(timeline, number, barrier) {
        return Ok(Stepped::NotEnabled);
    }
    let counts = counts_of(alloc, timeline)?;
    let round = barrier.round();
    let _reported = barrier.report(number, round, timeline.least_ahead(), counts.as_slice());
    Ok(Stepped::Did)
}

/// Whether the timeline, whose number this is, can report.
pub fn may_report<B: Behaviour>(timeline: &Timeline<B>, number: u32, barrier: &Barrier) -> bool
    requires { number < length barrier.now.reports }
    ensures { result ≡ can_report timeline.now number barrier.now }
{
    if barrier.ended() || barrier.has_reported(number) {
        return false;
    }
    timeline.entered() == barrier.window() && barrier.window() <= timeline.lower_bound()
}

/// How many events the timeline has written on each channel that goes to another one.
fn counts_of<B: Behaviour>(alloc: Global, timeline: &Timeline<B>) -> Result<Vec<(u32, u64)>, Memory>
    requires { HasItsEnds timeline.now }
    ensures { IfOk result (λ counts. counts.items ≡ counts_in timeline.now) }
{
    let outs = timeline.outs();
    let mut counts = Vec::new(alloc);
    for cross in outs {
        let channel = cross.mapping.channel;
        counts.push((channel, timeline.written(channel)))?;
    }
    Ok(counts)
}
