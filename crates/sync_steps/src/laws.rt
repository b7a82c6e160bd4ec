//! Laws of the steps on two parts, over every sound timeline of the run of every plan that fits: `plan` is
//! the plan, `line` numbers its entities by timelines, `s` is the run with its timelines and channels, and
//! `t` is timeline number `i`, which stands at the moment `m` of the run.

ghost use Rattle.std.specs.Prelude.{◌≡◌, ◌↔◌, ◌<◌, ℕ, true, false, length, slice_get};
ghost use Rattle.std.specs.List.{Contains};
ghost use Rattle.event_order.specs.Pending.{Among};
ghost use Rattle.ssf_model.specs.Truth.{IsWindow};
ghost use Rattle.sync_rules.specs.Parts.{BarrierOf};
ghost use Rattle.sync_rules.specs.Bounds.{IsInto, IsOutOf};
ghost use Rattle.sync_rules.specs.Sound.{HasDone, IsSoundMail, IsSoundBarrier};
ghost use Rattle.sync_rules.specs.Steps.{CanPost, CanTake, CanEnter, CanReport, posted_line, posted_mail, taken_mail, reported_barrier};
ghost use Rattle.timeline_parts.specs.Tables.{numbers_of, AreRising};
ghost use Rattle.timeline_parts.specs.Settling.{AreNew};
ghost use Rattle.timeline.specs.View.{TimelineOf};
ghost use Rattle.timeline.specs.Lines.{line_of, posted_of};
ghost use Rattle.timeline.specs.Moving.{can_enter, entered_at};
ghost use Rattle.timeline.specs.Sound.{IsSoundTimeline, OfEachSoundTimeline};
ghost use Rattle.appointments.specs.Mails.{ChannelMail, Mails, mail_at, posted_of as posted_to};
ghost use Rattle.barrier_window.specs.BarrierFields.{BarrierFields};
ghost use Rattle.barrier_window.specs.Crossings.{with_report};
ghost use Rattle.timeline.specs.Holding.{ahead_in};
ghost use Rattle.sync_steps.specs.Between.{can_post, IsPostedTo, IsMailOf, can_take, events_on, IsTakenFrom, can_report, counts_in};
ghost use Rattle.sync_steps.specs.Sounds.{mail_as, AreSoundMails, barrier_as, HaveTheirPlaces, IsBarrierFor, taken_lines};

use ssf_model::Behaviour;

/// A channel of the net that goes out from a sound timeline has an end there (`known`), and can be
/// posted on exactly where the rules say (`enabled`). After a post to a sound mail, which counts as
/// posted what the timeline does, the two are what the rules make of them (`line`, `row`), and sound
/// (`timeline`, `mail`).
pub fn posts_between_are_steps<B: Behaviour>()
    ensures known { (b : B) → OfEachSoundTimeline {B = B} (B.valid b) (B.carried b) (B.reaction b) (λ plan line s i m t.
        (c : ℕ) → IsOutOf s.net i c → Among c (numbers_of t.out_ends)) }
    ensures enabled { (b : B) → OfEachSoundTimeline {B = B} (B.valid b) (B.carried b) (B.reaction b) (λ plan line s i m t.
        (c : ℕ) (mail : ChannelMail B.Payload) → IsOutOf s.net i c → (can_post t c mail ≡ true) ↔ CanPost s i c (line_of m t) (mail_as mail)) }
    ensures line { (b : B) → OfEachSoundTimeline {B = B} (B.valid b) (B.carried b) (B.reaction b) (λ plan line s i m t.
        (c : ℕ) (after : TimelineOf B B.State B.Payload) (mail mail_after : Mails B.Payload) → IsOutOf s.net i c → IsPostedTo c t after mail mail_after
        → line_of m after ≡ posted_line c (line_of m t)) }
    ensures row { (b : B) → OfEachSoundTimeline {B = B} (B.valid b) (B.carried b) (B.reaction b) (λ plan line s i m t.
        (c : ℕ) (after : TimelineOf B B.State B.Payload) (mail mail_after : Mails B.Payload) → IsOutOf s.net i c → IsPostedTo c t after mail mail_after
        → posted_to (mail_at mail c) ≡ posted_of t.out_ends c → mail_as (mail_at mail_after c) ≡ posted_mail s i c (line_of m t) (mail_as (mail_at mail c))) }
    ensures timeline { (b : B) → OfEachSoundTimeline {B = B} (B.valid b) (B.carried b) (B.reaction b) (λ plan line s i m t.
        (c : ℕ) (after : TimelineOf B B.State B.Payload) (mail mail_after : Mails B.Payload) → IsOutOf s.net i c → IsPostedTo c t after mail mail_after
        → IsSoundTimeline plan line s i m after) }
    ensures mail { (b : B) → OfEachSoundTimeline {B = B} (B.valid b) (B.carried b) (B.reaction b) (λ plan line s i m t.
        (c : ℕ) (after : TimelineOf B B.State B.Payload) (mail mail_after : Mails B.Payload) → IsOutOf s.net i c → IsPostedTo c t after mail mail_after
        → posted_to (mail_at mail c) ≡ posted_of t.out_ends c → IsSoundMail s c (mail_as (mail_at mail c)) → IsSoundMail s c (mail_as (mail_at mail_after c))) }
{}

/// The events of a sound timeline's own sound mail are new to it (`new`), and there is something to take
/// exactly where the rules say so of some channel (`enabled`). After all was taken the two are what the
/// rules make of them channel by channel (`line`, `row`), and sound (`timeline`, `mail`).
pub fn takes_between_are_steps<B: Behaviour>()
    ensures new { (b : B) → OfEachSoundTimeline {B = B} (B.valid b) (B.carried b) (B.reaction b) (λ plan line s i m t.
        (mail : Mails B.Payload) → IsMailOf mail t → AreSoundMails s i mail → AreNew (events_on mail mail.channels) t.pending) }
    ensures enabled { (b : B) → OfEachSoundTimeline {B = B} (B.valid b) (B.carried b) (B.reaction b) (λ plan line s i m t.
        (mail : Mails B.Payload) → IsMailOf mail t
        → (can_take t mail mail.channels ≡ true) ↔ ((c : ℕ) × IsInto s.net i c × CanTake c (line_of m t) (mail_as (mail_at mail c)))) }
    ensures line { (b : B) → OfEachSoundTimeline {B = B} (B.valid b) (B.carried b) (B.reaction b) (λ plan line s i m t.
        (mail mail_after : Mails B.Payload) (after : TimelineOf B B.State B.Payload) → IsMailOf mail t → AreSoundMails s i mail → IsTakenFrom mail mail_after t after
        → line_of m after ≡ taken_lines s mail mail.channels (line_of m t)) }
    ensures row { (b : B) → OfEachSoundTimeline {B = B} (B.valid b) (B.carried b) (B.reaction b) (λ plan line s i m t.
        (mail mail_after : Mails B.Payload) (after : TimelineOf B B.State B.Payload) → IsMailOf mail t → AreSoundMails s i mail → IsTakenFrom mail mail_after t after
        → (c : ℕ) → IsInto s.net i c → mail_as (mail_at mail_after c) ≡ taken_mail (mail_as (mail_at mail c))) }
    ensures timeline { (b : B) → OfEachSoundTimeline {B = B} (B.valid b) (B.carried b) (B.reaction b) (λ plan line s i m t.
        (mail mail_after : Mails B.Payload) (after : TimelineOf B B.State B.Payload) → IsMailOf mail t → AreSoundMails s i mail → IsTakenFrom mail mail_after t after
        → IsSoundTimeline plan line s i m after) }
    ensures mail { (b : B) → OfEachSoundTimeline {B = B} (B.valid b) (B.carried b) (B.reaction b) (λ plan line s i m t.
        (mail mail_after : Mails B.Payload) (after : TimelineOf B B.State B.Payload) → IsMailOf mail t → AreSoundMails s i mail → IsTakenFrom mail mail_after t after
        → AreSoundMails s i mail_after × IsMailOf mail_after after) }
{}

/// A sound timeline whose ends have their places at a barrier enters by the rules (`enabled`). Where the
/// barrier is sound, and the timeline has executed its events before the window before the barrier's, it
/// is sound in the barrier's window (`timeline`).
pub fn entries_from_are_steps<B: Behaviour>()
    ensures enabled { (b : B) → OfEachSoundTimeline {B = B} (B.valid b) (B.carried b) (B.reaction b) (λ plan line s i m t.
        (barrier : BarrierFields) → AreRising barrier.channels → length barrier.counts ≡ length barrier.channels → HaveTheirPlaces t.in_ends barrier.channels
        → can_enter t barrier.window barrier.counts ≡ true → CanEnter s.net i (line_of m t) (barrier_as barrier)) }
    ensures timeline { (b : B) → OfEachSoundTimeline {B = B} (B.valid b) (B.carried b) (B.reaction b) (λ plan line s i m t.
        (barrier : BarrierFields) → AreRising barrier.channels → length barrier.counts ≡ length barrier.channels → HaveTheirPlaces t.in_ends barrier.channels
        → (v : ℕ) → IsSoundBarrier s v (barrier_as barrier) → HasDone s i v (line_of m t) → can_enter t barrier.window barrier.counts ≡ true
        → IsSoundTimeline plan line s i m (entered_at barrier.window t)) }
{}

/// A sound timeline reports to a barrier that knows all channels between timelines, and it, exactly where
/// the rules say (`enabled`). The barrier is then what the rules make of it (`line`), and sound where it
/// was (`sound`).
pub fn reports_to_are_steps<B: Behaviour>()
    ensures enabled { (b : B) → OfEachSoundTimeline {B = B} (B.valid b) (B.carried b) (B.reaction b) (λ plan line s i m t.
        (barrier : BarrierFields) → IsBarrierFor s i t barrier → (can_report t i barrier ≡ true) ↔ CanReport s i (line_of m t) (barrier_as barrier)) }
    ensures line { (b : B) → OfEachSoundTimeline {B = B} (B.valid b) (B.carried b) (B.reaction b) (λ plan line s i m t.
        (barrier : BarrierFields) → IsBarrierFor s i t barrier
        → barrier_as (with_report i (ahead_in t) (counts_in t) barrier) ≡ reported_barrier s i (line_of m t) (barrier_as barrier)) }
    ensures sound { (b : B) → OfEachSoundTimeline {B = B} (B.valid b) (B.carried b) (B.reaction b) (λ plan line s i m t.
        (barrier : BarrierFields) → IsBarrierFor s i t barrier → (v : ℕ) → IsSoundBarrier s v (barrier_as barrier) → can_report t i barrier ≡ true
        → IsSoundBarrier s v (barrier_as (with_report i (ahead_in t) (counts_in t) barrier))) }
{}
