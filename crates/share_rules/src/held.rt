//! Laws of the values that a pass holds out of a table of the parts of a run: `key` are all parts at the
//! moment when they were shared out, `n` are the notes of the pass and `m` its marks, each one more than a
//! number and 0 where there is none. `t` is timeline `i`, `x` a mail, and `bar` the barrier.

ghost use Rattle.std.specs.Prelude.{◌≡◌, ◌≢◌, ℕ, suc, ◌+◌, ◌<◌, ◌≤◌, true, false, List, ◌∷◌, map, length, Some, None, slice_get};
ghost use Rattle.std.specs.List.{All, Contains};
ghost use Rattle.event_order.specs.Pending.{Among};
ghost use Rattle.ssf_model.specs.declared.event.Event.{Event as EventValue};
ghost use Rattle.turn_table.specs.declared.view.View.{View};
ghost use Rattle.turn_table.specs.Changes.{put};
ghost use Rattle.turn_table.specs.Shapes.{Speaks, is_marked, is_cleared};
ghost use Rattle.turn_table.specs.Views.{mark, taking};
ghost use Rattle.plan_shares.specs.declared.crosses.CrossEnd.{CrossEnd as CrossEndValue};
ghost use Rattle.timeline_parts.specs.Parts.{channel_of};
ghost use Rattle.timeline_parts.specs.Settling.{AreNew};
ghost use Rattle.timeline_parts.specs.Tables.{numbers_of};
ghost use Rattle.timeline.specs.View.{TimelineOf};
ghost use Rattle.timeline.specs.Holding.{taken_of, ahead_in, IsInOrder};
ghost use Rattle.timeline.specs.Lines.{posted_of};
ghost use Rattle.timeline.specs.Executing.{refusal, MayRun, spent_of};
ghost use Rattle.timeline.specs.Moving.{can_enter, entered_at};
ghost use Rattle.timeline.specs.Sound.{IsExecuted};
ghost use Rattle.appointments.specs.Mails.{Mails, mail_at, posted_of as posted_to};
ghost use Rattle.barrier_window.specs.BarrierFields.{BarrierFields};
ghost use Rattle.barrier_window.specs.Crossings.{with_report, crossing, after_crossing};
ghost use Rattle.sync_steps.specs.Between.{HasItsEnds, IsMailOf, IsPostedTo, IsTakenFrom, events_on, can_report, counts_in};
ghost use Rattle.core_rules.specs.Cores.{CoreView, IsCoreOfRun};
ghost use Rattle.share_rules.specs.Places.{ShareOf, count_of, mail_place, barrier_place, posted_word, taken_word, done_word, round_word, shape_of};
ghost use Rattle.share_rules.specs.Places.ShareOf.{timeline, mail, barrier};
ghost use Rattle.share_rules.specs.Home.{IsSoundAt};
ghost use Rattle.share_rules.specs.Held.{IsTold, IsPaid, KeepsWith, IsNoted, IsMailNoted, IsTimelineHeld, IsMailHeld, IsBarrierHeld, HasPassed};

use ssf_model::Behaviour;

// ---- places and words

/// What lies at a timeline's place is a timeline (`timeline`), at that of its mail a mail (`mail`), and at
/// the barrier's a barrier (`barrier`).
pub fn places_tell_what_lies_there<B: Behaviour>()
    ensures timeline { (b : B) (key : CoreView B B.State B.Payload) (p : ℕ) (x : ShareOf B B.State B.Payload) → IsSoundAt (B.valid b) (B.carried b) (B.reaction b) key p x
        → p < count_of key → (t : TimelineOf B B.State B.Payload) × (x ≡ timeline t) }
    ensures mail { (b : B) (key : CoreView B B.State B.Payload) (i : ℕ) (x : ShareOf B B.State B.Payload) → IsSoundAt (B.valid b) (B.carried b) (B.reaction b) key (mail_place key i) x
        → i < count_of key → (y : Mails B.Payload) × (x ≡ mail y) }
    ensures barrier { (b : B) (key : CoreView B B.State B.Payload) (x : ShareOf B B.State B.Payload) → IsSoundAt (B.valid b) (B.carried b) (B.reaction b) key (barrier_place key) x
        → (bar : BarrierFields) × (x ≡ barrier bar) }
{}

/// The ends of a channel are two timelines that are there, with a mail each (`sender`, `receiver`,
/// `apart`, `mails`).
pub fn ends_are_there<B: Behaviour>()
    ensures sender { (b : B) (key : CoreView B B.State B.Payload) → IsCoreOfRun (B.valid b) (B.carried b) (B.reaction b) key
        → (k : ℕ) (end : CrossEndValue) → slice_get key.ends k ≡ Some end → end.sender < count_of key }
    ensures receiver { (b : B) (key : CoreView B B.State B.Payload) → IsCoreOfRun (B.valid b) (B.carried b) (B.reaction b) key
        → (k : ℕ) (end : CrossEndValue) → slice_get key.ends k ≡ Some end → end.receiver < count_of key }
    ensures apart { (b : B) (key : CoreView B B.State B.Payload) → IsCoreOfRun (B.valid b) (B.carried b) (B.reaction b) key
        → (k : ℕ) (end : CrossEndValue) → slice_get key.ends k ≡ Some end → end.sender ≢ end.receiver }
    ensures mails { (b : B) (key : CoreView B B.State B.Payload) → IsCoreOfRun (B.valid b) (B.carried b) (B.reaction b) key → length key.mails ≡ count_of key }
{}

/// Who takes the turn of a mail or of the barrier keeps the mark of the round (`round`, `round_mark`), and
/// who takes another turn than the barrier's those of all done words (`done`, `done_mark`).
pub fn marks_are_lost_by_their_places<B: Behaviour>()
    ensures round { (key : CoreView B B.State B.Payload) (p : ℕ) → count_of key ≤ p → is_cleared (shape_of key) p (round_word key) ≡ false }
    ensures done { (key : CoreView B B.State B.Payload) (p i : ℕ) → p ≢ barrier_place key → i < count_of key → is_cleared (shape_of key) p (done_word key i) ≡ false }
    ensures round_mark { (key : CoreView B B.State B.Payload) (v : View) (p : ℕ) → v.shape ≡ shape_of key → count_of key ≤ p → mark (taking v p) (round_word key) ≡ mark v (round_word key) }
    ensures done_mark { (key : CoreView B B.State B.Payload) (v : View) (p i : ℕ) → v.shape ≡ shape_of key → p ≢ barrier_place key → i < count_of key
        → mark (taking v p) (done_word key i) ≡ mark v (done_word key i) }
{}

/// A done word and the round word are marked where they are read or written (`done`, `round`); posted and
/// taken words are not (`posted`, `taken`).
pub fn words_are_marked<B: Behaviour>()
    ensures done { (key : CoreView B B.State B.Payload) (i : ℕ) → i < count_of key → is_marked (shape_of key) (done_word key i) ≡ true }
    ensures round { (key : CoreView B B.State B.Payload) → is_marked (shape_of key) (round_word key) ≡ true }
    ensures posted { (key : CoreView B B.State B.Payload) (k : ℕ) (end : CrossEndValue) → slice_get key.ends k ≡ Some end → end.sender < count_of key → is_marked (shape_of key) (posted_word key k) ≡ false }
    ensures taken { (key : CoreView B B.State B.Payload) (k : ℕ) (end : CrossEndValue) → slice_get key.ends k ≡ Some end → end.receiver < count_of key → is_marked (shape_of key) (taken_word key k) ≡ false }
{}

/// Any number may be written into a posted or a taken word (`posted`, `taken`), into a done word one that is not below
/// its note (`done`), and into the round word the round of a held barrier after its crossing (`round`).
pub fn counts_may_be_written<B: Behaviour>()
    ensures posted { (b : B) (key : CoreView B B.State B.Payload) (n m : ℕ → ℕ) (k x : ℕ) → k < length key.ends
        → KeepsWith (B.valid b) (B.carried b) (B.reaction b) key n m (posted_word key k) x }
    ensures taken { (b : B) (key : CoreView B B.State B.Payload) (n m : ℕ → ℕ) (k x : ℕ) → k < length key.ends
        → KeepsWith (B.valid b) (B.carried b) (B.reaction b) key n m (taken_word key k) x }
    ensures done { (b : B) (key : CoreView B B.State B.Payload) (n m : ℕ → ℕ) (i x : ℕ) → i < count_of key → 0 < n (done_word key i) → n (done_word key i) ≤ suc x
        → KeepsWith (B.valid b) (B.carried b) (B.reaction b) key n m (done_word key i) x }
    ensures round { (b : B) (key : CoreView B B.State B.Payload) (n m : ℕ → ℕ) (bar : BarrierFields) → IsBarrierHeld (B.valid b) (B.carried b) (B.reaction b) key m bar
        → n (round_word key) ≡ suc bar.round → KeepsWith (B.valid b) (B.carried b) (B.reaction b) key n m (round_word key) (after_crossing (crossing bar) bar).round }
{}

// ---- out and home

/// A value that was moved out is held, where all words that speak of its place were noted before; of a
/// timeline the round was marked too (`timeline`), and of the barrier all done words (`barrier`). Timeline i has
/// executed its events before the window before the barrier's, as far as the note of its done word says
/// (`passed`).
pub fn values_are_held_where_they_are_told<B: Behaviour>()
    ensures timeline { (b : B) (key : CoreView B B.State B.Payload) (n m : ℕ → ℕ) (i : ℕ) (t : TimelineOf B B.State B.Payload)
        → IsTold (B.valid b) (B.carried b) (B.reaction b) key n m i (timeline t) → ((c : ℕ) → Speaks (shape_of key) c i → 0 < n c) → 0 < m (round_word key)
        → IsTimelineHeld (B.valid b) (B.carried b) (B.reaction b) key m i t × IsNoted key n i t × (n (done_word key i) ≡ suc t.executed) }
    ensures mail { (b : B) (key : CoreView B B.State B.Payload) (n m : ℕ → ℕ) (i : ℕ) (x : Mails B.Payload) → i < count_of key
        → IsTold (B.valid b) (B.carried b) (B.reaction b) key n m (mail_place key i) (mail x) → ((c : ℕ) → Speaks (shape_of key) c (mail_place key i) → 0 < n c)
        → IsMailHeld (B.valid b) (B.carried b) (B.reaction b) key i x × IsMailNoted key n i x }
    ensures barrier { (b : B) (key : CoreView B B.State B.Payload) (n m : ℕ → ℕ) (bar : BarrierFields)
        → IsTold (B.valid b) (B.carried b) (B.reaction b) key n m (barrier_place key) (barrier bar) → 0 < n (round_word key) → ((i : ℕ) → i < count_of key → 0 < m (done_word key i))
        → IsBarrierHeld (B.valid b) (B.carried b) (B.reaction b) key m bar × (n (round_word key) ≡ suc bar.round) }
    ensures passed { (b : B) (key : CoreView B B.State B.Payload) (n m : ℕ → ℕ) (bar : BarrierFields) (i done : ℕ)
        → IsTold (B.valid b) (B.carried b) (B.reaction b) key n m (barrier_place key) (barrier bar) → i < count_of key → n (done_word key i) ≡ suc done
        → HasPassed (B.valid b) (B.carried b) (B.reaction b) key bar i done }
{}

/// A held value may be moved home, where its numbers are noted.
pub fn held_values_are_paid<B: Behaviour>()
    ensures timeline { (b : B) (key : CoreView B B.State B.Payload) (n m : ℕ → ℕ) (i : ℕ) (t : TimelineOf B B.State B.Payload)
        → IsTimelineHeld (B.valid b) (B.carried b) (B.reaction b) key m i t → IsNoted key n i t → n (done_word key i) ≡ suc t.executed
        → IsPaid (B.valid b) (B.carried b) (B.reaction b) key n m i (timeline t) }
    ensures mail { (b : B) (key : CoreView B B.State B.Payload) (n m : ℕ → ℕ) (i : ℕ) (x : Mails B.Payload)
        → IsMailHeld (B.valid b) (B.carried b) (B.reaction b) key i x → IsMailNoted key n i x
        → IsPaid (B.valid b) (B.carried b) (B.reaction b) key n m (mail_place key i) (mail x) }
    ensures barrier { (b : B) (key : CoreView B B.State B.Payload) (n m : ℕ → ℕ) (bar : BarrierFields)
        → IsBarrierHeld (B.valid b) (B.carried b) (B.reaction b) key m bar → n (round_word key) ≡ suc bar.round
        → IsPaid (B.valid b) (B.carried b) (B.reaction b) key n m (barrier_place key) (barrier bar) }
{}

/// Values stay held where marks rise: of the round for a timeline (`timeline`), of done words for the
/// barrier (`barrier`). Notes of the words that speak of a place are those of its value as long as they stay
/// (`noted`, `mail_noted`).
pub fn values_stay_held<B: Behaviour>()
    ensures timeline { (b : B) (key : CoreView B B.State B.Payload) (m later : ℕ → ℕ) (i : ℕ) (t : TimelineOf B B.State B.Payload) → m (round_word key) ≤ later (round_word key)
        → IsTimelineHeld (B.valid b) (B.carried b) (B.reaction b) key m i t → IsTimelineHeld (B.valid b) (B.carried b) (B.reaction b) key later i t }
    ensures barrier { (b : B) (key : CoreView B B.State B.Payload) (m later : ℕ → ℕ) (bar : BarrierFields) → ((i : ℕ) → i < count_of key → m (done_word key i) ≤ later (done_word key i))
        → IsBarrierHeld (B.valid b) (B.carried b) (B.reaction b) key m bar → IsBarrierHeld (B.valid b) (B.carried b) (B.reaction b) key later bar }
    ensures noted { (key : CoreView B B.State B.Payload) (n later : ℕ → ℕ) (i : ℕ) (t : TimelineOf B B.State B.Payload)
        → ((c : ℕ) → Speaks (shape_of key) c i → later c ≡ n c) → IsNoted key n i t → IsNoted key later i t }
    ensures mail_noted { (key : CoreView B B.State B.Payload) (n later : ℕ → ℕ) (i : ℕ) (x : Mails B.Payload)
        → ((c : ℕ) → Speaks (shape_of key) c (mail_place key i) → later c ≡ n c) → IsMailNoted key n i x → IsMailNoted key later i x }
{}

// ---- what the calls ask

/// Held values meet what the calls ask: `execute`, where the next event is not refused (`execute`); `post_between`
/// (`out`, `mail`, `joined`); `take_between` (`own`, `new`); `report_to` (`number`, `ends`, `cross`); and
/// `may_post` (`until`).
pub fn held_values_meet_the_calls<B: Behaviour>()
    ensures until { (b : B) (key : CoreView B B.State B.Payload) → IsCoreOfRun (B.valid b) (B.carried b) (B.reaction b) key → (m : ℕ → ℕ) (i : ℕ) (t : TimelineOf B B.State B.Payload)
        → IsTimelineHeld (B.valid b) (B.carried b) (B.reaction b) key m i t → t.until ≡ key.until }
    ensures execute { (b : B) (key : CoreView B B.State B.Payload) → IsCoreOfRun (B.valid b) (B.carried b) (B.reaction b) key → (m : ℕ → ℕ) (i : ℕ) (t : TimelineOf B B.State B.Payload)
        → IsTimelineHeld (B.valid b) (B.carried b) (B.reaction b) key m i t
        → (event : EventValue B.Payload) (rest : List (EventValue B.Payload)) → t.pending ≡ event ∷ rest → refusal t ≡ None → MayRun (B.valid b) (B.reaction b) t event rest }
    ensures out { (b : B) (key : CoreView B B.State B.Payload) → IsCoreOfRun (B.valid b) (B.carried b) (B.reaction b) key → (m : ℕ → ℕ) (i : ℕ) (t : TimelineOf B B.State B.Payload)
        → IsTimelineHeld (B.valid b) (B.carried b) (B.reaction b) key m i t
        → (k : ℕ) (end : CrossEndValue) → slice_get key.ends k ≡ Some end → end.sender ≡ i → Among end.channel (numbers_of t.out_ends) }
    ensures mail { (b : B) (key : CoreView B B.State B.Payload) → IsCoreOfRun (B.valid b) (B.carried b) (B.reaction b) key → (i : ℕ) (x : Mails B.Payload)
        → IsMailHeld (B.valid b) (B.carried b) (B.reaction b) key i x
        → (k : ℕ) (end : CrossEndValue) → slice_get key.ends k ≡ Some end → end.receiver ≡ i → Contains x.channels end.channel }
    ensures joined { (key : CoreView B B.State B.Payload) (n : ℕ → ℕ) (k : ℕ) (end : CrossEndValue) (t : TimelineOf B B.State B.Payload) (x : Mails B.Payload)
        → slice_get key.ends k ≡ Some end → IsNoted key n end.sender t → IsMailNoted key n end.receiver x → posted_to (mail_at x end.channel) ≡ posted_of t.out_ends end.channel }
    ensures own { (b : B) (key : CoreView B B.State B.Payload) → IsCoreOfRun (B.valid b) (B.carried b) (B.reaction b) key → (n m : ℕ → ℕ) (i : ℕ) (t : TimelineOf B B.State B.Payload) (x : Mails B.Payload)
        → IsTimelineHeld (B.valid b) (B.carried b) (B.reaction b) key m i t → IsMailHeld (B.valid b) (B.carried b) (B.reaction b) key i x → IsNoted key n i t → IsMailNoted key n i x
        → IsMailOf x t }
    ensures new { (b : B) (key : CoreView B B.State B.Payload) → IsCoreOfRun (B.valid b) (B.carried b) (B.reaction b) key → (n m : ℕ → ℕ) (i : ℕ) (t : TimelineOf B B.State B.Payload) (x : Mails B.Payload)
        → IsTimelineHeld (B.valid b) (B.carried b) (B.reaction b) key m i t → IsMailHeld (B.valid b) (B.carried b) (B.reaction b) key i x → IsNoted key n i t → IsMailNoted key n i x
        → AreNew (events_on x x.channels) t.pending }
    ensures number { (b : B) (key : CoreView B B.State B.Payload) → IsCoreOfRun (B.valid b) (B.carried b) (B.reaction b) key → (m : ℕ → ℕ) (bar : BarrierFields)
        → IsBarrierHeld (B.valid b) (B.carried b) (B.reaction b) key m bar → length bar.reports ≡ count_of key }
    ensures ends { (b : B) (key : CoreView B B.State B.Payload) (m : ℕ → ℕ) (i : ℕ) (t : TimelineOf B B.State B.Payload)
        → IsTimelineHeld (B.valid b) (B.carried b) (B.reaction b) key m i t → HasItsEnds t }
    ensures cross { (b : B) (key : CoreView B B.State B.Payload) → IsCoreOfRun (B.valid b) (B.carried b) (B.reaction b) key → (m : ℕ → ℕ) (i : ℕ) (t : TimelineOf B B.State B.Payload) (bar : BarrierFields)
        → IsTimelineHeld (B.valid b) (B.carried b) (B.reaction b) key m i t → IsBarrierHeld (B.valid b) (B.carried b) (B.reaction b) key m bar
        → All (Contains bar.channels) (map channel_of t.outs) }
{}

// ---- the six steps

/// A held timeline that executes stays held (`held`), with one event more executed (`executed`) and nothing
/// else noted (`noted`). So it does where there was no memory for the event, and it is spent (`spent`).
pub fn executions_keep_timelines_held<B: Behaviour>()
    ensures held { (b : B) (key : CoreView B B.State B.Payload) → IsCoreOfRun (B.valid b) (B.carried b) (B.reaction b) key → (m : ℕ → ℕ) (i : ℕ) (t after : TimelineOf B B.State B.Payload)
        → IsTimelineHeld (B.valid b) (B.carried b) (B.reaction b) key m i t → IsExecuted (B.reaction b) t after
        → IsTimelineHeld (B.valid b) (B.carried b) (B.reaction b) key m i after }
    ensures noted { (b : B) (key : CoreView B B.State B.Payload) (n : ℕ → ℕ) (i : ℕ) (t after : TimelineOf B B.State B.Payload)
        → IsExecuted (B.reaction b) t after → IsNoted key n i t → IsNoted key n i after }
    ensures executed { (b : B) (t after : TimelineOf B B.State B.Payload) → IsExecuted (B.reaction b) t after → after.executed ≡ t.executed + 1 }
    ensures spent { (b : B) (key : CoreView B B.State B.Payload) (n m : ℕ → ℕ) (i : ℕ) (t after : TimelineOf B B.State B.Payload)
        → IsTimelineHeld (B.valid b) (B.carried b) (B.reaction b) key m i t → IsNoted key n i t → refusal t ≡ None → after ≡ spent_of t after → IsInOrder after
        → IsTimelineHeld (B.valid b) (B.carried b) (B.reaction b) key m i after × IsNoted key n i after × (after.executed ≡ t.executed) }
{}

/// A held timeline that posts on a channel to its receiver's held mail stays held (`timeline`), and so does
/// the mail (`mail`), where the new number of what was posted is noted (`noted`, `mail_noted`), which is the same of the two
/// (`joined`) and no lower one (`rises`).
pub fn posts_keep_values_held<B: Behaviour>()
    ensures timeline { (b : B) (key : CoreView B B.State B.Payload) (m : ℕ → ℕ) (k : ℕ) (end : CrossEndValue) (t after : TimelineOf B B.State B.Payload) (x x_after : Mails B.Payload)
        → slice_get key.ends k ≡ Some end → IsTimelineHeld (B.valid b) (B.carried b) (B.reaction b) key m end.sender t → IsPostedTo end.channel t after x x_after
        → IsTimelineHeld (B.valid b) (B.carried b) (B.reaction b) key m end.sender after × (after.executed ≡ t.executed) }
    ensures mail { (b : B) (key : CoreView B B.State B.Payload) (n m : ℕ → ℕ) (k : ℕ) (end : CrossEndValue) (t after : TimelineOf B B.State B.Payload) (x x_after : Mails B.Payload)
        → slice_get key.ends k ≡ Some end → IsTimelineHeld (B.valid b) (B.carried b) (B.reaction b) key m end.sender t → IsMailHeld (B.valid b) (B.carried b) (B.reaction b) key end.receiver x
        → IsNoted key n end.sender t → IsMailNoted key n end.receiver x → IsPostedTo end.channel t after x x_after
        → IsMailHeld (B.valid b) (B.carried b) (B.reaction b) key end.receiver x_after }
    ensures joined { (b : B) (key : CoreView B B.State B.Payload) → IsCoreOfRun (B.valid b) (B.carried b) (B.reaction b) key
        → (n m : ℕ → ℕ) (k : ℕ) (end : CrossEndValue) (t after : TimelineOf B B.State B.Payload) (x x_after : Mails B.Payload)
        → slice_get key.ends k ≡ Some end → IsTimelineHeld (B.valid b) (B.carried b) (B.reaction b) key m end.sender t
        → IsNoted key n end.sender t → IsMailNoted key n end.receiver x → IsPostedTo end.channel t after x x_after
        → posted_to (mail_at x_after end.channel) ≡ posted_of after.out_ends end.channel }
    ensures rises { (b : B) (key : CoreView B B.State B.Payload) → IsCoreOfRun (B.valid b) (B.carried b) (B.reaction b) key
        → (m : ℕ → ℕ) (k : ℕ) (end : CrossEndValue) (t after : TimelineOf B B.State B.Payload) (x x_after : Mails B.Payload)
        → slice_get key.ends k ≡ Some end → IsTimelineHeld (B.valid b) (B.carried b) (B.reaction b) key m end.sender t → IsPostedTo end.channel t after x x_after
        → posted_of t.out_ends end.channel ≤ posted_of after.out_ends end.channel }
    ensures noted { (b : B) (key : CoreView B B.State B.Payload) → IsCoreOfRun (B.valid b) (B.carried b) (B.reaction b) key
        → (n : ℕ → ℕ) (k : ℕ) (end : CrossEndValue) (t after : TimelineOf B B.State B.Payload) (x x_after : Mails B.Payload)
        → slice_get key.ends k ≡ Some end → IsNoted key n end.sender t → IsPostedTo end.channel t after x x_after
        → IsNoted key (put n (posted_word key k) (suc (posted_of after.out_ends end.channel))) end.sender after }
    ensures mail_noted { (b : B) (key : CoreView B B.State B.Payload) → IsCoreOfRun (B.valid b) (B.carried b) (B.reaction b) key
        → (n : ℕ → ℕ) (k : ℕ) (end : CrossEndValue) (t after : TimelineOf B B.State B.Payload) (x x_after : Mails B.Payload)
        → slice_get key.ends k ≡ Some end → IsMailNoted key n end.receiver x → IsPostedTo end.channel t after x x_after
        → IsMailNoted key (put n (posted_word key k) (suc (posted_to (mail_at x_after end.channel)))) end.receiver x_after }
{}

/// A held timeline that takes its held mail stays held (`timeline`), and so does the mail (`mail`), where
/// for each of its channels the new number of what was taken is noted (`noted`), which is the same of the two (`joined`) and no lower
/// one (`rises`).
pub fn takes_keep_values_held<B: Behaviour>()
    ensures timeline { (b : B) (key : CoreView B B.State B.Payload) → IsCoreOfRun (B.valid b) (B.carried b) (B.reaction b) key
        → (n m : ℕ → ℕ) (i : ℕ) (t after : TimelineOf B B.State B.Payload) (x x_after : Mails B.Payload)
        → IsTimelineHeld (B.valid b) (B.carried b) (B.reaction b) key m i t → IsMailHeld (B.valid b) (B.carried b) (B.reaction b) key i x → IsNoted key n i t → IsMailNoted key n i x
        → IsTakenFrom x x_after t after → IsTimelineHeld (B.valid b) (B.carried b) (B.reaction b) key m i after × (after.executed ≡ t.executed) }
    ensures mail { (b : B) (key : CoreView B B.State B.Payload) → IsCoreOfRun (B.valid b) (B.carried b) (B.reaction b) key
        → (n m : ℕ → ℕ) (i : ℕ) (t after : TimelineOf B B.State B.Payload) (x x_after : Mails B.Payload)
        → IsTimelineHeld (B.valid b) (B.carried b) (B.reaction b) key m i t → IsMailHeld (B.valid b) (B.carried b) (B.reaction b) key i x → IsNoted key n i t → IsMailNoted key n i x
        → IsTakenFrom x x_after t after → IsMailHeld (B.valid b) (B.carried b) (B.reaction b) key i x_after }
    ensures joined { (b : B) (key : CoreView B B.State B.Payload) → IsCoreOfRun (B.valid b) (B.carried b) (B.reaction b) key
        → (n m : ℕ → ℕ) (i : ℕ) (t after : TimelineOf B B.State B.Payload) (x x_after : Mails B.Payload)
        → IsTimelineHeld (B.valid b) (B.carried b) (B.reaction b) key m i t → IsMailHeld (B.valid b) (B.carried b) (B.reaction b) key i x → IsNoted key n i t → IsMailNoted key n i x
        → IsTakenFrom x x_after t after
        → (k : ℕ) (end : CrossEndValue) → slice_get key.ends k ≡ Some end → end.receiver ≡ i → (mail_at x_after end.channel).taken ≡ taken_of after.in_ends end.channel }
    ensures rises { (b : B) (key : CoreView B B.State B.Payload) → IsCoreOfRun (B.valid b) (B.carried b) (B.reaction b) key
        → (n m : ℕ → ℕ) (i : ℕ) (t after : TimelineOf B B.State B.Payload) (x x_after : Mails B.Payload)
        → IsTimelineHeld (B.valid b) (B.carried b) (B.reaction b) key m i t → IsMailHeld (B.valid b) (B.carried b) (B.reaction b) key i x → IsNoted key n i t → IsMailNoted key n i x
        → IsTakenFrom x x_after t after
        → (k : ℕ) (end : CrossEndValue) → slice_get key.ends k ≡ Some end → end.receiver ≡ i → taken_of t.in_ends end.channel ≤ taken_of after.in_ends end.channel }
    ensures noted { (b : B) (key : CoreView B B.State B.Payload) → IsCoreOfRun (B.valid b) (B.carried b) (B.reaction b) key
        → (n m : ℕ → ℕ) (i : ℕ) (t after : TimelineOf B B.State B.Payload) (x x_after : Mails B.Payload)
        → IsTimelineHeld (B.valid b) (B.carried b) (B.reaction b) key m i t → IsMailHeld (B.valid b) (B.carried b) (B.reaction b) key i x → IsNoted key n i t → IsMailNoted key n i x
        → IsTakenFrom x x_after t after
        → (later : ℕ → ℕ) → ((k : ℕ) → k < length key.ends → later (posted_word key k) ≡ n (posted_word key k))
        → ((k : ℕ) (end : CrossEndValue) → slice_get key.ends k ≡ Some end → end.receiver ≡ i → later (taken_word key k) ≡ suc (taken_of after.in_ends end.channel))
        → IsNoted key later i after × IsMailNoted key later i x_after }
{}

/// A held timeline enters the window of a held barrier and stays held (`held`), where it has executed its
/// events before the window before that and the barrier's round is marked. What has passed stays so
/// while more is executed (`more`).
pub fn entries_keep_timelines_held<B: Behaviour>()
    ensures held { (b : B) (key : CoreView B B.State B.Payload) (m : ℕ → ℕ) (i : ℕ) (t : TimelineOf B B.State B.Payload) (bar : BarrierFields)
        → IsTimelineHeld (B.valid b) (B.carried b) (B.reaction b) key m i t → IsBarrierHeld (B.valid b) (B.carried b) (B.reaction b) key m bar
        → HasPassed (B.valid b) (B.carried b) (B.reaction b) key bar i t.executed → suc bar.round ≤ m (round_word key) → can_enter t bar.window bar.counts ≡ true
        → IsTimelineHeld (B.valid b) (B.carried b) (B.reaction b) key m i (entered_at bar.window t) }
    ensures noted { (key : CoreView B B.State B.Payload) (n : ℕ → ℕ) (i window : ℕ) (t : TimelineOf B B.State B.Payload) → IsNoted key n i t → IsNoted key n i (entered_at window t) }
    ensures more { (b : B) (key : CoreView B B.State B.Payload) (bar : BarrierFields) (i done more : ℕ) → done ≤ more
        → HasPassed (B.valid b) (B.carried b) (B.reaction b) key bar i done → HasPassed (B.valid b) (B.carried b) (B.reaction b) key bar i more }
{}

/// A held barrier that takes the report of a held timeline stays held, where the number of the timeline's
/// executed events is marked.
pub fn reports_keep_barriers_held<B: Behaviour>()
    ensures { (b : B) (key : CoreView B B.State B.Payload) (m : ℕ → ℕ) (i : ℕ) (t : TimelineOf B B.State B.Payload) (bar : BarrierFields)
        → IsTimelineHeld (B.valid b) (B.carried b) (B.reaction b) key m i t → IsBarrierHeld (B.valid b) (B.carried b) (B.reaction b) key m bar
        → m (done_word key i) ≡ suc t.executed → can_report t i bar ≡ true
        → IsBarrierHeld (B.valid b) (B.carried b) (B.reaction b) key m (with_report i (ahead_in t) (counts_in t) bar) }
{}

/// A held barrier stays held after a crossing (`held`), with no lower round (`round`). A timeline that had
/// executed so much as is marked and had passed has passed then too (`passed`).
pub fn crossings_keep_barriers_held<B: Behaviour>()
    ensures held { (b : B) (key : CoreView B B.State B.Payload) → IsCoreOfRun (B.valid b) (B.carried b) (B.reaction b) key → (m : ℕ → ℕ) (bar : BarrierFields)
        → IsBarrierHeld (B.valid b) (B.carried b) (B.reaction b) key m bar → IsBarrierHeld (B.valid b) (B.carried b) (B.reaction b) key m (after_crossing (crossing bar) bar) }
    ensures round { (b : B) (key : CoreView B B.State B.Payload) → IsCoreOfRun (B.valid b) (B.carried b) (B.reaction b) key → (m : ℕ → ℕ) (bar : BarrierFields)
        → IsBarrierHeld (B.valid b) (B.carried b) (B.reaction b) key m bar → bar.round ≤ (after_crossing (crossing bar) bar).round }
    ensures passed { (b : B) (key : CoreView B B.State B.Payload) (m : ℕ → ℕ) (bar : BarrierFields) → IsBarrierHeld (B.valid b) (B.carried b) (B.reaction b) key m bar
        → (i done : ℕ) → i < count_of key → m (done_word key i) ≤ suc done → HasPassed (B.valid b) (B.carried b) (B.reaction b) key bar i done
        → HasPassed (B.valid b) (B.carried b) (B.reaction b) key (after_crossing (crossing bar) bar) i done }
{}
