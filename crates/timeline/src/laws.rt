//! Laws over every sound timeline of the run of every plan that fits: `plan` is the plan, `line` numbers
//! its entities by timelines, `s` is the run with its timelines and channels, and `t` is timeline number
//! `i`, which stands at the moment `m` of the run. Times are in ticks.

ghost use Rattle.std.specs.Prelude.{◌≡◌, ℕ, ◌+◌, ◌<◌, ◌≤◌, ◌++◌, ◌^◌, List, [], ◌∷◌, true, false, None, Some, suc, length};
ghost use Rattle.event_order.specs.Order.{IsBefore};
ghost use Rattle.event_order.specs.Pending.{Among};
ghost use Rattle.ssf_model.specs.declared.event.Event.{Event};
ghost use Rattle.ssf_model.specs.declared.event.Entry.{Entry};
ghost use Rattle.ssf_model.specs.declared.event.Parcel.{Parcel};
ghost use Rattle.ssf_model.specs.Runs.{OfEachFittingRun};
ghost use Rattle.ssf_model.specs.Scene.{world_at, event_at};
ghost use Rattle.ssf_model.specs.Truth.{is_on_line, IsTrueParcel, IsCut, IsWindow, IsNext};
ghost use Rattle.sync_rules.specs.Parts.{BarrierOf};
ghost use Rattle.sync_rules.specs.Bounds.{bound_of, low_of, promise_of, least_ahead_of};
ghost use Rattle.sync_rules.specs.Sound.{made, HasDone, IsSoundBarrier};
ghost use Rattle.sync_rules.specs.Steps.{CanExecute, CanEnter, IsOver, first_line, executed_line, posted_line, taken_line, entered_line};
ghost use Rattle.timeline_parts.specs.Tables.{numbers_of};
ghost use Rattle.timeline_parts.specs.Sending.{written_of};
ghost use Rattle.timeline_parts.specs.declared.part.Part.{Part as PartValue};
ghost use Rattle.timeline.specs.View.{TimelineOf};
ghost use Rattle.timeline.specs.Holding.{bound_in, low_in, ahead_in, taken_of, is_over, IsInOrder};
ghost use Rattle.timeline.specs.Executing.{refusal, MayRun, spent_of};
ghost use Rattle.timeline.specs.Moving.{MayTake, can_enter, entered_at, without};
ghost use Rattle.timeline.specs.Lines.{line_of, mail_of, posted_of};
ghost use Rattle.timeline.specs.Sound.{CountsAt, IsSoundTimeline, IsRunOnLines, OfEachSoundTimeline, IsTakenTruly, IsHandedOver, IsExecuted, IsBegun};

use ssf_model::Behaviour;

/// What a timeline tells of its bound, its lower bound and its least time ahead is what the rules tell
/// of its view. A spent timeline stays at the event that it could not execute: its lower bound is that
/// event's time (`spent`).
pub fn timelines_tell_their_bounds<B: Behaviour>()
    ensures bound { (b : B) → OfEachSoundTimeline {B = B} (B.valid b) (B.carried b) (B.reaction b) (λ plan line s i m t.
        bound_in t ≡ bound_of s.net i (line_of m t)) }
    ensures low { (b : B) → OfEachSoundTimeline {B = B} (B.valid b) (B.carried b) (B.reaction b) (λ plan line s i m t.
        low_in t ≡ low_of s i (line_of m t)) }
    ensures ahead { (b : B) → OfEachSoundTimeline {B = B} (B.valid b) (B.carried b) (B.reaction b) (λ plan line s i m t.
        ahead_in t ≡ least_ahead_of s (line_of m t)) }
    ensures spent { (b : B) → OfEachSoundTimeline {B = B} (B.valid b) (B.carried b) (B.reaction b) (λ plan line s i m t.
        (event : Event B.Payload) (rest : List (Event B.Payload)) → t.spent ≡ true → t.pending ≡ event ∷ rest → low_in t ≡ event.key.time) }
{}

/// Taking in a true parcel, which begins where the timeline has taken up to, is the step that takes
/// its mail (`line`) and keeps the timeline sound (`sound`). No event of it comes too late: each is at
/// the bound or later (`late`) and comes after all that the timeline has executed (`after`), so after all
/// of its history (`history`). The lower bound does not fall (`low`).
pub fn taking_is_the_step<B: Behaviour>()
    ensures line { (b : B) → OfEachSoundTimeline {B = B} (B.valid b) (B.carried b) (B.reaction b) (λ plan line s i m t.
        (c : ℕ) (parcel : Parcel B.Payload) (after : TimelineOf B B.State B.Payload) → IsTakenTruly s t c parcel after
        → line_of m after ≡ taken_line s c (line_of m t) (mail_of parcel)) }
    ensures sound { (b : B) → OfEachSoundTimeline {B = B} (B.valid b) (B.carried b) (B.reaction b) (λ plan line s i m t.
        (c : ℕ) (parcel : Parcel B.Payload) (after : TimelineOf B B.State B.Payload) → IsTakenTruly s t c parcel after
        → IsSoundTimeline plan line s i m after) }
    ensures late { (b : B) → OfEachSoundTimeline {B = B} (B.valid b) (B.carried b) (B.reaction b) (λ plan line s i m t.
        (c : ℕ) (parcel : Parcel B.Payload) (after : TimelineOf B B.State B.Payload) → IsTakenTruly s t c parcel after
        → (e : Event B.Payload) → Among e parcel.events → bound_in t ≤ e.key.time) }
    ensures after { (b : B) → OfEachSoundTimeline {B = B} (B.valid b) (B.carried b) (B.reaction b) (λ plan line s i m t.
        (c : ℕ) (parcel : Parcel B.Payload) (after : TimelineOf B B.State B.Payload) → IsTakenTruly s t c parcel after
        → (j : ℕ) (d e : Event B.Payload) → j < m → event_at s j ≡ Some d → is_on_line s i d ≡ true → Among e parcel.events → IsBefore d.key e.key) }
    ensures history { (b : B) → OfEachSoundTimeline {B = B} (B.valid b) (B.carried b) (B.reaction b) (λ plan line s i m t.
        (c : ℕ) (parcel : Parcel B.Payload) (after : TimelineOf B B.State B.Payload) → IsTakenTruly s t c parcel after
        → (x : Entry) (e : Event B.Payload) → Among x t.history → Among e parcel.events → IsBefore x.key e.key) }
    ensures low { (b : B) → OfEachSoundTimeline {B = B} (B.valid b) (B.carried b) (B.reaction b) (λ plan line s i m t.
        (c : ℕ) (parcel : Parcel B.Payload) (after : TimelineOf B B.State B.Payload) → IsTakenTruly s t c parcel after
        → low_in t ≤ low_in after) }
{}

/// Entering a window is the step that enters it (`line`), and the timeline enters the window of a
/// barrier, whose counts stand at the places of its channels, just where the rules let it (`may`,
/// `enters`). It stays sound: in the window of a
/// sound barrier, where it has executed its events before the window before that (`barrier`), and in any
/// window `x` of the run, where the counts are those of the writes by the events before the window `v`
/// before it, and the timeline has executed its own events before `v` (`window`). The lower bound does
/// not fall (`low`).
pub fn entering_is_the_step<B: Behaviour>()
    ensures line { (b : B) → OfEachSoundTimeline {B = B} (B.valid b) (B.carried b) (B.reaction b) (λ plan line s i m t.
        (window : ℕ) → line_of m (entered_at window t) ≡ entered_line s window (line_of m t)) }
    ensures may { (b : B) → OfEachSoundTimeline {B = B} (B.valid b) (B.carried b) (B.reaction b) (λ plan line s i m t.
        (barrier : BarrierOf) (counts : List ℕ) → CountsAt t.in_ends counts barrier.counts → can_enter t barrier.window counts ≡ true
        → CanEnter s.net i (line_of m t) barrier) }
    ensures enters { (b : B) → OfEachSoundTimeline {B = B} (B.valid b) (B.carried b) (B.reaction b) (λ plan line s i m t.
        (barrier : BarrierOf) (counts : List ℕ) → CountsAt t.in_ends counts barrier.counts → CanEnter s.net i (line_of m t) barrier
        → can_enter t barrier.window counts ≡ true) }
    ensures barrier { (b : B) → OfEachSoundTimeline {B = B} (B.valid b) (B.carried b) (B.reaction b) (λ plan line s i m t.
        (v : ℕ) (barrier : BarrierOf) (counts : List ℕ) → IsSoundBarrier s v barrier → CountsAt t.in_ends counts barrier.counts
        → can_enter t barrier.window counts ≡ true → HasDone s i v (line_of m t) → IsSoundTimeline plan line s i m (entered_at barrier.window t)) }
    ensures window { (b : B) → OfEachSoundTimeline {B = B} (B.valid b) (B.carried b) (B.reaction b) (λ plan line s i m t.
        (k v x at : ℕ) (counts : List ℕ) → IsWindow s k v x → IsCut s v at → CountsAt t.in_ends counts (λ c. made s c at)
        → can_enter t x counts ≡ true → HasDone s i v (line_of m t) → IsSoundTimeline plan line s i m (entered_at x t)) }
    ensures low { (b : B) → OfEachSoundTimeline {B = B} (B.valid b) (B.carried b) (B.reaction b) (λ plan line s i m t.
        (window : ℕ) → t.entered ≤ window → low_in t ≤ low_in (entered_at window t)) }
{}

/// Handing out an outbox is the step that posts it (`line`) and keeps the timeline sound (`sound`). The
/// parcel is true (`parcel`): it begins where the timeline has posted up to (`first`), ends with all
/// that it has written (`end`), in range (`range`), and promises what the rules say (`promise`). The lower bound stays
/// (`low`).
pub fn posting_is_the_step<B: Behaviour>()
    ensures line { (b : B) → OfEachSoundTimeline {B = B} (B.valid b) (B.carried b) (B.reaction b) (λ plan line s i m t.
        (c : ℕ) (parcel : Parcel B.Payload) (after : TimelineOf B B.State B.Payload) → IsHandedOver t c parcel after
        → line_of m after ≡ posted_line c (line_of m t)) }
    ensures sound { (b : B) → OfEachSoundTimeline {B = B} (B.valid b) (B.carried b) (B.reaction b) (λ plan line s i m t.
        (c : ℕ) (parcel : Parcel B.Payload) (after : TimelineOf B B.State B.Payload) → IsHandedOver t c parcel after
        → IsSoundTimeline plan line s i m after) }
    ensures parcel { (b : B) → OfEachSoundTimeline {B = B} (B.valid b) (B.carried b) (B.reaction b) (λ plan line s i m t.
        (c : ℕ) (parcel : Parcel B.Payload) (after : TimelineOf B B.State B.Payload) → IsHandedOver t c parcel after
        → IsTrueParcel s c parcel.first parcel.events (parcel.first + length parcel.events) parcel.promise) }
    ensures first { (b : B) → OfEachSoundTimeline {B = B} (B.valid b) (B.carried b) (B.reaction b) (λ plan line s i m t.
        (c : ℕ) (parcel : Parcel B.Payload) (after : TimelineOf B B.State B.Payload) → IsHandedOver t c parcel after
        → parcel.first ≡ posted_of t.out_ends c) }
    ensures end { (b : B) → OfEachSoundTimeline {B = B} (B.valid b) (B.carried b) (B.reaction b) (λ plan line s i m t.
        (c : ℕ) (parcel : Parcel B.Payload) (after : TimelineOf B B.State B.Payload) → IsHandedOver t c parcel after
        → parcel.first + length parcel.events ≡ written_of t.out_ends c) }
    ensures range { (b : B) → OfEachSoundTimeline {B = B} (B.valid b) (B.carried b) (B.reaction b) (λ plan line s i m t.
        (c : ℕ) (parcel : Parcel B.Payload) (after : TimelineOf B B.State B.Payload) → IsHandedOver t c parcel after
        → parcel.first + length parcel.events < 2 ^ 64) }
    ensures promise { (b : B) → OfEachSoundTimeline {B = B} (B.valid b) (B.carried b) (B.reaction b) (λ plan line s i m t.
        (c : ℕ) (parcel : Parcel B.Payload) (after : TimelineOf B B.State B.Payload) → IsHandedOver t c parcel after
        → parcel.promise ≡ promise_of s i c (line_of m t)) }
    ensures low { (b : B) → OfEachSoundTimeline {B = B} (B.valid b) (B.carried b) (B.reaction b) (λ plan line s i m t.
        (c : ℕ) (parcel : Parcel B.Payload) (after : TimelineOf B B.State B.Payload) → IsHandedOver t c parcel after
        → low_in after ≡ low_in t) }
{}

/// Room for more events (`room`) and entries that are given up (`given_up`) change nothing of the view,
/// and the timeline stays sound. So it does where there was no memory for its next event (`spent`).
pub fn other_calls_keep_sound<B: Behaviour>()
    ensures room { (b : B) → OfEachSoundTimeline {B = B} (B.valid b) (B.carried b) (B.reaction b) (λ plan line s i m t.
        (n : ℕ) → (line_of m (record t { spare = n }) ≡ line_of m t) × IsSoundTimeline plan line s i m (record t { spare = n })) }
    ensures given_up { (b : B) → OfEachSoundTimeline {B = B} (B.valid b) (B.carried b) (B.reaction b) (λ plan line s i m t.
        (below : ℕ) → (line_of m (without below t) ≡ line_of m t) × IsSoundTimeline plan line s i m (without below t)) }
    ensures spent { (b : B) → OfEachSoundTimeline {B = B} (B.valid b) (B.carried b) (B.reaction b) (λ plan line s i m t.
        (after : TimelineOf B B.State B.Payload) → refusal t ≡ None → after ≡ spent_of t after → IsInOrder after
        → (line_of m after ≡ line_of m t) × IsSoundTimeline plan line s i m after) }
{}

/// The rules let a sound timeline execute its next event just where it is not refused (`execute`,
/// `executes`), and it is over just where it tells so (`over`, `is_over`).
pub fn timelines_may_as_the_rules_say<B: Behaviour>()
    ensures execute { (b : B) → OfEachSoundTimeline {B = B} (B.valid b) (B.carried b) (B.reaction b) (λ plan line s i m t.
        refusal t ≡ None → CanExecute s t.budget i (line_of m t)) }
    ensures executes { (b : B) → OfEachSoundTimeline {B = B} (B.valid b) (B.carried b) (B.reaction b) (λ plan line s i m t.
        CanExecute s t.budget i (line_of m t) → t.spent ≡ false → refusal t ≡ None) }
    ensures over { (b : B) → OfEachSoundTimeline {B = B} (B.valid b) (B.carried b) (B.reaction b) (λ plan line s i m t.
        is_over t ≡ true → IsOver s t.budget i (line_of m t)) }
    ensures is_over { (b : B) → OfEachSoundTimeline {B = B} (B.valid b) (B.carried b) (B.reaction b) (λ plan line s i m t.
        IsOver s t.budget i (line_of m t) → is_over t ≡ true) }
{}

/// A sound timeline whose next event is not refused executes the next event that the run has on it
/// (`next`), which comes after all events of the run before its moment (`last`), so after all of its
/// history (`rises`). With event number `n` of the run this is the step that executes it (`line`): the timeline stays sound (`sound`), its history grows by the
/// run's entry of the event (`history`), and its lower bound does not fall (`low`).
pub fn executing_is_the_step<B: Behaviour>()
    ensures next { (b : B) → OfEachSoundTimeline {B = B} (B.valid b) (B.carried b) (B.reaction b) (λ plan line s i m t.
        (after : TimelineOf B B.State B.Payload) → (q : IsExecuted (B.reaction b) t after) → IsNext s i m q.run.event) }
    ensures last { (b : B) → OfEachSoundTimeline {B = B} (B.valid b) (B.carried b) (B.reaction b) (λ plan line s i m t.
        (after : TimelineOf B B.State B.Payload) → (q : IsExecuted (B.reaction b) t after)
        → (j : ℕ) (d : Event B.Payload) → j < m → event_at s j ≡ Some d → IsBefore d.key q.run.event.key) }
    ensures rises { (b : B) → OfEachSoundTimeline {B = B} (B.valid b) (B.carried b) (B.reaction b) (λ plan line s i m t.
        (after : TimelineOf B B.State B.Payload) → (q : IsExecuted (B.reaction b) t after)
        → (x : Entry) → Among x t.history → IsBefore x.key q.run.event.key) }
    ensures line { (b : B) → OfEachSoundTimeline {B = B} (B.valid b) (B.carried b) (B.reaction b) (λ plan line s i m t.
        (after : TimelineOf B B.State B.Payload) → (q : IsExecuted (B.reaction b) t after)
        → (n : ℕ) → event_at s n ≡ Some q.run.event
        → line_of (suc n) after ≡ executed_line s i n (s.machine.writes (world_at s n).state q.run.event) q.run.rest (line_of m t)) }
    ensures sound { (b : B) → OfEachSoundTimeline {B = B} (B.valid b) (B.carried b) (B.reaction b) (λ plan line s i m t.
        (after : TimelineOf B B.State B.Payload) → (q : IsExecuted (B.reaction b) t after)
        → (n : ℕ) → event_at s n ≡ Some q.run.event → IsSoundTimeline plan line s i (suc n) after) }
    ensures history { (b : B) → OfEachSoundTimeline {B = B} (B.valid b) (B.carried b) (B.reaction b) (λ plan line s i m t.
        (after : TimelineOf B B.State B.Payload) → (q : IsExecuted (B.reaction b) t after)
        → (n : ℕ) → event_at s n ≡ Some q.run.event → after.history ≡ t.history ++ s.entry (world_at s n).state q.run.event ∷ []) }
    ensures low { (b : B) → OfEachSoundTimeline {B = B} (B.valid b) (B.carried b) (B.reaction b) (λ plan line s i m t.
        (after : TimelineOf B B.State B.Payload) → (q : IsExecuted (B.reaction b) t after) → low_in t ≤ low_in after) }
{}

/// A sound timeline meets what its calls ask: of `execute`, where its next event is not refused (`run`),
/// and of `take_in` with a true parcel, which begins where it has taken up to and ends in range
/// (`take`).
pub fn sound_timelines_meet_the_calls<B: Behaviour>()
    ensures run { (b : B) → OfEachSoundTimeline {B = B} (B.valid b) (B.carried b) (B.reaction b) (λ plan line s i m t.
        (event : Event B.Payload) (rest : List (Event B.Payload)) → t.pending ≡ event ∷ rest → refusal t ≡ None
        → MayRun (B.valid b) (B.reaction b) t event rest) }
    ensures take { (b : B) → OfEachSoundTimeline {B = B} (B.valid b) (B.carried b) (B.reaction b) (λ plan line s i m t.
        (c : ℕ) (parcel : Parcel B.Payload) → Among c (numbers_of t.in_ends) → parcel.first ≡ taken_of t.in_ends c
        → IsTrueParcel s c parcel.first parcel.events (parcel.first + length parcel.events) parcel.promise → parcel.first + length parcel.events < 2 ^ 64
        → MayTake t c parcel) }
{}

/// A timeline that has its share of the plan and has executed nothing begins as the rules say (`line`),
/// and is sound at the beginning of the run (`sound`).
pub fn timelines_begin_sound<B: Behaviour>()
    ensures line { (b : B) → OfEachFittingRun {B = B} (B.valid b) (B.carried b) (B.reaction b) (λ plan line s.
        (i budget : ℕ) (part : PartValue B B.State B.Payload) (t : TimelineOf B B.State B.Payload) → IsRunOnLines plan line budget s
        → IsBegun plan line s i budget part t → line_of 0 t ≡ first_line s i) }
    ensures sound { (b : B) → OfEachFittingRun {B = B} (B.valid b) (B.carried b) (B.reaction b) (λ plan line s.
        (i budget : ℕ) (part : PartValue B B.State B.Payload) (t : TimelineOf B B.State B.Payload) → IsRunOnLines plan line budget s
        → IsBegun plan line s i budget part t → IsSoundTimeline plan line s i 0 t) }
{}
