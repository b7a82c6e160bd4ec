//! Laws over all behaviours and all plans. A law of each run is one of each plan (`plan`), up to each
//! time, in ticks, and under each cut: a test on keys, and a write whose key does not pass it is counted
//! and does not become pending. The run is seen as a scene (`s`).

ghost use Rattle.std.specs.Prelude.{◌≡◌, ◌⊎◌, ℕ, ◌+◌, ◌<◌, ◌≤◌, ◌++◌, Bool, List, true, suc, length, Some, None, slice_get, nat_eq, nat_lt, filter};
ghost use Rattle.event_order.specs.declared.key.Key.{Key as KeyValue};
ghost use Rattle.event_order.specs.Order.{IsBefore};
ghost use Rattle.event_order.specs.Pending.{Among, IsRising};
ghost use Rattle.event_order.specs.Machine.{after, within, all_kept};
ghost use Rattle.event_order.specs.Run.{WrittenBefore, ExecutedWithin, Arises, Numbered, Chain};
ghost use Rattle.ssf_model.specs.declared.event.Event.{Event};
ghost use Rattle.ssf_model.specs.declared.event.Entry.{Entry};
ghost use Rattle.ssf_model.specs.declared.entity.Entity.{Entity};
ghost use Rattle.ssf_model.specs.declared.plan.Plan.{Plan};
ghost use Rattle.ssf_model.specs.Scene.{Net, Scene, scene_of, run_of, world_at, event_at, channel_of, time_of};
ghost use Rattle.ssf_model.specs.Truth.{writes_on, IsWrite, IsRunWrite, IsStretch, IsPromise, IsTrueParcel, IsCut, IsWindow, window_at, all_entries, line_entries, entries_below, IsPassed, HasReached, IsMerged};
ghost use Rattle.ssf_model.specs.Run.{Fits, counts_of, run_event, run_entries, entries_from, world_after};
ghost use Rattle.ssf_model.specs.Runs.{OfEachRun, IsCutAlike, IsKept};
ghost use Rattle.ssf_model.specs.Drafts.{Draft, planned};
ghost use Rattle.run_laws.specs.Openings.{OpensInOrder};
ghost use Rattle.run_laws.specs.Numbers.{HasNumbersBelow, AreNumbered};

use ssf_model::Behaviour;

/// A plan that is well formed opens in order.
pub fn fitting_plans_open<B: Behaviour>()
    ensures { (b : B) (plan : Plan B B.State B.Payload) → Fits (B.valid b) (B.carried b) plan → OpensInOrder plan }
{}

/// A plan that a builder finishes opens in order.
pub fn finished_plans_open<B: Behaviour>()
    ensures { (d : Draft B B.State) → OpensInOrder {B = B} {S = B.State} {P = B.Payload} (planned d) }
{}

/// Keys rise strictly along a run.
pub fn keys_rise<B: Behaviour>()
    ensures { (b : B) → OfEachRun {B = B} (B.reaction b) (λ plan s. OpensInOrder plan
        → (n k : ℕ) (e d : Event B.Payload) → n < k → event_at s n ≡ Some e → event_at s k ≡ Some d → IsBefore e.key d.key) }
{}

/// What is pending stands in key order at every moment.
pub fn pending_rises<B: Behaviour>()
    ensures { (b : B) → OfEachRun {B = B} (B.reaction b) (λ plan s. OpensInOrder plan → (n : ℕ) → IsRising (λ e. e.key) (world_at s n).pending) }
{}

/// Of all that stands in the opening or is written, no two have one key.
pub fn keys_are_apart<B: Behaviour>()
    ensures { (b : B) → OfEachRun {B = B} (B.reaction b) (λ plan s. OpensInOrder plan → (e d : Event B.Payload)
        → Arises s.machine s.until s.kept s.opening e → Arises s.machine s.until s.kept s.opening d → e.key ≡ d.key → e ≡ d) }
{}

/// Each event is one of the opening's or was written by an earlier event.
pub fn events_arise<B: Behaviour>()
    ensures { (b : B) → OfEachRun {B = B} (B.reaction b) (λ plan s. (n : ℕ) (e : Event B.Payload)
        → event_at s n ≡ Some e → Among e plan.events ⊎ WrittenBefore s.machine s.until s.kept s.opening n e) }
{}

/// What is pending at some moment and in time is executed later, before the run ends.
pub fn pending_is_executed<B: Behaviour>()
    ensures { (b : B) → OfEachRun {B = B} (B.reaction b) (λ plan s. OpensInOrder plan → (n end : ℕ) (e : Event B.Payload)
        → n ≤ end → event_at s end ≡ None → Among e (world_at s n).pending → e.key.time ≤ s.until → ExecutedWithin s.machine s.until s.kept s.opening n end e) }
{}

/// A run that has no event of some number has none of a later number, and nothing changes any more.
pub fn ended_runs_stay_ended<X, E>()
    ensures over { (s : Scene X E) (n k : ℕ) → n ≤ k → event_at s n ≡ None → event_at s k ≡ None }
    ensures same { (s : Scene X E) (n k : ℕ) → n ≤ k → event_at s n ≡ None → world_at s k ≡ world_at s n }
{}

/// Before an event of round k stand k events at its time, one of each lower round, each of which
/// wrote the next.
pub fn rounds_are_chained<B: Behaviour>()
    ensures { (b : B) → OfEachRun {B = B} (B.reaction b) (λ plan s. OpensInOrder plan → (n : ℕ) (e : Event B.Payload)
        → event_at s n ≡ Some e → Chain (run_of s) (λ p d. Unit {0}) (record { number = n; event = e }) e.key.round) }
{}

/// What no action changes of a state stays along the run: `look` is what one sees of it.
pub fn states_keep<B: Behaviour, T>()
    ensures { (b : B) (look : B.State → T) → IsKept (B.reaction b) look → OfEachRun {B = B} (B.reaction b) (λ plan s.
        (n k : ℕ) (e : Entity B B.State B.Payload) → slice_get (world_at s n).state.entities k ≡ Some e
        → (first : Entity B B.State B.Payload) × (slice_get plan.entities k ≡ Some first) × (look e.state ≡ look first.state)) }
{}

/// The run goes on from any of its worlds: after n events and k more it is where k events lead from
/// the world after n (`worlds`), and so are its entries (`entries`).
pub fn runs_go_on<B: Behaviour>()
    ensures worlds { (b : B) → OfEachRun {B = B} (B.reaction b) (λ plan s.
        (n k : ℕ) → world_at s (k + n) ≡ after s.machine s.until s.kept (world_at s n) k) }
    ensures entries { (b : B) → OfEachRun {B = B} (B.reaction b) (λ plan s.
        (n k : ℕ) → run_entries (B.reaction b) plan s.until s.kept (k + n)
        ≡ run_entries (B.reaction b) plan s.until s.kept n ++ entries_from (B.reaction b) plan.mappings s.until s.kept (world_at s n) k) }
{}

/// A run to a smaller end passes through the same worlds, by the same events, until it is over.
pub fn longer_runs_begin_alike<B: Behaviour>()
    ensures events { (b : B) → OfEachRun {B = B} (B.reaction b) (λ plan s. (later : ℕ) → s.until ≤ later
        → (n : ℕ) (e : Event B.Payload) → event_at s n ≡ Some e → run_event (B.reaction b) plan later s.kept n ≡ Some e) }
    ensures worlds { (b : B) → OfEachRun {B = B} (B.reaction b) (λ plan s. (later : ℕ) → s.until ≤ later
        → (n : ℕ) (e : Event B.Payload) → event_at s n ≡ Some e → world_after (B.reaction b) plan later s.kept (suc n) ≡ world_at s (suc n)) }
{}

/// A run with a cut ends.
pub fn cut_run_ends<B: Behaviour>()
    ensures { (b : B) (plan : Plan B B.State B.Payload) (until R : ℕ) → OpensInOrder plan
        → (n : ℕ) × (run_event (B.reaction b) plan until (within R) n ≡ None) }
{}

/// A cut at round R changes none of the first R + 1 events, and none of their entries.
pub fn cut_keeps_first<B: Behaviour>()
    ensures { (b : B) (plan : Plan B B.State B.Payload) (until R n : ℕ) → OpensInOrder plan → n ≤ R + 1
        → IsCutAlike (B.reaction b) plan until (within R) all_kept n }
{}

/// The entries of a run as it is executed are those of all events of its scene (`run`). The history of
/// a timeline is those of them that are of its entities, in their order (`line`), and those before a time
/// are those of them whose keys are before it (`below`).
pub fn histories_are_of_the_run<B: Behaviour>()
    ensures run { (b : B) → OfEachRun {B = B} (B.reaction b) (λ plan s. (n : ℕ) → run_entries (B.reaction b) plan s.until s.kept n ≡ all_entries s n) }
    ensures line { (b : B) (plan : Plan B B.State B.Payload) (until : ℕ) (kept : KeyValue → Bool) (line : ℕ → ℕ) (net : Net) (i n : ℕ)
        → line_entries (scene_of (B.reaction b) plan until kept line net) i n
        ≡ filter (λ (x : Entry). nat_eq (line x.entity) i) (all_entries (scene_of (B.reaction b) plan until kept line net) n) }
    ensures below { (b : B) → OfEachRun {B = B} (B.reaction b) (λ plan s.
        (v n : ℕ) → entries_below s v n ≡ filter (λ (x : Entry). nat_lt x.key.time v) (all_entries s n)) }
{}

/// The entries of a run stand in the order of their keys (`run`), and so does the history of each
/// timeline (`line`).
pub fn entries_rise<B: Behaviour>()
    ensures run { (b : B) → OfEachRun {B = B} (B.reaction b) (λ plan s. OpensInOrder plan → (n : ℕ) → IsRising (λ (x : Entry). x.key) (all_entries s n)) }
    ensures line { (b : B) → OfEachRun {B = B} (B.reaction b) (λ plan s. OpensInOrder plan → (i n : ℕ) → IsRising (λ (x : Entry). x.key) (line_entries s i n)) }
{}

/// Where the events before a time v are among the first so many of a run, v has a moment: the number of
/// these events.
pub fn times_have_moments<B: Behaviour>()
    ensures { (b : B) → OfEachRun {B = B} (B.reaction b) (λ plan s. OpensInOrder plan → (v most : ℕ) → IsPassed s v most → (n : ℕ) × IsCut s v n) }
{}

/// The entries before a time are the first of the run: from the moment n of the time on they are just
/// those of the first n events.
pub fn entries_below_are_first<X, E>()
    ensures { (s : Scene X E) (v n k : ℕ) → IsCut s v n → n ≤ k → entries_below s v k ≡ all_entries s n }
{}

/// Where each timeline has reached the time v, at a moment of its own, the entries before v that they
/// have kept are together, in key order, the first of the run: those before the moment n of v.
pub fn histories_merge_to_the_run<B: Behaviour>()
    ensures { (b : B) → OfEachRun {B = B} (B.reaction b) (λ plan s. OpensInOrder plan → (v n : ℕ) (at : ℕ → ℕ) (entries : List Entry)
        → IsCut s v n → HasReached s v at → IsMerged s v at entries → entries ≡ all_entries s n) }
{}

/// A channel's count is that of the opening and one more for each write on it, whether the cut keeps
/// it or not.
pub fn channels_count_their_writes<B: Behaviour>()
    ensures { (b : B) → OfEachRun {B = B} (B.reaction b) (λ plan s.
        (c n : ℕ) → (world_at s n).state.counts c ≡ counts_of plan.counts c + length (writes_on s c n)) }
{}

/// The write at place k of a channel is a write on this channel (`channel`), and its number is the
/// opening's count of the channel and k together (`number`).
pub fn writes_are_numbered<B: Behaviour>()
    ensures channel { (b : B) → OfEachRun {B = B} (B.reaction b) (λ plan s.
        (c k : ℕ) (d : Event B.Payload) → IsWrite s c k d → d.key.channel ≡ c) }
    ensures number { (b : B) → OfEachRun {B = B} (B.reaction b) (λ plan s.
        (c k : ℕ) (d : Event B.Payload) → IsWrite s c k d → d.key.number ≡ counts_of plan.counts c + k) }
{}

/// A write has one place on its channel.
pub fn writes_have_one_place<B: Behaviour>()
    ensures { (b : B) → OfEachRun {B = B} (B.reaction b) (λ plan s.
        (c j k : ℕ) (d : Event B.Payload) → IsWrite s c j d → IsWrite s c k d → j ≡ k) }
{}

/// At one place of a channel stands one write, in the run of any machine.
pub fn places_have_one_write<X, E>()
    ensures { (s : Scene X E) (c k : ℕ) (d e : E) → IsWrite s c k d → IsWrite s c k e → d ≡ e }
{}

/// What some event of a run writes has a place on its channel, and what has a place was written by
/// some event.
pub fn writes_have_places<X, E>()
    ensures place { (s : Scene X E) (d : E) → IsRunWrite s d → (k : ℕ) × IsWrite s (channel_of s d) k d }
    ensures written { (s : Scene X E) (c k : ℕ) (d : E) → IsWrite s c k d → IsRunWrite s d }
{}

/// A promise of channel c, with a bound and a count n, holds exactly where each write of the run on c
/// at a time below the bound has a number below the sum of the opening's count of c and n.
pub fn promises_bound_numbers<B: Behaviour>()
    ensures tells { (b : B) → OfEachRun {B = B} (B.reaction b) (λ plan s.
        (c bound n : ℕ) → IsPromise s c bound n → HasNumbersBelow s (counts_of plan.counts c + n) c bound) }
    ensures told { (b : B) → OfEachRun {B = B} (B.reaction b) (λ plan s.
        (c bound n : ℕ) → HasNumbersBelow s (counts_of plan.counts c + n) c bound → IsPromise s c bound n) }
{}

/// Two stretches of a channel, of which one ends where the other begins, are one.
pub fn stretches_join<X, E>()
    ensures { (s : Scene X E) (c first between end : ℕ) (xs ys : List E)
        → IsStretch s c first xs between → IsStretch s c between ys end → IsStretch s c first (xs ++ ys) end }
{}

/// A stretch of a channel from place `first` on is just a list of writes of the run on the channel,
/// whose numbers are the opening's count and `first` together and those that follow (`tells`, `told`).
/// It ends after as many places as it has events (`end`).
pub fn stretches_by_numbers<B: Behaviour>()
    ensures end { (b : B) → OfEachRun {B = B} (B.reaction b) (λ plan s.
        (c first end : ℕ) (ds : List (Event B.Payload)) → IsStretch s c first ds end → end ≡ first + length ds) }
    ensures tells { (b : B) → OfEachRun {B = B} (B.reaction b) (λ plan s.
        (c first end : ℕ) (ds : List (Event B.Payload)) → IsStretch s c first ds end → AreNumbered s c (counts_of plan.counts c + first) ds) }
    ensures told { (b : B) → OfEachRun {B = B} (B.reaction b) (λ plan s.
        (c first end : ℕ) (ds : List (Event B.Payload)) → end ≡ first + length ds → AreNumbered s c (counts_of plan.counts c + first) ds → IsStretch s c first ds end) }
{}

/// Two true parcels of one channel have the same event at the same place of the channel.
pub fn true_parcels_agree<X, E>()
    ensures { (s : Scene X E) (c first end bound first2 end2 bound2 : ℕ) (ds es : List E)
        → IsTrueParcel s c first ds end bound → IsTrueParcel s c first2 es end2 bound2
        → (i j : ℕ) (d e : E) → first + i ≡ first2 + j → slice_get ds i ≡ Some d → slice_get es j ≡ Some e → d ≡ e }
{}

/// A true parcel of an appointed channel leaves nothing out: each write of the run on the channel at a
/// time below the parcel's promise has a place before the parcel, or is one of its events.
pub fn true_parcels_are_whole<X, E>()
    ensures { (s : Scene X E) (c first end bound : ℕ) (ds : List E) → s.net.appointed c ≡ true → IsTrueParcel s c first ds end bound
        → (k : ℕ) (d : E) → IsWrite s c k d → time_of s d < bound → (k < first) ⊎ Among d ds }
{}

/// The windows of a run that is over after `end` events are just those that `window_at` computes.
pub fn windows_are_computed<X, E>()
    ensures tells { (s : Scene X E) (end : ℕ) → event_at s end ≡ None → (k v x : ℕ) → IsWindow s k v x → window_at s end k ≡ Some x }
    ensures told { (s : Scene X E) (end : ℕ) → event_at s end ≡ None → (k x : ℕ) → window_at s end k ≡ Some x → (v : ℕ) × IsWindow s k v x }
{}
