//! Laws of all parts of a run together, over every plan that fits: `core` are the parts, and `after` the
//! parts that something leaves of them.

ghost use Rattle.std.specs.Prelude.{◌≡◌, ◌⊎◌, ℕ, ◌<◌, ◌≤◌, ◌++◌, Bool, true, false, List, ◌∷◌, map, length, Some, None, slice_get};
ghost use Rattle.std.specs.List.{All, Contains};
ghost use Rattle.event_order.specs.declared.key.Key.{Key as KeyValue};
ghost use Rattle.event_order.specs.Machine.{within};
ghost use Rattle.event_order.specs.Order.{IsBefore};
ghost use Rattle.event_order.specs.Pending.{Among};
ghost use Rattle.ssf_model.specs.declared.event.Event.{Event as EventValue};
ghost use Rattle.ssf_model.specs.declared.event.Entry.{Entry as EntryValue};
ghost use Rattle.ssf_model.specs.declared.plan.Plan.{Plan as PlanValue};
ghost use Rattle.ssf_model.specs.Reaction.{LatestTime};
ghost use Rattle.ssf_model.specs.Run.{Fits};
ghost use Rattle.ssf_model.specs.Scene.{scene_of, event_at};
ghost use Rattle.ssf_model.specs.Truth.{is_on_line, line_entries, HasReached, IsWindow};
ghost use Rattle.run_health.specs.Healthy.{MostEvents};
ghost use Rattle.sync_facts.specs.Nets.{net_of};
ghost use Rattle.sync_rules.specs.Bounds.{safe_bound};
ghost use Rattle.sync_rules.specs.Sound.{IsOwnEvent};
ghost use Rattle.timeline_parts.specs.Parts.{channel_of};
ghost use Rattle.timeline_parts.specs.Settling.{AreNew};
ghost use Rattle.timeline_parts.specs.Tables.{numbers_of};
ghost use Rattle.timeline.specs.View.{TimelineOf};
ghost use Rattle.timeline.specs.Holding.{bound_in};
ghost use Rattle.timeline.specs.Executing.{refusal, MayRun};
ghost use Rattle.timeline.specs.Lines.{posted_of};
ghost use Rattle.timeline.specs.Sound.{IsRunOnLines};
ghost use Rattle.appointments.specs.Mails.{Mails, mail_at, posted_of as posted_to};
ghost use Rattle.plan_shares.specs.declared.crosses.CrossEnd.{CrossEnd};
ghost use Rattle.sync_steps.specs.Between.{HasItsEnds, IsMailOf, events_on};
ghost use Rattle.alignment.specs.declared.labels.Mode.{Mode as ModeValue};
ghost use Rattle.alignment.specs.Alignment.{IsAlignment, line_of, timeline_count};
ghost use Rattle.sync_steps.specs.declared.steps.Step.{Step as StepValue};
ghost use Rattle.sync_steps.specs.declared.steps.Step.TheVariants.{Execute};
ghost use Rattle.core_rules.specs.Cores.{CoreView, core_as, IsSoundFor, IsCoreOfRun, OfEachSoundCore};
ghost use Rattle.core_rules.specs.Stepping.{end_at, is_enabled, IsMade, IsSpentIn, without_below};
ghost use Rattle.core_rules.specs.Leading.{MayStep, IsCoreStep, AreCoreSteps};
ghost use Rattle.core_rules.specs.Beginning.{IsFirstCore};
ghost use Rattle.core_rules.specs.Ending.{steps_left};
ghost use Rattle.core_rules.specs.Reading.{safe_bound_in, BudgetEndsIn, IsSpentAt};

use ssf_model::Behaviour;

/// What a step leaves of sound parts is what a step of the rules makes of them, or, where a timeline
/// takes its mail, some steps, and the parts stay sound (`step`, `steps`). So they do where there was
/// no memory for a timeline's next event (`spent`), and where entries are given up (`given_up`), which
/// is no step.
pub fn made_steps_are_steps<B: Behaviour>()
    ensures step { (b : B) (step : StepValue) (core after : CoreView B B.State B.Payload)
        → IsMade (B.reaction b) step core after → IsCoreStep (B.valid b) (B.carried b) (B.reaction b) step core after }
    ensures steps { (b : B) (step : StepValue) (core after : CoreView B B.State B.Payload)
        → IsMade (B.reaction b) step core after → AreCoreSteps (B.valid b) (B.carried b) (B.reaction b) core after }
    ensures spent { (b : B) (i : ℕ) (core after : CoreView B B.State B.Payload)
        → IsSpentIn i core after → AreCoreSteps (B.valid b) (B.carried b) (B.reaction b) core after }
    ensures given_up { (b : B) (below : ℕ) (core : CoreView B B.State B.Payload)
        → AreCoreSteps (B.valid b) (B.carried b) (B.reaction b) core (without_below below core) }
{}

/// Parts lead to themselves by no step at all (`none`), steps go on from where others lead (`join`), and
/// the parts of a run stay those of a run (`run`).
pub fn steps_lead_on<B: Behaviour>()
    ensures none { (b : B) (core : CoreView B B.State B.Payload) → AreCoreSteps (B.valid b) (B.carried b) (B.reaction b) core core }
    ensures join { (b : B) (core between after : CoreView B B.State B.Payload) → AreCoreSteps (B.valid b) (B.carried b) (B.reaction b) core between
        → AreCoreSteps (B.valid b) (B.carried b) (B.reaction b) between after → AreCoreSteps (B.valid b) (B.carried b) (B.reaction b) core after }
    ensures run { (b : B) (core after : CoreView B B.State B.Payload) → AreCoreSteps (B.valid b) (B.carried b) (B.reaction b) core after
        → IsCoreOfRun (B.valid b) (B.carried b) (B.reaction b) core → IsCoreOfRun (B.valid b) (B.carried b) (B.reaction b) after }
{}

/// The parts that have a plan, by its alignment and a threshold, and have done nothing are sound at the
/// beginning of its run (`sound`), and are those of a run (`run`). The run is one of which all laws hold, where the cut keeps
/// as many rounds as a timeline has events in the budget (`lines`).
pub fn first_parts_are_sound<B: Behaviour>()
    ensures lines { (b : B) (plan : PlanValue B B.State B.Payload) (nets : List ℕ) (mode : ModeValue) (lines : List ℕ) (threshold until budget : ℕ)
        → Fits (B.valid b) (B.carried b) plan → IsAlignment plan nets mode lines → until ≤ LatestTime
        → IsRunOnLines plan (line_of lines) budget (scene_of (B.reaction b) plan until (within budget) (line_of lines) (net_of plan (line_of lines) (timeline_count lines) threshold)) }
    ensures sound { (b : B) (plan : PlanValue B B.State B.Payload) (lines : List ℕ) (threshold until budget : ℕ) (kept : KeyValue → Bool) (core : CoreView B B.State B.Payload)
        → Fits (B.valid b) (B.carried b) plan → until ≤ LatestTime → budget ≤ MostEvents
        → IsRunOnLines plan (line_of lines) budget (scene_of (B.reaction b) plan until kept (line_of lines) (net_of plan (line_of lines) (timeline_count lines) threshold))
        → IsFirstCore plan lines threshold until budget core
        → IsSoundFor plan (line_of lines) (scene_of (B.reaction b) plan until kept (line_of lines) (net_of plan (line_of lines) (timeline_count lines) threshold)) core (λ i. 0) 0 }
    ensures run { (b : B) (plan : PlanValue B B.State B.Payload) (nets : List ℕ) (mode : ModeValue) (lines : List ℕ) (threshold until budget : ℕ) (core : CoreView B B.State B.Payload)
        → Fits (B.valid b) (B.carried b) plan → IsAlignment plan nets mode lines → until ≤ LatestTime → budget ≤ MostEvents
        → IsFirstCore plan lines threshold until budget core → IsCoreOfRun (B.valid b) (B.carried b) (B.reaction b) core }
{}

/// Sound parts meet what the calls ask. Of `execute`, where its next event is not refused (`execute`).
/// Of `post_between`, for a channel with these ends: its sender has it (`out`), its receiver's mail has
/// it (`mail`), and the two count the same as posted (`joined`); the receiver is there (`receiver`). Of
/// `take_between`: a timeline's own mail is its own (`own`), and has new events (`new`). Of `report_to`: the barrier
/// knows the timeline (`number`) and its channels (`cross`), and it has an end for each mapping (`ends`).
pub fn sound_parts_meet_the_calls<B: Behaviour>()
    ensures execute { (b : B) → OfEachSoundCore {B = B} (B.valid b) (B.carried b) (B.reaction b) (λ plan line s core at v.
        (i : ℕ) (t : TimelineOf B B.State B.Payload) → slice_get core.timelines i ≡ Some t
        → (event : EventValue B.Payload) (rest : List (EventValue B.Payload)) → t.pending ≡ event ∷ rest → refusal t ≡ None → MayRun (B.valid b) (B.reaction b) t event rest) }
    ensures out { (b : B) → OfEachSoundCore {B = B} (B.valid b) (B.carried b) (B.reaction b) (λ plan line s core at v.
        (i : ℕ) (t : TimelineOf B B.State B.Payload) → slice_get core.timelines i ≡ Some t
        → (c : ℕ) (end : CrossEnd) → end_at c core.ends ≡ Some end → end.sender ≡ i → Among c (numbers_of t.out_ends)) }
    ensures receiver { (b : B) → OfEachSoundCore {B = B} (B.valid b) (B.carried b) (B.reaction b) (λ plan line s core at v.
        (c : ℕ) (end : CrossEnd) → end_at c core.ends ≡ Some end
        → (end.sender < length core.timelines) × (end.receiver < length core.timelines) × (length core.mails ≡ length core.timelines)) }
    ensures mail { (b : B) → OfEachSoundCore {B = B} (B.valid b) (B.carried b) (B.reaction b) (λ plan line s core at v.
        (i : ℕ) (t : TimelineOf B B.State B.Payload) → slice_get core.timelines i ≡ Some t
        → (c : ℕ) (end : CrossEnd) → end_at c core.ends ≡ Some end → end.sender ≡ i
        → (mail : Mails B.Payload) → slice_get core.mails end.receiver ≡ Some mail → Contains mail.channels c) }
    ensures joined { (b : B) → OfEachSoundCore {B = B} (B.valid b) (B.carried b) (B.reaction b) (λ plan line s core at v.
        (i : ℕ) (t : TimelineOf B B.State B.Payload) → slice_get core.timelines i ≡ Some t
        → (c : ℕ) (end : CrossEnd) → end_at c core.ends ≡ Some end → end.sender ≡ i
        → (mail : Mails B.Payload) → slice_get core.mails end.receiver ≡ Some mail → posted_to (mail_at mail c) ≡ posted_of t.out_ends c) }
    ensures own { (b : B) → OfEachSoundCore {B = B} (B.valid b) (B.carried b) (B.reaction b) (λ plan line s core at v.
        (i : ℕ) (t : TimelineOf B B.State B.Payload) → slice_get core.timelines i ≡ Some t
        → (mail : Mails B.Payload) → slice_get core.mails i ≡ Some mail → IsMailOf mail t) }
    ensures new { (b : B) → OfEachSoundCore {B = B} (B.valid b) (B.carried b) (B.reaction b) (λ plan line s core at v.
        (i : ℕ) (t : TimelineOf B B.State B.Payload) → slice_get core.timelines i ≡ Some t
        → (mail : Mails B.Payload) → slice_get core.mails i ≡ Some mail → AreNew (events_on mail mail.channels) t.pending) }
    ensures number { (b : B) → OfEachSoundCore {B = B} (B.valid b) (B.carried b) (B.reaction b) (λ plan line s core at v.
        (i : ℕ) (t : TimelineOf B B.State B.Payload) → slice_get core.timelines i ≡ Some t → i < length core.barrier.reports) }
    ensures cross { (b : B) → OfEachSoundCore {B = B} (B.valid b) (B.carried b) (B.reaction b) (λ plan line s core at v.
        (i : ℕ) (t : TimelineOf B B.State B.Payload) → slice_get core.timelines i ≡ Some t → All (Contains core.barrier.channels) (map channel_of t.outs)) }
    ensures ends { (b : B) → OfEachSoundCore {B = B} (B.valid b) (B.carried b) (B.reaction b) (λ plan line s core at v.
        (i : ℕ) (t : TimelineOf B B.State B.Payload) → slice_get core.timelines i ≡ Some t → HasItsEnds t) }
{}

/// No event comes too late. What stands in a sound timeline's mail is at its bound or later (`late`), and
/// comes after all that the timeline has executed, in the order of keys (`after`), so after all of its
/// history (`history`).
pub fn no_event_comes_too_late<B: Behaviour>()
    ensures late { (b : B) → OfEachSoundCore {B = B} (B.valid b) (B.carried b) (B.reaction b) (λ plan line s core at v.
        (i : ℕ) (t : TimelineOf B B.State B.Payload) (mail : Mails B.Payload) → slice_get core.timelines i ≡ Some t → slice_get core.mails i ≡ Some mail
        → (e : EventValue B.Payload) → Among e (events_on mail mail.channels) → bound_in t ≤ e.key.time) }
    ensures after { (b : B) → OfEachSoundCore {B = B} (B.valid b) (B.carried b) (B.reaction b) (λ plan line s core at v.
        (i : ℕ) (t : TimelineOf B B.State B.Payload) (mail : Mails B.Payload) → slice_get core.timelines i ≡ Some t → slice_get core.mails i ≡ Some mail
        → (j : ℕ) (d e : EventValue B.Payload) → j < at i → event_at s j ≡ Some d → is_on_line s i d ≡ true → Among e (events_on mail mail.channels) → IsBefore d.key e.key) }
    ensures history { (b : B) → OfEachSoundCore {B = B} (B.valid b) (B.carried b) (B.reaction b) (λ plan line s core at v.
        (i : ℕ) (t : TimelineOf B B.State B.Payload) (mail : Mails B.Payload) → slice_get core.timelines i ≡ Some t → slice_get core.mails i ≡ Some mail
        → (x : EntryValue) (e : EventValue B.Payload) → Among x t.history → Among e (events_on mail mail.channels) → IsBefore x.key e.key) }
{}

/// The safe bound is that of the rules (`safe`), and every event of the run before it was executed
/// (`reached`). The barrier's window is the window of its round in the run (`window`). Where the barrier has
/// ended all events of the run were executed (`ended`). The history of each timeline is that of the run up to its
/// moment, without the first entries where these were given up (`history`).
pub fn bounds_and_windows_hold<B: Behaviour>()
    ensures safe { (b : B) → OfEachSoundCore {B = B} (B.valid b) (B.carried b) (B.reaction b) (λ plan line s core at v.
        safe_bound_in core ≡ safe_bound s (core_as s.net at core).lines) }
    ensures reached { (b : B) → OfEachSoundCore {B = B} (B.valid b) (B.carried b) (B.reaction b) (λ plan line s core at v. HasReached s (safe_bound_in core) at) }
    ensures window { (b : B) → OfEachSoundCore {B = B} (B.valid b) (B.carried b) (B.reaction b) (λ plan line s core at v. IsWindow s core.barrier.round v core.barrier.window) }
    ensures ended { (b : B) → OfEachSoundCore {B = B} (B.valid b) (B.carried b) (B.reaction b) (λ plan line s core at v.
        core.barrier.ended ≡ true → (j : ℕ) (e : EventValue B.Payload) → event_at s j ≡ Some e → j < at (s.line e)) }
    ensures history { (b : B) → OfEachSoundCore {B = B} (B.valid b) (B.carried b) (B.reaction b) (λ plan line s core at v.
        (i : ℕ) (t : TimelineOf B B.State B.Payload) → slice_get core.timelines i ≡ Some t → (given_up : List EntryValue) × (given_up ++ t.history ≡ line_entries s i (at i))) }
{}

/// What is enabled may be made by the rules (`may`), and what may be made by them is enabled, but for the
/// execution of a timeline that is spent (`enables`).
pub fn steps_are_enabled_as_the_rules_say<B: Behaviour>()
    ensures may { (b : B) → OfEachSoundCore {B = B} (B.valid b) (B.carried b) (B.reaction b) (λ plan line s core at v.
        (step : StepValue) → is_enabled core step ≡ true → MayStep s core.budget (core_as s.net at core) step) }
    ensures enables { (b : B) → OfEachSoundCore {B = B} (B.valid b) (B.carried b) (B.reaction b) (λ plan line s core at v.
        (step : StepValue) → MayStep s core.budget (core_as s.net at core) step → (is_enabled core step ≡ true) ⊎ ((i : ℕ) × (step ≡ Execute i) × IsSpentAt core i)) }
{}

/// Nothing is stuck: until the barrier has ended some step is enabled, or the budget ends at some
/// timeline, or some timeline is spent.
pub fn some_step_is_enabled<B: Behaviour>()
    ensures { (b : B) → OfEachSoundCore {B = B} (B.valid b) (B.carried b) (B.reaction b) (λ plan line s core at v.
        core.barrier.ended ≡ false → ((step : StepValue) × (is_enabled core step ≡ true)) ⊎ (((i : ℕ) × BudgetEndsIn core i) ⊎ ((i : ℕ) × IsSpentAt core i))) }
{}

/// Where the budget ends at a timeline, its first pending event is its event number `budget` in the run,
/// counted from 0 (`event`), the safe bound is the time of that event (`bound`), and no timeline has an earlier event of this number
/// (`least`).
pub fn budgets_end_at_the_safe_bound<B: Behaviour>()
    ensures event { (b : B) → OfEachSoundCore {B = B} (B.valid b) (B.carried b) (B.reaction b) (λ plan line s core at v.
        (i : ℕ) (q : BudgetEndsIn core i) (event : EventValue B.Payload) (rest : List (EventValue B.Payload)) → q.timeline.pending ≡ event ∷ rest → (k : ℕ) × IsOwnEvent s i core.budget k event) }
    ensures bound { (b : B) → OfEachSoundCore {B = B} (B.valid b) (B.carried b) (B.reaction b) (λ plan line s core at v.
        (i : ℕ) (q : BudgetEndsIn core i) (event : EventValue B.Payload) (rest : List (EventValue B.Payload)) → q.timeline.pending ≡ event ∷ rest → safe_bound_in core ≡ event.key.time) }
    ensures least { (b : B) → OfEachSoundCore {B = B} (B.valid b) (B.carried b) (B.reaction b) (λ plan line s core at v.
        (i : ℕ) (q : BudgetEndsIn core i) (event : EventValue B.Payload) (rest : List (EventValue B.Payload)) → q.timeline.pending ≡ event ∷ rest
        → (j k : ℕ) (e : EventValue B.Payload) → IsOwnEvent s j core.budget k e → event.key.time ≤ e.key.time) }
{}

/// Each step leaves less to do: a number that is told by the parts alone. So steps come to an
/// end.
pub fn made_steps_leave_less<B: Behaviour>()
    ensures { (b : B) (step : StepValue) (core after : CoreView B B.State B.Payload)
        → IsCoreOfRun (B.valid b) (B.carried b) (B.reaction b) core → IsMade (B.reaction b) step core after → steps_left after < steps_left core }
{}
