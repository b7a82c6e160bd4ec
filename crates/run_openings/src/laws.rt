//! Laws over the openings of all plans that fit. A law of each run is one of each plan (`plan`), up to
//! each time in range, in ticks, and under each cut: a test on keys, and a write whose key does not pass
//! it is counted and does not become pending. The run is seen as a scene (`s`).

ghost use Rattle.std.specs.Prelude.{◌≡◌, ℕ, ◌+◌, ◌≤◌, Bool, length, None};
ghost use Rattle.event_order.specs.declared.key.Key.{Key as KeyValue};
ghost use Rattle.ssf_model.specs.declared.plan.Plan.{Plan};
ghost use Rattle.ssf_model.specs.Drafts.{Draft, planned};
ghost use Rattle.ssf_model.specs.Run.{Fits, run_events};
ghost use Rattle.ssf_model.specs.Scene.{event_at};
ghost use Rattle.ssf_model.specs.Runs.{OfEachFittingRun};
ghost use Rattle.ssf_model.specs.Openings.{IsOpeningOf, opening_after};
ghost use Rattle.run_health.specs.Healthy.{MostEvents};
ghost use Rattle.run_openings.specs.Again.{GoesOn, reopened_after};
ghost use Rattle.run_openings.specs.Limits.{IsWithinLimits, HasRoomFor};

use ssf_model::Behaviour;

/// A plan that fits goes on from each of its openings: with the opening after n events it goes through
/// the worlds, the events and the entries that its own run goes through after these (`run`). It counts
/// the n events with those that went before them (`before`), and has after k more the opening that the
/// plan has after all of them (`openings`).
pub fn reopened_plans_go_on<B: Behaviour>()
    ensures run { (b : B) → OfEachFittingRun {B = B} (B.valid b) (B.carried b) (B.reaction b) (λ plan line s.
        (n : ℕ) → GoesOn (B.reaction b) plan (reopened_after (B.reaction b) plan s.until s.kept n) s.until s.kept n) }
    ensures openings { (b : B) → OfEachFittingRun {B = B} (B.valid b) (B.carried b) (B.reaction b) (λ plan line s. (n k : ℕ)
        → opening_after (B.reaction b) (reopened_after (B.reaction b) plan s.until s.kept n) s.until s.kept k
        ≡ opening_after (B.reaction b) plan s.until s.kept (k + n)) }
    ensures before { (b : B) (plan : Plan B B.State B.Payload) (until : ℕ) (kept : KeyValue → Bool) (n : ℕ)
        → (reopened_after (B.reaction b) plan until kept n).before ≡ plan.before + length (run_events (B.reaction b) plan until kept n) }
{}

/// The opening after n events up to one end serves runs to every later end: where there are n events
/// up to the earlier one, the plan with this opening goes through what its run to the later end goes
/// through after them.
pub fn longer_runs_go_on<B: Behaviour>()
    ensures { (b : B) → OfEachFittingRun {B = B} (B.valid b) (B.carried b) (B.reaction b) (λ plan line s. (later n : ℕ)
        → s.until ≤ later → length (run_events (B.reaction b) plan s.until s.kept n) ≡ n
        → GoesOn (B.reaction b) plan (reopened_after (B.reaction b) plan s.until s.kept n) later s.kept n) }
{}

/// Where its numbers are not too great and all that is pending is in round 0, the opening after n
/// events of the run of a plan that fits is one of that plan (`lawful`), which fits with it (`fits`).
pub fn reopened_plans_fit<B: Behaviour>()
    ensures lawful { (b : B) → OfEachFittingRun {B = B} (B.valid b) (B.carried b) (B.reaction b) (λ plan line s. (n : ℕ)
        → IsWithinLimits (opening_after (B.reaction b) plan s.until s.kept n)
        → IsOpeningOf (B.valid b) (B.carried b) plan (opening_after (B.reaction b) plan s.until s.kept n)) }
    ensures fits { (b : B) → OfEachFittingRun {B = B} (B.valid b) (B.carried b) (B.reaction b) (λ plan line s. (n : ℕ)
        → IsWithinLimits (opening_after (B.reaction b) plan s.until s.kept n)
        → Fits (B.valid b) (B.carried b) (reopened_after (B.reaction b) plan s.until s.kept n)) }
{}

/// So it is once all that is in time was executed, of a plan whose numbers leave room for n events
/// (`limits`), as those of a plan that a builder finishes do for up to 10^12 (`finished`).
pub fn openings_stay_within_limits<B: Behaviour>()
    ensures limits { (b : B) → OfEachFittingRun {B = B} (B.valid b) (B.carried b) (B.reaction b) (λ plan line s. (n : ℕ)
        → HasRoomFor n plan → event_at s n ≡ None → IsWithinLimits (opening_after (B.reaction b) plan s.until s.kept n)) }
    ensures finished { (d : Draft B B.State) (n : ℕ) → n ≤ MostEvents → HasRoomFor {B = B} {S = B.State} {P = B.Payload} n (planned d) }
{}
