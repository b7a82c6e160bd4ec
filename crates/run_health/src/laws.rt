//! Laws over the runs of all plans that fit. A law of each run is one of each plan (`plan`), up to each
//! time in range, in ticks, and under each cut: a test on keys, and a write whose key does not pass it is
//! counted and does not become pending. `line` numbers the entities by timelines, and the run is seen as
//! a scene (`s`).

ghost use Rattle.std.specs.Prelude.{◌≡◌, ◌⊎◌, ℕ, ◌+◌, ◌*◌, ◌^◌, ◌<◌, ◌≤◌, Bool, All, count_by, length, Some, slice_get};
ghost use Rattle.event_order.specs.declared.key.Key.{Key as KeyValue};
ghost use Rattle.event_order.specs.Pending.{Among};
ghost use Rattle.event_order.specs.Run.{Chain, share, acted};
ghost use Rattle.ssf_model.specs.declared.event.Event.{Event};
ghost use Rattle.ssf_model.specs.declared.event.Entry.{Entry};
ghost use Rattle.ssf_model.specs.declared.process.Process.{Process};
ghost use Rattle.ssf_model.specs.declared.entity.Entity.{Entity};
ghost use Rattle.ssf_model.specs.declared.plan.Plan.{Plan};
ghost use Rattle.ssf_model.specs.Reaction.{Each, LongestDelay};
ghost use Rattle.ssf_model.specs.Entities.{IsValidEntity};
ghost use Rattle.ssf_model.specs.Channels.{Sent, sent_by};
ghost use Rattle.ssf_model.specs.Scene.{run_of, world_at, event_at};
ghost use Rattle.ssf_model.specs.Truth.{line_events_at, AreFew};
ghost use Rattle.ssf_model.specs.Run.{Fits, run_entries};
ghost use Rattle.ssf_model.specs.Runs.{OfEachFittingRun, IsCutAlike};
ghost use Rattle.run_health.specs.Joined.{FollowsEarlier, IsFollowing, IsPassedOn, IsAligned, KeepsRounds};
ghost use Rattle.run_health.specs.Groups.{IsSameGroup, IsWriterOn, is_own};
ghost use Rattle.run_health.specs.Healthy.{IsEarly, IsHealthy, MostSent, OfEachHappening, spent_by};
ghost use Rattle.ssf_model.specs.Channels.{is_on};

use ssf_model::Behaviour;

/// The state of a group of entities after some events of the run of a plan that fits, with the counts
/// of the channels on which the group writes, is what the group's own events among them, one after
/// another, make of the opening.
pub fn groups_depend_on_own_events<B: Behaviour>()
    ensures { (b : B) → OfEachFittingRun {B = B} (B.valid b) (B.carried b) (B.reaction b) (λ plan line s. (own : ℕ → Bool) (n : ℕ)
        → IsSameGroup plan own (world_at s n).state (acted s.machine s.opening.state (share s.machine s.until s.kept s.opening (is_own own) n))) }
{}

/// Of a plan that fits, each of these events passed the next on: without delay, along a mapping
/// without delay that leads from the entity of the one to that of the other.
pub fn rounds_are_passed_on<B: Behaviour>()
    ensures { (b : B) → OfEachFittingRun {B = B} (B.valid b) (B.carried b) (B.reaction b) (λ plan line s. (n : ℕ) (e : Event B.Payload)
        → event_at s n ≡ Some e → Chain (run_of s) (IsPassedOn (B.reaction b) plan s.until s.kept) (record { number = n; event = e }) e.key.round) }
{}

/// Where the two ends of each mapping without delay are on one timeline, an event of round k has k
/// earlier events of its own timeline at its time.
pub fn rounds_count_own_events<B: Behaviour>()
    ensures { (b : B) → OfEachFittingRun {B = B} (B.valid b) (B.carried b) (B.reaction b) (λ plan line s. IsAligned plan line
        → (n : ℕ) (e : Event B.Payload) → event_at s n ≡ Some e → e.key.round ≤ length (line_events_at s (line e.entity) e.key.time n)) }
{}

/// What an event of the run of a plan that fits writes goes along a mapping that leads from its
/// entity, with its delay and with what the entity wrote, or it ends a wait (`writes`). So each event
/// is one of the opening's or follows an earlier one in this way (`events`).
pub fn writes_follow_mappings<B: Behaviour>()
    ensures writes { (b : B) → OfEachFittingRun {B = B} (B.valid b) (B.carried b) (B.reaction b) (λ plan line s. (n : ℕ) (e d : Event B.Payload)
        → event_at s n ≡ Some e → Among d (s.machine.writes (world_at s n).state e) → IsFollowing (B.reaction b) plan (world_at s n).state e d) }
    ensures events { (b : B) → OfEachFittingRun {B = B} (B.valid b) (B.carried b) (B.reaction b) (λ plan line s. (n : ℕ) (d : Event B.Payload)
        → event_at s n ≡ Some d → Among d plan.events ⊎ FollowsEarlier (B.reaction b) plan s.until s.kept n d) }
{}

/// Every state of the run of a plan that fits is valid with its waits.
pub fn runs_stay_valid<B: Behaviour>()
    ensures { (b : B) → OfEachFittingRun {B = B} (B.valid b) (B.carried b) (B.reaction b) (λ plan line s. (n k : ℕ) (e : Entity B B.State B.Payload)
        → slice_get (world_at s n).state.entities k ≡ Some e → IsValidEntity (B.valid b) e) }
{}

/// The run of a plan that fits stays healthy: after n events the numbers of an entity are within what
/// its own timeline's events among them allow, where the two ends of each mapping without delay are
/// on one timeline.
pub fn runs_stay_healthy<B: Behaviour>()
    ensures { (b : B) → OfEachFittingRun {B = B} (B.valid b) (B.carried b) (B.reaction b) (λ plan line s. IsAligned plan line
        → (n : ℕ) → IsHealthy (B.valid b) (B.carried b) plan (spent_by (B.reaction b) plan s.until s.kept line n) (world_at s n)) }
{}

/// No number leaves 64 bits at an event before which its timeline had fewer than 10^12: the tickets of
/// its entity, also after one more action, its round, also the next, the count of each channel on
/// which it sends, after all that it sends there, and the times at which that arrives.
pub fn numbers_stay_in_range<B: Behaviour>()
    ensures tickets { (b : B) → OfEachHappening {B = B} (B.valid b) (B.carried b) (B.reaction b) (λ plan line s n e entity.
        IsEarly (B.reaction b) plan line s n e → Each (λ (p : Process). p.ticket + 1 < 2 ^ 64) entity.processes) }
    ensures round { (b : B) → OfEachHappening {B = B} (B.valid b) (B.carried b) (B.reaction b) (λ plan line s n e entity.
        IsEarly (B.reaction b) plan line s n e → e.key.round + 1 < 2 ^ 64) }
    ensures counts { (b : B) → OfEachHappening {B = B} (B.valid b) (B.carried b) (B.reaction b) (λ plan line s n e entity.
        IsEarly (B.reaction b) plan line s n e → (x : Sent B.Payload) → Among x (sent_by (B.reaction b) plan.mappings e entity)
        → (world_at s n).state.counts x.channel + count_by (is_on x.channel) (sent_by (B.reaction b) plan.mappings e entity) < 2 ^ 64) }
    ensures times { (b : B) → OfEachHappening {B = B} (B.valid b) (B.carried b) (B.reaction b) (λ plan line s n e entity.
        (x : Sent B.Payload) → Among x (sent_by (B.reaction b) plan.mappings e entity) → e.key.time + x.delay < 2 ^ 64) }
{}

/// What one event sends: at most `MostSent` on one channel (`few`), and only on channels on which its
/// entity writes (`own`), to entities that there are (`entity`), after delays in range (`delay`).
pub fn events_send_little<B: Behaviour>()
    ensures few { (b : B) → OfEachHappening {B = B} (B.valid b) (B.carried b) (B.reaction b) (λ plan line s n e writer.
        (c : ℕ) → count_by (is_on c) (sent_by (B.reaction b) plan.mappings e writer) ≤ MostSent) }
    ensures own { (b : B) → OfEachHappening {B = B} (B.valid b) (B.carried b) (B.reaction b) (λ plan line s n e writer.
        (x : Sent B.Payload) → Among x (sent_by (B.reaction b) plan.mappings e writer) → IsWriterOn plan e.entity x.channel) }
    ensures entity { (b : B) → OfEachHappening {B = B} (B.valid b) (B.carried b) (B.reaction b) (λ plan line s n e writer.
        (x : Sent B.Payload) → Among x (sent_by (B.reaction b) plan.mappings e writer) → x.entity < length plan.entities) }
    ensures delay { (b : B) → OfEachHappening {B = B} (B.valid b) (B.carried b) (B.reaction b) (λ plan line s n e writer.
        (x : Sent B.Payload) → Among x (sent_by (B.reaction b) plan.mappings e writer) → x.delay ≤ 2 * LongestDelay) }
{}

/// A channel that an entity writes on is one of the plan's, and no other entity writes on it.
pub fn channels_have_one_writer<B: Behaviour>()
    ensures within { (b : B) (plan : Plan B B.State B.Payload) → Fits (B.valid b) (B.carried b) plan
        → (k c : ℕ) → IsWriterOn plan k c → c < length plan.counts }
    ensures one { (b : B) (plan : Plan B B.State B.Payload) → Fits (B.valid b) (B.carried b) plan
        → (i k c : ℕ) → IsWriterOn plan i c → IsWriterOn plan k c → i ≡ k }
{}

/// The entries of a run are of the plan's entities.
pub fn entries_have_entities<B: Behaviour>()
    ensures { (b : B) → OfEachFittingRun {B = B} (B.valid b) (B.carried b) (B.reaction b) (λ plan line s.
        (n : ℕ) → All (λ (e : Entry). e.entity < length plan.entities) (run_entries (B.reaction b) plan s.until s.kept n)) }
{}

/// Entities are numbered by timelines, and the two ends of each mapping without delay are on one.
/// Where no timeline has more than `most` events, no cut that keeps all rounds up to `most` drops
/// anything: under any two of them the run has the same events and the same entries.
pub fn few_events_are_not_cut<B: Behaviour>()
    ensures { (b : B) → OfEachFittingRun {B = B} (B.valid b) (B.carried b) (B.reaction b) (λ plan line s. IsAligned plan line → (most n : ℕ) (other : KeyValue → Bool)
        → AreFew s most → KeepsRounds most s.kept → KeepsRounds most other → IsCutAlike (B.reaction b) plan s.until s.kept other n) }
{}
