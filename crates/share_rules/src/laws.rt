//! Laws of what lies at home: `key` are all parts at the moment when they were shared out.

ghost use Rattle.std.specs.Prelude.{◌≡◌, ◌⊎◌, ℕ, suc, ◌+◌, ◌<◌, ◌≤◌, true, map, length, Some, slice_get, slice_index};
ghost use Rattle.ssf_model.specs.Reaction.{LatestTime};
ghost use Rattle.turn_table.specs.Changes.{put};
ghost use Rattle.turn_table.specs.Shapes.{words_in, spoken, Speaks, is_cleared};
ghost use Rattle.plan_shares.specs.declared.crosses.CrossEnd.{CrossEnd as CrossEndValue};
ghost use Rattle.timeline_parts.specs.Tables.{AreRising};
ghost use Rattle.timeline.specs.View.{TimelineOf};
ghost use Rattle.sync_steps.specs.Between.{HasItsCrosses};
ghost use Rattle.core_rules.specs.Cores.{CoreView, channel_in, IsCoreOfRun, IsSoundFor};
ghost use Rattle.core_rules.specs.Reading.{safe_bound_in};
ghost use Rattle.share_rules.specs.Gathered.{IsOfSame};
ghost use Rattle.share_rules.specs.Runs.{OfItsRuns};
ghost use Rattle.share_rules.specs.Home.{IsSince};
ghost use Rattle.share_rules.specs.Places.{ShareOf, count_of, barrier_place, posted_word, taken_word, done_word, round_word, posted_places, taken_places, twice, shape_of, shares_of, counts_of};
ghost use Rattle.share_rules.specs.Home.{Owes, Keeps, Marked, AreAtHome};

use ssf_model::Behaviour;

/// What values owe and what marks say of them meets the laws of a tenant of a table of turns.
pub fn shares_are_tenants<B: Behaviour>()
    ensures stays { (b : B) (key : CoreView B B.State B.Payload) (f g : ℕ → ℕ) (p : ℕ) (x : ShareOf B B.State B.Payload)
        → ((c : ℕ) → Speaks (shape_of key) c p → f c ≡ g c) → ((c : ℕ) → f c ≤ g c)
        → Owes (B.valid b) (B.carried b) (B.reaction b) key f p x → Owes (B.valid b) (B.carried b) (B.reaction b) key g p x }
    ensures forgets { (b : B) (key : CoreView B B.State B.Payload) (m n : ℕ → ℕ) (p : ℕ) (x : ShareOf B B.State B.Payload)
        → ((c : ℕ) → (n c ≡ 0) ⊎ (n c ≡ m c))
        → Marked (B.valid b) (B.carried b) (B.reaction b) key m p x → Marked (B.valid b) (B.carried b) (B.reaction b) key n p x }
    ensures cleared { (b : B) (key : CoreView B B.State B.Payload) (m : ℕ → ℕ) (p : ℕ) (x : ShareOf B B.State B.Payload)
        → ((c : ℕ) → is_cleared (shape_of key) p c ≡ true → m c ≡ 0) → Marked (B.valid b) (B.carried b) (B.reaction b) key m p x }
    ensures marks { (b : B) (key : CoreView B B.State B.Payload) (f m : ℕ → ℕ) (p : ℕ) (x : ShareOf B B.State B.Payload) (c : ℕ)
        → Keeps (B.valid b) (B.carried b) (B.reaction b) key f → Owes (B.valid b) (B.carried b) (B.reaction b) key f p x
        → Marked (B.valid b) (B.carried b) (B.reaction b) key m p x → Marked (B.valid b) (B.carried b) (B.reaction b) key (put m c (suc (f c))) p x }
{}

/// Of which places the count words speak: the posted word of a channel of its sender and its receiver's
/// mail (`posted`), the taken word of that mail and its receiver (`taken`), a done word of its timeline
/// (`done`), and the round word of the barrier (`round`). There are no others (`all`).
pub fn words_speak_of_their_places<B: Behaviour>()
    ensures posted { (key : CoreView B B.State B.Payload) (k : ℕ) (end : CrossEndValue) → slice_get key.ends k ≡ Some end
        → spoken (shape_of key) (posted_word key k) ≡ posted_places key end }
    ensures taken { (key : CoreView B B.State B.Payload) (k : ℕ) (end : CrossEndValue) → slice_get key.ends k ≡ Some end
        → spoken (shape_of key) (taken_word key k) ≡ taken_places key end }
    ensures done { (key : CoreView B B.State B.Payload) (i : ℕ) → i < count_of key → spoken (shape_of key) (done_word key i) ≡ twice i }
    ensures round { (key : CoreView B B.State B.Payload) → spoken (shape_of key) (round_word key) ≡ twice (barrier_place key) }
    ensures all { (key : CoreView B B.State B.Payload) → words_in (shape_of key) ≡ round_word key + 1 }
{}

/// The parts of a run are at home as they are, where each timeline's ends are those of its mappings, with
/// their own numbers in the count words (`home`), of which there are as many as the shape has (`counts`).
pub fn parts_of_a_run_are_at_home<B: Behaviour>()
    ensures counts { (core : CoreView B B.State B.Payload) → length (counts_of core) ≡ words_in (shape_of core) }
    ensures home { (b : B) (core : CoreView B B.State B.Payload) → IsCoreOfRun (B.valid b) (B.carried b) (B.reaction b) core
        → ((i : ℕ) (t : TimelineOf B B.State B.Payload) → slice_get core.timelines i ≡ Some t → HasItsCrosses t)
        → AreAtHome (B.valid b) (B.carried b) (B.reaction b) core (λ c. slice_index (counts_of core) c) (shares_of core) }
{}

/// Parts that are at home by some counts are as many as there were (`timelines`, `mails`).
pub fn parts_at_home_are_all<B: Behaviour>()
    ensures timelines { (b : B) (key core : CoreView B B.State B.Payload) (f : ℕ → ℕ) → AreAtHome (B.valid b) (B.carried b) (B.reaction b) key f (shares_of core)
        → length core.timelines ≡ count_of key }
    ensures mails { (b : B) (key core : CoreView B B.State B.Payload) (f : ℕ → ℕ) → AreAtHome (B.valid b) (B.carried b) (B.reaction b) key f (shares_of core)
        → length core.mails ≡ count_of key }
{}

/// Parts that are at home by some counts, with all else as the key has it, are sound together for each run
/// for which the key's parts were (`sound`), and those of a run where these were (`run`). Each timeline has
/// the ends of its mappings (`crosses`) and is what the key's became (`since`). The safe bound has not
/// fallen (`safe`), and neither has the round (`round`).
pub fn parts_at_home_are_sound_together<B: Behaviour>()
    ensures sound { (b : B) (key core : CoreView B B.State B.Payload) (f : ℕ → ℕ) → IsOfSame key core → AreAtHome (B.valid b) (B.carried b) (B.reaction b) key f (shares_of core)
        → OfItsRuns (B.valid b) (B.carried b) (B.reaction b) key (λ plan line s. (at : ℕ → ℕ) × (v : ℕ) × IsSoundFor plan line s core at v) }
    ensures run { (b : B) (key core : CoreView B B.State B.Payload) (f : ℕ → ℕ) → IsOfSame key core → AreAtHome (B.valid b) (B.carried b) (B.reaction b) key f (shares_of core)
        → IsCoreOfRun (B.valid b) (B.carried b) (B.reaction b) key → IsCoreOfRun (B.valid b) (B.carried b) (B.reaction b) core }
    ensures crosses { (b : B) (key core : CoreView B B.State B.Payload) (f : ℕ → ℕ) → AreAtHome (B.valid b) (B.carried b) (B.reaction b) key f (shares_of core)
        → (i : ℕ) (t : TimelineOf B B.State B.Payload) → slice_get core.timelines i ≡ Some t → HasItsCrosses t }
    ensures since { (b : B) (key core : CoreView B B.State B.Payload) (f : ℕ → ℕ) → AreAtHome (B.valid b) (B.carried b) (B.reaction b) key f (shares_of core)
        → (i : ℕ) (old : TimelineOf B B.State B.Payload) → slice_get key.timelines i ≡ Some old
        → (t : TimelineOf B B.State B.Payload) × (slice_get core.timelines i ≡ Some t) × IsSince old t }
    ensures safe { (b : B) (key core : CoreView B B.State B.Payload) (f : ℕ → ℕ) → IsOfSame key core → AreAtHome (B.valid b) (B.carried b) (B.reaction b) key f (shares_of core)
        → safe_bound_in key ≤ safe_bound_in core }
    ensures round { (b : B) (key core : CoreView B B.State B.Payload) (f : ℕ → ℕ) → AreAtHome (B.valid b) (B.carried b) (B.reaction b) key f (shares_of core)
        → key.barrier.round ≤ core.barrier.round }
{}

/// Parts that are at home by some counts, with all else as the key has it, are in order where the key's
/// are those of a run: the last time is in range (`in_time`), the channels between timelines rise
/// (`rising`), and each timeline executes up to the same time as all (`until`).
pub fn parts_at_home_are_in_order<B: Behaviour>()
    ensures in_time { (b : B) (key core : CoreView B B.State B.Payload) → IsOfSame key core → IsCoreOfRun (B.valid b) (B.carried b) (B.reaction b) key → core.until ≤ LatestTime }
    ensures rising { (b : B) (key core : CoreView B B.State B.Payload) → IsOfSame key core → IsCoreOfRun (B.valid b) (B.carried b) (B.reaction b) key → AreRising (map channel_in core.ends) }
    ensures until { (b : B) (key core : CoreView B B.State B.Payload) (f : ℕ → ℕ) → IsOfSame key core → AreAtHome (B.valid b) (B.carried b) (B.reaction b) key f (shares_of core)
        → IsCoreOfRun (B.valid b) (B.carried b) (B.reaction b) key → (i : ℕ) (t : TimelineOf B B.State B.Payload) → slice_get core.timelines i ≡ Some t → t.until ≡ core.until }
{}
