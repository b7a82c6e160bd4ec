//! Laws over all behaviours and all plans. `until` is the last time that is executed, in ticks.

ghost use Rattle.std.specs.Prelude.{◌≡◌, ℕ, ◌<◌, ◌≤◌, Bool, None, length};
ghost use Rattle.event_order.specs.declared.key.Key.{Key as KeyValue};
ghost use Rattle.event_order.specs.Machine.{within};
ghost use Rattle.ssf_model.specs.declared.plan.Plan.{Plan};
ghost use Rattle.ssf_model.specs.Reaction.{LatestTime};
ghost use Rattle.ssf_model.specs.Scene.{Net, scene_of};
ghost use Rattle.ssf_model.specs.Run.{Fits, run_event};
ghost use Rattle.run_health.specs.Joined.{IsAligned, KeepsRounds};
ghost use Rattle.sync_rules.specs.Shared.{IsShared};
ghost use Rattle.sync_facts.specs.Aligned.{IsAlignedNet};
ghost use Rattle.sync_facts.specs.Nets.{net_of};

use ssf_model::Behaviour;

/// Of a plan that fits, whose entities stand on so many timelines and whose mappings without delay stay
/// on one, the channels between these timelines are its mappings that cross, appointed where their
/// delays are below the threshold.
pub fn plans_have_aligned_nets<B: Behaviour>()
    ensures { (b : B) (plan : Plan B B.State B.Payload) (line : ℕ → ℕ) (timelines threshold : ℕ)
        → Fits (B.valid b) (B.carried b) plan → IsAligned plan line → ((e : ℕ) → e < length plan.entities → line e < timelines)
        → IsAlignedNet plan line (net_of plan line timelines threshold) }
{}

/// The run of a plan that fits, with the channels between its timelines, is one that is shared out:
/// under each cut at a round (`cut`), and under each cut that keeps round 0, where the run ends (`end`).
pub fn aligned_plans_are_shared<B: Behaviour>()
    ensures cut { (b : B) (plan : Plan B B.State B.Payload) (until : ℕ) (line : ℕ → ℕ) (net : Net)
        → Fits (B.valid b) (B.carried b) plan → until ≤ LatestTime → IsAlignedNet plan line net
        → (most : ℕ) → IsShared (scene_of (B.reaction b) plan until (within most) line net) }
    ensures end { (b : B) (plan : Plan B B.State B.Payload) (until : ℕ) (line : ℕ → ℕ) (net : Net)
        → Fits (B.valid b) (B.carried b) plan → until ≤ LatestTime → IsAlignedNet plan line net
        → (kept : KeyValue → Bool) → KeepsRounds 0 kept → (end : ℕ) → run_event (B.reaction b) plan until kept end ≡ None
        → IsShared (scene_of (B.reaction b) plan until kept line net) }
{}
