//! Laws of the shares of plans that fit. `lines` has the timeline of each entity of the plan.

ghost use Rattle.std.specs.Prelude.{◌≡◌, ◌↔◌, ℕ, ◌<◌, List, cond, nat_eq, length, map, Some, None, slice_get};
ghost use Rattle.event_order.specs.Pending.{Among};
ghost use Rattle.ssf_model.specs.declared.plan.Mapping.{Mapping};
ghost use Rattle.ssf_model.specs.declared.plan.Plan.{Plan};
ghost use Rattle.ssf_model.specs.Run.{Fits, IsWired, counts_of};
ghost use Rattle.run_health.specs.Groups.{IsWriterOn};
ghost use Rattle.run_health.specs.Joined.{IsAligned};
ghost use Rattle.sync_facts.specs.Aligned.{IsAlignedNet};
ghost use Rattle.sync_facts.specs.Nets.{net_of, least_windowed as least_windowed_by};
ghost use Rattle.timeline_parts.specs.declared.part.Cross.{Cross};
ghost use Rattle.timeline_parts.specs.Tables.{AreRising, numbers_of, item_at};
ghost use Rattle.timeline_parts.specs.Sending.{count_of};
ghost use Rattle.timeline_parts.specs.Parts.{IsPart, channel_of};
ghost use Rattle.alignment.specs.declared.labels.Mode.{Mode};
ghost use Rattle.alignment.specs.Alignment.{IsAlignment, line_of, timeline_count};
ghost use Rattle.alignment.specs.Classes.{least_windowed};
ghost use Rattle.plan_shares.specs.Shares.{crosses_of, share_of, end_of};
ghost use Rattle.plan_shares.specs.Laws.{IsPartIn};

use ssf_model::Behaviour;

/// The lists of each share are in order.
pub fn shares_are_parts<B: Behaviour>()
    ensures { (b : B) (plan : Plan B B.State B.Payload) (lines : List ℕ) (threshold i : ℕ)
        → Fits (B.valid b) (B.carried b) plan → IsPart (share_of plan lines threshold i) }
{}

/// Each entity of the plan is in the share of its timeline under its number, and in no other share.
pub fn entities_have_one_share<B: Behaviour>()
    ensures { (plan : Plan B B.State B.Payload) (lines : List ℕ) (threshold i k : ℕ)
        → item_at k (share_of plan lines threshold i).entities ≡ cond (nat_eq (line_of lines k) i) (slice_get plan.entities k) None }
{}

/// A share counts the channels on which its entities write (`channels`), as the plan does (`counts`).
pub fn shares_count_their_channels<B: Behaviour>()
    ensures channels { (plan : Plan B B.State B.Payload) (lines : List ℕ) (threshold i c : ℕ)
        → Among c (numbers_of (share_of plan lines threshold i).counts) ↔ ((k : ℕ) × (line_of lines k ≡ i) × IsWriterOn plan k c) }
    ensures counts { (plan : Plan B B.State B.Payload) (lines : List ℕ) (threshold i c : ℕ)
        → Among c (numbers_of (share_of plan lines threshold i).counts) → count_of (share_of plan lines threshold i).counts c ≡ counts_of plan.counts c }
{}

/// The mappings of share i from and to other timelines are the channels between the timelines of the
/// plan from and to timeline i.
pub fn shares_have_the_channels_between_timelines<B: Behaviour>()
    ensures { (b : B) (plan : Plan B B.State B.Payload) (lines : List ℕ) (threshold i : ℕ)
        → Fits (B.valid b) (B.carried b) plan → IsPartIn (net_of plan (line_of lines) (timeline_count lines) threshold) i (share_of plan lines threshold i) }
{}

/// The mappings between two timelines stand in the rising order of their channels (`rising`), and
/// each at its place (`places`).
pub fn crosses_stand_at_their_places<B: Behaviour>()
    ensures rising { (plan : Plan B B.State B.Payload) (lines : List ℕ) (threshold : ℕ)
        → IsWired plan → AreRising (map channel_of (crosses_of lines threshold plan.mappings)) }
    ensures places { (lines : List ℕ) (threshold : ℕ) (mappings : List Mapping) (x : Cross)
        → Among x (crosses_of lines threshold mappings) → slice_get (crosses_of lines threshold mappings) x.place ≡ Some x }
{}

/// The timelines of an alignment keep the ends of each mapping without delay together (`aligned`), so
/// the channels between them are aligned with the plan (`net`), and the least delay of the windowed
/// mappings is the lookahead (`lookahead`).
pub fn alignments_make_nets<B: Behaviour>()
    ensures aligned { (plan : Plan B B.State B.Payload) (nets : List ℕ) (mode : Mode) (lines : List ℕ)
        → IsWired plan → IsAlignment plan nets mode lines → IsAligned plan (line_of lines) }
    ensures net { (b : B) (plan : Plan B B.State B.Payload) (nets : List ℕ) (mode : Mode) (lines : List ℕ) (threshold : ℕ)
        → Fits (B.valid b) (B.carried b) plan → IsAlignment plan nets mode lines
        → IsAlignedNet plan (line_of lines) (net_of plan (line_of lines) (timeline_count lines) threshold) }
    ensures lookahead { (lines : List ℕ) (threshold : ℕ) (mappings : List Mapping)
        → least_windowed lines threshold mappings ≡ least_windowed_by (line_of lines) threshold mappings }
{}
