//! Laws of alignments: what follows from what they are.
ghost use Rattle.std.specs.Prelude.{◌≡◌, ℕ, ◌<◌, ◌≤◌, true, List, length, Option, Some, None, slice_get};
ghost use Rattle.event_order.specs.Pending.{Among};
ghost use Rattle.ssf_model.specs.declared.plan.Mapping.{Mapping as MappingValue};
ghost use Rattle.ssf_model.specs.declared.plan.Plan.{Plan as PlanValue};
ghost use Rattle.ssf_model.specs.Reaction.{Each};
ghost use Rattle.ssf_model.specs.Run.{IsWired};
ghost use Rattle.alignment.specs.declared.labels.Mode.{Mode as ModeValue};
ghost use Rattle.alignment.specs.Alignment.{IsAlignment, line_of, timeline_count};
ghost use Rattle.alignment.specs.Classes.{is_cross, is_windowed, least_windowed};

use ssf_model::Behaviour;

/// A plan has one alignment by a mode.
pub fn alignments_are_one<B: Behaviour>()
    ensures { (plan : PlanValue B B.State B.Payload) (nets : List ℕ) (mode : ModeValue) (lines others : List ℕ) → IsAlignment plan nets mode lines → IsAlignment plan nets mode others → lines ≡ others }
{}

/// Each entity has a timeline, whose number is below their count (`below`), and each such number is
/// that of some entity's timeline (`each`).
pub fn entities_have_timelines<B: Behaviour>()
    ensures below { (lines : List ℕ) (entity : ℕ) → entity < length lines → line_of lines entity < timeline_count lines }
    ensures each { (plan : PlanValue B B.State B.Payload) (nets : List ℕ) (mode : ModeValue) (lines : List ℕ) → IsAlignment plan nets mode lines
        → (i : ℕ) → i < timeline_count lines → (entity : ℕ) × (entity < length lines) × (line_of lines entity ≡ i) }
{}

/// Of two entities, each the least of its timeline, the lesser one's timeline has the lesser number.
pub fn timelines_go_by_their_least<B: Behaviour>()
    ensures { (plan : PlanValue B B.State B.Payload) (nets : List ℕ) (mode : ModeValue) (lines : List ℕ) → IsAlignment plan nets mode lines
        → (a b : ℕ) → a < b → b < length lines → ((d : ℕ) → d < b → line_of lines d ≡ line_of lines b → b ≤ d) → line_of lines a < line_of lines b }
{}

/// The two ends of a mapping without delay lie on one timeline (`at_once`). So each cross mapping has
/// a delay of at least one tick (`delay`), and the ends of every mapping have timelines (`ends`).
pub fn cross_mappings_take_time<B: Behaviour>()
    ensures at_once { (plan : PlanValue B B.State B.Payload) (nets : List ℕ) (mode : ModeValue) (lines : List ℕ) → IsWired plan → IsAlignment plan nets mode lines
        → Each (λ (m : MappingValue). m.delay ≡ 0 → line_of lines m.from ≡ line_of lines m.to) plan.mappings }
    ensures delay { (plan : PlanValue B B.State B.Payload) (nets : List ℕ) (mode : ModeValue) (lines : List ℕ) → IsWired plan → IsAlignment plan nets mode lines
        → (m : MappingValue) → Among m plan.mappings → is_cross lines m ≡ true → 1 ≤ m.delay }
    ensures ends { (plan : PlanValue B B.State B.Payload) (nets : List ℕ) (mode : ModeValue) (lines : List ℕ) → IsWired plan → IsAlignment plan nets mode lines
        → (m : MappingValue) → Among m plan.mappings → (line_of lines m.from < timeline_count lines) × (line_of lines m.to < timeline_count lines) }
{}

/// The least delay of the windowed mappings is at most the delay of each of them (`least`), and it is
/// the delay of one of them (`is`).
pub fn least_windowed_is_least()
    ensures least { (lines : List ℕ) (threshold : ℕ) (mappings : List MappingValue) (m : MappingValue) → Among m mappings → is_windowed lines threshold m ≡ true
        → (d : ℕ) × (least_windowed lines threshold mappings ≡ Some d) × (d ≤ m.delay) }
    ensures is { (lines : List ℕ) (threshold : ℕ) (mappings : List MappingValue) (d : ℕ) → least_windowed lines threshold mappings ≡ Some d
        → (m : MappingValue) × Among m mappings × (is_windowed lines threshold m ≡ true) × (m.delay ≡ d) }
{}
