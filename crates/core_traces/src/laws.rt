//! Laws of what timelines keep of the records of a run, over every plan that fits: `core` are the parts
//! of the run, which keep all entries from the time `g` on, and `after` what steps leave of them.

ghost use Rattle.std.specs.Prelude.{◌≡◌, ℕ, ◌+◌, ◌≤◌, ◌++◌, Bool, true, List, [], length};
ghost use Rattle.event_order.specs.declared.key.Key.{Key as KeyValue};
ghost use Rattle.event_order.specs.Machine.{within};
ghost use Rattle.ssf_model.specs.declared.event.Entry.{Entry as EntryValue};
ghost use Rattle.ssf_model.specs.declared.event.Names.{Names as NamesValue};
ghost use Rattle.ssf_model.specs.declared.plan.Plan.{Plan as PlanValue};
ghost use Rattle.ssf_model.specs.Reaction.{LatestTime};
ghost use Rattle.ssf_model.specs.Run.{Fits};
ghost use Rattle.ssf_model.specs.Runs.{OfEachFittingRun};
ghost use Rattle.ssf_model.specs.Scene.{Scene, scene_of};
ghost use Rattle.ssf_model.specs.Truth.{AreFew};
ghost use Rattle.run_health.specs.Healthy.{MostEvents};
ghost use Rattle.run_health.specs.Joined.{IsAligned, KeepsRounds};
ghost use Rattle.sync_rules.specs.Shared.{IsShared};
ghost use Rattle.alignment.specs.declared.labels.Mode.{Mode as ModeValue};
ghost use Rattle.alignment.specs.Alignment.{IsAlignment, line_of};
ghost use Rattle.trace_writer.specs.Merging.{merged, CanMerge};
ghost use Rattle.core_rules.specs.Cores.{CoreView, IsSoundFor};
ghost use Rattle.core_rules.specs.Stepping.{without_below};
ghost use Rattle.core_rules.specs.Leading.{AreCoreSteps};
ghost use Rattle.core_rules.specs.Beginning.{IsFirstCore};
ghost use Rattle.core_rules.specs.Reading.{safe_bound_in, BudgetEndsIn};
ghost use Rattle.core_traces.specs.Records.{AreEntriesBelow, AreAllEntries};
ghost use Rattle.core_traces.specs.Kept.{run_on, histories_of, IsCoreFrom, OfEachCoreFrom, AreSoundFrom, OfEachSoundFrom, HaveGrown};
ghost use Rattle.core_traces.specs.Ends.{AreWindows, IsInBudget, EndsBudget};

use ssf_model::Behaviour;

/// Parts that have done nothing keep all from the time 0 on (`core`), whatever the cut, as long as it
/// drops no round up to the budget, and no entry of the run is before the time 0 (`none`).
pub fn first_parts_keep_all<B: Behaviour>()
    ensures core { (b : B) (plan : PlanValue B B.State B.Payload) (nets : List ℕ) (mode : ModeValue) (lines : List ℕ) (threshold until budget most : ℕ) (core : CoreView B B.State B.Payload)
        → Fits (B.valid b) (B.carried b) plan → IsAlignment plan nets mode lines → until ≤ LatestTime → budget ≤ MostEvents → budget ≤ most
        → IsFirstCore plan lines threshold until budget core
        → IsCoreFrom plan (line_of lines) (run_on (B.reaction b) plan lines threshold until (within most)) budget core 0 }
    ensures none { (b : B) (plan : PlanValue B B.State B.Payload) (until : ℕ) (kept : KeyValue → Bool) → AreEntriesBelow (B.reaction b) plan until kept 0 [] }
{}

/// Parts that keep all from the time g on do so after steps that give up nothing (`core`), and the
/// safe bound does not fall (`safe`).
pub fn steps_keep_histories<B: Behaviour>()
    ensures core { (b : B) → OfEachCoreFrom {B = B} (B.valid b) (B.carried b) (B.reaction b) (λ plan line s budget core g.
        (after : CoreView B B.State B.Payload) → AreCoreSteps (B.valid b) (B.carried b) (B.reaction b) core after → HaveGrown core after
        → IsCoreFrom plan line s budget after g) }
    ensures safe { (b : B) → OfEachCoreFrom {B = B} (B.valid b) (B.carried b) (B.reaction b) (λ plan line s budget core g.
        (after : CoreView B B.State B.Payload) → AreCoreSteps (B.valid b) (B.carried b) (B.reaction b) core after
        → safe_bound_in core ≤ safe_bound_in after) }
{}

/// Where the entries before a time up to the safe bound are given up, all from this time on are
/// kept.
pub fn entries_are_given_up<B: Behaviour>()
    ensures { (b : B) → OfEachCoreFrom {B = B} (B.valid b) (B.carried b) (B.reaction b) (λ plan line s budget core g.
        (below : ℕ) → g ≤ below → below ≤ safe_bound_in core → IsCoreFrom plan line s budget (without_below below core) below) }
{}

/// There is a history for each timeline (`each`), and histories can be merged (`can`). Behind the entries
/// of the run before g those that they have before a time f, up to the safe bound, make the entries of the run
/// before f (`next`).
pub fn histories_are_the_next_records<B: Behaviour>()
    ensures each { (b : B) → OfEachCoreFrom {B = B} (B.valid b) (B.carried b) (B.reaction b) (λ plan line s budget core g. length (histories_of core) ≡ s.net.timelines) }
    ensures can { (b : B) (plan : PlanValue B B.State B.Payload) (nets : List ℕ) (mode : ModeValue) (lines : List ℕ) (threshold until budget g : ℕ) (kept : KeyValue → Bool)
        (core : CoreView B B.State B.Payload) (names : NamesValue)
        → Fits (B.valid b) (B.carried b) plan → IsAlignment plan nets mode lines → until ≤ LatestTime → budget ≤ MostEvents
        → IsCoreFrom plan (line_of lines) (run_on (B.reaction b) plan lines threshold until kept) budget core g
        → length names.names ≡ length plan.entities → CanMerge names (histories_of core) }
    ensures next { (b : B) → OfEachCoreFrom {B = B} (B.valid b) (B.carried b) (B.reaction b) (λ plan line s budget core g.
        (f : ℕ) (entries : List EntryValue) → g ≤ f → f ≤ safe_bound_in core → AreEntriesBelow (B.reaction b) plan s.until s.kept g entries
        → AreEntriesBelow (B.reaction b) plan s.until s.kept f (entries ++ merged (histories_of core) f)) }
{}

/// Where the barrier has ended the entries before the safe bound are those of the whole run (`whole`),
/// no timeline has more events than the budget (`few`), and the barrier's round and window tell the windows
/// of the run (`windows`).
pub fn ended_runs_are_whole<B: Behaviour>()
    ensures whole { (b : B) → OfEachCoreFrom {B = B} (B.valid b) (B.carried b) (B.reaction b) (λ plan line s budget core g.
        core.barrier.ended ≡ true → (entries : List EntryValue) → AreEntriesBelow (B.reaction b) plan s.until s.kept (safe_bound_in core) entries
        → AreAllEntries (B.reaction b) plan s.until s.kept entries) }
    ensures few { (b : B) → OfEachCoreFrom {B = B} (B.valid b) (B.carried b) (B.reaction b) (λ plan line s budget core g.
        core.barrier.ended ≡ true → AreFew s budget) }
    ensures windows { (b : B) → OfEachCoreFrom {B = B} (B.valid b) (B.carried b) (B.reaction b) (λ plan line s budget core g.
        core.barrier.ended ≡ true → AreWindows s core.barrier.round core.barrier.window) }
{}

/// No timeline has its event number `budget`, counted from 0, before the safe bound (`within`), and where the
/// budget ends at a timeline of the parts it ends there in the run, at the safe bound (`ends`).
pub fn budgets_end_in_the_run<B: Behaviour>()
    ensures within { (b : B) → OfEachCoreFrom {B = B} (B.valid b) (B.carried b) (B.reaction b) (λ plan line s budget core g. IsInBudget s budget (safe_bound_in core)) }
    ensures ends { (b : B) → OfEachCoreFrom {B = B} (B.valid b) (B.carried b) (B.reaction b) (λ plan line s budget core g.
        (i : ℕ) → BudgetEndsIn core i → EndsBudget s budget i (safe_bound_in core)) }
{}

/// Sound parts that keep all from the time g on, whatever is told of the timelines that have reported, are
/// among them those of the laws before (`from`). They do so still where they are later parts of the run, as
/// sound, with histories that have grown and no lower safe bound (`grown`); after steps (`steps`), which
/// lower no safe bound (`safe`); and, from a time up to the safe bound on, where the entries before it
/// are given up (`given_up`).
pub fn sound_parts_keep_histories<B: Behaviour>()
    ensures from { (b : B) → OfEachCoreFrom {B = B} (B.valid b) (B.carried b) (B.reaction b) (λ plan line s budget core g. AreSoundFrom plan line s budget core g) }
    ensures grown { (b : B) → OfEachSoundFrom {B = B} (B.valid b) (B.carried b) (B.reaction b) (λ plan line s budget core g.
        (after : CoreView B B.State B.Payload) (at : ℕ → ℕ) (v : ℕ) → IsSoundFor plan line s after at v → after.budget ≡ core.budget → HaveGrown core after
        → safe_bound_in core ≤ safe_bound_in after → AreSoundFrom plan line s budget after g) }
    ensures steps { (b : B) → OfEachSoundFrom {B = B} (B.valid b) (B.carried b) (B.reaction b) (λ plan line s budget core g.
        (after : CoreView B B.State B.Payload) → AreCoreSteps (B.valid b) (B.carried b) (B.reaction b) core after → HaveGrown core after → AreSoundFrom plan line s budget after g) }
    ensures safe { (b : B) → OfEachSoundFrom {B = B} (B.valid b) (B.carried b) (B.reaction b) (λ plan line s budget core g.
        (after : CoreView B B.State B.Payload) → AreCoreSteps (B.valid b) (B.carried b) (B.reaction b) core after → safe_bound_in core ≤ safe_bound_in after) }
    ensures given_up { (b : B) → OfEachSoundFrom {B = B} (B.valid b) (B.carried b) (B.reaction b) (λ plan line s budget core g.
        (below : ℕ) → g ≤ below → below ≤ safe_bound_in core → AreSoundFrom plan line s budget (without_below below core) below) }
{}

/// The histories of such parts tell the next records of the run (`each`, `can`, `next`). Where the
/// barrier has ended their entries up to the end are the rest of the run's (`whole`), no timeline has more events
/// than the budget (`few`), and the barrier's round and window tell the windows of the run (`windows`).
/// No timeline has an event past the budget before the safe bound (`within`), and where the budget ends
/// at a timeline of the parts it ends there in the run, at the safe bound (`ends`).
pub fn sound_parts_tell_the_next_records<B: Behaviour>()
    ensures each { (b : B) → OfEachSoundFrom {B = B} (B.valid b) (B.carried b) (B.reaction b) (λ plan line s budget core g. length (histories_of core) ≡ s.net.timelines) }
    ensures can { (b : B) (plan : PlanValue B B.State B.Payload) (nets : List ℕ) (mode : ModeValue) (lines : List ℕ) (threshold until budget g : ℕ) (kept : KeyValue → Bool)
        (core : CoreView B B.State B.Payload) (names : NamesValue)
        → Fits (B.valid b) (B.carried b) plan → IsAlignment plan nets mode lines → until ≤ LatestTime → budget ≤ MostEvents
        → AreSoundFrom plan (line_of lines) (run_on (B.reaction b) plan lines threshold until kept) budget core g
        → length names.names ≡ length plan.entities → CanMerge names (histories_of core) }
    ensures next { (b : B) → OfEachSoundFrom {B = B} (B.valid b) (B.carried b) (B.reaction b) (λ plan line s budget core g.
        (f : ℕ) (entries : List EntryValue) → g ≤ f → f ≤ safe_bound_in core → AreEntriesBelow (B.reaction b) plan s.until s.kept g entries
        → AreEntriesBelow (B.reaction b) plan s.until s.kept f (entries ++ merged (histories_of core) f)) }
    ensures whole { (b : B) → OfEachSoundFrom {B = B} (B.valid b) (B.carried b) (B.reaction b) (λ plan line s budget core g.
        core.barrier.ended ≡ true → (entries : List EntryValue) → AreEntriesBelow (B.reaction b) plan s.until s.kept g entries
        → AreAllEntries (B.reaction b) plan s.until s.kept (entries ++ merged (histories_of core) (s.until + 1))) }
    ensures few { (b : B) → OfEachSoundFrom {B = B} (B.valid b) (B.carried b) (B.reaction b) (λ plan line s budget core g. core.barrier.ended ≡ true → AreFew s budget) }
    ensures windows { (b : B) → OfEachSoundFrom {B = B} (B.valid b) (B.carried b) (B.reaction b) (λ plan line s budget core g.
        core.barrier.ended ≡ true → AreWindows s core.barrier.round core.barrier.window) }
    ensures within { (b : B) → OfEachSoundFrom {B = B} (B.valid b) (B.carried b) (B.reaction b) (λ plan line s budget core g. IsInBudget s budget (safe_bound_in core)) }
    ensures ends { (b : B) → OfEachSoundFrom {B = B} (B.valid b) (B.carried b) (B.reaction b) (λ plan line s budget core g.
        (i : ℕ) → BudgetEndsIn core i → EndsBudget s budget i (safe_bound_in core)) }
{}

/// The run alone decides its entries before a time (`below`) and all its entries (`all`), and under a cut
/// at a round it has them: it ends (`there`).
pub fn runs_decide_their_records<B: Behaviour>()
    ensures below { (b : B) (plan : PlanValue B B.State B.Payload) (until : ℕ) (kept : KeyValue → Bool) (f : ℕ) (entries others : List EntryValue)
        → AreEntriesBelow (B.reaction b) plan until kept f entries → AreEntriesBelow (B.reaction b) plan until kept f others → entries ≡ others }
    ensures all { (b : B) (plan : PlanValue B B.State B.Payload) (until : ℕ) (kept : KeyValue → Bool) (entries others : List EntryValue)
        → AreAllEntries (B.reaction b) plan until kept entries → AreAllEntries (B.reaction b) plan until kept others → entries ≡ others }
    ensures there { (b : B) (plan : PlanValue B B.State B.Payload) (until round : ℕ) → Fits (B.valid b) (B.carried b) plan
        → (entries : List EntryValue) × AreAllEntries (B.reaction b) plan until (within round) entries }
{}

/// The entries of a run before a time are the first of all its entries (`first`). They are as many as
/// the events before the time (`count`), and all are as many as all events (`count_all`).
pub fn entries_below_are_the_first<B: Behaviour>()
    ensures first { (b : B) (plan : PlanValue B B.State B.Payload) (until : ℕ) (kept : KeyValue → Bool) (f : ℕ) (entries all : List EntryValue)
        → AreEntriesBelow (B.reaction b) plan until kept f entries → AreAllEntries (B.reaction b) plan until kept all → (rest : List EntryValue) × (entries ++ rest ≡ all) }
    ensures count { (b : B) (plan : PlanValue B B.State B.Payload) (until : ℕ) (kept : KeyValue → Bool) (f : ℕ) (entries : List EntryValue)
        (q : AreEntriesBelow (B.reaction b) plan until kept f entries) → length entries ≡ q.count }
    ensures count_all { (b : B) (plan : PlanValue B B.State B.Payload) (until : ℕ) (kept : KeyValue → Bool) (entries : List EntryValue)
        (q : AreAllEntries (B.reaction b) plan until kept entries) → length entries ≡ q.count }
{}

/// The run alone decides how many windows it has and the last of them (`windows`), and the time at
/// which a budget ends (`budget`), which it does only where some timeline has more events (`few`); else every time
/// is in the budget (`within`).
pub fn runs_decide_their_ends<X, E>()
    ensures windows { (s : Scene X E) → IsShared s → (count last many end : ℕ) → AreWindows s count last → AreWindows s many end → (count ≡ many) × (last ≡ end) }
    ensures budget { (s : Scene X E) (budget i j f h : ℕ) → EndsBudget s budget i f → EndsBudget s budget j h → f ≡ h }
    ensures few { (s : Scene X E) (budget i f : ℕ) → AreFew s budget → EndsBudget s budget i f → ⊥ }
    ensures within { (s : Scene X E) (budget f : ℕ) → AreFew s budget → IsInBudget s budget f }
{}

/// Entities are numbered by timelines, and the two ends of each mapping without delay are on one.
/// Where no timeline has more events than the budget, all entries of the run (`entries`) and its windows (`windows`) are
/// the same under any two cuts that drop no round up to the budget.
pub fn cuts_change_no_run_in_budget<B: Behaviour>()
    ensures entries { (b : B) → OfEachFittingRun {B = B} (B.valid b) (B.carried b) (B.reaction b) (λ plan line s. IsAligned plan line → (budget : ℕ) (other : KeyValue → Bool)
        → AreFew s budget → KeepsRounds budget s.kept → KeepsRounds budget other
        → (entries : List EntryValue) → AreAllEntries (B.reaction b) plan s.until s.kept entries → AreAllEntries (B.reaction b) plan s.until other entries) }
    ensures windows { (b : B) → OfEachFittingRun {B = B} (B.valid b) (B.carried b) (B.reaction b) (λ plan line s. IsAligned plan line → (budget : ℕ) (other : KeyValue → Bool)
        → AreFew s budget → KeepsRounds budget s.kept → KeepsRounds budget other
        → (count last : ℕ) → AreWindows s count last → AreWindows (scene_of (B.reaction b) plan s.until other line s.net) count last) }
{}
