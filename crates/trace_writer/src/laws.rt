//! Laws of merged histories.
ghost use Rattle.std.specs.Prelude.{ℕ, ◌<◌, List};
ghost use Rattle.event_order.specs.Pending.{Among, IsApart, IsRising};
ghost use Rattle.ssf_model.specs.declared.event.Entry.{Entry as EntryValue};
ghost use Rattle.trace_writer.specs.Merging.{IsInOrder, merged};
ghost use Rattle.trace_writer.specs.Report.{events_of};

/// What is merged is of the histories and below the bound (`from`), and all of them that is below it
/// (`whole`). Where no two of their entries have one key, its keys rise (`rises`).
pub fn merged_histories_are_sorted()
    ensures from { (histories : List (List EntryValue)) (below : ℕ) (x : EntryValue) → Among x (merged histories below) → Among x (events_of histories) × (x.key.time < below) }
    ensures whole { (histories : List (List EntryValue)) (below : ℕ) (x : EntryValue) → Among x (events_of histories) → x.key.time < below → Among x (merged histories below) }
    ensures rises { (histories : List (List EntryValue)) (below : ℕ) → IsApart (λ e. e.key) (events_of histories) → IsRising (λ e. e.key) (merged histories below) }
{}

/// Entries whose keys rise are in order.
pub fn rising_histories_are_in_order()
    ensures { (history : List EntryValue) → IsRising (λ e. e.key) history → IsInOrder history }
{}
