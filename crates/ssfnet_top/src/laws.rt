//! Facts on the definitions alone. Each function's contract is one, and its body is empty.
ghost use Rattle.std.specs.Prelude.{◌≡◌, ◌⊎◌, ℕ, List, Option, Some};
ghost use Rattle.sim_base.specs.Outside.{Files, Rose};
ghost use Rattle.model_gen.specs.Campus.{campus_text};
ghost use Rattle.command_words.specs.declared.command.Align.{Align as AlignValue};
ghost use Rattle.command_words.specs.declared.command.Command.TheVariants as commands;
ghost use Rattle.command_words.specs.Words.{Asked, asked_of_words};
ghost use Rattle.ssfnet_top.specs.Outcome.{Due, done, IsAskedDue, IsOutcome, IsMidway};
ghost use Rattle.ssfnet_top.specs.Agreeing.{Agree, Begins};
ghost use Rattle.ssfnet_top.specs.Ending.{Outside, Ends, IsMet};

/// The same words with the same files have at most one outcome. But where a run on timelines ends
/// since the budget of one ends, and that of another ends at the same time, each of the two may be told: the rest of the
/// outcome is the same.
pub fn outcomes_are_one()
    ensures { (files : Files) (words : List (List ℕ)) (due other : Due) → IsOutcome files words due → IsOutcome files words other → Agree due other }
{}

/// What stands on `out` where a run is ended in its middle is the first part of what is due there by every outcome
/// of the same words with the same files.
pub fn middles_begin_outcomes()
    ensures { (files : Files) (words : List (List ℕ)) (below : ℕ) (text : List ℕ) (due : Due) → IsMidway files words below text → IsOutcome files words due → Begins text due.out }
{}

/// Words of `seq` and words of `step` with the same files and the same time up to which they run have the same trace on
/// `out`, where both end with status 0.
pub fn both_ways_write_the_same()
    ensures { (files : Files) (words others : List (List ℕ)) (one two : Asked) (until budget most threshold : ℕ) (aligned : AlignValue) (due other : Due)
        → asked_of_words words ≡ Some one → one.command ≡ commands.Seq until budget → asked_of_words others ≡ Some two → two.command ≡ commands.Step until most aligned threshold
        → one.files ≡ two.files → IsOutcome files words due → IsOutcome files others other → due.status ≡ 0 → other.status ≡ 0 → due.out ≡ other.out }
{}

/// What is due of words of `step` is due of words of `run` with the same files and options, whatever the number of workers.
pub fn workers_change_nothing()
    ensures { (files : Files) (words others : List (List ℕ)) (one two : Asked) (until budget threshold workers : ℕ) (aligned : AlignValue) (due : Due)
        → asked_of_words words ≡ Some one → one.command ≡ commands.Step until budget aligned threshold → asked_of_words others ≡ Some two → two.command ≡ commands.Run until budget aligned threshold workers
        → one.files ≡ two.files → one.report ≡ two.report → IsOutcome files words due → IsOutcome files others due }
{}

/// The outcome of the words of `gen` is the text of a campus, whatever the files are.
pub fn campuses_need_no_files()
    ensures { (files : Files) (words : List (List ℕ)) (asked : Asked) (seed size : ℕ) → asked_of_words words ≡ Some asked → asked.command ≡ commands.Gen seed size → IsOutcome files words (done (campus_text seed size)) }
{}

/// What is due with status 0 is done, or there was no memory: where an outcome with status 0 is due, a call in which no count
/// of faults of the library or a sink rose, and no worker was stopped, ends with 0, and all that is due is written, or with 1.
pub fn what_is_due_well_is_done()
    ensures { (files : Files) (asked : Option Asked) (due : Due) (status : ℕ) (before after : Outside) → IsAskedDue files asked due → due.status ≡ 0 → Ends files asked status before after
        → ¬ Rose before.read_faults after.read_faults → ¬ Rose before.out_faults after.out_faults → ¬ Rose before.err_faults after.err_faults → ¬ (status ≡ 9)
        → ((status ≡ 0) × IsMet due status before after) ⊎ (status ≡ 1) }
{}
