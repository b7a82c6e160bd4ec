//! The top call: from words and files to the bytes written and the status.
ghost use Rattle.std.specs.Prelude.{◌≡◌, ◌≤◌, ◌⊎◌, ◌++◌, ◌∷◌, ℕ, List, [], true, None, Some, option_map, map, string_bytes, IfOk, IfErr, IfSome, IsErrAnd, OnOk, OnErr, vec_len};
ghost use Rattle.sim_base.specs.Outside.{Rose, Appends, AppendsPrefix};
ghost use Rattle.command_words.specs.Table.{MostFiles};
ghost use Rattle.command_words.specs.Schedule.{is_schedule};
ghost use Rattle.command_words.specs.Words.{asked_of_words, IsAlignInRange, IsInRange};
ghost use Rattle.ssfnet_top.specs.Refusals.{status_of, line_of};
ghost use Rattle.ssfnet_top.specs.Outcome.{asked_of, mode_of, offline_of, windows_line, IsCommandDue, IsCommandMidway, IsAskedDue, IsAskedMidway, refusal_line};
ghost use Rattle.ssfnet_top.specs.FilePlaces.{ArePlaced};
ghost use Rattle.ssfnet_top.specs.Answering.{Answers, AnswersMidway, IsMade, IsOffline, IsUntold, told_text, IsReadFault, IsOfCommand, IsOfModel, IsAnswered, IsReportTold};
ghost use Rattle.ssfnet_top.specs.Ending.{Ends, Concerns, HasMiddle, MayEndMidway, IsTelling, IsToldOf, HasGenerated, HasTold, Tells, WantsReport};

use crate::Refusal;
use crate::checking::print_counts;
use crate::files::read_files;
use crate::generating::print_campus;
use crate::model::{run_model, run_scheduled};
use crate::planning::print_plan;
use crate::printing::{print_resolved, print_tree};
use crate::running::{Running, Told, Way};
use crate::telling::{write_below, write_stopped, write_timeline, write_windows};
use alignment::Mode;
use command_words::{Align, Command, Request, WordsFault, read_words};
use dml_tree::Tree;
use sim_base::{Failed, Library, Sink, write_all};
use std::alloc::Global;

/// The status with which the program ends where there was no memory.
const MEMORY_STATUS: u8 = 1;

/// The status with which the program ends where a sink failed.
const WRITE_STATUS: u8 = 7;

/// The status with which the program ends where a run has more events than its budget.
const BUDGET_STATUS: u8 = 8;

/// The status with which the program ends where a worker was stopped.
const STOPPED_STATUS: u8 = 9;

/// Answers a command on one thread: reads the files that the words name from the library, writes what is due on
/// `out`, and then on `err` the report that is asked or the line of a refusal, and answers the status
/// with which the program ends. It always returns.
///
/// The commands are `dml` (the printing of the files' tree), `check` (how many parts the model has),
/// `plan` (the text of the model's plan), `seq` (the trace of the model's run by one event list, and
/// its report), `step` (the same by steps of timelines on one thread, and the windows) and `gen` (the text of a generated model, for which no file is read).
/// Words of `run` are refused as words of none.
///
/// The words are those after the program's name. The statuses are 0 where the whole output was
/// written, 1 where there was no memory, 2 for words that are not those of a command, 3 for a file
/// that could not be read, 4 for a file that is no DML, 5 for a substitution with a fault, 6 for a
/// model with a fault, 7 where a sink failed, and 8 where the run, or a timeline of it, has more events than the budget.
pub fn offline<L: Library, K: Sink, J: Sink>(
    alloc: Global,
    words: &[String],
    library: &mut L,
    out: &mut K,
    err: &mut J,
) -> u8
    ensures outcome { IfSome (L.files library.old) (λ told. Ends told (offline_of (asked_of_words (map string_bytes words.now))) result
        (record { read_faults = L.faults library.old; out_faults = K.faults out.old; err_faults = J.faults err.old; out = K.held out.old; err = J.held err.old })
        (record { read_faults = L.faults library.new; out_faults = K.faults out.new; err_faults = J.faults err.new; out = K.held out.new; err = J.held err.new })) }
    ensures words_only { result ≡ 2 → offline_of (asked_of_words (map string_bytes words.now)) ≡ None }
    ensures words_all { offline_of (asked_of_words (map string_bytes words.now)) ≡ None → (result ≡ 1) ⊎ ((result ≡ 2) ⊎ (result ≡ 7)) }
    ensures refused { offline_of (asked_of_words (map string_bytes words.now)) ≡ None → Appends [] (K.held out.old) (K.held out.new) }
    ensures read { result ≡ 3 → Rose (L.faults library.old) (L.faults library.new) }
    ensures write { result ≡ 7 → Rose (K.faults out.old) (K.faults out.new) ⊎ Rose (J.faults err.old) (J.faults err.new) }
    ensures nothing { 2 ≤ result → result ≤ 6 → Appends [] (K.held out.old) (K.held out.new) }
    ensures quiet { result ≡ 0 → ¬ WantsReport (offline_of (asked_of_words (map string_bytes words.now))) → Appends [] (J.held err.old) (J.held err.new) }
    ensures reported { result ≡ 0 → HasTold (offline_of (asked_of_words (map string_bytes words.now))) (J.held err.old) (J.held err.new) }
    ensures generated { result ≡ 0 → HasGenerated (offline_of (asked_of_words (map string_bytes words.now))) (K.held out.old) (K.held out.new) }
    ensures line { IsTelling (offline_of (asked_of_words (map string_bytes words.now))) result (J.faults err.old) (J.faults err.new) (J.held err.old) (J.held err.new) }
{
    let mut told = Told {
        report: Vec::new(alloc),
        windows: None,
    };
    match answer(alloc, words, library, out, &mut told) {
        Ok(()) => tell_report(&told, err),
        Err(refusal) => tell(alloc, &refusal, err),
    }
}

/// Answers a command, but for what is written on `err`: it tells the report that is asked, and the line of a refusal
/// is left to the caller.
fn answer<L: Library, K: Sink>(
    alloc: Global,
    words: &[String],
    library: &mut L,
    out: &mut K,
    told: &mut Told,
) -> Result<(), Refusal>
    requires untold { IsUntold told.old }
    ensures outcome { IfSome (L.files library.old) (λ files. Answers (IsAskedDue files (offline_of (asked_of_words (map string_bytes words.now)))) (told_text told.new) result (K.faults out.old) (K.faults out.new) (K.held out.old) (K.held out.new)
        ⊎ (IsReadFault files (offline_of (asked_of_words (map string_bytes words.now))) result (L.faults library.old) (L.faults library.new) (K.held out.old) (K.held out.new)
        ⊎ AnswersMidway (IsAskedMidway files (offline_of (asked_of_words (map string_bytes words.now)))) result (K.faults out.old) (K.faults out.new) (K.held out.old) (K.held out.new))) }
    ensures concerns { IfErr result (λ r. Concerns (offline_of (asked_of_words (map string_bytes words.now))) r) }
    ensures words { offline_of (asked_of_words (map string_bytes words.now)) ≡ None → IsErrAnd result (λ r. (r ≡ Refusal.Memory) ⊎ (r ≡ Refusal.Words)) }
    ensures refused { offline_of (asked_of_words (map string_bytes words.now)) ≡ None → Appends [] (K.held out.old) (K.held out.new) }
    ensures read { IfErr result (λ r. status_of r ≡ 3 → Rose (L.faults library.old) (L.faults library.new)) }
    ensures write { IfErr result (λ r. r ≡ Refusal.Write → Rose (K.faults out.old) (K.faults out.new)) }
    ensures nothing { IfErr result (λ r. 2 ≤ status_of r → status_of r ≤ 6 → Appends [] (K.held out.old) (K.held out.new)) }
    ensures unbegun { IfErr result (λ r. r ≡ Refusal.Memory → MayEndMidway (offline_of (asked_of_words (map string_bytes words.now))) → Appends [] (K.held out.old) (K.held out.new)) }
    ensures generated { OnOk result (HasGenerated (offline_of (asked_of_words (map string_bytes words.now))) (K.held out.old) (K.held out.new)) }
    ensures told { OnOk result (IsToldOf (offline_of (asked_of_words (map string_bytes words.now))) (told_text told.new)) }
{
    let request = match read_offline(alloc, words) {
        Ok(request) => request,
        Err(refusal) => return Err(refusal),
    };
    match read_files(alloc, library, request.files.as_slice()) {
        Ok(tree) => act(alloc, &request, &tree, out, told),
        Err(refusal) => Err(refusal),
    }
}

/// Reads the words.
///
/// # Errors
/// `Words` exactly where they are those of no command, and `Memory`.
pub(crate) fn read_request(alloc: Global, words: &[String]) -> Result<Request, Refusal>
    ensures asked { IfOk result (λ r. asked_of_words (map string_bytes words.now) ≡ Some (asked_of r)) }
    ensures cause { IfErr result (λ r. (r ≡ Refusal.Memory) ⊎ ((r ≡ Refusal.Words) × (asked_of_words (map string_bytes words.now) ≡ None))) }
    ensures refused { asked_of_words (map string_bytes words.now) ≡ None → IsErrAnd result (λ r. (r ≡ Refusal.Memory) ⊎ (r ≡ Refusal.Words)) }
    ensures range { IfOk result (λ r. IsInRange r.command) }
    ensures scheduled { IfOk result (λ r. (word : List ℕ) → option_map string_bytes r.schedule ≡ Some word → is_schedule word ≡ true) }
    ensures files { IfOk result (λ r. vec_len r.files ≤ MostFiles) }
{
    match read_words(alloc, words) {
        Ok(request) => Ok(request),
        Err(WordsFault::Words) => Err(Refusal::Words),
        Err(WordsFault::Memory) => Err(Refusal::Memory),
    }
}

/// Reads the words of a command that is done on one thread.
///
/// # Errors
/// `Words` exactly where they are those of no such command, and `Memory`.
fn read_offline(alloc: Global, words: &[String]) -> Result<Request, Refusal>
    ensures asked { IfOk result (λ r. offline_of (asked_of_words (map string_bytes words.now)) ≡ Some (asked_of r)) }
    ensures cause { IfErr result (λ r. (r ≡ Refusal.Memory) ⊎ ((r ≡ Refusal.Words) × (offline_of (asked_of_words (map string_bytes words.now)) ≡ None))) }
    ensures refused { offline_of (asked_of_words (map string_bytes words.now)) ≡ None → IsErrAnd result (λ r. (r ≡ Refusal.Memory) ⊎ (r ≡ Refusal.Words)) }
    ensures offline { IfOk result (λ r. IsOffline r.command) }
    ensures range { IfOk result (λ r. IsInRange r.command) }
    ensures scheduled { IfOk result (λ r. (word : List ℕ) → option_map string_bytes r.schedule ≡ Some word → is_schedule word ≡ true) }
    ensures files { IfOk result (λ r. vec_len r.files ≤ MostFiles) }
{
    match read_request(alloc, words) {
        Ok(request) => match request.command {
            Command::Run { .. } => Err(Refusal::Words),
            _ => Ok(request),
        },
        Err(refusal) => Err(refusal),
    }
}

/// Does what is asked on one thread with the joined tree of the files, and tells the report that is asked.
pub(crate) fn act<K: Sink>(
    alloc: Global,
    request: &Request,
    tree: &Tree,
    out: &mut K,
    told: &mut Told,
) -> Result<(), Refusal>
    requires range { IsInRange request.now.command }
    requires offline { IsOffline request.now.command }
    requires placed { ArePlaced (map string_bytes request.now.files.items) tree.now }
    requires untold { IsUntold told.old }
    requires spelt { (word : List ℕ) → option_map string_bytes request.now.schedule ≡ Some word → is_schedule word ≡ true }
    ensures due { Answers (IsCommandDue request.now.command (asked_of request.now) tree.now) (told_text told.new) result (K.faults out.old) (K.faults out.new) (K.held out.old) (K.held out.new)
        ⊎ AnswersMidway (IsCommandMidway request.now.command (asked_of request.now) tree.now) result (K.faults out.old) (K.faults out.new) (K.held out.old) (K.held out.new) }
    ensures cause { IfErr result (λ r. IsOfCommand request.now.command (map string_bytes request.now.files.items) r) }
    ensures write { IfErr result (λ r. r ≡ Refusal.Write → Rose (K.faults out.old) (K.faults out.new)) }
    ensures nothing { IfErr result (λ r. IsOfModel (map string_bytes request.now.files.items) r → ¬ (r ≡ Refusal.Memory) → Appends [] (K.held out.old) (K.held out.new)) }
    ensures unbegun { IfErr result (λ r. r ≡ Refusal.Memory → HasMiddle request.now.command → Appends [] (K.held out.old) (K.held out.new)) }
    ensures told { OnOk result (Tells request.now.command request.now.report (told_text told.new)) }
{
    let names = request.files.as_slice();
    match request.command {
        Command::Dml { flat: false } => print_tree(alloc, tree, out),
        Command::Dml { flat: true } => print_resolved(alloc, names, tree, out),
        Command::Check => print_counts(alloc, names, tree, out),
        Command::Plan => print_plan(alloc, names, tree, out),
        Command::Seq { until, budget } => {
            let running = Running {
                until,
                budget,
                report: request.report,
                way: Way::OneList,
            };
            run_model(alloc, &running, &[], names, tree, out, told)
        }
        Command::Step {
            until,
            budget,
            align,
            threshold,
        } => {
            let running = Running {
                until,
                budget,
                report: request.report,
                way: Way::Timelines {
                    mode: mode_of(align),
                    threshold,
                },
            };
            run_scheduled(alloc, &running, &request.schedule, names, tree, out, told)
        }
        Command::Run { .. } => unreachable!(),
        Command::Gen { seed, size } => print_campus(alloc, seed, size, out),
    }
}

/// The mode of an alignment.
pub(crate) fn mode_of(align: Align) -> Mode
    requires { IsAlignInRange align }
    ensures { result ≡ mode_of align }
{
    match align {
        Align::One => Mode::One,
        Align::Host => Mode::Host,
        Align::Net => Mode::Net,
        Align::Parts(parts) => Mode::Count(parts as u32),
    }
}

/// Writes what is told, where there is something, and answers the status with which the program ends.
pub(crate) fn tell_report<J: Sink>(told: &Told, err: &mut J) -> u8
    ensures { IsReportTold (told_text told.now) result (J.faults err.old) (J.faults err.new) (J.held err.old) (J.held err.new) }
{
    match told.windows {
        None => tell_sums(told.report.as_slice(), err),
        Some((crossed, last)) => {
            status_by(tell_both(told.report.as_slice(), crossed, last, err), 0)
        }
    }
}

/// Writes a report, where there is one, and answers the status with which the program ends.
fn tell_sums<J: Sink>(report: &[u8], err: &mut J) -> u8
    ensures { IsReportTold report.now result (J.faults err.old) (J.faults err.new) (J.held err.old) (J.held err.new) }
{
    if report.is_empty() {
        return 0;
    }
    say(report, 0, err)
}

/// Writes a report and the line of windows.
fn tell_both<J: Sink>(report: &[u8], crossed: u64, last: u64, err: &mut J) -> Result<(), Failed>
    ensures all { OnOk result (Appends (report.now ++ windows_line crossed last) (J.held err.old) (J.held err.new)) }
    ensures part { OnErr result (AppendsPrefix (report.now ++ windows_line crossed last) (J.held err.old) (J.held err.new)) }
    ensures cause { OnErr result (Rose (J.faults err.old) (J.faults err.new)) }
{
    write_all(err, report)?;
    write_windows(crossed, last, err)
}

/// The status with which the program ends where this was written, and would end with `status`.
fn status_by(written: Result<(), Failed>, status: u8) -> u8
    ensures well { OnOk written (result ≡ status) }
    ensures failed { OnErr written (result ≡ WRITE_STATUS) }
{
    match written {
        Ok(()) => status,
        Err(_failed) => WRITE_STATUS,
    }
}

/// Writes the line of a refusal, and answers the status with which the program ends.
pub(crate) fn tell<J: Sink>(alloc: Global, refusal: &Refusal, err: &mut J) -> u8
    ensures { IsAnswered refusal.now result (J.faults err.old) (J.faults err.new) (J.held err.old) (J.held err.new) }
{
    match refusal {
        Refusal::Memory => say(b"memory\n", MEMORY_STATUS, err),
        Refusal::Write => say(b"write\n", WRITE_STATUS, err),
        Refusal::MemoryBelow(below) => status_by(write_below(*below, err), MEMORY_STATUS),
        Refusal::TimelineBudget {
            timeline,
            budget,
            below,
        } => status_by(
            write_timeline(*timeline, *budget, *below, err),
            BUDGET_STATUS,
        ),
        Refusal::Stopped { worker, below } => {
            status_by(write_stopped(*worker, *below, err), STOPPED_STATUS)
        }
        _ => tell_cause(alloc, refusal, err),
    }
}

/// Makes the line of a refusal and writes it; without memory for it, says so.
fn tell_cause<J: Sink>(alloc: Global, refusal: &Refusal, err: &mut J) -> u8
    requires { IsMade refusal.now }
    ensures { IsAnswered refusal.now result (J.faults err.old) (J.faults err.new) (J.held err.old) (J.held err.new) }
{
    let mut line = Vec::new(alloc);
    match refusal.push_line(&mut line) {
        Ok(()) => say(line.as_slice(), refusal.status(), err),
        Err(_memory) => say(b"memory\n", MEMORY_STATUS, err),
    }
}

/// Writes a line, and answers this status where it was written.
fn say<J: Sink>(line: &[u8], status: u8, err: &mut J) -> u8
    ensures { ((result ≡ status) × Appends line.now (J.held err.old) (J.held err.new)) ⊎ ((result ≡ WRITE_STATUS) × Rose (J.faults err.old) (J.faults err.new) × AppendsPrefix line.now (J.held err.old) (J.held err.new)) }
{
    match write_all(err, line) {
        Ok(()) => status,
        Err(_failed) => WRITE_STATUS,
    }
}
