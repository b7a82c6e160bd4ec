//! The top call with all commands: `run` by workers in threads, and the others on one thread.
ghost use Rattle.std.specs.Prelude.{◌≡◌, ◌≤◌, ◌⊎◌, ℕ, List, [], true, None, Some, option_map, length, map, string_bytes, IfErr, IfSome, IsErrAnd, OnOk};
ghost use Rattle.sim_base.specs.Outside.{Rose, Appends};
ghost use Rattle.ssfnet_top.specs.declared.refusal.Refusal.TheVariants as refusal;
ghost use Rattle.command_words.specs.Table.{MostWorkers};
ghost use Rattle.command_words.specs.Schedule.{is_schedule};
ghost use Rattle.command_words.specs.Words.{asked_of_words, IsInRange};
ghost use Rattle.worker_pool.specs.Lanes.{HasStopped, HaveNotFallen};
ghost use Rattle.ssfnet_top.specs.Refusals.{status_of};
ghost use Rattle.ssfnet_top.specs.Outcome.{asked_of, IsCommandDue, IsCommandMidway, IsAskedDue, IsAskedMidway, refusal_line};
ghost use Rattle.ssfnet_top.specs.FilePlaces.{ArePlaced};
ghost use Rattle.ssfnet_top.specs.Answering.{Answers, AnswersMidway, IsUntold, told_text, IsReadFault, IsOfCommand, IsOfModel};
ghost use Rattle.ssfnet_top.specs.Ending.{Ends, Concerns, HasMiddle, MayEndMidway, IsTelling, IsToldOf, HasGenerated, HasTold, Tells, WantsReport};

use crate::Refusal;
use crate::files::read_files;
use crate::running::Told;
use crate::top::{act, mode_of, read_request, tell, tell_report};
use crate::workers::run_model_by_workers;
use command_words::{Command, Request};
use dml_tree::Tree;
use sim_base::{Gate, Library, Sink};
use std::alloc::Global;
use std::sync::Wait;
use std::thread::Threads;
use worker_pool::Lane;
use worker_run::WorkOrder;

/// Answers a command: what [`offline`](crate::offline) does, and `run`, the trace of the model's run on timelines by workers in
/// threads. There are at least 64 lanes, and as many of them as workers are asked are used, from the first on; each has a gate, which
/// its worker asks before each turn. This call may wait.
///
/// The words are those after the program's name. The statuses are those of `offline`, and 9 where the gate of a worker was
/// found closed.
pub fn ssfnet<R: Threads + Wait + Sync, L: Library, K: Sink, J: Sink, G: Gate + Send>(
    rt: &R,
    alloc: Global,
    words: &[String],
    library: &mut L,
    out: &mut K,
    err: &mut J,
    lanes: &mut [Lane<G>],
) -> u8
    requires { MostWorkers ≤ length lanes.old }
    ensures outcome { IfSome (L.files library.old) (λ told. Ends told (asked_of_words (map string_bytes words.now)) result
        (record { read_faults = L.faults library.old; out_faults = K.faults out.old; err_faults = J.faults err.old; out = K.held out.old; err = J.held err.old })
        (record { read_faults = L.faults library.new; out_faults = K.faults out.new; err_faults = J.faults err.new; out = K.held out.new; err = J.held err.new })) }
    ensures words_only { result ≡ 2 → asked_of_words (map string_bytes words.now) ≡ None }
    ensures words_all { asked_of_words (map string_bytes words.now) ≡ None → (result ≡ 1) ⊎ ((result ≡ 2) ⊎ (result ≡ 7)) }
    ensures refused { asked_of_words (map string_bytes words.now) ≡ None → Appends [] (K.held out.old) (K.held out.new) }
    ensures read { result ≡ 3 → Rose (L.faults library.old) (L.faults library.new) }
    ensures write { result ≡ 7 → Rose (K.faults out.old) (K.faults out.new) ⊎ Rose (J.faults err.old) (J.faults err.new) }
    ensures nothing { 2 ≤ result → result ≤ 6 → Appends [] (K.held out.old) (K.held out.new) }
    ensures quiet { result ≡ 0 → ¬ WantsReport (asked_of_words (map string_bytes words.now)) → Appends [] (J.held err.old) (J.held err.new) }
    ensures reported { result ≡ 0 → HasTold (asked_of_words (map string_bytes words.now)) (J.held err.old) (J.held err.new) }
    ensures generated { result ≡ 0 → HasGenerated (asked_of_words (map string_bytes words.now)) (K.held out.old) (K.held out.new) }
    ensures line { IsTelling (asked_of_words (map string_bytes words.now)) result (J.faults err.old) (J.faults err.new) (J.held err.old) (J.held err.new) }
    ensures stopped { result ≡ 9 → (worker : ℕ) × (below : ℕ) × HasStopped G.stops worker lanes.old lanes.new × Concerns (asked_of_words (map string_bytes words.now)) (refusal.Stopped worker below) × Appends (refusal_line (refusal.Stopped worker below)) (J.held err.old) (J.held err.new) }
    ensures gates { HaveNotFallen G.stops lanes.old lanes.new }
    ensures lanes { length lanes.new ≡ length lanes.old }
{
    let mut told = Told {
        report: Vec::new(alloc),
        windows: None,
    };
    match answer_by_workers(rt, alloc, words, library, out, &mut told, lanes) {
        Ok(()) => tell_report(&told, err),
        Err(refusal) => tell(alloc, &refusal, err),
    }
}

/// Answers a command, but for what is written on `err`: it tells the report that is asked, and the line of a refusal
/// is left to the caller.
fn answer_by_workers<R: Threads + Wait + Sync, L: Library, K: Sink, G: Gate + Send>(
    rt: &R,
    alloc: Global,
    words: &[String],
    library: &mut L,
    out: &mut K,
    told: &mut Told,
    lanes: &mut [Lane<G>],
) -> Result<(), Refusal>
    requires lanes { MostWorkers ≤ length lanes.old }
    requires untold { IsUntold told.old }
    ensures outcome { IfSome (L.files library.old) (λ files. Answers (IsAskedDue files (asked_of_words (map string_bytes words.now))) (told_text told.new) result (K.faults out.old) (K.faults out.new) (K.held out.old) (K.held out.new)
        ⊎ (IsReadFault files (asked_of_words (map string_bytes words.now)) result (L.faults library.old) (L.faults library.new) (K.held out.old) (K.held out.new)
        ⊎ AnswersMidway (IsAskedMidway files (asked_of_words (map string_bytes words.now))) result (K.faults out.old) (K.faults out.new) (K.held out.old) (K.held out.new))) }
    ensures concerns { IfErr result (λ r. Concerns (asked_of_words (map string_bytes words.now)) r) }
    ensures words { asked_of_words (map string_bytes words.now) ≡ None → IsErrAnd result (λ r. (r ≡ Refusal.Memory) ⊎ (r ≡ Refusal.Words)) }
    ensures refused { asked_of_words (map string_bytes words.now) ≡ None → Appends [] (K.held out.old) (K.held out.new) }
    ensures read { IfErr result (λ r. status_of r ≡ 3 → Rose (L.faults library.old) (L.faults library.new)) }
    ensures write { IfErr result (λ r. r ≡ Refusal.Write → Rose (K.faults out.old) (K.faults out.new)) }
    ensures nothing { IfErr result (λ r. 2 ≤ status_of r → status_of r ≤ 6 → Appends [] (K.held out.old) (K.held out.new)) }
    ensures unbegun { IfErr result (λ r. r ≡ Refusal.Memory → MayEndMidway (asked_of_words (map string_bytes words.now)) → Appends [] (K.held out.old) (K.held out.new)) }
    ensures generated { OnOk result (HasGenerated (asked_of_words (map string_bytes words.now)) (K.held out.old) (K.held out.new)) }
    ensures told { OnOk result (IsToldOf (asked_of_words (map string_bytes words.now)) (told_text told.new)) }
    ensures stopped { IfErr result (λ r. (worker below : ℕ) → r ≡ Refusal.Stopped worker below → HasStopped G.stops worker lanes.old lanes.new) }
    ensures gates { HaveNotFallen G.stops lanes.old lanes.new }
    ensures lanes { length lanes.new ≡ length lanes.old }
{
    let request = match read_request(alloc, words) {
        Ok(request) => request,
        Err(refusal) => return Err(refusal),
    };
    match read_files(alloc, library, request.files.as_slice()) {
        Ok(tree) => act_by_workers(rt, alloc, &request, &tree, out, told, lanes),
        Err(refusal) => Err(refusal),
    }
}

/// Does what is asked with the joined tree of the files, and tells the report that is asked.
fn act_by_workers<R: Threads + Wait + Sync, K: Sink, G: Gate + Send>(
    rt: &R,
    alloc: Global,
    request: &Request,
    tree: &Tree,
    out: &mut K,
    told: &mut Told,
    lanes: &mut [Lane<G>],
) -> Result<(), Refusal>
    requires lanes { MostWorkers ≤ length lanes.old }
    requires range { IsInRange request.now.command }
    requires placed { ArePlaced (map string_bytes request.now.files.items) tree.now }
    requires untold { IsUntold told.old }
    requires spelt { (word : List ℕ) → option_map string_bytes request.now.schedule ≡ Some word → is_schedule word ≡ true }
    ensures due { Answers (IsCommandDue request.now.command (asked_of request.now) tree.now) (told_text told.new) result (K.faults out.old) (K.faults out.new) (K.held out.old) (K.held out.new)
        ⊎ AnswersMidway (IsCommandMidway request.now.command (asked_of request.now) tree.now) result (K.faults out.old) (K.faults out.new) (K.held out.old) (K.held out.new) }
    ensures cause { IfErr result (λ r. IsOfCommand request.now.command (map string_bytes request.now.files.items) r) }
    ensures write { IfErr result (λ r. r ≡ Refusal.Write → Rose (K.faults out.old) (K.faults out.new)) }
    ensures nothing { IfErr result (λ r. IsOfModel (map string_bytes request.now.files.items) r → ¬ (r ≡ Refusal.Memory) → Appends [] (K.held out.old) (K.held out.new)) }
    ensures unbegun { IfErr result (λ r. r ≡ Refusal.Memory → HasMiddle request.now.command → Appends [] (K.held out.old) (K.held out.new)) }
    ensures told { OnOk result (Tells request.now.command request.now.report (told_text told.new)) }
    ensures stopped { IfErr result (λ r. (worker below : ℕ) → r ≡ Refusal.Stopped worker below → HasStopped G.stops worker lanes.old lanes.new) }
    ensures gates { HaveNotFallen G.stops lanes.old lanes.new }
    ensures lanes { length lanes.new ≡ length lanes.old }
{
    match request.command {
        Command::Run {
            until,
            budget,
            align,
            threshold,
            workers,
        } => {
            let order = WorkOrder {
                until,
                budget,
                mode: mode_of(align),
                threshold,
            };
            run_model_by_workers(
                rt,
                alloc,
                &order,
                request.report,
                request.files.as_slice(),
                tree,
                out,
                told,
                &mut lanes[..workers as usize],
            )
        }
        _ => act(alloc, request, tree, out, told),
    }
}
