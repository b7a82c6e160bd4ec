//! The command `dml`: the canonical printing of a tree, or of the resolved tree.
ghost use Rattle.std.specs.Prelude.{◌≡◌, ◌⊎◌, [], map, string_bytes, true, Ok, IfErr};
ghost use Rattle.sim_base.specs.Outside.{Rose, Appends};
ghost use Rattle.ssfnet_top.specs.Outcome.{resolved_of, IsPrinted};
ghost use Rattle.ssfnet_top.specs.FilePlaces.{ArePlaced};
ghost use Rattle.ssfnet_top.specs.Answering.{Answers, IsOfCommand, IsOfModel};

use crate::Refusal;
use crate::resolving::resolve_files;
use crate::writing::write_text;
use command_words::Command;
use dml_tree::{Tree, write};
use sim_base::Sink;
use std::alloc::Global;

/// Writes the canonical printing of a tree.
///
/// # Errors
/// `Write` only where the sink's `faults` rose; `Memory`.
pub fn print_tree<K: Sink>(alloc: Global, tree: &Tree, out: &mut K) -> Result<(), Refusal>
    ensures cause { IfErr result (λ r. (r ≡ Refusal.Memory) ⊎ ((r ≡ Refusal.Write) × Rose (K.faults out.old) (K.faults out.new))) }
    ensures due { Answers (IsPrinted (Ok tree.now)) [] result (K.faults out.old) (K.faults out.new) (K.held out.old) (K.held out.new) }
{
    let mut text = Vec::new(alloc);
    match write(tree, &mut text) {
        Ok(()) => {}
        Err(_memory) => return Err(Refusal::Memory),
    }
    write_text(text.as_slice(), out)
}

/// Writes the canonical printing of the resolved tree, given the joined tree of files with these
/// names.
///
/// # Errors
/// `Path` with the first fault of a substitution, `Write` only where the sink's `faults` rose, and
/// `Memory`.
pub fn print_resolved<K: Sink>(
    alloc: Global,
    names: &[String],
    tree: &Tree,
    out: &mut K,
) -> Result<(), Refusal>
    requires { ArePlaced (map string_bytes names.now) tree.now }
    ensures due { Answers (IsPrinted (resolved_of (map string_bytes names.now) tree.now)) [] result (K.faults out.old) (K.faults out.new) (K.held out.old) (K.held out.new) }
    ensures cause { IfErr result (λ r. IsOfCommand (Command.Dml true) (map string_bytes names.now) r) }
    ensures write { IfErr result (λ r. r ≡ Refusal.Write → Rose (K.faults out.old) (K.faults out.new)) }
    ensures nothing { IfErr result (λ r. IsOfModel (map string_bytes names.now) r → ¬ (r ≡ Refusal.Memory) → Appends [] (K.held out.old) (K.held out.new)) }
{
    match resolve_files(alloc, names, tree) {
        Ok(resolved) => print_tree(alloc, &resolved, out),
        Err(refusal) => Err(refusal),
    }
}
