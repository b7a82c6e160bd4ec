//! The command `plan`: the text of the plan of a model, or its first fault.
ghost use Rattle.std.specs.Prelude.{◌≡◌, ◌⊎◌, [], true, false, map, string_bytes, IfOk, IfErr};
ghost use Rattle.sim_base.specs.Outside.{Rose, Appends};
ghost use Rattle.dml_tree.specs.TreeView.{attributes};
ghost use Rattle.net_graph.specs.Keys.{has_net};
ghost use Rattle.net_build.specs.RingModel.{HasFewTokens};
ghost use Rattle.ssfnet_top.specs.Outcome.{done, refused, resolved_of, IsPlan, IsPlanIn};
ghost use Rattle.ssfnet_top.specs.FilePlaces.{ArePlaced};
ghost use Rattle.ssfnet_top.specs.Answering.{Answers, IsOfCommand, IsOfModel};

use crate::Refusal;
use crate::resolving::resolve_files;
use crate::writing::write_answer;
use command_words::Command;
use dml_tree::Tree;
use net_build::{plan_text, ring_text};
use net_graph::{ShapeFault, is_net};
use net_resolve::build_network;
use sim_base::Sink;
use std::alloc::Global;

/// Writes the text of the plan of the model of the joined tree of files with these names.
///
/// # Errors
/// `Path` and `Shape` for a tree whose model has no plan, `Write` only where the sink's `faults` rose,
/// and `Memory`.
pub fn print_plan<K: Sink>(
    alloc: Global,
    names: &[String],
    tree: &Tree,
    out: &mut K,
) -> Result<(), Refusal>
    requires { ArePlaced (map string_bytes names.now) tree.now }
    ensures due { Answers (IsPlan (resolved_of (map string_bytes names.now) tree.now)) [] result (K.faults out.old) (K.faults out.new) (K.held out.old) (K.held out.new) }
    ensures cause { IfErr result (λ r. IsOfCommand Command.Plan (map string_bytes names.now) r) }
    ensures write { IfErr result (λ r. r ≡ Refusal.Write → Rose (K.faults out.old) (K.faults out.new)) }
    ensures nothing { IfErr result (λ r. IsOfModel (map string_bytes names.now) r → ¬ (r ≡ Refusal.Memory) → Appends [] (K.held out.old) (K.held out.new)) }
{
    write_answer(files_plan(alloc, names, tree), out)
}

/// The text of the plan of the model of the joined tree of files with these names.
fn files_plan(alloc: Global, names: &[String], tree: &Tree) -> Result<Vec<u8>, Refusal>
    requires { ArePlaced (map string_bytes names.now) tree.now }
    ensures text { IfOk result (λ text. IsPlan (resolved_of (map string_bytes names.now) tree.now) (done text.items)) }
    ensures cause { IfErr result (λ r. (r ≡ Refusal.Memory) ⊎ IsPlan (resolved_of (map string_bytes names.now) tree.now) (refused r [])) }
    ensures refusal { IfErr result (λ r. IsOfModel (map string_bytes names.now) r) }
    ensures command { IfErr result (λ r. IsOfCommand Command.Plan (map string_bytes names.now) r) }
{
    let resolved = resolve_files(alloc, names, tree)?;
    let text = model_plan(alloc, &resolved)?;
    Ok(text)
}

/// The text of the plan of the model of a resolved tree.
fn model_plan(alloc: Global, tree: &Tree) -> Result<Vec<u8>, ShapeFault>
    requires { HasFewTokens (attributes tree.now) }
    ensures text { IfOk result (λ text. IsPlanIn (has_net (attributes tree.now)) (attributes tree.now) (done text.items)) }
    ensures cause { IfErr result (λ fault. (fault ≡ ShapeFault.Memory) ⊎ IsPlanIn (has_net (attributes tree.now)) (attributes tree.now) (refused (Refusal.Shape fault) [])) }
{
    if is_net(tree) {
        net_plan(alloc, tree)
    } else {
        ring_plan(alloc, tree)
    }
}

/// The text of the plan of the network of a resolved tree.
fn net_plan(alloc: Global, tree: &Tree) -> Result<Vec<u8>, ShapeFault>
    ensures text { IfOk result (λ text. IsPlanIn true (attributes tree.now) (done text.items)) }
    ensures cause { IfErr result (λ fault. (fault ≡ ShapeFault.Memory) ⊎ IsPlanIn true (attributes tree.now) (refused (Refusal.Shape fault) [])) }
{
    let network = build_network(alloc, tree)?;
    let mut text = Vec::new(alloc);
    plan_text(alloc, &network, &mut text)?;
    Ok(text)
}

/// The text of the plan of the ring of a resolved tree.
fn ring_plan(alloc: Global, tree: &Tree) -> Result<Vec<u8>, ShapeFault>
    requires model { has_net (attributes tree.now) ≡ false }
    requires few { HasFewTokens (attributes tree.now) }
    ensures text { IfOk result (λ text. IsPlanIn false (attributes tree.now) (done text.items)) }
    ensures cause { IfErr result (λ fault. (fault ≡ ShapeFault.Memory) ⊎ IsPlanIn false (attributes tree.now) (refused (Refusal.Shape fault) [])) }
{
    let mut text = Vec::new(alloc);
    ring_text(alloc, tree, &mut text)?;
    Ok(text)
}
