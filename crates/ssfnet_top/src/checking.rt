//! The command `check`: how many parts a model has, or its first fault.
ghost use Rattle.std.specs.Prelude.{◌≡◌, ◌⊎◌, ◌++◌, ◌∷◌, [], true, false, Ok, Err, map, string_bytes, count_by, not, IfOk, IfErr, OnOk};
ghost use Rattle.sim_base.specs.Outside.{Rose, Appends};
ghost use Rattle.dml_tree.specs.TreeView.{attributes};
ghost use Rattle.net_graph.specs.Keys.{has_net};
ghost use Rattle.net_graph.specs.declared.rows.HostRow.{HostRow};
ghost use Rattle.ssfnet_top.specs.Counts.{counted, network_line, ring_line};
ghost use Rattle.ssfnet_top.specs.Outcome.{resolved_of, counts_in, counts_of, IsText};
ghost use Rattle.ssfnet_top.specs.FilePlaces.{ArePlaced};
ghost use Rattle.ssfnet_top.specs.Answering.{Answers, IsOfCommand, IsOfModel};

use crate::Refusal;
use crate::resolving::resolve_files;
use crate::writing::write_answer;
use command_words::Command;
use dml_tree::Tree;
use net_build::{RingCounts, ring_counts};
use net_graph::{HostRow, Network, ShapeFault, is_net};
use net_layout::lay_out;
use net_resolve::build_network;
use sim_base::{Memory, Sink, push_number};
use std::alloc::Global;

/// Writes the counts of the model of the joined tree of files with these names.
///
/// # Errors
/// `Path` and `Shape` for a tree whose model has no plan, `Write` only where the sink's `faults` rose,
/// and `Memory`.
pub fn print_counts<K: Sink>(
    alloc: Global,
    names: &[String],
    tree: &Tree,
    out: &mut K,
) -> Result<(), Refusal>
    requires { ArePlaced (map string_bytes names.now) tree.now }
    ensures due { Answers (IsText (counts_of (resolved_of (map string_bytes names.now) tree.now))) [] result (K.faults out.old) (K.faults out.new) (K.held out.old) (K.held out.new) }
    ensures cause { IfErr result (λ r. IsOfCommand Command.Check (map string_bytes names.now) r) }
    ensures write { IfErr result (λ r. r ≡ Refusal.Write → Rose (K.faults out.old) (K.faults out.new)) }
    ensures nothing { IfErr result (λ r. IsOfModel (map string_bytes names.now) r → ¬ (r ≡ Refusal.Memory) → Appends [] (K.held out.old) (K.held out.new)) }
{
    write_answer(counts_line(alloc, names, tree), out)
}

/// The line of counts of the model of the joined tree of files with these names.
fn counts_line(alloc: Global, names: &[String], tree: &Tree) -> Result<Vec<u8>, Refusal>
    requires { ArePlaced (map string_bytes names.now) tree.now }
    ensures line { IfOk result (λ line. counts_of (resolved_of (map string_bytes names.now) tree.now) ≡ Ok line.items) }
    ensures cause { IfErr result (λ r. (r ≡ Refusal.Memory) ⊎ (counts_of (resolved_of (map string_bytes names.now) tree.now) ≡ Err r)) }
    ensures refusal { IfErr result (λ r. IsOfModel (map string_bytes names.now) r) }
    ensures command { IfErr result (λ r. IsOfCommand Command.Check (map string_bytes names.now) r) }
{
    let resolved = resolve_files(alloc, names, tree)?;
    let line = model_line(alloc, &resolved)?;
    Ok(line)
}

/// The line of counts of the model of a resolved tree.
fn model_line(alloc: Global, tree: &Tree) -> Result<Vec<u8>, ShapeFault>
    ensures line { IfOk result (λ line. counts_in (has_net (attributes tree.now)) (attributes tree.now) ≡ Ok line.items) }
    ensures cause { IfErr result (λ fault. (fault ≡ ShapeFault.Memory) ⊎ (counts_in (has_net (attributes tree.now)) (attributes tree.now) ≡ Err fault)) }
{
    if is_net(tree) {
        net_line(alloc, tree)
    } else {
        ring_line(alloc, tree)
    }
}

/// The line of counts of the network of a resolved tree.
fn net_line(alloc: Global, tree: &Tree) -> Result<Vec<u8>, ShapeFault>
    ensures line { IfOk result (λ line. counts_in true (attributes tree.now) ≡ Ok line.items) }
    ensures cause { IfErr result (λ fault. (fault ≡ ShapeFault.Memory) ⊎ (counts_in true (attributes tree.now) ≡ Err fault)) }
{
    let network = build_network(alloc, tree)?;
    let _layout = lay_out(alloc, &network)?;
    let line = network_line(alloc, &network)?;
    Ok(line)
}

/// The line of counts of a network.
#[tactic(auto, unfolding(crate::specs::Counts::network_line))]
fn network_line(alloc: Global, network: &Network) -> Result<Vec<u8>, Memory>
    ensures { IfOk result (λ line. line.items ≡ network_line network.now) }
{
    let hosts = network.hosts.as_slice();
    let mut line = Vec::new(alloc);
    push_first(&mut line, b"nets", network.nets.len() as u64)?;
    push_next(&mut line, b"hosts", count_hosts(hosts) as u64)?;
    push_next(&mut line, b"routers", count_routers(hosts) as u64)?;
    push_next(&mut line, b"interfaces", network.interfaces.len() as u64)?;
    push_next(&mut line, b"links", network.links.len() as u64)?;
    push_next(&mut line, b"sessions", network.sessions.len() as u64)?;
    push_next(&mut line, b"patterns", network.servers.len() as u64)?;
    push_next(&mut line, b"frequency", network.frequency)?;
    line.push(b'\n')?;
    Ok(line)
}

/// Appends a word and a number.
#[tactic(auto, unfolding(crate::specs::Counts::counted))]
fn push_first(line: &mut Vec<u8>, word: &[u8], count: u64) -> Result<(), Memory>
    ensures { OnOk result (line.new.items ≡ line.old.items ++ counted word.now count) }
{
    line.extend_from_slice(word)?;
    line.push(b' ')?;
    push_number(line, count)
}

/// Appends a space, a word and a number.
fn push_next(line: &mut Vec<u8>, word: &[u8], count: u64) -> Result<(), Memory>
    ensures { OnOk result (line.new.items ≡ line.old.items ++ 32 ∷ counted word.now count) }
{
    line.push(b' ')?;
    push_first(line, word, count)
}

/// How many of these are no routers.
fn count_hosts(hosts: &[HostRow]) -> usize
    ensures { result ≡ count_by (λ (h : HostRow). not h.router) hosts.now }
{
    hosts.iter().filter(|host| !host.router).count()
}

/// How many of these are routers.
fn count_routers(hosts: &[HostRow]) -> usize
    ensures { result ≡ count_by (λ (h : HostRow). h.router) hosts.now }
{
    hosts.iter().filter(|host| host.router).count()
}

/// The line of counts of the ring of a resolved tree.
fn ring_line(alloc: Global, tree: &Tree) -> Result<Vec<u8>, ShapeFault>
    requires { has_net (attributes tree.now) ≡ false }
    ensures line { IfOk result (λ line. counts_in false (attributes tree.now) ≡ Ok line.items) }
    ensures cause { IfErr result (λ fault. (fault ≡ ShapeFault.Memory) ⊎ (counts_in false (attributes tree.now) ≡ Err fault)) }
{
    let counts = ring_counts(alloc, tree)?;
    let line = line_of_ring(alloc, counts)?;
    Ok(line)
}

/// The line of the counts of a ring.
#[tactic(auto, unfolding(crate::specs::Counts::ring_line))]
fn line_of_ring(alloc: Global, counts: RingCounts) -> Result<Vec<u8>, Memory>
    ensures { IfOk result (λ line. line.items ≡ ring_line counts) }
{
    let mut line = Vec::new(alloc);
    push_first(&mut line, b"ring nodes", counts.nodes)?;
    push_next(&mut line, b"tokens", counts.tokens)?;
    push_next(&mut line, b"hops", counts.hops)?;
    line.push(b'\n')?;
    Ok(line)
}
