//! The command `gen`: the text of a generated model.
ghost use Rattle.std.specs.Prelude.{◌≡◌, ◌≤◌, ◌⊎◌, [], Ok, IfOk, IfErr};
ghost use Rattle.sim_base.specs.Outside.{Rose};
ghost use Rattle.model_gen.specs.Campus.{campus_text};
ghost use Rattle.command_words.specs.Table.{LargestSize};
ghost use Rattle.ssfnet_top.specs.Outcome.{IsText};
ghost use Rattle.ssfnet_top.specs.Answering.{Answers};

use crate::Refusal;
use crate::writing::write_answer;
use model_gen::campus;
use sim_base::Sink;
use std::alloc::Global;

/// Writes the text of the campus of this seed with `size` nets, 1 to 1000.
///
/// # Errors
/// `Write` only where the sink's `faults` rose; `Memory`.
pub fn print_campus<K: Sink>(
    alloc: Global,
    seed: u64,
    size: u64,
    out: &mut K,
) -> Result<(), Refusal>
    requires least { 1 ≤ size }
    requires most { size ≤ LargestSize }
    ensures due { Answers (IsText (Ok (campus_text seed size))) [] result (K.faults out.old) (K.faults out.new) (K.held out.old) (K.held out.new) }
    ensures cause { IfErr result (λ r. (r ≡ Refusal.Memory) ⊎ ((r ≡ Refusal.Write) × Rose (K.faults out.old) (K.faults out.new))) }
{
    write_answer(text_of_campus(alloc, seed, size), out)
}

/// The text of the campus of this seed with `size` nets, 1 to 1000.
fn text_of_campus(alloc: Global, seed: u64, size: u64) -> Result<Vec<u8>, Refusal>
    requires least { 1 ≤ size }
    requires most { size ≤ LargestSize }
    ensures text { IfOk result (λ text. text.items ≡ campus_text seed size) }
    ensures cause { IfErr result (λ r. r ≡ Refusal.Memory) }
{
    let text = campus(alloc, seed, size as u32)?;
    Ok(text)
}
