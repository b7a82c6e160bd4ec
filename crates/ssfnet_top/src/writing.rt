//! A text, written to a sink.
ghost use Rattle.std.specs.Prelude.{◌≡◌, [], Err, IfOk, IfErr, OnOk, OnErr};
ghost use Rattle.sim_base.specs.Outside.{Rose, Appends, AppendsPrefix};

use crate::Refusal;
use sim_base::{Sink, write_all};

/// Writes a text.
///
/// # Errors
/// `Write`, only where the sink's `faults` rose.
pub fn write_text<K: Sink>(text: &[u8], out: &mut K) -> Result<(), Refusal>
    ensures all { OnOk result (Appends text.now (K.held out.old) (K.held out.new)) }
    ensures part { OnErr result (AppendsPrefix text.now (K.held out.old) (K.held out.new)) }
    ensures cause { IfErr result (λ r. (r ≡ Refusal.Write) × Rose (K.faults out.old) (K.faults out.new)) }
{
    match write_all(out, text) {
        Ok(()) => Ok(()),
        Err(_failed) => Err(Refusal::Write),
    }
}

/// Writes the text of an answer; a refused one is passed on, and nothing is written.
///
/// # Errors
/// The refusal of the answer, and `Write`, only where the sink's `faults` rose.
pub fn write_answer<K: Sink>(answer: Result<Vec<u8>, Refusal>, out: &mut K) -> Result<(), Refusal>
    ensures all { IfOk answer (λ text. OnOk result (Appends text.items (K.held out.old) (K.held out.new))) }
    ensures part { IfOk answer (λ text. OnErr result (AppendsPrefix text.items (K.held out.old) (K.held out.new))) }
    ensures cause { IfOk answer (λ text. IfErr result (λ r. (r ≡ Refusal.Write) × Rose (K.faults out.old) (K.faults out.new))) }
    ensures refused { IfErr answer (λ r. (result ≡ Err r) × Appends [] (K.held out.old) (K.held out.new)) }
{
    let text = answer?;
    write_text(text.as_slice(), out)
}
