//! The text of a campus.
ghost use Rattle.std.specs.Prelude.{◌≡◌, ◌≤◌, ◌++◌, IfOk, OnOk};
ghost use Rattle.std.specs.List.{flat_map};
ghost use Rattle.model_gen.specs.Campus.{numbers, lines, net_of, campus_text};

use crate::net::push_net;
use crate::ring::push_ring;
use crate::traffic::push_traffic;
use sim_base::Memory;
use std::alloc::Global;

/// The text of the campus of this seed with so many nets: the canonical printing of its tree. The
/// same seed and size give the same text.
///
/// # Errors
/// `Memory` where no memory is left.
#[tactic(auto, using(crate::proofs::Texts::campus_is))]
pub fn campus(alloc: Global, seed: u64, size: u32) -> Result<Vec<u8>, Memory>
    requires { 1 ≤ size }
    ensures { IfOk result (λ text. text.items ≡ campus_text seed size) }
{
    let mut text = Vec::new(alloc);
    text.extend_from_slice(b"Net [\n  frequency 1000000000\n")?;
    push_nets(size, &mut text)?;
    push_ring(seed, size, &mut text)?;
    push_traffic(seed, size, &mut text)?;
    text.extend_from_slice(b"]\n")?;
    Ok(text)
}

/// Appends the nets.
fn push_nets(size: u32, out: &mut Vec<u8>) -> Result<(), Memory>
    ensures { OnOk result (out.new.items ≡ out.old.items ++ flat_map (λ i. lines 2 (net_of i)) (numbers size)) }
{
    for i in 0..size {
        push_net(i, out)?;
    }
    Ok(())
}
