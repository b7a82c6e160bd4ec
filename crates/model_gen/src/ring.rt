//! The ring of links between the routers.
ghost use Rattle.std.specs.Prelude.{◌≡◌, ◌<◌, ◌≤◌, ◌++◌, OnOk};
ghost use Rattle.std.specs.List.{flat_map};
ghost use Rattle.model_gen.specs.Draws.{delay};
ghost use Rattle.model_gen.specs.Campus.{numbers, lines, ring_link, ring_links};

use crate::draws::{draw_next, generator};
use crate::numbers::push_decimal;
use sim_base::Memory;

/// Appends the links of the ring: one from each net to the next, where there are two nets or more.
pub(crate) fn push_ring(seed: u64, size: u32, out: &mut Vec<u8>) -> Result<(), Memory>
    requires { 1 ≤ size }
    ensures { OnOk result (out.new.items ≡ out.old.items ++ flat_map (lines 2) (ring_links seed size)) }
{
    if size < 2 {
        return Ok(());
    }
    push_links(seed, size, out)
}

/// Appends a link from each net to the next.
fn push_links(seed: u64, size: u32, out: &mut Vec<u8>) -> Result<(), Memory>
    requires { 1 ≤ size }
    ensures { OnOk result (out.new.items ≡ out.old.items ++ flat_map (λ i. lines 2 (ring_link size i (delay seed i))) (numbers size)) }
{
    let mut generator = generator(seed);
    for i in 0..size {
        let draw = draw_next(&mut generator, size);
        push_link(i, size, draw.delay, out)?;
    }
    Ok(())
}

/// Appends the link from a net to the next one, with its delay in millionths of a second.
fn push_link(i: u32, size: u32, delay: u32, out: &mut Vec<u8>) -> Result<(), Memory>
    requires { i < size }
    ensures { OnOk result (out.new.items ≡ out.old.items ++ lines 2 (ring_link size i delay)) }
{
    let next = (i + 1) % size;
    out.extend_from_slice(b"  link [\n    attach ")?;
    push_decimal(out, i)?;
    out.extend_from_slice(b":0(2)\n    attach ")?;
    push_decimal(out, next)?;
    out.extend_from_slice(b":0(3)\n    delay 0.000")?;
    push_decimal(out, delay)?;
    out.extend_from_slice(b"\n  ]\n")?;
    Ok(())
}
