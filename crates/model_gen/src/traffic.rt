//! The clients and their servers.
ghost use Rattle.std.specs.Prelude.{◌≡◌, ◌≤◌, ◌++◌, OnOk};
ghost use Rattle.std.specs.List.{flat_map};
ghost use Rattle.model_gen.specs.Draws.{server_net};
ghost use Rattle.model_gen.specs.Campus.{numbers, lines, pattern_of, traffic};

use crate::draws::{draw_next, generator};
use crate::numbers::push_decimal;
use sim_base::Memory;

/// Appends the traffic: for the client of each net its server.
pub(crate) fn push_traffic(seed: u64, size: u32, out: &mut Vec<u8>) -> Result<(), Memory>
    requires { 1 ≤ size }
    ensures { OnOk result (out.new.items ≡ out.old.items ++ lines 2 (traffic seed size)) }
{
    out.extend_from_slice(b"  traffic [\n")?;
    push_patterns(seed, size, out)?;
    out.extend_from_slice(b"  ]\n")?;
    Ok(())
}

/// Appends the pattern of each net.
fn push_patterns(seed: u64, size: u32, out: &mut Vec<u8>) -> Result<(), Memory>
    requires { 1 ≤ size }
    ensures { OnOk result (out.new.items ≡ out.old.items ++ flat_map (λ i. lines 4 (pattern_of i (server_net seed size i))) (numbers size)) }
{
    let mut generator = generator(seed);
    for i in 0..size {
        let draw = draw_next(&mut generator, size);
        push_pattern(i, draw.server_net, out)?;
    }
    Ok(())
}

/// Appends the pattern of the client in one net and the server in another or the same.
fn push_pattern(i: u32, server: u32, out: &mut Vec<u8>) -> Result<(), Memory>
    ensures { OnOk result (out.new.items ≡ out.old.items ++ lines 4 (pattern_of i server)) }
{
    out.extend_from_slice(b"    pattern [\n      client ")?;
    push_decimal(out, i)?;
    out.extend_from_slice(b":1\n      servers [\n        nhi ")?;
    push_decimal(out, server)?;
    out.extend_from_slice(b":2(0)\n        port 10\n      ]\n    ]\n")?;
    Ok(())
}
