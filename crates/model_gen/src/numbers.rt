//! Numbers in decimal.
ghost use Rattle.std.specs.Prelude.{◌≡◌, ◌++◌, decimal, OnOk};

use sim_base::{Memory, push_number};

/// Appends a number in decimal.
pub(crate) fn push_decimal(out: &mut Vec<u8>, number: u32) -> Result<(), Memory>
    ensures { OnOk result (out.new.items ≡ out.old.items ++ decimal number) }
{
    push_number(out, u64::from(number))
}
