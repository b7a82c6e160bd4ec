//! Fields of the lines of a plan's text.
ghost use Rattle.std.specs.Prelude.{◌≡◌, ◌∷◌, ◌++◌, [], decimal, OnOk, OnErr};
ghost use Rattle.trace_writer.specs.Fields.{address_text};
ghost use Rattle.net_build.specs.PlanText.{block_text};

use ip_blocks::Block;
use sim_base::{Memory, push_number};

/// Appends bytes; without memory nothing is appended.
pub(crate) fn push_bytes(out: &mut Vec<u8>, bytes: &[u8]) -> Result<(), Memory>
    ensures appended { OnOk result (out.new.items ≡ out.old.items ++ bytes.now) }
    ensures kept { OnErr result (out.new.items ≡ out.old.items) }
{
    out.extend_from_slice(bytes)?;
    Ok(())
}

/// Appends a space and bytes.
pub(crate) fn push_field(out: &mut Vec<u8>, bytes: &[u8]) -> Result<(), Memory>
    ensures { OnOk result (out.new.items ≡ out.old.items ++ 32 ∷ bytes.now) }
{
    push_bytes(out, b" ")?;
    push_bytes(out, bytes)
}

/// Appends a space and a number in decimal.
pub(crate) fn push_decimal(out: &mut Vec<u8>, number: u64) -> Result<(), Memory>
    ensures { OnOk result (out.new.items ≡ out.old.items ++ 32 ∷ decimal number) }
{
    push_bytes(out, b" ")?;
    push_number(out, number)
}

/// Appends a space and an IPv4 address.
pub(crate) fn push_address(out: &mut Vec<u8>, address: u32) -> Result<(), Memory>
    ensures { OnOk result (out.new.items ≡ out.old.items ++ 32 ∷ address_text address) }
{
    push_bytes(out, b" ")?;
    push_dotted(out, address)
}

/// Appends a space and a block, as CIDR writes it.
pub(crate) fn push_block(out: &mut Vec<u8>, block: Block) -> Result<(), Memory>
    ensures { OnOk result (out.new.items ≡ out.old.items ++ 32 ∷ block_text block) }
{
    push_address(out, block.base)?;
    push_bytes(out, b"/")?;
    push_number(out, u64::from(block.bits))
}

/// Ends a line.
pub(crate) fn end_line(out: &mut Vec<u8>) -> Result<(), Memory>
    ensures { OnOk result (out.new.items ≡ out.old.items ++ 10 ∷ []) }
{
    push_bytes(out, b"\n")
}

/// Appends an IPv4 address.
fn push_dotted(out: &mut Vec<u8>, address: u32) -> Result<(), Memory>
    ensures { OnOk result (out.new.items ≡ out.old.items ++ address_text address) }
{
    push_number(out, u64::from(address >> 24))?;
    push_bytes(out, b".")?;
    push_number(out, u64::from(address >> 16 & 0xff))?;
    push_bytes(out, b".")?;
    push_number(out, u64::from(address >> 8 & 0xff))?;
    push_bytes(out, b".")?;
    push_number(out, u64::from(address & 0xff))
}
