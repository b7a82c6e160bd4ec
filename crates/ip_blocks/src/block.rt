//! A block of consecutive IPv4 addresses.
ghost use Rattle.std.specs.Prelude.{IsTrue, ◌↔◌};
ghost use Rattle.ip_blocks.specs.Blocks.{Holds};

/// The 2^(32 - bits) addresses from `base` on, as CIDR writes `base/bits`. `bits` is at most 32;
/// [`holds`] takes more as 32.
#[derive(Clone, Copy, Debug, PartialEq, Eq)]
pub struct Block {
    pub base: u32,
    pub bits: u8,
}

/// Whether the address lies in the block.
pub fn holds(block: Block, address: u32) -> bool
    ensures { IsTrue result ↔ Holds block address }
{
    let size = 1u64 << (32 - block.bits.min(32));
    block.base <= address && u64::from(address - block.base) < size
}
