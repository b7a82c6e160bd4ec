//! What `assign` is asked with, and its refusals.
use sim_base::Memory;
use std::alloc::AllocError;

/// A link: the number of the Net in which it lies, its place among that Net's links and nested Nets,
/// and how many interfaces are attached to it.
#[derive(Clone, Copy, Debug, PartialEq, Eq)]
pub struct LinkSize {
    pub net: u32,
    pub order: u32,
    pub attachments: u32,
}

/// A Net: the number of the Net in which it is nested, and its place among that Net's links and
/// nested Nets. The top Net has no parent.
#[derive(Clone, Copy, Debug, PartialEq, Eq)]
pub struct NetParent {
    pub parent: Option<u32>,
    pub order: u32,
}

/// Why no blocks were assigned.
#[derive(Clone, Copy, Debug, PartialEq, Eq)]
pub enum BlockFault {
    /// The top Net would need more than 2^24 addresses.
    NoSpace,
    /// There was no memory.
    Memory,
}

impl From<Memory> for BlockFault {
    ghost use Rattle.std.specs.Prelude.{◌≡◌};
    ghost use Rattle.ip_blocks.specs.declared.layout.BlockFault.TheVariants.{Memory as NoMemory};

    ghost from_gives = { λ _ fault. fault ≡ NoMemory };

    fn from(_memory: Memory) -> BlockFault {
        BlockFault::Memory
    }
}

impl From<AllocError> for BlockFault {
    ghost use Rattle.std.specs.Prelude.{◌≡◌};
    ghost use Rattle.ip_blocks.specs.declared.layout.BlockFault.TheVariants.{Memory as NoMemory};

    ghost from_gives = { λ _ fault. fault ≡ NoMemory };

    fn from(_error: AllocError) -> BlockFault {
        BlockFault::Memory
    }
}
