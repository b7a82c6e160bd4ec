//! Address blocks: from the sizes of links and the tree of Nets to a block of IPv4 addresses for each
//! of them, and an address for each place of a link.
//!
//! A link with n attachments has the least power of two of addresses that is at least n + 2. A Net
//! has the least power of two that is at least the sum of what its links and its nested Nets have, and
//! one address without any. These stand in the Net's block from its base without gaps, larger blocks
//! first, and equal ones by their order. The top Net begins at 10.0.0.0 and has at most 2^24 addresses.
//!
//! Contracts cite `specs/Blocks.antt` (sizes, bases and the answer of `assign`) and `specs/Apart.antt`
//! (what holds between the blocks and addresses of that answer). [`laws`] has that sizes are least.
#![tactic(auto)]

mod block;
pub mod laws;
mod layout;
mod members;
mod placed;
mod sizes;

pub use block::{Block, holds};
pub use layout::{BlockFault, LinkSize, NetParent};
pub use placed::{Blocks, assign};
