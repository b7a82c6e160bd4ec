//! The blocks of all Nets and links.
ghost use Rattle.std.specs.Prelude.{◌≡◌, ℕ, ◌+◌, ◌-◌, ◌^◌, ◌<◌, ◌≤◌, length, map, slice_get, slice_index_or, Some, IfOk, IfErr, OnOk};
ghost use Rattle.std.specs.Option.{ForSome, option_map_or};
ghost use Rattle.ip_blocks.specs.Blocks.{IsLayout, blocks_of, block_of, top_base, top_size};
ghost use Rattle.ip_blocks.specs.Apart.{IsPlaced, AreNested, link_block, address_of, no_block};
ghost use Rattle.ip_blocks.specs.Tree.{IsTree, at};
ghost use Rattle.ip_blocks.specs.Members.{part_of, AreNumbered, AreOffsets};

use crate::block::Block;
use crate::layout::{BlockFault, LinkSize, NetParent};
use crate::members::{Member, members, offsets};
use crate::sizes::net_exponents;
use sim_base::Memory;
use std::alloc::Global;
use std::marker::Model;

/// 10.0.0.0, where the top Net begins.
const TOP_BASE: u32 = 10 << 24;

/// The blocks of Nets and of links, each by number. Contracts see the two lists.
#[derive(Drop)]
pub struct Blocks {
    blocks: Vec<Block>,
    nets: usize,
}

impl Model for Blocks {
    ghost use Rattle.std.specs.Prelude.{◌≤◌, ◌^◌, take, drop, All};
    ghost use Rattle.ip_blocks.specs.Blocks.{BlockLists, block_end};

    ghost Value = { BlockLists };

    ghost view = { λ b. record { nets = take b.nets b.blocks.items; links = drop b.nets b.blocks.items } };

    ghost invariant = { λ b. All (λ block. block_end block ≤ 2 ^ 32) b.blocks.items };
}

impl Blocks {
    /// The block of a Net.
    pub fn net(&self, i: u32) -> Block
        requires { i < length self.now.nets }
        ensures { slice_get self.now.nets i ≡ Some result }
    {
        self.blocks[i as usize]
    }

    /// The block of a link.
    pub fn link(&self, i: u32) -> Block
        requires { i < length self.now.links }
        ensures { slice_get self.now.links i ≡ Some result }
    {
        self.blocks[self.nets + i as usize]
    }

    /// The address of the attachment at a place of a link: base + 1 + place, with places counted
    /// from 0.
    pub fn address(&self, link: u32, place: u32) -> u32
        requires link { link < length self.now.links }
        requires place { place + 1 < 2 ^ (32 - (link_block self.now link).bits) }
        ensures { result ≡ address_of self.now link place }
    {
        self.blocks[self.nets + link as usize].base + 1 + place
    }
}

/// Where a member begins, from the blocks of the Nets before it and its place in its Net.
fn base(net: Option<u32>, blocks: &[Block], offset: u32) -> u32
    requires there { ForSome net (λ n. n < length blocks.now) }
    requires room { ForSome net (λ n. (slice_index_or blocks.now n no_block).base + offset < 2 ^ 32) }
    ensures { result ≡ option_map_or (λ n. (slice_index_or blocks.now n no_block).base + offset) net top_base }
{
    match net {
        None => TOP_BASE,
        Some(net) => blocks[net as usize].base + offset,
    }
}

/// The blocks of the members, by number.
fn block_list(
    alloc: Global,
    nets: usize,
    members: &[Member],
    offsets: &[u32],
) -> Result<Vec<Block>, Memory>
    requires tree { IsTree (map part_of members.now) nets }
    requires numbers { AreNumbered members.now }
    requires offsets { AreOffsets offsets.now members.now }
    requires fits { (at (map part_of members.now) 0).exponent ≤ 24 }
    ensures { IfOk result (λ blocks. blocks.items ≡ map (block_of (map part_of members.now)) (map part_of members.now)) }
{
    let mut blocks = Vec::new(alloc);
    for member in members {
        let base = base(member.net, blocks.as_slice(), offsets[member.number]);
        let bits = 32 - member.exponent;
        blocks.push(Block { base, bits })?;
    }
    Ok(blocks)
}

/// A block for each Net and each link.
///
/// Net 0 alone has no parent, and each other Net's parent has a smaller number than it has; each
/// link's `net` is the number of a Net that is there; and the orders of the links and nested Nets of
/// one Net differ.
///
/// # Errors
/// `NoSpace` exactly where the top Net needs more than 2^24 addresses, and `Memory`.
pub fn assign(alloc: Global, links: &[LinkSize], nets: &[NetParent]) -> Result<Blocks, BlockFault>
    requires { IsLayout links.now nets.now }
    ensures blocks { IfOk result (λ blocks. blocks ≡ blocks_of links.now nets.now) }
    ensures nets { IfOk result (λ blocks. length blocks.nets ≡ length nets.now) }
    ensures links { IfOk result (λ blocks. length blocks.links ≡ length links.now) }
    ensures laws { IfOk result (λ blocks. IsPlaced links.now blocks) }
    ensures nested { IfOk result (λ blocks. AreNested links.now nets.now blocks) }
    ensures fits { OnOk result (top_size links.now nets.now ≤ 2 ^ 24) }
    ensures no_space { IfErr result (λ fault. fault ≡ BlockFault.NoSpace → 2 ^ 24 < top_size links.now nets.now) }
{
    let exponents = net_exponents(alloc, links, nets)?;
    let members = members(alloc, links, nets, exponents.as_slice())?;
    let offsets = offsets(alloc, nets.len(), members.as_slice())?;
    let blocks = block_list(alloc, nets.len(), members.as_slice(), offsets.as_slice())?;
    Ok(Blocks {
        blocks,
        nets: nets.len(),
    })
}
