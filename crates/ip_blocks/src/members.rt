//! Nets and links as members of the Nets in which they lie, and their places there.
ghost use Rattle.std.specs.Prelude.{◌≡◌, ℕ, ◌+◌, ◌^◌, ◌<◌, ◌≤◌, length, map, IfOk, IfSome, IfNone, slice_index, slice_set};
ghost use Rattle.std.specs.Option.{ForSome};
ghost use Rattle.ip_blocks.specs.Blocks.{IsLayout, parts_of};
ghost use Rattle.ip_blocks.specs.Tree.{IsTree};
ghost use Rattle.ip_blocks.specs.Sums.{AreExponents, AllFit};
ghost use Rattle.ip_blocks.specs.Members.{part_of, AreNumbered, AreInTurn, AreOffsets};

use crate::layout::{LinkSize, NetParent};
use crate::sizes::link_exponent;
use sim_base::Memory;
use std::alloc::Global;
use std::cmp::Reverse;

/// A Net or a link: the Net in which it lies, the exponent of its size, its order there, and its
/// number among all Nets and then all links.
#[derive(Clone, Copy)]
pub(crate) struct Member {
    pub net: Option<u32>,
    pub exponent: u8,
    pub order: u32,
    pub number: usize,
}

/// All Nets, whose exponents are given, and then all links.
pub(crate) fn members(
    alloc: Global,
    links: &[LinkSize],
    nets: &[NetParent],
    exponents: &[u8],
) -> Result<Vec<Member>, Memory>
    requires exponents { AreExponents exponents.now (length nets.now) (parts_of links.now nets.now) }
    ensures parts { IfOk result (λ members. map part_of members.items ≡ parts_of links.now nets.now) }
    ensures numbers { IfOk result (λ members. AreNumbered members.items) }
{
    let mut members = Vec::new(alloc);
    for number in 0..nets.len() {
        let net = nets[number];
        members.push(Member {
            net: net.parent,
            exponent: exponents[number],
            order: net.order,
            number,
        })?;
    }
    for link in links {
        let number = members.len();
        members.push(Member {
            net: Some(link.net),
            exponent: link_exponent(*link),
            order: link.order,
            number,
        })?;
    }
    Ok(members)
}

/// The members in the order in which they are placed: larger ones first, equal ones by their order.
fn in_turn(alloc: Global, members: &[Member]) -> Result<Vec<Member>, Memory>
    ensures { IfOk result (λ turns. AreInTurn members.now turns.items) }
{
    let mut turns = Vec::from_slice(alloc, members)?;
    turns.sort_by_key(|member| (Reverse(member.exponent), member.order))?;
    Ok(turns)
}

/// Gives a member the first free place in its Net's block.
fn place(member: Member, used: &mut [u32], offsets: &mut [u32])
    requires number { member.number < length offsets.old }
    requires net { ForSome member.net (λ n. n < length used.old) }
    requires room { ForSome member.net (λ n. slice_index used.old n + 2 ^ member.exponent ≤ 2 ^ 24) }
    ensures top { IfNone member.net ((used.new ≡ used.old) × (offsets.new ≡ offsets.old)) }
    ensures used { IfSome member.net (λ n. used.new ≡ slice_set used.old n (slice_index used.old n + 2 ^ member.exponent)) }
    ensures offset { IfSome member.net (λ n. offsets.new ≡ slice_set offsets.old member.number (slice_index used.old n)) }
{
    if let Some(net) = member.net {
        let free = used[net as usize];
        offsets[member.number] = free;
        used[net as usize] = free + (1 << member.exponent);
    }
}

/// How far behind its Net's base each member begins.
pub(crate) fn offsets(alloc: Global, nets: usize, members: &[Member]) -> Result<Vec<u32>, Memory>
    requires tree { IsTree (map part_of members.now) nets }
    requires numbers { AreNumbered members.now }
    requires fits { AllFit nets (map part_of members.now) }
    ensures { IfOk result (λ offsets. AreOffsets offsets.items members.now) }
{
    let turns = in_turn(alloc, members)?;
    let mut spent = vec![in alloc; 0u32; nets]?;
    let mut places = vec![in alloc; 0u32; members.len()]?;
    let used = spent.as_mut_slice();
    let offsets = places.as_mut_slice();
    for member in &turns {
        place(*member, used, offsets);
    }
    Ok(places)
}
