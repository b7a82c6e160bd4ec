//! Blocks of links that no file holds, or in another order than that of a walk, and the addresses in a block.
ghost use Rattle.std.specs.Prelude.{◌≡◌};

use ip_blocks::{Block, BlockFault, Blocks, LinkSize, NetParent, assign, holds};
use std::alloc::Global;
use std::test::Fail;

const TOP: NetParent = NetParent {
    parent: None,
    order: 0,
};

fn link(net: u32, order: u32, attachments: u32) -> LinkSize
    ensures { result ≡ record { net = net; order = order; attachments = attachments } }
{
    LinkSize {
        net,
        order,
        attachments,
    }
}

fn one_link(alloc: Global, attachments: u32) -> Result<Blocks, BlockFault> {
    assign(alloc, &[link(0, 0, attachments)], &[TOP])
}

#[test]
fn equal_parts_are_placed_by_their_order(rt: HostRuntime) -> Result<(), Fail> {
    let base = 10 << 24;
    let links = [link(0, 1, 2), link(0, 0, 2)];
    let blocks = assign(rt.alloc(), &links, &[TOP])?;
    let later = Block {
        base: base + 4,
        bits: 30,
    };
    assert_eq!(rt; blocks.link(0), later);
    assert_eq!(rt; blocks.link(1), Block { base, bits: 30 });
    Ok(())
}

#[test]
fn needs_space(rt: HostRuntime) {
    let refused = matches!(one_link(rt.alloc(), 16_777_215), Err(BlockFault::NoSpace));
    assert!(rt; refused);
    let fits = matches!(one_link(rt.alloc(), 16_777_214), Ok(_));
    assert!(rt; fits);
}

#[test]
fn a_block_holds_its_addresses(rt: HostRuntime) {
    let base = 10 << 24;
    for (address, inside) in [
        (base - 1, false),
        (base, true),
        (base + 3, true),
        (base + 4, false),
    ] {
        assert_eq!(rt; holds(Block { base, bits: 30 }, address), inside);
    }
    let everything = Block { base: 0, bits: 0 };
    assert!(rt; holds(everything, u32::MAX));
}
