//! Tables against the best routes of all.
use crate::RouteTable;
use ip_blocks::Block;
use ip_layer::best_place;
use spf_routes::Route;
use std::test::Fail;

/// A route to this block.
fn to(base: u32, bits: u8) -> Route {
    Route {
        block: Block { base, bits },
        interface: 0,
        next: 0,
        cost: 1,
    }
}

#[test]
fn table_and_list_agree(rt: HostRuntime) -> Result<(), Fail> {
    let base = 10 << 24;
    let routes = [
        to(base + 16, 28),
        to(base, 30),
        to(base + 17, 30),
        to(base, 8),
        to(base + 16, 28),
        to(base + 32, 32),
        to(4_294_967_040, 24),
        to(base + 18, 30),
        to(0, 0),
    ];
    let answers = [
        (base, Some(1)),
        (base + 3, Some(1)),
        (base + 4, Some(3)),
        (base + 16, Some(0)),
        (base + 17, Some(2)),
        (base + 20, Some(2)),
        (base + 21, Some(7)),
        (base + 22, Some(0)),
        (base + 32, Some(5)),
        (base + 33, Some(3)),
        (0, Some(8)),
        (4_294_967_039, Some(8)),
        (4_294_967_040, Some(6)),
        (4_294_967_295, Some(6)),
    ];
    let table = RouteTable::new(rt.alloc(), &routes)?;
    for (address, place) in answers {
        assert_eq!(&rt; table.best(address), place);
        assert_eq!(&rt; best_place(&routes, address), place);
    }
    let none = RouteTable::new(rt.alloc(), &[])?;
    assert_eq!(&rt; none.best(base), None);
    Ok(())
}
