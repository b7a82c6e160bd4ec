//! Periods of a link that is down for longer than any model can say.

use net_graph::{Down, LinkRow, Network};
use net_layout::{has_downs, is_up, periods};
use sim_base::{ListOf, Memory};
use std::alloc::Global;
use std::test::Fail;

/// A link that is down from the first tick of each pair up to the second.
fn link_of(alloc: Global, times: &[(u64, u64)]) -> Result<LinkRow, Memory> {
    let mut downs = Vec::new(alloc);
    for (from, to) in times {
        downs.push(Down {
            from: *from,
            to: *to,
        })?;
    }
    Ok(LinkRow {
        net: 0,
        order: 0,
        delay: 0,
        attached: ListOf::new(alloc),
        priority: 0,
        downs: ListOf::from_vec(downs),
    })
}

/// A network of two links that are down at these times, and of nothing else.
fn two_links(
    alloc: Global,
    first: &[(u64, u64)],
    second: &[(u64, u64)],
) -> Result<Network, Memory> {
    let mut links = Vec::new(alloc);
    links.push(link_of(alloc, first)?)?;
    links.push(link_of(alloc, second)?)?;
    Ok(Network {
        frequency: 1,
        patterns: 0,
        nets: ListOf::new(alloc),
        hosts: ListOf::new(alloc),
        interfaces: ListOf::new(alloc),
        links: ListOf::from_vec(links),
        sessions: ListOf::new(alloc),
        servers: ListOf::new(alloc),
    })
}

#[test]
fn a_link_may_be_down_up_to_the_last_tick(rt: HostRuntime) -> Result<(), Fail> {
    let network = two_links(rt.alloc(), &[(0, u64::MAX)], &[(7, 9)])?;
    let ticks = periods(rt.alloc(), &network)?;
    assert!(rt; ticks.as_slice() == [0, 7, 9, u64::MAX].as_slice());
    assert!(rt; has_downs(&network));
    let link = link_of(rt.alloc(), &[(0, u64::MAX)])?;
    assert!(rt; !is_up(&link, u64::MAX - 1));
    assert!(rt; is_up(&link, u64::MAX));
    Ok(())
}
