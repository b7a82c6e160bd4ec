//! The periods of a network.
ghost use Rattle.std.specs.Prelude.{◌≡◌, IfOk, OnOk};
ghost use Rattle.std.specs.List.{list_any};
ghost use Rattle.net_layout.specs.Periods.{periods_of, with_tick, with_down, with_link, is_down_at, is_up, has_downs};

use net_graph::{Down, LinkRow, Network};
use sim_base::Memory;
use std::alloc::Global;

/// The ticks at which the periods of a network begin: 0, and each tick at which some `down` begins
/// or ends, rising, each once.
///
/// # Errors
/// `Memory` where there was no memory.
#[tactic(auto, unfolding(crate::specs::Periods::periods_of))]
pub fn periods(alloc: Global, network: &Network) -> Result<Vec<u64>, Memory>
    ensures { IfOk result (λ periods. periods.items ≡ periods_of network.now) }
{
    let mut ticks = vec![in alloc; 0u64]?;
    for link in network.links.as_slice() {
        add_link(&mut ticks, link)?;
    }
    Ok(ticks)
}

/// Whether a link is up at a tick.
pub fn is_up(link: &LinkRow, tick: u64) -> bool
    ensures { result ≡ is_up link.now tick }
{
    let down = is_down(link.downs.as_slice(), tick);
    !down
}

/// Whether some of these downs covers a tick.
fn is_down(downs: &[Down], tick: u64) -> bool
    ensures { result ≡ list_any (is_down_at tick) downs.now }
{
    downs.iter().any(|down| covers(*down, tick))
}

/// Whether a down covers a tick.
fn covers(down: Down, tick: u64) -> bool
    ensures { result ≡ is_down_at tick down }
{
    down.from <= tick && tick < down.to
}

/// Whether some link has a `down`.
pub fn has_downs(network: &Network) -> bool
    ensures { result ≡ has_downs network.now }
{
    network
        .links
        .as_slice()
        .iter()
        .any(|link| link.downs.len() > 0)
}

/// Adds the ticks of a link's downs.
fn add_link(ticks: &mut Vec<u64>, link: &LinkRow) -> Result<(), Memory>
    ensures { OnOk result (ticks.new.items ≡ with_link ticks.old.items link.now) }
{
    for down in link.downs.as_slice() {
        add_down(ticks, *down)?;
    }
    Ok(())
}

/// Adds the ticks at which a down begins and ends.
fn add_down(ticks: &mut Vec<u64>, down: Down) -> Result<(), Memory>
    ensures { OnOk result (ticks.new.items ≡ with_down ticks.old.items down) }
{
    add_tick(ticks, down.from)?;
    add_tick(ticks, down.to)
}

/// Adds a tick to a rising list, where it is not there yet.
fn add_tick(ticks: &mut Vec<u64>, tick: u64) -> Result<(), Memory>
    ensures { OnOk result (ticks.new.items ≡ with_tick ticks.old.items tick) }
{
    for place in 0..ticks.len() {
        if tick < ticks[place] {
            ticks.insert(place, tick)?;
            return Ok(());
        }
        if tick == ticks[place] {
            return Ok(());
        }
    }
    ticks.push(tick)?;
    Ok(())
}
