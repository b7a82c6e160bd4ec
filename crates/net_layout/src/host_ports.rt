//! The interfaces of each host, and the out-channels of each interface.
ghost use Rattle.std.specs.Prelude.{◌≡◌, ◌<◌, ◌≤◌, ◌+◌, length, map, slice_get, IfOk, OnOk, Some};
ghost use Rattle.std.specs.Option.{unwrap_or};
ghost use Rattle.ssf_model.specs.Drafts.{MostChannels};
ghost use Rattle.net_graph.specs.Networks.{IsNetwork, numbers};
ghost use Rattle.net_layout.specs.Addresses.{AreBlocks, interface_address};
ghost use Rattle.net_layout.specs.Wiring.{first_channel, wires_of};
ghost use Rattle.net_layout.specs.Ports.{ports_of, outs_of, AreOuts};

use crate::arms::{address, first_interface};
use crate::lists::{append_at, empty_lists};
use crate::wiring::{Wire, wires};
use ip_blocks::Blocks;
use net_graph::Network;
use sim_base::{ListOf, Memory};
use std::alloc::Global;

/// The interfaces of a host, in order.
///
/// # Errors
/// `Memory` where there was no memory.
pub fn ports(alloc: Global, network: &Network, host: u32) -> Result<Vec<u32>, Memory>
    requires network { IsNetwork network.now }
    requires host { host < length network.now.hosts }
    ensures { IfOk result (λ ports. ports.items ≡ ports_of network.now host) }
{
    let mut ports = Vec::new(alloc);
    for interface in first_interface(network, host)..first_interface(network, host + 1) {
        ports.push(interface)?;
    }
    Ok(ports)
}

/// What each interface sends on, interface by interface: the address of each other attachment of
/// its link, and the out-channel to it.
///
/// # Errors
/// `Memory` where there was no memory.
pub fn outs(
    alloc: Global,
    network: &Network,
    blocks: &Blocks,
) -> Result<Vec<ListOf<(u32, u32)>>, Memory>
    requires network { IsNetwork network.now }
    requires blocks { AreBlocks network.now blocks.now }
    requires few { first_channel network.now + length (wires_of network.now) ≤ MostChannels }
    ensures { IfOk result (λ outs. outs.items ≡ map (outs_of network.now) (numbers (length network.now.interfaces))) }
{
    let joined = wires(alloc, network)?;
    let mut outs = empty_lists(alloc, network.interfaces.len())?;
    for number in 0..joined.len() {
        add_out(network, blocks, joined[number], number as u32, &mut outs)?;
    }
    Ok(outs)
}

/// Appends the wire of this number to the outs of its sender, where an interface sends on it.
fn add_out(
    network: &Network,
    blocks: &Blocks,
    wire: Wire,
    number: u32,
    outs: &mut Vec<ListOf<(u32, u32)>>,
) -> Result<(), Memory>
    requires network { IsNetwork network.now }
    requires blocks { AreBlocks network.now blocks.now }
    requires wire { slice_get (wires_of network.now) number ≡ Some wire }
    requires outs { AreOuts network.now number outs.old.items }
    ensures { OnOk result (AreOuts network.now (number + 1) outs.new.items) }
{
    match wire.interfaces {
        None => Ok(()),
        Some(ends) => {
            let address = address_or_zero(network, blocks, ends.1);
            append_at(outs, ends.0 as usize, Some((address, number)))?;
            Ok(())
        }
    }
}

/// The address of an interface, and 0 where it has none.
fn address_or_zero(network: &Network, blocks: &Blocks, interface: u32) -> u32
    requires network { IsNetwork network.now }
    requires blocks { AreBlocks network.now blocks.now }
    requires interface { interface < length network.now.interfaces }
    ensures { result ≡ unwrap_or (interface_address network.now interface) 0 }
{
    address(network, blocks, interface).unwrap_or(0)
}
