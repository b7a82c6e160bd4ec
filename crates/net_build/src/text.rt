//! The text of a network's plan.
ghost use Rattle.std.specs.Prelude.{◌≡◌, ◌<◌, ◌⊎◌, ◌++◌, ◌∷◌, ℕ, List, length, All, Some, None, IfOk, IfErr, OnOk, OnErr};
ghost use Rattle.std.specs.List.{flat_map};
ghost use Rattle.nhi_address.specs.NhiFields.{IsId};
ghost use Rattle.ip_blocks.specs.Apart.{link_block};
ghost use Rattle.net_graph.specs.Networks.{IsNetwork, net_at, link_at};
ghost use Rattle.net_layout.specs.Periods.{periods_of};
ghost use Rattle.net_layout.specs.Addresses.{AreBlocks, network_blocks};
ghost use Rattle.net_layout.specs.Faults.{first_fault};
ghost use Rattle.net_build.specs.PlanText.{IsPlanText, net_block, net_text, net_line, link_line, link_lines, down_line, interface_line, nets_text, links_text, interfaces_text};

use crate::fields::{end_line, push_address, push_block, push_bytes, push_decimal, push_field};
use crate::maps::push_mappings;
use crate::names::interface_name;
use crate::routes::push_periods;
use ip_blocks::{Block, Blocks};
use net_graph::{Down, Network, ShapeFault};
use net_layout::{Layout, address, lay_out};
use nhi_address::{Nhi, print_nhi};
use sim_base::Memory;
use std::alloc::Global;

/// Appends the text of a network's plan: a line for each Net, each link with its downs, each
/// interface, each route of each host in each period, and each mapping.
///
/// # Errors
/// The first fault that keeps the network from having a plan: `TooMany transfers`, `TooMany routes`,
/// `NoSpace`, `DelayTooLong` or `TooManyChannels`; and `Memory`. Then nothing is appended.
pub fn plan_text(alloc: Global, network: &Network, out: &mut Vec<u8>) -> Result<(), ShapeFault>
    requires { IsNetwork network.now }
    ensures faultless { OnOk result (first_fault network.now ≡ None) }
    ensures text { OnOk result ((text : List ℕ) × IsPlanText network.now text × (out.new.items ≡ out.old.items ++ text)) }
    ensures kept { OnErr result (out.new.items ≡ out.old.items) }
    ensures cause { IfErr result (λ fault. (fault ≡ ShapeFault.Memory) ⊎ (first_fault network.now ≡ Some fault)) }
{
    let layout = lay_out(alloc, network)?;
    let text = whole_text(alloc, network, &layout)?;
    push_bytes(out, text.as_slice())?;
    Ok(())
}

/// The whole text.
fn whole_text(alloc: Global, network: &Network, layout: &Layout) -> Result<Vec<u8>, Memory>
    requires network { IsNetwork network.now }
    requires blocks { AreBlocks network.now layout.now.blocks }
    requires periods { layout.now.periods ≡ periods_of network.now }
    requires faultless { first_fault network.now ≡ None }
    ensures { IfOk result (λ text. IsPlanText network.now text.items) }
{
    let mut text = Vec::new(alloc);
    push_nets(alloc, network, &layout.blocks, &mut text)?;
    push_links(network, &layout.blocks, &mut text)?;
    push_interfaces(alloc, network, &layout.blocks, &mut text)?;
    push_periods(alloc, network, layout, &mut text)?;
    push_mappings(alloc, network, &mut text)?;
    Ok(text)
}

/// Appends the lines of the Nets.
#[tactic(auto, unfolding(crate::specs::PlanText::nets_text))]
fn push_nets(
    alloc: Global,
    network: &Network,
    blocks: &Blocks,
    out: &mut Vec<u8>,
) -> Result<(), Memory>
    requires network { IsNetwork network.now }
    requires blocks { AreBlocks network.now blocks.now }
    ensures { OnOk result (out.new.items ≡ out.old.items ++ nets_text network.now) }
{
    for net in 0..network.nets.len() {
        push_net(alloc, network, blocks, net as u32, out)?;
    }
    Ok(())
}

/// Appends the line of a Net.
#[tactic(auto, unfolding(crate::specs::PlanText::net_line))]
fn push_net(
    alloc: Global,
    network: &Network,
    blocks: &Blocks,
    net: u32,
    out: &mut Vec<u8>,
) -> Result<(), Memory>
    requires network { IsNetwork network.now }
    requires blocks { AreBlocks network.now blocks.now }
    requires net { net < length network.now.nets }
    ensures { OnOk result (out.new.items ≡ out.old.items ++ net_line network.now net) }
{
    push_bytes(out, b"net")?;
    push_ids(alloc, ids_of(network, net), out)?;
    push_block(out, block_of_net(network, blocks, net))?;
    end_line(out)
}

/// The ids of a Net.
fn ids_of(network: &Network, net: u32) -> &[u32]
    requires network { IsNetwork network.now }
    requires net { net < length network.now.nets }
    ensures value { result.now ≡ (net_at network.now net).ids }
    ensures known { All IsId result.now }
{
    network.nets.as_slice()[net as usize].ids.as_slice()
}

/// The block of a Net.
fn block_of_net(network: &Network, blocks: &Blocks, net: u32) -> Block
    requires blocks { AreBlocks network.now blocks.now }
    requires net { net < length network.now.nets }
    ensures { result ≡ net_block (network_blocks network.now) net }
{
    blocks.net(net)
}

/// The block of a link.
fn block_of_link(network: &Network, blocks: &Blocks, link: u32) -> Block
    requires blocks { AreBlocks network.now blocks.now }
    requires link { link < length network.now.links }
    ensures { result ≡ link_block (network_blocks network.now) link }
{
    blocks.link(link)
}

/// The delay of a link in ticks.
fn delay_of(network: &Network, link: u32) -> u64
    requires { link < length network.now.links }
    ensures { result ≡ (link_at network.now link).delay }
{
    network.links.as_slice()[link as usize].delay
}

/// Appends a space and the ids of a Net; the top Net has none.
fn push_ids(alloc: Global, ids: &[u32], out: &mut Vec<u8>) -> Result<(), Memory>
    requires { All IsId ids.now }
    ensures { OnOk result (out.new.items ≡ out.old.items ++ 32 ∷ net_text ids.now) }
{
    if ids.is_empty() {
        return push_field(out, b"-");
    }
    push_bytes(out, b" ")?;
    print_nhi(&Nhi::new(alloc, ids, None)?, out)
}

/// Appends the lines of the links.
#[tactic(auto, unfolding(crate::specs::PlanText::links_text))]
fn push_links(network: &Network, blocks: &Blocks, out: &mut Vec<u8>) -> Result<(), Memory>
    requires network { IsNetwork network.now }
    requires blocks { AreBlocks network.now blocks.now }
    ensures { OnOk result (out.new.items ≡ out.old.items ++ links_text network.now) }
{
    for link in 0..network.links.len() {
        push_link_lines(network, blocks, link as u32, out)?;
    }
    Ok(())
}

/// Appends the line of a link, and those of its downs.
#[tactic(auto, unfolding(crate::specs::PlanText::link_lines))]
fn push_link_lines(
    network: &Network,
    blocks: &Blocks,
    link: u32,
    out: &mut Vec<u8>,
) -> Result<(), Memory>
    requires network { IsNetwork network.now }
    requires blocks { AreBlocks network.now blocks.now }
    requires link { link < length network.now.links }
    ensures { OnOk result (out.new.items ≡ out.old.items ++ link_lines network.now link) }
{
    let row = &network.links.as_slice()[link as usize];
    push_link(network, blocks, link, out)?;
    push_downs(row.downs.as_slice(), link, out)
}

/// Appends the line of a link.
#[tactic(auto, unfolding(crate::specs::PlanText::link_line))]
fn push_link(network: &Network, blocks: &Blocks, link: u32, out: &mut Vec<u8>) -> Result<(), Memory>
    requires network { IsNetwork network.now }
    requires blocks { AreBlocks network.now blocks.now }
    requires link { link < length network.now.links }
    ensures { OnOk result (out.new.items ≡ out.old.items ++ link_line network.now link) }
{
    push_bytes(out, b"link")?;
    push_decimal(out, u64::from(link))?;
    push_block(out, block_of_link(network, blocks, link))?;
    push_decimal(out, delay_of(network, link))?;
    end_line(out)
}

/// Appends the lines of a link's downs.
fn push_downs(downs: &[Down], link: u32, out: &mut Vec<u8>) -> Result<(), Memory>
    ensures { OnOk result (out.new.items ≡ out.old.items ++ flat_map (down_line link) downs.now) }
{
    for down in downs {
        push_down(*down, link, out)?;
    }
    Ok(())
}

/// Appends the line of a down of a link.
#[tactic(auto, unfolding(crate::specs::PlanText::down_line))]
fn push_down(down: Down, link: u32, out: &mut Vec<u8>) -> Result<(), Memory>
    ensures { OnOk result (out.new.items ≡ out.old.items ++ down_line link down) }
{
    push_bytes(out, b"down")?;
    push_decimal(out, u64::from(link))?;
    push_decimal(out, down.from)?;
    push_decimal(out, down.to)?;
    end_line(out)
}

/// Appends the lines of the interfaces.
#[tactic(auto, unfolding(crate::specs::PlanText::interfaces_text))]
fn push_interfaces(
    alloc: Global,
    network: &Network,
    blocks: &Blocks,
    out: &mut Vec<u8>,
) -> Result<(), Memory>
    requires network { IsNetwork network.now }
    requires blocks { AreBlocks network.now blocks.now }
    ensures { OnOk result (out.new.items ≡ out.old.items ++ interfaces_text network.now) }
{
    for interface in 0..network.interfaces.len() {
        push_interface(alloc, network, blocks, interface as u32, out)?;
    }
    Ok(())
}

/// Appends the line of an interface.
#[tactic(auto, unfolding(crate::specs::PlanText::interface_line))]
fn push_interface(
    alloc: Global,
    network: &Network,
    blocks: &Blocks,
    interface: u32,
    out: &mut Vec<u8>,
) -> Result<(), Memory>
    requires network { IsNetwork network.now }
    requires blocks { AreBlocks network.now blocks.now }
    requires interface { interface < length network.now.interfaces }
    ensures { OnOk result (out.new.items ≡ out.old.items ++ interface_line network.now interface) }
{
    let name = interface_name(alloc, network, interface)?;
    push_bytes(out, b"if")?;
    push_field(out, name.as_slice())?;
    match address(network, blocks, interface) {
        Some(address) => push_address(out, address)?,
        None => push_field(out, b"-")?,
    }
    end_line(out)
}
