//! The lines of mappings.
ghost use Rattle.std.specs.Prelude.{◌≡◌, ◌<◌, ◌≤◌, ◌+◌, ◌++◌, length, All, OnOk};
ghost use Rattle.std.specs.List.{flat_map};
ghost use Rattle.ssf_model.specs.declared.plan.Mapping.{Mapping};
ghost use Rattle.ssf_model.specs.Drafts.{MostChannels};
ghost use Rattle.net_graph.specs.Networks.{IsNetwork};
ghost use Rattle.net_layout.specs.Wiring.{first_channel, wires_of};
ghost use Rattle.net_build.specs.PlanText.{map_line, mapping_line, mappings_text, maps_text, name_of};

use crate::fields::{end_line, push_bytes, push_decimal, push_field};
use crate::names::host_name;
use net_graph::Network;
use net_layout::mappings;
use sim_base::Memory;
use ssf_model::{Mapping, Names};
use std::alloc::Global;

/// Appends the lines of the mappings.
#[tactic(auto, unfolding(crate::specs::PlanText::mappings_text))]
pub(crate) fn push_mappings(
    alloc: Global,
    network: &Network,
    out: &mut Vec<u8>,
) -> Result<(), Memory>
    requires network { IsNetwork network.now }
    requires few { first_channel network.now + length (wires_of network.now) ≤ MostChannels }
    ensures { OnOk result (out.new.items ≡ out.old.items ++ mappings_text network.now) }
{
    let all = mappings(alloc, network)?;
    push_all(alloc, network, all.as_slice(), out)
}

/// Appends the lines of these mappings.
fn push_all(
    alloc: Global,
    network: &Network,
    mappings: &[Mapping],
    out: &mut Vec<u8>,
) -> Result<(), Memory>
    requires network { IsNetwork network.now }
    requires ends { All (λ (m : Mapping). (m.from < length network.now.hosts) × (m.to < length network.now.hosts)) mappings.now }
    ensures { OnOk result (out.new.items ≡ out.old.items ++ flat_map (mapping_line network.now) mappings.now) }
{
    for mapping in mappings {
        push_named(alloc, network, *mapping, out)?;
    }
    Ok(())
}

/// Appends the line of a mapping between two hosts.
#[tactic(auto, unfolding(crate::specs::PlanText::mapping_line))]
fn push_named(
    alloc: Global,
    network: &Network,
    mapping: Mapping,
    out: &mut Vec<u8>,
) -> Result<(), Memory>
    requires network { IsNetwork network.now }
    requires from { mapping.from < length network.now.hosts }
    requires to { mapping.to < length network.now.hosts }
    ensures { OnOk result (out.new.items ≡ out.old.items ++ mapping_line network.now mapping) }
{
    let from = host_name(alloc, network, mapping.from)?;
    let to = host_name(alloc, network, mapping.to)?;
    push_mapping(from.as_slice(), to.as_slice(), mapping, out)
}

/// Appends the line of a mapping between entities of these names.
#[tactic(auto, unfolding(crate::specs::PlanText::map_line))]
fn push_mapping(from: &[u8], to: &[u8], mapping: Mapping, out: &mut Vec<u8>) -> Result<(), Memory>
    ensures { OnOk result (out.new.items ≡ out.old.items ++ map_line from.now to.now mapping) }
{
    push_bytes(out, b"map")?;
    push_decimal(out, u64::from(mapping.channel))?;
    push_field(out, from)?;
    push_field(out, to)?;
    push_decimal(out, mapping.delay)?;
    if mapping.priority == 0 {
        return end_line(out);
    }
    push_decimal(out, u64::from(mapping.priority))?;
    end_line(out)
}

/// Appends the lines of the mappings of a plan whose entities have these names.
#[tactic(auto, unfolding(crate::specs::PlanText::maps_text))]
pub(crate) fn push_maps(
    names: &Names,
    mappings: &[Mapping],
    out: &mut Vec<u8>,
) -> Result<(), Memory>
    ensures { OnOk result (out.new.items ≡ out.old.items ++ maps_text names.now mappings.now) }
{
    for mapping in mappings {
        let from = name_of(names, mapping.from);
        let to = name_of(names, mapping.to);
        push_mapping(from, to, *mapping, out)?;
    }
    Ok(())
}

/// The name of an entity; the empty text past the last one.
fn name_of(names: &Names, entity: u32) -> &[u8]
    ensures { result.now ≡ name_of names.now entity }
{
    match names.names.as_slice().get(entity as usize) {
        Some(name) => name.as_bytes(),
        None => b"",
    }
}
