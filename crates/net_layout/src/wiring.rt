//! The channels and mappings of a network's plan.
ghost use Rattle.std.specs.Prelude.{◌≡◌, ◌<◌, ◌≤◌, ◌+◌, ◌^◌, ◌++◌, length, map, count_by, slice_index_or, All, IfOk, OnOk};
ghost use Rattle.std.specs.List.{flat_map};
ghost use Rattle.ssf_model.specs.Drafts.{MostChannels};
ghost use Rattle.ssf_model.specs.declared.plan.Mapping.{Mapping};
ghost use Rattle.net_graph.specs.Networks.{IsNetwork, numbers, link_at};
ghost use Rattle.net_layout.specs.Wiring.{wires_of, wires_of_link, wires_between, link_wire, poke_wire, first_channel, mappings_of, mappings_from, mapping_of, is_client, IsShortWire};

use crate::arms::first_interface;
use net_graph::{Network, SessionKind, SessionRow};
use sim_base::Memory;
use ssf_model::Mapping;
use std::alloc::Global;

/// A mapping before it has a number: the hosts from which and to which it leads, the interfaces that
/// send and receive on it (a poke has none), the number of the in-channel, the delay of its
/// out-channel (the sender's latency) and its own delay in ticks, and its priority.
#[derive(Clone, Copy, Debug, PartialEq, Eq)]
pub struct Wire {
    pub from: u32,
    pub to: u32,
    pub interfaces: Option<(u32, u32)>,
    pub in_channel: u32,
    pub latency: u64,
    pub delay: u64,
    pub priority: u8,
}

/// The mappings of a network's plan in their order, before they have numbers: the pokes of all
/// hosts, and then for each link, for each of its attachments, one to each other attachment.
///
/// # Errors
/// `Memory` where there was no memory.
#[tactic(auto, unfolding(crate::specs::Wiring::wires_of))]
pub fn wires(alloc: Global, network: &Network) -> Result<Vec<Wire>, Memory>
    requires { IsNetwork network.now }
    ensures wires { IfOk result (λ wires. wires.items ≡ wires_of network.now) }
    ensures short { IfOk result (λ wires. All IsShortWire wires.items) }
{
    let mut wires = Vec::new(alloc);
    push_pokes(&mut wires, network)?;
    for link in 0..network.links.len() {
        push_link(&mut wires, network, link)?;
    }
    Ok(wires)
}

/// Appends the pokes of all hosts.
fn push_pokes(wires: &mut Vec<Wire>, network: &Network) -> Result<(), Memory>
    requires { IsNetwork network.now }
    ensures { OnOk result (wires.new.items ≡ wires.old.items ++ map (poke_wire network.now) (numbers (length network.now.hosts))) }
{
    for number in 0..network.hosts.len() {
        wires.push(own_poke(network, number as u32))?;
    }
    Ok(())
}

/// The wire by which a host pokes itself.
fn own_poke(network: &Network, host: u32) -> Wire
    requires network { IsNetwork network.now }
    requires host { host < length network.now.hosts }
    ensures { result ≡ poke_wire network.now host }
{
    let in_channel = first_interface(network, host + 1) + host;
    Wire {
        from: host,
        to: host,
        interfaces: None,
        in_channel,
        latency: 0,
        delay: 0,
        priority: 0,
    }
}

/// Appends what a link joins.
#[tactic(auto, unfolding(crate::specs::Wiring::wires_of_link))]
fn push_link(wires: &mut Vec<Wire>, network: &Network, link: usize) -> Result<(), Memory>
    requires network { IsNetwork network.now }
    requires link { link < length network.now.links }
    ensures { OnOk result (wires.new.items ≡ wires.old.items ++ wires_of_link network.now link) }
{
    let row = &network.links.as_slice()[link];
    push_between(wires, network, link, row.attached.as_slice())
}

/// Appends the wires between these attachments of a link.
fn push_between(
    wires: &mut Vec<Wire>,
    network: &Network,
    link: usize,
    attached: &[u32],
) -> Result<(), Memory>
    requires network { IsNetwork network.now }
    requires link { link < length network.now.links }
    requires attached { All (λ i. i < length network.now.interfaces) attached.now }
    ensures { OnOk result (wires.new.items ≡ wires.old.items ++ wires_between network.now link attached.now) }
{
    for place in 0..attached.len() {
        let from = attached[place];
        push_wires(wires, network, link, from, &attached[..place])?;
        push_wires(wires, network, link, from, &attached[place + 1..])?;
    }
    Ok(())
}

/// Appends the wires from an attachment of a link to these others.
fn push_wires(
    wires: &mut Vec<Wire>,
    network: &Network,
    link: usize,
    from: u32,
    others: &[u32],
) -> Result<(), Memory>
    requires network { IsNetwork network.now }
    requires link { link < length network.now.links }
    requires from { from < length network.now.interfaces }
    requires others { All (λ i. i < length network.now.interfaces) others.now }
    ensures { OnOk result (wires.new.items ≡ wires.old.items ++ map (link_wire network.now link from) others.now) }
{
    for other in others {
        wires.push(wire_between(network, link, from, *other))?;
    }
    Ok(())
}

/// The wire from an attachment of a link to another.
fn wire_between(network: &Network, link: usize, from: u32, to: u32) -> Wire
    requires network { IsNetwork network.now }
    requires link { link < length network.now.links }
    requires from { from < length network.now.interfaces }
    requires to { to < length network.now.interfaces }
    ensures { result ≡ link_wire network.now link from to }
{
    let sender = network.interfaces.as_slice()[from as usize];
    let receiver = network.interfaces.as_slice()[to as usize];
    let link = &network.links.as_slice()[link];
    Wire {
        from: sender.host,
        to: receiver.host,
        interfaces: Some((from, to)),
        in_channel: to + receiver.host,
        latency: sender.latency,
        delay: link.delay,
        priority: link.priority,
    }
}

/// How many start and timer channels there are: two of each host, for its start and its clock, and
/// one of each client session.
#[tactic(auto, unfolding(crate::specs::Wiring::first_channel))]
pub fn first_channel(network: &Network) -> u32
    requires { IsNetwork network.now }
    ensures first { result ≡ first_channel network.now }
    ensures few { result ≤ 393216 }
{
    let clients = network
        .sessions
        .as_slice()
        .iter()
        .filter(|session| is_client(session))
        .count();
    (2 * network.hosts.len() + clients) as u32
}

/// Whether a session is a client.
pub(crate) fn is_client(session: &SessionRow) -> bool
    ensures { result ≡ is_client session.now }
{
    match session.kind {
        SessionKind::Client(_) => true,
        _ => false,
    }
}

/// The mappings of a network's plan, with their channels. There are few enough.
///
/// # Errors
/// `Memory` where there was no memory.
#[tactic(auto, unfolding(crate::specs::Wiring::mappings_of))]
pub fn mappings(alloc: Global, network: &Network) -> Result<Vec<Mapping>, Memory>
    requires network { IsNetwork network.now }
    requires few { first_channel network.now + length (wires_of network.now) ≤ MostChannels }
    ensures mappings { IfOk result (λ mappings. mappings.items ≡ mappings_of network.now) }
    ensures ends { IfOk result (λ mappings. All (λ (m : Mapping). (m.from < length network.now.hosts) × (m.to < length network.now.hosts)) mappings.items) }
{
    let joined = wires(alloc, network)?;
    let rows = joined.as_slice();
    let first = first_channel(network);
    let mut mappings = Vec::new(alloc);
    for number in 0..rows.len() {
        let wire = rows[number];
        mappings.push(mapping(first, number as u32, wire))?;
    }
    Ok(mappings)
}

/// A wire with its numbers: `first` is the number of the first mapping's channel.
fn mapping(first: u32, number: u32, wire: Wire) -> Mapping
    requires channel { first + number < 2 ^ 32 }
    requires short { IsShortWire wire }
    ensures { result ≡ mapping_of first number wire }
{
    Mapping {
        channel: first + number,
        out_channel: number,
        in_channel: wire.in_channel,
        from: wire.from,
        to: wire.to,
        delay: wire.latency + wire.delay,
        priority: wire.priority,
    }
}
