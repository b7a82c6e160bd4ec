//! The hosts of a network with their channels and mappings, one call of the builder after another.
ghost use Rattle.std.specs.Prelude.{◌≡◌, ◌<◌, ◌+◌, ◌++◌, ◌∷◌, ℕ, true, false, Some, None, length, replicate, slice_get, IfOk, OnOk};
ghost use Rattle.ssf_model.specs.Drafts.{empty_draft, in_channel_refusal};
ghost use Rattle.ssf_model.specs.Run.{Fits};
ghost use Rattle.ip_layer.specs.Packets.{IsPacket};
ghost use Rattle.host_rules.specs.Limits.{IsHost};
ghost use Rattle.net_graph.specs.Networks.{IsNetwork};
ghost use Rattle.net_layout.specs.Wiring.{wires_of};
ghost use Rattle.net_layout.specs.Limits.{KeepsLimits};
ghost use Rattle.net_hosts.specs.HostRowsOf.{AreHostRows};
ghost use Rattle.net_plan.specs.NetDraft.{with_ins, IsNetBuilt};
ghost use Rattle.net_plan.specs.NetPlan.{AreRowsOf, IsSoFar};

use host_rules::HostRows;
use host_stack::{Host, HostState};
use net_graph::Network;
use net_layout::{Wire, wires};
use sim_base::Memory;
use ssf_model::{BuildFault, Plan, PlanBuilder};
use std::alloc::Global;

/// The plan of a network that keeps the limits of plans, whose hosts have these rows.
///
/// # Errors
/// `Memory` where there was no memory.
pub(crate) fn build(
    alloc: Global,
    network: &Network,
    rows: Vec<HostRows>,
) -> Result<Plan<Host>, Memory>
    requires network { IsNetwork network.now }
    requires limits { KeepsLimits network.now }
    requires rows { AreHostRows network.now rows.items }
    ensures plan { IfOk result (λ plan. IsNetBuilt (record {}) network.now plan) }
    ensures fits { IfOk result (λ plan. Fits IsHost IsPacket plan) }
{
    let wires = wires(alloc, network)?;
    let mut builder = PlanBuilder::new(alloc, Host {})?;
    add_hosts(alloc, network, rows, &mut builder)?;
    add_wires(network, wires.as_slice(), &mut builder)?;
    builder.finish()
}

/// Makes all hosts with their in-channels.
fn add_hosts(
    alloc: Global,
    network: &Network,
    rows: Vec<HostRows>,
    builder: &mut PlanBuilder<Host>,
) -> Result<(), Memory>
    requires network { IsNetwork network.now }
    requires limits { KeepsLimits network.now }
    requires rows { AreHostRows network.now rows.items }
    requires none { builder.old ≡ empty_draft (record {}) }
    ensures { OnOk result (IsSoFar network.now (length network.now.hosts) 0 builder.new) }
{
    let mut host = 0u32;
    for row in rows {
        add_host(alloc, network, host, row, builder)?;
        host += 1;
    }
    Ok(())
}

/// Makes the next host with its in-channels: one for each interface, and one by which it is poked.
fn add_host(
    alloc: Global,
    network: &Network,
    host: u32,
    rows: HostRows,
    builder: &mut PlanBuilder<Host>,
) -> Result<(), Memory>
    requires network { IsNetwork network.now }
    requires limits { KeepsLimits network.now }
    requires host { host < length network.now.hosts }
    requires rows { AreRowsOf network.now host rows }
    requires before { IsSoFar network.now host 0 builder.old }
    ensures { OnOk result (IsSoFar network.now (host + 1) 0 builder.new) }
{
    let ports = rows.ports.len();
    let timed = timed_flags(alloc, ports, rows.clients.len())?;
    let state = HostState::new(alloc, rows)?;
    match builder.entity(state, timed.as_slice()) {
        Ok(_place) => {}
        Err((_state, fault)) => return Err(want_of_memory(fault)),
    }
    add_ins(host, ports + 1, builder)
}

/// Which processes of a host are timed: not its receivers, but its clock and its client sessions.
fn timed_flags(alloc: Global, ports: usize, clients: usize) -> Result<Vec<bool>, Memory>
    ensures { IfOk result (λ timed. timed.items ≡ replicate ports false ++ true ∷ replicate clients true) }
{
    let mut timed = vec![in alloc; false; ports]?;
    timed.push(true)?;
    for _client in 0..clients {
        timed.push(true)?;
    }
    Ok(timed)
}

/// Makes so many in-channels of a host.
fn add_ins(host: u32, count: usize, builder: &mut PlanBuilder<Host>) -> Result<(), Memory>
    requires host { host < length builder.old.entities }
    requires fits { (n : ℕ) → n < count → in_channel_refusal (with_ins builder.old host n) ≡ None }
    ensures { OnOk result (builder.new ≡ with_ins builder.old host count) }
{
    for _channel in 0..count {
        match builder.in_channel(host) {
            Ok(_place) => {}
            Err(fault) => return Err(want_of_memory(fault)),
        }
    }
    Ok(())
}

/// Makes the out-channel and the mapping of each wire.
fn add_wires(
    network: &Network,
    wires: &[Wire],
    builder: &mut PlanBuilder<Host>,
) -> Result<(), Memory>
    requires network { IsNetwork network.now }
    requires limits { KeepsLimits network.now }
    requires wires { wires.now ≡ wires_of network.now }
    requires hosts { IsSoFar network.now (length network.now.hosts) 0 builder.old }
    ensures { OnOk result (IsSoFar network.now (length network.now.hosts) (length (wires_of network.now)) builder.new) }
{
    for number in 0..wires.len() {
        add_wire(network, wires[number], number as u32, builder)?;
    }
    Ok(())
}

/// Makes the out-channel and the mapping of the next wire.
fn add_wire(
    network: &Network,
    wire: Wire,
    number: u32,
    builder: &mut PlanBuilder<Host>,
) -> Result<(), Memory>
    requires network { IsNetwork network.now }
    requires limits { KeepsLimits network.now }
    requires wire { slice_get (wires_of network.now) number ≡ Some wire }
    requires before { IsSoFar network.now (length network.now.hosts) number builder.old }
    ensures { OnOk result (IsSoFar network.now (length network.now.hosts) (number + 1) builder.new) }
{
    match builder.out_channel(wire.from, wire.latency) {
        Ok(_place) => {}
        Err(fault) => return Err(want_of_memory(fault)),
    }
    match builder.mapto_at(number, wire.in_channel, wire.delay, wire.priority) {
        Ok(_place) => Ok(()),
        Err(fault) => Err(want_of_memory(fault)),
    }
}

/// Why a call of the builder failed: there was no memory, since no call that makes the plan of a network is
/// refused.
fn want_of_memory(_fault: BuildFault) -> Memory
    requires { _fault ≡ BuildFault.Memory }
{
    Memory
}
