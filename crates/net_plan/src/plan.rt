//! The plan of a network.
ghost use Rattle.std.specs.Prelude.{◌≡◌, ◌⊎◌, None, Some, length, IfOk, IfErr, OnOk};
ghost use Rattle.ssf_model.specs.Run.{Fits};
ghost use Rattle.ip_layer.specs.Packets.{IsPacket};
ghost use Rattle.host_rules.specs.Limits.{IsHost};
ghost use Rattle.net_graph.specs.Networks.{IsNetwork};
ghost use Rattle.net_layout.specs.Faults.{first_fault};
ghost use Rattle.net_plan.specs.NetPlan.{IsPlanOf};

use crate::building::build;
use crate::naming::{host_names, host_nets};
use host_stack::Host;
use net_build::Built;
use net_graph::{Network, ShapeFault};
use net_hosts::host_rows;
use net_layout::lay_out;
use std::alloc::Global;

/// The plan of a network. Its entities are the hosts and routers, named by their addresses in the
/// network, each with the number of its innermost Net.
///
/// # Errors
/// The first fault that keeps the network from having a plan, as `lay_out` tells it, and `Memory`.
pub fn plan_of(alloc: Global, network: &Network) -> Result<Built<Host>, ShapeFault>
    requires { IsNetwork network.now }
    ensures built { IfOk result (λ built. IsPlanOf network.now built) }
    ensures fits { IfOk result (λ built. Fits IsHost IsPacket built.plan) }
    ensures named { IfOk result (λ built. length built.names.names ≡ length built.plan.entities) }
    ensures before { IfOk result (λ built. built.plan.before ≡ 0) }
    ensures faultless { OnOk result (first_fault network.now ≡ None) }
    ensures cause { IfErr result (λ fault. (fault ≡ ShapeFault.Memory) ⊎ (first_fault network.now ≡ Some fault)) }
{
    let layout = lay_out(alloc, network)?;
    let rows = host_rows(alloc, network, &layout)?;
    let plan = build(alloc, network, rows)?;
    let names = host_names(alloc, network)?;
    let nets = host_nets(alloc, network)?;
    Ok(Built { plan, names, nets })
}
