//! The printed names of hosts, and their Nets.
ghost use Rattle.std.specs.Prelude.{◌≡◌, length, IfOk};
ghost use Rattle.net_graph.specs.Networks.{IsNetwork};
ghost use Rattle.net_plan.specs.NetPlan.{names_of, nets_of};

use net_build::host_name;
use net_graph::Network;
use sim_base::{ListOf, Memory, Text};
use ssf_model::Names;
use std::alloc::Global;

/// The printed names of all hosts.
pub(crate) fn host_names(alloc: Global, network: &Network) -> Result<Names, Memory>
    requires { IsNetwork network.now }
    ensures { IfOk result (λ names. names.names ≡ names_of network.now) }
{
    let mut names = Vec::new(alloc);
    for host in 0..network.hosts.len() {
        let name = host_name(alloc, network, host as u32)?;
        names.push(Text::from_vec(name))?;
    }
    Ok(Names::new(names))
}

/// The innermost Net of each host.
pub(crate) fn host_nets(alloc: Global, network: &Network) -> Result<ListOf<u32>, Memory>
    ensures { IfOk result (λ nets. nets ≡ nets_of network.now) }
{
    let mut nets = Vec::new(alloc);
    for host in network.hosts.as_slice() {
        nets.push(host.net)?;
    }
    Ok(ListOf::from_vec(nets))
}
