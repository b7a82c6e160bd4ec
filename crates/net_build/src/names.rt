//! The printed names of hosts and interfaces.
ghost use Rattle.std.specs.Prelude.{◌≡◌, ◌<◌, length, IfOk};
ghost use Rattle.std.specs.Option.{ForSome};
ghost use Rattle.nhi_address.specs.NhiFields.{IsId};
ghost use Rattle.nhi_address.specs.NhiText.{nhi_text};
ghost use Rattle.net_graph.specs.Networks.{IsNetwork};
ghost use Rattle.net_build.specs.PlanText.{host_ids, host_text, interface_text};

use net_graph::Network;
use nhi_address::{Nhi, print_nhi};
use sim_base::Memory;
use std::alloc::Global;

/// The text of an interface.
#[tactic(auto, unfolding(crate::specs::PlanText::interface_text))]
pub(crate) fn interface_name(
    alloc: Global,
    network: &Network,
    interface: u32,
) -> Result<Vec<u8>, Memory>
    requires network { IsNetwork network.now }
    requires interface { interface < length network.now.interfaces }
    ensures { IfOk result (λ name. name.items ≡ interface_text network.now interface) }
{
    let row = network.interfaces.as_slice()[interface as usize];
    name(alloc, network, row.host, Some(row.id))
}

/// The printed name of a host: the ids of the Nets in which it stands, and then its own.
///
/// # Errors
/// `Memory` where there was no memory.
#[tactic(auto, unfolding(crate::specs::PlanText::host_text))]
pub fn host_name(alloc: Global, network: &Network, host: u32) -> Result<Vec<u8>, Memory>
    requires network { IsNetwork network.now }
    requires host { host < length network.now.hosts }
    ensures { IfOk result (λ name. name.items ≡ host_text network.now host) }
{
    name(alloc, network, host, None)
}

/// The text of a host, or of the interface of it with this id.
fn name(
    alloc: Global,
    network: &Network,
    host: u32,
    interface: Option<u32>,
) -> Result<Vec<u8>, Memory>
    requires network { IsNetwork network.now }
    requires host { host < length network.now.hosts }
    requires interface { ForSome interface IsId }
    ensures { IfOk result (λ name. name.items ≡ nhi_text (record { ids = host_ids network.now host; interface = interface })) }
{
    let row = network.hosts.as_slice()[host as usize];
    let net = network.nets.as_slice()[row.net as usize].ids.as_slice();
    let mut ids = Vec::from_slice(alloc, net)?;
    ids.push(row.id)?;
    let nhi = Nhi::new(alloc, ids.as_slice(), interface)?;
    let mut name = Vec::new(alloc);
    print_nhi(&nhi, &mut name)?;
    Ok(name)
}
