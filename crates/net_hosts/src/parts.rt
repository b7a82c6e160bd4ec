//! What the hosts of a network have, list by list, before it is moved into their rows.
ghost use Rattle.std.specs.Prelude.{◌≡◌, ◌<◌, ◌≤◌, ◌+◌, [], length, slice_index_or, slice_set, IfOk};
ghost use Rattle.ssf_model.specs.Drafts.{MostChannels};
ghost use Rattle.net_graph.specs.Networks.{IsNetwork};
ghost use Rattle.net_layout.specs.Addresses.{AreBlocks};
ghost use Rattle.net_layout.specs.Periods.{periods_of};
ghost use Rattle.net_layout.specs.Wiring.{first_channel, wires_of};
ghost use Rattle.net_layout.specs.HostRoutes.{AreTables};
ghost use Rattle.net_hosts.specs.Left.{HasParts};

use net_graph::Network;
use net_layout::{Layout, clients, listens, outs, servers, tables};
use sim_base::{ClientRow, ListOf, Memory, ServerRow};
use spf_routes::Period;
use std::alloc::Global;

/// What each interface sends on, and of each host its client sessions, the servers that they go to,
/// the ports on which it serves, and its periods with their routes.
#[derive(Drop)]
pub(crate) struct Parts {
    pub outs: ListOf<ListOf<(u32, u32)>>,
    pub clients: ListOf<ListOf<ClientRow>>,
    pub servers: ListOf<ListOf<ServerRow>>,
    pub listens: ListOf<ListOf<u16>>,
    pub tables: ListOf<ListOf<Period>>,
}

/// What the hosts of a network have.
///
/// # Errors
/// `Memory` where there was no memory.
pub(crate) fn gather(alloc: Global, network: &Network, layout: &Layout) -> Result<Parts, Memory>
    requires network { IsNetwork network.now }
    requires blocks { AreBlocks network.now layout.now.blocks }
    requires periods { layout.now.periods ≡ periods_of network.now }
    requires few { first_channel network.now + length (wires_of network.now) ≤ MostChannels }
    ensures parts { IfOk result (λ parts. HasParts network.now 0 parts) }
    ensures tables { IfOk result (λ parts. AreTables network.now parts.tables) }
{
    let outs = outs(alloc, network, &layout.blocks)?;
    let clients = clients(alloc, network)?;
    let servers = servers(alloc, network)?;
    let listens = listens(alloc, network)?;
    let tables = tables(alloc, network, layout)?;
    Ok(Parts {
        outs: ListOf::from_vec(outs),
        clients: ListOf::from_vec(clients),
        servers: ListOf::from_vec(servers),
        listens: ListOf::from_vec(listens),
        tables: ListOf::from_vec(tables),
    })
}

/// Moves the list at a place out of these; an empty one stays in its place.
pub(crate) fn take_list<T: Drop>(
    alloc: Global,
    lists: &mut ListOf<ListOf<T>>,
    place: usize,
) -> ListOf<T>
    requires { place < length lists.old }
    ensures list { result ≡ slice_index_or lists.old place [] }
    ensures rest { lists.new ≡ slice_set lists.old place [] }
{
    lists.replace(place, ListOf::new(alloc))
}
