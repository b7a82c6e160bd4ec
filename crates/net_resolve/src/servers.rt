//! The clients and servers of patterns.
ghost use Rattle.std.specs.Prelude.{◌≡◌, ◌++◌, ◌≤◌, ◌⊎◌, Ok, Err, length, IfOk, IfErr};
ghost use Rattle.net_graph.specs.NetworkOf.{attachments, interface_by_nhi, host_by_ids, full, client_at, server_at, server_rows};
ghost use Rattle.net_resolve.specs.Tables.{IsTable};

use crate::found::Found;
use crate::links::place_of;
use net_graph::{PatternSeen, ServerSeen, ShapeFault, TrafficSeen};
use sim_base::ServerRow;
use std::alloc::Global;

/// The number of the client of a pattern.
fn client_of(alloc: Global, found: &Found, pattern: &PatternSeen) -> Result<u32, ShapeFault>
    ensures client { IfOk result (λ host. client_at (full pattern.now.path pattern.now.client) (host_by_ids found.now (pattern.now.path ++ pattern.now.client.ids)) ≡ Ok host) }
    ensures cause { IfErr result (λ fault. (fault ≡ ShapeFault.Memory) ⊎ (client_at (full pattern.now.path pattern.now.client) (host_by_ids found.now (pattern.now.path ++ pattern.now.client.ids)) ≡ Err fault)) }
{
    let nhi = pattern.path.full(alloc, &pattern.client)?;
    match found.host_at(&nhi) {
        Some(host) => Ok(host),
        None => Err(ShapeFault::UnknownNhi(nhi)),
    }
}

/// The row of a server of this client, at an interface that a link attaches.
fn server_row(
    alloc: Global,
    found: &Found,
    places: &[Option<(u32, u32)>],
    client: u32,
    server: &ServerSeen,
) -> Result<ServerRow, ShapeFault>
    requires { IsTable (attachments found.now) places.now }
    ensures row { IfOk result (λ row. server_at (attachments found.now) client (full server.now.path server.now.keys.nhi) server.now.keys.port (interface_by_nhi found.now (full server.now.path server.now.keys.nhi) server.now.keys.nhi.interface) ≡ Ok row) }
    ensures cause { IfErr result (λ fault. (fault ≡ ShapeFault.Memory) ⊎ (server_at (attachments found.now) client (full server.now.path server.now.keys.nhi) server.now.keys.port (interface_by_nhi found.now (full server.now.path server.now.keys.nhi) server.now.keys.nhi.interface) ≡ Err fault)) }
{
    let nhi = server.path.full(alloc, &server.keys.nhi)?;
    let Some(interface) = found.interface_at(alloc, &nhi)? else {
        return Err(ShapeFault::UnknownNhi(nhi));
    };
    if place_of(places, interface).is_none() {
        return Err(ShapeFault::UnknownNhi(nhi));
    }
    Ok(ServerRow {
        client,
        interface,
        port: server.keys.port,
    })
}

/// The rows of servers, pattern by pattern.
pub fn server_rows(
    alloc: Global,
    found: &Found,
    places: &[Option<(u32, u32)>],
) -> Result<Vec<ServerRow>, ShapeFault>
    requires { IsTable (attachments found.now) places.now }
    ensures rows { IfOk result (λ rows. server_rows found.now (attachments found.now) 0 found.now.traffic ≡ Ok rows.items) }
    ensures few { IfOk result (λ rows. length rows.items ≤ 65536) }
    ensures cause { IfErr result (λ fault. (fault ≡ ShapeFault.Memory) ⊎ (server_rows found.now (attachments found.now) 0 found.now.traffic ≡ Err fault)) }
{
    let mut rows = Vec::new(alloc);
    let mut client = 0;
    for part in found.seen().traffic.as_slice() {
        match part {
            TrafficSeen::Pattern(pattern) => {
                client = client_of(alloc, found, pattern)?;
            }
            TrafficSeen::Server(server) => {
                rows.push(server_row(alloc, found, places, client, server)?)?;
            }
        }
    }
    Ok(rows)
}
