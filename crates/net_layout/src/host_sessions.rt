//! The sessions of each host, and the servers that its client sessions go to.
ghost use Rattle.std.specs.Prelude.{◌≡◌, length, map, IfOk};
ghost use Rattle.net_graph.specs.Networks.{IsNetwork, numbers};
ghost use Rattle.net_layout.specs.Sessions.{clients_of, listens_of, servers_of, client_in, port_in};

use crate::lists::{append_at, empty_lists};
use net_graph::{Network, SessionKind};
use sim_base::{ClientRow, ListOf, Memory, ServerRow};
use std::alloc::Global;

/// The client sessions of each host in order, host by host.
///
/// # Errors
/// `Memory` where there was no memory.
pub fn clients(alloc: Global, network: &Network) -> Result<Vec<ListOf<ClientRow>>, Memory>
    requires { IsNetwork network.now }
    ensures { IfOk result (λ clients. clients.items ≡ map (clients_of network.now) (numbers (length network.now.hosts))) }
{
    let mut clients = empty_lists(alloc, network.hosts.len())?;
    for session in network.sessions.as_slice() {
        append_at(&mut clients, session.host as usize, client_in(session.kind))?;
    }
    Ok(clients)
}

/// What a session has where it is a client.
fn client_in(kind: SessionKind) -> Option<ClientRow>
    ensures { result ≡ client_in kind }
{
    match kind {
        SessionKind::Client(client) => Some(client),
        _ => None,
    }
}

/// The ports on which each host serves, in order, host by host.
///
/// # Errors
/// `Memory` where there was no memory.
pub fn listens(alloc: Global, network: &Network) -> Result<Vec<ListOf<u16>>, Memory>
    requires { IsNetwork network.now }
    ensures { IfOk result (λ ports. ports.items ≡ map (listens_of network.now) (numbers (length network.now.hosts))) }
{
    let mut ports = empty_lists(alloc, network.hosts.len())?;
    for session in network.sessions.as_slice() {
        append_at(&mut ports, session.host as usize, port_in(session.kind))?;
    }
    Ok(ports)
}

/// The port of a session where it is a server.
fn port_in(kind: SessionKind) -> Option<u16>
    ensures { result ≡ port_in kind }
{
    match kind {
        SessionKind::Server(port) => Some(port),
        _ => None,
    }
}

/// The servers of the patterns whose client is a host, in order, host by host.
///
/// # Errors
/// `Memory` where there was no memory.
pub fn servers(alloc: Global, network: &Network) -> Result<Vec<ListOf<ServerRow>>, Memory>
    requires { IsNetwork network.now }
    ensures { IfOk result (λ servers. servers.items ≡ map (servers_of network.now) (numbers (length network.now.hosts))) }
{
    let mut servers = empty_lists(alloc, network.hosts.len())?;
    for server in network.servers.as_slice() {
        append_at(&mut servers, server.client as usize, Some(*server))?;
    }
    Ok(servers)
}
