//! The rows of hosts: their gateways, and what their sessions say of them.
ghost use Rattle.std.specs.Prelude.{◌≡◌, ◌+◌, ◌≤◌, ◌⊎◌, Some, None, Ok, Err, length, slice_index_or, map, IfOk, IfErr, replicate};
ghost use Rattle.nhi_address.specs.NhiFields.{IsId};
ghost use Rattle.net_graph.specs.NetworkOf.{attachments, interface_by_nhi, full, own_address, same_link, gateway_next, gateway_on, gateway_row, host_rows, kind_of, session_row};
ghost use Rattle.net_graph.specs.Steps.{HasIds};
ghost use Rattle.net_resolve.specs.Tables.{IsTable, host_row, silent, with_session, told_one, told};

use crate::found::Found;
use crate::links::place_of;
use net_graph::{
    Gateway, GatewayKeys, HostRow, HostSeen, SessionKeys, SessionKind, SessionRow, SessionSeen,
    ShapeFault, default_settings,
};
use nhi_address::Nhi;
use sim_base::TcpConfig;
use std::alloc::Global;

/// A summary of the sessions of a host: whether one is OSPF, and the settings of the first with TCP.
#[derive(Clone, Copy, Debug, PartialEq, Eq)]
pub struct HostSummary {
    pub ospf: bool,
    pub tcp: Option<TcpConfig>,
}

/// The summary of a host once one more session of it was met.
fn with_session(keys: SessionKeys, summary: HostSummary) -> HostSummary
    ensures { result ≡ with_session keys summary }
{
    match keys {
        SessionKeys::Ospf => HostSummary {
            ospf: true,
            tcp: summary.tcp,
        },
        SessionKeys::Tcp(settings) => HostSummary {
            ospf: summary.ospf,
            tcp: Some(summary.tcp.unwrap_or(settings)),
        },
        _ => summary,
    }
}

/// Notes a session in the table.
fn note_session(summaries: &mut [HostSummary], session: SessionSeen)
    ensures { summaries.new ≡ told_one summaries.old session }
{
    let host = session.host as usize;
    if host < summaries.len() {
        summaries[host] = with_session(session.keys, summaries[host]);
    }
}

/// A table of that many hosts without sessions.
fn no_summaries(alloc: Global, hosts: usize) -> Result<Vec<HostSummary>, ShapeFault>
    ensures silent { IfOk result (λ summaries. summaries.items ≡ replicate hosts silent) }
    ensures cause { IfErr result (λ fault. fault ≡ ShapeFault.Memory) }
{
    let silent = HostSummary {
        ospf: false,
        tcp: None,
    };
    let summaries = vec![in alloc; silent; hosts]?;
    Ok(summaries)
}

/// The summary of each of so many hosts.
pub fn summaries_of(
    alloc: Global,
    hosts: usize,
    sessions: &[SessionSeen],
) -> Result<Vec<HostSummary>, ShapeFault>
    ensures told { IfOk result (λ summaries. summaries.items ≡ told (replicate hosts silent) sessions.now) }
    ensures cause { IfErr result (λ fault. fault ≡ ShapeFault.Memory) }
{
    let mut summaries = no_summaries(alloc, hosts)?;
    for session in sessions {
        note_session(summaries.as_mut_slice(), *session);
    }
    Ok(summaries)
}

/// Whether two places are on the same link.
fn on_one_link(one: Option<(u32, u32)>, other: Option<(u32, u32)>) -> bool
    ensures { result ≡ same_link one other }
{
    match (one, other) {
        (Some(one), Some(other)) => one.0 == other.0,
        _ => false,
    }
}

/// The address of an interface of a host.
fn own_nhi(alloc: Global, host: &HostSeen, id: u32) -> Result<Nhi, ShapeFault>
    requires ids { HasIds host.now }
    requires id { IsId id }
    ensures own { IfOk result (λ nhi. nhi ≡ own_address host.now id) }
    ensures cause { IfErr result (λ fault. fault ≡ ShapeFault.Memory) }
{
    let path = host.path.child(alloc, host.id)?;
    let nhi = path.address(alloc, Some(id))?;
    Ok(nhi)
}

/// A default route by an interface, with its next hop.
fn gateway_next(
    alloc: Global,
    found: &Found,
    places: &[Option<(u32, u32)>],
    host: &HostSeen,
    interface: u32,
    next: &Option<Nhi>,
) -> Result<Gateway, ShapeFault>
    requires { IsTable (attachments found.now) places.now }
    ensures row { IfOk result (λ gateway. gateway_next found.now (attachments found.now) host.now.path interface next.now ≡ Ok gateway) }
    ensures cause { IfErr result (λ fault. (fault ≡ ShapeFault.Memory) ⊎ (gateway_next found.now (attachments found.now) host.now.path interface next.now ≡ Err fault)) }
{
    let Some(next) = next else {
        return Ok(Gateway {
            interface,
            next: None,
        });
    };
    let nhi = host.path.full(alloc, next)?;
    let Some(hop) = found.interface_at(alloc, &nhi)? else {
        return Err(ShapeFault::UnknownNhi(nhi));
    };
    if !on_one_link(place_of(places, interface), place_of(places, hop)) {
        return Err(ShapeFault::UnknownNhi(nhi));
    }
    Ok(Gateway {
        interface,
        next: Some(hop),
    })
}

/// The default route of a host, as its keys say.
fn gateway_on(
    alloc: Global,
    found: &Found,
    places: &[Option<(u32, u32)>],
    host: &HostSeen,
    keys: &GatewayKeys,
) -> Result<Gateway, ShapeFault>
    requires table { IsTable (attachments found.now) places.now }
    requires ids { HasIds host.now }
    requires id { IsId keys.now.interface }
    ensures row { IfOk result (λ gateway. gateway_on found.now (attachments found.now) host.now keys.now (interface_by_nhi found.now (own_address host.now keys.now.interface) (Some keys.now.interface)) ≡ Ok gateway) }
    ensures cause { IfErr result (λ fault. (fault ≡ ShapeFault.Memory) ⊎ (gateway_on found.now (attachments found.now) host.now keys.now (interface_by_nhi found.now (own_address host.now keys.now.interface) (Some keys.now.interface)) ≡ Err fault)) }
{
    let own = own_nhi(alloc, host, keys.interface)?;
    match found.interface_at(alloc, &own)? {
        Some(interface) => gateway_next(alloc, found, places, host, interface, &keys.next),
        None => Err(ShapeFault::UnknownNhi(own)),
    }
}

/// The default route of a host.
fn gateway_row(
    alloc: Global,
    found: &Found,
    places: &[Option<(u32, u32)>],
    host: &HostSeen,
) -> Result<Option<Gateway>, ShapeFault>
    requires table { IsTable (attachments found.now) places.now }
    requires ids { HasIds host.now }
    ensures row { IfOk result (λ gateway. gateway_row found.now (attachments found.now) host.now host.now.gateway ≡ Ok gateway) }
    ensures cause { IfErr result (λ fault. (fault ≡ ShapeFault.Memory) ⊎ (gateway_row found.now (attachments found.now) host.now host.now.gateway ≡ Err fault)) }
{
    match &host.gateway {
        Some(keys) => {
            let gateway = gateway_on(alloc, found, places, host, keys)?;
            Ok(Some(gateway))
        }
        None => Ok(None),
    }
}

/// The summary of a host; past the end of the table that of one without sessions.
fn summary_of(summaries: &[HostSummary], host: usize) -> HostSummary
    ensures { result ≡ slice_index_or summaries.now host silent }
{
    match summaries.get(host) {
        Some(summary) => *summary,
        None => HostSummary {
            ospf: false,
            tcp: None,
        },
    }
}

/// The row of a host.
fn row_of(
    host: &HostSeen,
    gateway: Option<Gateway>,
    summary: HostSummary,
    frequency: u64,
) -> HostRow
    requires { frequency ≤ 1000000000000 }
    ensures { result ≡ host_row frequency host.now gateway summary }
{
    HostRow {
        net: host.net,
        id: host.id,
        router: host.router,
        ospf: summary.ospf,
        gateway,
        tcp: summary.tcp.unwrap_or(default_settings(frequency)),
    }
}

/// The rows of all hosts.
pub fn host_rows(
    alloc: Global,
    found: &Found,
    places: &[Option<(u32, u32)>],
    summaries: &[HostSummary],
    frequency: u64,
) -> Result<Vec<HostRow>, ShapeFault>
    requires frequency { frequency ≤ 1000000000000 }
    requires table { IsTable (attachments found.now) places.now }
    requires summaries { summaries.now ≡ told (replicate (length found.now.hosts) silent) found.now.sessions }
    ensures rows { IfOk result (λ rows. host_rows frequency found.now (attachments found.now) 0 found.now.hosts ≡ Ok rows.items) }
    ensures cause { IfErr result (λ fault. (fault ≡ ShapeFault.Memory) ⊎ (host_rows frequency found.now (attachments found.now) 0 found.now.hosts ≡ Err fault)) }
{
    let mut rows = Vec::new(alloc);
    for host in found.seen().hosts.as_slice() {
        let summary = summary_of(summaries, rows.len());
        let gateway = gateway_row(alloc, found, places, host)?;
        rows.push(row_of(host, gateway, summary, frequency))?;
    }
    Ok(rows)
}

/// What a session is.
fn kind_of(keys: SessionKeys) -> SessionKind
    ensures { result ≡ kind_of keys }
{
    match keys {
        SessionKeys::Silent => SessionKind::Silent,
        SessionKeys::Ospf => SessionKind::Ospf,
        SessionKeys::Tcp(_) => SessionKind::Tcp,
        SessionKeys::Client(row) => SessionKind::Client(row),
        SessionKeys::Server(port) => SessionKind::Server(port),
    }
}

/// The rows of sessions.
pub fn session_rows(alloc: Global, seen: &[SessionSeen]) -> Result<Vec<SessionRow>, ShapeFault>
    ensures rows { IfOk result (λ rows. rows.items ≡ map session_row seen.now) }
    ensures cause { IfErr result (λ fault. fault ≡ ShapeFault.Memory) }
{
    let mut rows = Vec::new(alloc);
    for session in seen {
        rows.push(SessionRow {
            host: session.host,
            kind: kind_of(session.keys),
        })?;
    }
    Ok(rows)
}
