//! The limits that a network has to keep for its plan.
ghost use Rattle.std.specs.Prelude.{◌≡◌, ◌<◌, ◌≤◌, ◌*◌, ◌+◌, ◌^◌, ℕ, length, vec_len, slice_index, slice_set, nat_lt, IfOk};
ghost use Rattle.std.specs.List.{list_any};
ghost use Rattle.sim_base.specs.Traffic.{ticks_of};
ghost use Rattle.net_graph.specs.Networks.{IsNetwork, link_at, interface_at};
ghost use Rattle.net_layout.specs.Periods.{periods_of};
ghost use Rattle.net_graph.specs.declared.rows.InterfaceRow.{InterfaceRow};
ghost use Rattle.net_graph.specs.declared.rows.SessionRow.{SessionRow};
ghost use Rattle.net_graph.specs.declared.rows.HostRow.{HostRow};
ghost use Rattle.net_layout.specs.Sessions.{client_count, server_count};
ghost use Rattle.net_layout.specs.Faults.{has_many_transfers, has_many_routes, has_long_delay, has_many_channels, is_slow, is_late_kind, is_long_way, is_long};

use crate::wiring::{first_channel, is_client};
use net_graph::{HostRow, Network, SessionKind, SessionRow};
use sim_base::Memory;
use ssf_model::{LONGEST_DELAY, MOST_CHANNELS};
use std::alloc::Global;

/// The most transfers that the client sessions of a host may have together.
const MOST_TRANSFERS: u64 = 50_000;

/// The most routes of all hosts with an OSPF session in all periods.
const MOST_ROUTES: u128 = 16_777_216;

/// A link with more attachments than this has too many mappings alone.
const MOST_ATTACHED: usize = 512;

/// Whether the client sessions of some host times the servers of that host are too many.
#[tactic(auto, unfolding(crate::specs::Faults::has_many_transfers))]
pub(crate) fn has_many_transfers(alloc: Global, network: &Network) -> Result<bool, Memory>
    requires { IsNetwork network.now }
    ensures { IfOk result (λ many. many ≡ has_many_transfers network.now) }
{
    let clients = client_counts(alloc, network)?;
    let servers = server_counts(alloc, network)?;
    for host in 0..network.hosts.len() {
        if are_many(clients[host], servers[host]) {
            return Ok(true);
        }
    }
    Ok(false)
}

/// Whether so many client sessions times so many servers are too many.
fn are_many(clients: u32, servers: u32) -> bool
    ensures { result ≡ nat_lt 50000 (clients * servers) }
{
    u64::from(clients) * u64::from(servers) > MOST_TRANSFERS
}

/// The client sessions of each host.
fn client_counts(alloc: Global, network: &Network) -> Result<Vec<u32>, Memory>
    requires { IsNetwork network.now }
    ensures as_many { IfOk result (λ counts. length counts.items ≡ length network.now.hosts) }
    ensures counts { IfOk result (λ counts. (h : ℕ) → h < length network.now.hosts → slice_index counts.items h ≡ client_count network.now h) }
{
    let mut counts = vec![in alloc; 0u32; network.hosts.len()]?;
    for session in network.sessions.as_slice() {
        if is_client(session) {
            count_one(&mut counts, session.host);
        }
    }
    Ok(counts)
}

/// The servers of the patterns of each host.
fn server_counts(alloc: Global, network: &Network) -> Result<Vec<u32>, Memory>
    requires { IsNetwork network.now }
    ensures as_many { IfOk result (λ counts. length counts.items ≡ length network.now.hosts) }
    ensures counts { IfOk result (λ counts. (h : ℕ) → h < length network.now.hosts → slice_index counts.items h ≡ server_count network.now h) }
{
    let mut counts = vec![in alloc; 0u32; network.hosts.len()]?;
    for server in network.servers.as_slice() {
        count_one(&mut counts, server.client);
    }
    Ok(counts)
}

/// Counts one more of a host.
fn count_one(counts: &mut Vec<u32>, host: u32)
    requires there { host < vec_len counts.old }
    requires few { slice_index counts.old.items host ≤ 262144 }
    ensures { counts.new.items ≡ slice_set counts.old.items host (slice_index counts.old.items host + 1) }
{
    counts[host as usize] += 1;
}

/// Whether the hosts with an OSPF session times the links times the periods are too many.
#[tactic(auto, unfolding(crate::specs::Faults::has_many_routes))]
pub(crate) fn has_many_routes(network: &Network, periods: usize) -> bool
    requires network { IsNetwork network.now }
    requires periods { periods ≡ length (periods_of network.now) }
    ensures { result ≡ has_many_routes network.now }
{
    let relays = network
        .hosts
        .as_slice()
        .iter()
        .filter(|host| host.ospf)
        .count();
    let routes = (relays * network.links.len()) as u128 * periods as u128;
    routes > MOST_ROUTES
}

/// Whether some time of the network is above the longest delay.
#[tactic(auto, unfolding(crate::specs::Faults::has_long_delay))]
pub(crate) fn has_long_delay(network: &Network) -> bool
    requires { IsNetwork network.now }
    ensures { result ≡ has_long_delay network.now }
{
    let slow = has_slow_interface(network);
    let late = has_late_client(network.sessions.as_slice());
    let kept = has_long_lived(network.hosts.as_slice());
    slow || late || kept
}

/// Whether some client may start too late, or waits too long.
fn has_late_client(sessions: &[SessionRow]) -> bool
    ensures { result ≡ list_any (λ (s : SessionRow). is_late_kind s.kind) sessions.now }
{
    sessions.iter().any(|session| is_late(session.kind))
}

/// Whether some host keeps segments for too long.
fn has_long_lived(hosts: &[HostRow]) -> bool
    ensures { result ≡ list_any (λ (h : HostRow). is_long (2 * h.tcp.msl)) hosts.now }
{
    hosts.iter().any(|host| keeps_long(*host))
}

/// Whether some interface is slow.
fn has_slow_interface(network: &Network) -> bool
    requires { IsNetwork network.now }
    ensures { result ≡ list_any (is_slow network.now) network.now.interfaces }
{
    for interface in 0..network.interfaces.len() {
        if is_slow(network, interface) {
            return true;
        }
    }
    false
}

/// Whether an interface's way to the others on its link is too long, or the time in which its full
/// buffer and one byte more leave.
fn is_slow(network: &Network, interface: usize) -> bool
    requires network { IsNetwork network.now }
    requires interface { interface < length network.now.interfaces }
    ensures { result ≡ is_slow network.now (interface_at network.now interface) }
{
    let row = network.interfaces.as_slice()[interface];
    let drain = drain_ticks(row.buffer, network.frequency, row.bitrate);
    has_long_way(network, row.latency, row.link) || drain > u128::from(LONGEST_DELAY)
}

/// Whether this latency and the delay of the link together are too long.
fn has_long_way(network: &Network, latency: u64, link: Option<(u32, u32)>) -> bool
    requires network { IsNetwork network.now }
    ensures { (row : InterfaceRow) → row.latency ≡ latency → result ≡ is_long_way network.now row link }
{
    match link {
        Some(at) => u128::from(latency) + u128::from(link_delay(network, at.0))
            > u128::from(LONGEST_DELAY),
        None => false,
    }
}

/// The delay of a link.
fn link_delay(network: &Network, link: u32) -> u64
    ensures { result ≡ (link_at network.now link).delay }
{
    match network.links.as_slice().get(link as usize) {
        Some(link) => link.delay,
        None => 0,
    }
}

/// The ticks in which a buffer of so many bytes and one more leave, rounded up.
fn drain_ticks(buffer: u64, frequency: u64, bitrate: u64) -> u128
    requires buffer { buffer ≤ 2 ^ 31 }
    requires frequency { frequency ≤ 10 ^ 12 }
    requires some_bitrate { 1 ≤ bitrate }
    ensures { result ≡ ticks_of bitrate frequency (buffer + 1) }
{
    let bits = 8 * (u128::from(buffer) + 1);
    (bits * u128::from(frequency)).div_ceil(u128::from(bitrate))
}

/// Whether a client may start too late, or waits too long between two datagrams.
fn is_late(kind: SessionKind) -> bool
    ensures { result ≡ is_late_kind kind }
{
    match kind {
        SessionKind::Client(client) => {
            u128::from(client.start) + u128::from(client.window) > u128::from(LONGEST_DELAY)
                || client.interval > LONGEST_DELAY
        }
        _ => false,
    }
}

/// Whether twice the maximum segment lifetime of a host is too long.
fn keeps_long(host: HostRow) -> bool
    ensures { result ≡ is_long (2 * host.tcp.msl) }
{
    2 * u128::from(host.tcp.msl) > u128::from(LONGEST_DELAY)
}

/// Whether the start, timer and mapping channels together are too many.
#[tactic(auto, unfolding(crate::specs::Faults::has_many_channels))]
pub(crate) fn has_many_channels(network: &Network) -> bool
    requires { IsNetwork network.now }
    ensures { result ≡ has_many_channels network.now }
{
    let mut count = first_channel(network) as usize + network.hosts.len();
    for link in 0..network.links.len() {
        let attached = attached_count(network, link);
        if attached > MOST_ATTACHED {
            return true;
        }
        count += attached * attached.saturating_sub(1);
        if count > MOST_CHANNELS {
            return true;
        }
    }
    count > MOST_CHANNELS
}

/// How many attachments a link has.
fn attached_count(network: &Network, link: usize) -> usize
    requires { link < length network.now.links }
    ensures { result ≡ length (link_at network.now link).attached }
{
    network.links.as_slice()[link].attached.len()
}
