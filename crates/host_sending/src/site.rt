//! The rows of a host, in their ranges.
ghost use Rattle.std.specs.Prelude.{◌≡◌, length, IfOk};
ghost use Rattle.host_rules.specs.Sending.{own_addresses};
ghost use Rattle.host_sending.specs.Sites.{AreTables};

use crate::{Routes, lookup, routes};
use host_rules::{HostPort, HostRows};
use ip_layer::{Packet, Verdict};
use route_table::RouteTable;
use sim_base::{ClientRow, Memory, ServerRow};
use std::alloc::Global;
use std::marker::Model;

/// The rows of a host in their ranges, and with them the addresses of its interfaces and a table of
/// the best routes for each period. Contracts see the rows.
#[derive(Drop)]
pub struct Site {
    rows: HostRows,
    own: Vec<u32>,
    tables: Vec<RouteTable>,
}

impl Model for Site {
    ghost use Rattle.host_rules.specs.declared.rows.HostRows.{HostRows as HostRowsValue};
    ghost use Rattle.host_sending.specs.Sites.{IsSite};

    ghost Value = { HostRowsValue };

    ghost view = { λ s. s.rows };

    ghost invariant = { λ s. IsSite s.rows s.own.items s.tables.items };
}

/// The addresses of the interfaces of a host.
#[tactic(auto, unfolding(host_rules::specs::Sending::own_addresses))]
pub fn own_addresses(alloc: Global, rows: &HostRows) -> Result<Vec<u32>, Memory>
    ensures { IfOk result (λ own. own.items ≡ own_addresses rows.now) }
{
    Ok(
        rows.ports
            .as_slice()
            .iter()
            .filter_map(|port| port.address)
            .collect(alloc)?,
    )
}

/// For each period of a host a table of its best routes.
pub fn tables_of(alloc: Global, rows: &HostRows) -> Result<Vec<RouteTable>, Memory>
    ensures { IfOk result (λ tables. AreTables rows.now.routes (length rows.now.routes) tables.items) }
{
    let periods = rows.routes.as_slice();
    let mut tables = Vec::new(alloc);
    for place in 0..periods.len() {
        tables.push(RouteTable::new(alloc, lookup::routes_in(periods, place))?)?;
    }
    Ok(tables)
}

impl Site {
    ghost use Rattle.std.specs.Prelude.{◌≡◌, [], length, slice_get};
    ghost use Rattle.std.specs.Option.{option_copied};
    ghost use Rattle.ip_layer.specs.Forwarding.{sent, received};
    ghost use Rattle.host_rules.specs.Hosts.{Stack};
    ghost use Rattle.host_rules.specs.Sending.{own_addresses, source_to, routes_among, address_of};
    ghost use Rattle.host_rules.specs.Hearing.{listens_on, server_address};
    ghost use Rattle.host_rules.specs.Limits.{AreRows};
    ghost use Rattle.host_sending.specs.Sites.{AreTables};

    /// A host with these rows, these addresses, and these tables of its periods.
    pub fn of(rows: HostRows, own: Vec<u32>, tables: Vec<RouteTable>) -> Site
        requires ranges { AreRows rows }
        requires own { own.items ≡ own_addresses rows }
        requires tables { AreTables rows.routes (length rows.routes) tables.items }
        ensures { result ≡ rows }
    {
        Site { rows, own, tables }
    }

    /// Tells a proof that the rows are in their ranges.
    pub fn known(&self)
        ensures { AreRows self.now }
    {
        let _own = self.own.len();
    }

    /// The rows.
    pub fn rows(&self) -> &HostRows
        ensures { result.now ≡ self.now }
    {
        &self.rows
    }

    /// The routes at this tick.
    pub fn routes(&self, now: u64) -> Routes<'_>
        ensures { result ≡ routes_among [] self.now.routes now }
    {
        let periods = self.rows.routes.as_slice();
        match lookup::last_begun(periods, now) {
            Some(place) => Routes::of(lookup::routes_in(periods, place), &self.tables[place]),
            None => Routes::none(),
        }
    }

    /// What becomes of a packet of the host's own, by these routes.
    pub fn sent(&self, routes: &Routes, packet: &Packet) -> Verdict
        ensures { result ≡ sent (own_addresses self.now) routes.now packet.now }
    {
        routes::sent(self.own.as_slice(), routes, packet)
    }

    /// What becomes of a packet that comes, by these routes.
    pub fn received(&self, routes: &Routes, packet: &Packet) -> Verdict
        ensures { result ≡ received (own_addresses self.now) routes.now packet.now }
    {
        routes::received(self.own.as_slice(), routes, packet)
    }

    /// Whether the host serves on this port.
    pub fn listens_on(&self, port: u16) -> bool
        ensures { result ≡ listens_on self.now port }
    {
        self.rows.listens.as_slice().contains(&port)
    }

    /// The address of a server's interface; 0 where it has none.
    pub fn server_address(&self, server: &ServerRow) -> u32
        ensures { result ≡ server_address self.now server.now }
    {
        lookup::second_of(self.rows.addresses.as_slice(), server.interface).unwrap_or(0)
    }

    /// The address of the interface by which the best route to this peer leaves at this tick; 0 where
    /// there is none.
    #[tactic(auto, unfolding(host_rules::specs::Sending::source_to, host_rules::specs::Sending::routes_at))]
    pub fn source_to(&self, now: u64, peer: u32) -> u32
        ensures { (s : Stack) → result ≡ source_to self.now s now peer }
    {
        let routes = self.routes(now);
        match routes.best(peer) {
            Some(place) => self.address_of(routes.route(place).interface),
            None => 0,
        }
    }

    /// The address of the interface of this place; 0 where it has none.
    fn address_of(&self, place: u32) -> u32
        ensures { result ≡ address_of (slice_get self.now.ports place) }
    {
        match self.port(place) {
            Some(port) => port.address.unwrap_or(0),
            None => 0,
        }
    }

    /// The interface of this place.
    pub fn port(&self, place: u32) -> Option<&HostPort>
        ensures { option_copied result ≡ slice_get self.now.ports place }
    {
        self.rows.ports.as_slice().get(place as usize)
    }

    /// The client session of this number.
    pub fn client(&self, client: u32) -> Option<&ClientRow>
        ensures { option_copied result ≡ slice_get self.now.clients client }
    {
        self.rows.clients.as_slice().get(client as usize)
    }

    /// The server of this place among those of the client sessions.
    pub fn server(&self, place: usize) -> Option<&ServerRow>
        ensures { option_copied result ≡ slice_get self.now.servers place }
    {
        self.rows.servers.as_slice().get(place)
    }
}
