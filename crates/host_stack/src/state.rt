//! The state of a host.
ghost use Rattle.std.specs.Prelude.{◌≡◌, ◌≤◌, map, length, IfOk};
ghost use Rattle.ssf_model.specs.Reaction.{Each, LongestDelay};
ghost use Rattle.net_iface.specs.InterfaceFields.{IsRated};
ghost use Rattle.traffic.specs.Progress.{IsProgress};
ghost use Rattle.host_rules.specs.declared.rows.HostPort.{HostPort as HostPortValue};
ghost use Rattle.host_rules.specs.Hosts.{starts_of, idle_interface, first_stack};
ghost use Rattle.host_rules.specs.Sending.{own_addresses};
ghost use Rattle.host_rules.specs.Limits.{AreRows, IsTimedClient};
ghost use Rattle.host_sending.specs.Sites.{AreTables};
ghost use Rattle.host_stack.specs.Keeping.{IsState};

use crate::Stack;
use host_roles::{Process, is_placed, process_at};
use host_rules::{HostPort, HostRows};
use host_sending::{Interfaces, Site, own_addresses, tables_of};
use host_sessions::Sessions;
use ip_layer::Packet;
use net_iface::Interface;
use rand_core::SeedableRng;
use rand_pcg::Pcg32;
use route_table::RouteTable;
use sim_base::Memory;
use ssf_model::{Out, Process as EntityProcess, Wait, Wake};
use std::alloc::Global;
use std::marker::Model;
use traffic::{Apps, start_ticks};

/// The state of a host: its rows, the ticks at which its client sessions start, and what events
/// change of it. Contracts see the record of these.
#[derive(Drop)]
pub struct HostState {
    site: Site,
    starts: Vec<u64>,
    stack: Stack,
}

impl Model for HostState {
    ghost use Rattle.host_rules.specs.Hosts.{HostFields};
    ghost use Rattle.host_stack.specs.Keeping.{IsState};

    ghost Value = { HostFields };

    ghost view = { λ s. record { rows = s.site; starts = s.starts.items; stack = s.stack } };

    ghost invariant = { λ s. IsState s.site s.starts.items s.stack };
}

/// The starts of the client sessions of a host, drawn one after another.
fn draw_starts(alloc: Global, rows: &HostRows) -> Result<Vec<u64>, Memory>
    requires { Each IsTimedClient rows.now.clients }
    ensures starts { IfOk result (λ starts. starts.items ≡ starts_of rows.now) }
    ensures early { IfOk result (λ starts. Each (λ start. start ≤ LongestDelay) starts.items) }
    ensures count { IfOk result (λ starts. length starts.items ≡ length rows.now.clients) }
{
    let mut stream = Pcg32::seed_from_u64(u64::from(rows.number));
    let mut starts = Vec::new(alloc);
    let clients = rows.clients.as_slice();
    for client in clients {
        starts.push(start_ticks(&mut stream, client.start, client.window))?;
    }
    Ok(starts)
}

/// The interfaces of a host, which are idle.
fn idle_interfaces(alloc: Global, frequency: u64, ports: &[HostPort]) -> Result<Interfaces, Memory>
    requires { Each (λ (port : HostPortValue). IsRated port.bitrate frequency port.buffer) ports.now }
    ensures { IfOk result (λ interfaces. interfaces ≡ map (idle_interface frequency) ports.now) }
{
    let mut interfaces = Vec::new(alloc);
    for port in ports {
        interfaces.push(Interface::new(port.bitrate, frequency, port.buffer))?;
    }
    Ok(Interfaces::of(interfaces))
}

/// What events change of a host, before the first of them.
fn first_stack(alloc: Global, rows: &HostRows) -> Result<Stack, Memory>
    requires { AreRows rows.now }
    ensures stack { IfOk result (λ stack. stack ≡ first_stack rows.now) }
    ensures progress { IfOk result (λ stack. IsProgress stack.apps) }
{
    let clients = rows.clients.as_slice();
    let interfaces = idle_interfaces(alloc, rows.tcp.frequency, rows.ports.as_slice())?;
    let apps = Apps::new(alloc, clients, rows.servers.as_slice())?;
    apps.known();
    let left = vec![in alloc; 0; clients.len()]?;
    Ok(Stack {
        interfaces,
        apps,
        left,
        sessions: Sessions::new(alloc),
        opened: 0,
        made: 0,
    })
}

/// What a host has besides its rows, before its first event: the addresses of its interfaces, a
/// table of the best routes for each period, the starts of its client sessions, and what events change.
#[derive(Drop)]
struct Parts {
    own: Vec<u32>,
    tables: Vec<RouteTable>,
    starts: Vec<u64>,
    stack: Stack,
}

/// The parts of a host with these rows.
fn parts_of(alloc: Global, rows: &HostRows) -> Result<Parts, Memory>
    requires { AreRows rows.now }
    ensures own { IfOk result (λ parts. parts.own.items ≡ own_addresses rows.now) }
    ensures tables { IfOk result (λ parts. AreTables rows.now.routes (length rows.now.routes) parts.tables.items) }
    ensures starts { IfOk result (λ parts. parts.starts.items ≡ starts_of rows.now) }
    ensures stack { IfOk result (λ parts. parts.stack ≡ first_stack rows.now) }
    ensures valid { IfOk result (λ parts. IsState rows.now parts.starts.items parts.stack) }
{
    let own = own_addresses(alloc, rows)?;
    let tables = tables_of(alloc, rows)?;
    let starts = draw_starts(alloc, rows)?;
    let stack = first_stack(alloc, rows)?;
    Ok(Parts {
        own,
        tables,
        starts,
        stack,
    })
}

impl HostState {
    ghost use Rattle.std.specs.Prelude.{◌≡◌, ◌≤◌, ◌^◌, ◌++◌, ◌↔◌, IfOk, OnOk, IsTrue, map};
    ghost use Rattle.ssf_model.specs.Reaction.{is_timed};
    ghost use Rattle.host_rules.specs.Hosts.{first_host};
    ghost use Rattle.host_rules.specs.Reacting.{host_reaction};
    ghost use Rattle.host_rules.specs.Limits.{AreRows, IsHost};

    /// A host with these rows, before its first event.
    ///
    /// # Errors
    /// `Memory`.
    pub fn new(alloc: Global, rows: HostRows) -> Result<HostState, Memory>
        requires { AreRows rows }
        ensures { IfOk result (λ state. state ≡ first_host rows) }
    {
        let Parts {
            own,
            tables,
            starts,
            stack,
        } = parts_of(alloc, &rows)?;
        Ok(HostState {
            site: Site::of(rows, own, tables),
            starts,
            stack,
        })
    }

    /// Whether the host is valid in an entity with these own in-channels and out-channels, these
    /// processes, and these waits of theirs.
    pub fn is_placed(
        &self,
        ins: &[u32],
        outs: &[u32],
        processes: &[EntityProcess],
        waits: &[Wait],
    ) -> bool
        ensures { IsTrue result ↔ IsHost self.now ins.now outs.now (map is_timed processes.now) waits.now }
    {
        self.site.known();
        is_placed(&self.site, ins, outs, processes, waits)
    }

    /// What the process of this number does at the tick `now`, at most 10^18.
    ///
    /// # Errors
    /// `Memory`; then nothing is said of the host but that it is in range, and nothing of what was
    /// written and told.
    pub fn act(
        &mut self,
        alloc: Global,
        process: u32,
        now: u64,
        wake: &Wake<Packet>,
        out: &mut Out<Packet>,
    ) -> Result<Wait, Memory>
        requires { now ≤ 10 ^ 18 }
        ensures state { OnOk result (self.new ≡ (host_reaction self.old process now wake.now).state) }
        ensures wait { IfOk result (λ wait. wait ≡ (host_reaction self.old process now wake.now).wait) }
        ensures writes { OnOk result (out.new.writes ≡ out.old.writes ++ (host_reaction self.old process now wake.now).writes) }
        ensures lines { OnOk result (out.new.lines ≡ out.old.lines ++ (host_reaction self.old process now wake.now).lines) }
    {
        let Some(role) = process_at(&self.site, process) else {
            return Ok(Wait::Forever);
        };
        match role {
            Process::Clock => self.stack.keep_time(alloc, &self.site, now, wake, out),
            Process::Receiver(place) => match self.site.port(place) {
                Some(port) => self.stack.receive(alloc, &self.site, port, now, wake, out),
                None => unreachable!(),
            },
            Process::Client(client) => match self.site.client(client) {
                Some(row) => {
                    let start = self.starts[client as usize];
                    self.stack
                        .serve_client(alloc, &self.site, start, now, client, row, wake, out)
                }
                None => unreachable!(),
            },
        }
    }
}
