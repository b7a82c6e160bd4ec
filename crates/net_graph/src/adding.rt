//! What the walk over the tree of a Net adds to what it has met, with tables of the names met so far.
ghost use Rattle.std.specs.Prelude.{◌≡◌, ◌+◌, ◌≤◌, ◌<◌, ◌⊎◌, ◌++◌, [], ◌∷◌, length, None, Some, Ok, false, IfOk, IfErr, OnOk};
ghost use Rattle.std.specs.List.{list_any};
ghost use Rattle.std.specs.Option.{ForSome};
ghost use Rattle.nhi_address.specs.NhiFields.{IsId};
ghost use Rattle.net_graph.specs.Names.{same};
ghost use Rattle.net_graph.specs.SeenRows.{number_in, last_number, double_or_many};
ghost use Rattle.net_graph.specs.Steps.{empty, with_top, net_fault, with_net, host_fault, with_host, interface_fault, with_interface, session_fault, with_session, link_many, with_link, with_pattern, server_fault, with_server, IsFew, kids};

use crate::fault::too_many;
use crate::ids::IdPath;
use crate::list_keys::{GatewayKeys, InterfaceKeys, LinkKeys, ServerKeys, SessionKeys};
use crate::names::Paths;
use crate::seen::{HostSeen, LinkSeen, PatternSeen, Seen, ServerSeen, SessionSeen, TrafficSeen};
use crate::{InterfaceRow, NetRow, ShapeFault};
use nhi_address::Nhi;
use sim_base::ListOf;
use std::alloc::Global;

/// The most Nets, hosts with routers, links, and servers of patterns, of each.
pub const MOST_PARTS: usize = 65_536;

/// The most interfaces.
pub const MOST_INTERFACES: usize = 131_072;

/// The most sessions.
pub const MOST_SESSIONS: usize = 262_144;

/// The fault `DoubleId` of a Net, a host or an interface, or `Memory`.
fn double_id(alloc: Global, path: &IdPath, interface: Option<u32>) -> ShapeFault
    requires some { 0 < length path.now }
    requires interface { ForSome interface IsId }
    ensures { (result ≡ ShapeFault.Memory) ⊎ (result ≡ ShapeFault.DoubleId (record { ids = path.now; interface = interface })) }
{
    match path.address(alloc, interface) {
        Ok(nhi) => ShapeFault::DoubleId(nhi),
        Err(_) => ShapeFault::Memory,
    }
}

/// What a name answers that is no new one, with the address at fault, or that is one too many of
/// its kind.
fn check_new(
    alloc: Global,
    names: &Paths,
    name: &IdPath,
    owner: &IdPath,
    interface: Option<u32>,
    most: usize,
    kind: &[u8],
) -> Result<(), ShapeFault>
    requires some { 0 < length owner.now }
    requires interface { ForSome interface IsId }
    ensures fine { OnOk result (double_or_many names.now name.now (record { ids = owner.now; interface = interface }) most kind.now ≡ None) }
    ensures new { OnOk result (list_any (same name.now) names.now ≡ false) }
    ensures room { OnOk result (length names.now < most) }
    ensures cause { IfErr result (λ fault. (fault ≡ ShapeFault.Memory) ⊎ (double_or_many names.now name.now (record { ids = owner.now; interface = interface }) most kind.now ≡ Some fault)) }
{
    if names.has(name.as_slice()) {
        return Err(double_id(alloc, owner, interface));
    }
    if names.len() >= most {
        return Err(too_many(alloc, kind));
    }
    Ok(())
}

/// A default route once more.
fn copied_gateway(
    alloc: Global,
    gateway: &Option<GatewayKeys>,
) -> Result<Option<GatewayKeys>, ShapeFault>
    ensures copied { IfOk result (λ copy. copy ≡ gateway.now) }
    ensures cause { IfErr result (λ fault. fault ≡ ShapeFault.Memory) }
{
    let Some(keys) = gateway else {
        return Ok(None);
    };
    let Some(nhi) = &keys.next else {
        return Ok(Some(GatewayKeys {
            interface: keys.interface,
            next: None,
        }));
    };
    let next = Nhi::new(alloc, nhi.ids(), nhi.interface)?;
    Ok(Some(GatewayKeys {
        interface: keys.interface,
        next: Some(next),
    }))
}

impl Seen {
    /// Nothing at all; takes no memory.
    fn nothing(alloc: Global) -> Seen
        ensures { result ≡ empty }
    {
        Seen {
            nets: ListOf::new(alloc),
            net_names: Paths::new(alloc),
            hosts: ListOf::new(alloc),
            host_names: Paths::new(alloc),
            interfaces: ListOf::new(alloc),
            interface_names: Paths::new(alloc),
            links: ListOf::new(alloc),
            downs: 0,
            sessions: ListOf::new(alloc),
            traffic: ListOf::new(alloc),
            servers: 0,
        }
    }

    /// Adds the top Net, where there is no Net.
    fn add_top(&mut self, alloc: Global) -> Result<(), ShapeFault>
        requires { self.old.net_names ≡ [] }
        ensures added { OnOk result (self.new ≡ with_top self.old) }
        ensures cause { IfErr result (λ fault. fault ≡ ShapeFault.Memory) }
    {
        let path = IdPath::top(alloc);
        self.nets.push(NetRow {
            parent: None,
            order: 0,
            ids: ListOf::new(alloc),
        })?;
        self.net_names.add(alloc, path.as_slice())?;
        Ok(())
    }

    /// The top Net alone.
    pub(crate) fn top(alloc: Global) -> Result<Seen, ShapeFault>
        ensures top { IfOk result (λ seen. seen ≡ with_top empty) }
        ensures few { IfOk result IsFew }
        ensures cause { IfErr result (λ fault. fault ≡ ShapeFault.Memory) }
    {
        let mut seen = Seen::nothing(alloc);
        seen.add_top(alloc)?;
        Ok(seen)
    }

    /// The number of the Net with these ids.
    fn net_number(&self, path: &IdPath) -> u32
        requires { IsFew self.now }
        ensures { result ≡ number_in self.now.net_names path.now }
    {
        match self.net_names.number_of(path.as_slice()) {
            Some(number) => number as u32,
            None => 0,
        }
    }

    /// The number of the host that was met last.
    fn last_host(&self) -> u32
        requires { IsFew self.now }
        ensures { result ≡ last_number self.now.host_names }
    {
        self.host_names.len().saturating_sub(1) as u32
    }

    /// Adds a nested Net, whose ids are returned.
    pub(crate) fn add_net(
        &mut self,
        alloc: Global,
        parent: &IdPath,
        id: u32,
        order: u32,
    ) -> Result<IdPath, ShapeFault>
        requires few { IsFew self.old }
        requires id { IsId id }
        ensures fine { OnOk result (net_fault self.old parent.now id ≡ None) }
        ensures added { OnOk result (self.new ≡ with_net self.old parent.now id order) }
        ensures kids { OnOk result (kids self.new ≡ kids self.old + 1) }
        ensures ids { IfOk result (λ ids. ids ≡ parent.now ++ id ∷ []) }
        ensures few { OnOk result (IsFew self.new) }
        ensures cause { IfErr result (λ fault. (fault ≡ ShapeFault.Memory) ⊎ (net_fault self.old parent.now id ≡ Some fault)) }
    {
        let ids = parent.child(alloc, id)?;
        check_new(
            alloc,
            &self.net_names,
            &ids,
            &ids,
            None,
            MOST_PARTS,
            b"nets",
        )?;
        let number = self.net_number(parent);
        let own = Vec::from_slice(alloc, ids.as_slice())?;
        self.nets.push(NetRow {
            parent: Some(number),
            order,
            ids: ListOf::from_vec(own),
        })?;
        self.net_names.add(alloc, ids.as_slice())?;
        Ok(ids)
    }

    /// Adds a host or router, whose ids are returned.
    pub(crate) fn add_host(
        &mut self,
        alloc: Global,
        net: &IdPath,
        id: u32,
        router: bool,
        gateway: &Option<GatewayKeys>,
    ) -> Result<IdPath, ShapeFault>
        requires few { IsFew self.old }
        requires id { IsId id }
        requires gateway { ForSome gateway.now (λ keys. IsId keys.interface) }
        ensures fine { OnOk result (host_fault self.old net.now id ≡ None) }
        ensures added { OnOk result (self.new ≡ with_host self.old net.now id router gateway.now) }
        ensures ids { IfOk result (λ ids. ids ≡ net.now ++ id ∷ []) }
        ensures few { OnOk result (IsFew self.new) }
        ensures cause { IfErr result (λ fault. (fault ≡ ShapeFault.Memory) ⊎ (host_fault self.old net.now id ≡ Some fault)) }
    {
        let ids = net.child(alloc, id)?;
        check_new(
            alloc,
            &self.host_names,
            &ids,
            &ids,
            None,
            MOST_PARTS,
            b"hosts",
        )?;
        let number = self.net_number(net);
        let path = net.copied(alloc)?;
        let gateway = copied_gateway(alloc, gateway)?;
        self.hosts.push(HostSeen {
            net: number,
            path,
            id,
            router,
            gateway,
        })?;
        self.host_names.add(alloc, ids.as_slice())?;
        Ok(ids)
    }

    /// Adds an interface to the host with these ids, which was met last.
    pub(crate) fn add_interface(
        &mut self,
        alloc: Global,
        host: &IdPath,
        id: u32,
        keys: InterfaceKeys,
    ) -> Result<(), ShapeFault>
        requires few { IsFew self.old }
        requires id { IsId id }
        requires host { 0 < length host.now }
        ensures fine { OnOk result (interface_fault self.old host.now id ≡ None) }
        ensures added { OnOk result (self.new ≡ with_interface self.old host.now id keys) }
        ensures few { OnOk result (IsFew self.new) }
        ensures cause { IfErr result (λ fault. (fault ≡ ShapeFault.Memory) ⊎ (interface_fault self.old host.now id ≡ Some fault)) }
    {
        let ids = host.child(alloc, id)?;
        check_new(
            alloc,
            &self.interface_names,
            &ids,
            host,
            Some(id),
            MOST_INTERFACES,
            b"interfaces",
        )?;
        let number = self.last_host();
        self.interfaces.push(InterfaceRow {
            host: number,
            id,
            bitrate: keys.bitrate,
            latency: keys.latency,
            buffer: keys.buffer,
            cost: keys.cost,
            link: None,
        })?;
        self.interface_names.add(alloc, ids.as_slice())?;
        Ok(())
    }

    /// Adds a session of the host that was met last.
    pub(crate) fn add_session(&mut self, alloc: Global, keys: SessionKeys) -> Result<(), ShapeFault>
        requires few { IsFew self.old }
        ensures fine { OnOk result (session_fault self.old ≡ None) }
        ensures added { OnOk result (self.new ≡ with_session self.old keys) }
        ensures few { OnOk result (IsFew self.new) }
        ensures cause { IfErr result (λ fault. (fault ≡ ShapeFault.Memory) ⊎ (session_fault self.old ≡ Some fault)) }
    {
        if self.sessions.len() >= MOST_SESSIONS {
            return Err(too_many(alloc, b"sessions"));
        }
        let host = self.last_host();
        self.sessions.push(SessionSeen { host, keys })?;
        Ok(())
    }

    /// Adds a link of this Net.
    pub(crate) fn add_link(
        &mut self,
        alloc: Global,
        net: &IdPath,
        order: u32,
        keys: LinkKeys,
    ) -> Result<(), ShapeFault>
        requires few { IsFew self.old }
        requires downs { self.old.downs + length keys.downs ≤ 64 }
        ensures fine { OnOk result (link_many self.old ≡ None) }
        ensures added { OnOk result (self.new ≡ with_link self.old net.now order (Ok keys)) }
        ensures kids { OnOk result (kids self.new ≡ kids self.old + 1) }
        ensures few { OnOk result (IsFew self.new) }
        ensures cause { IfErr result (λ fault. (fault ≡ ShapeFault.Memory) ⊎ (link_many self.old ≡ Some fault)) }
    {
        if self.links.len() >= MOST_PARTS {
            return Err(too_many(alloc, b"links"));
        }
        let downs = self.downs + keys.downs.len();
        let number = self.net_number(net);
        let path = net.copied(alloc)?;
        self.links.push(LinkSeen {
            net: number,
            path,
            order,
            keys,
        })?;
        self.downs = downs;
        Ok(())
    }

    /// Adds a traffic pattern of this Net.
    pub(crate) fn add_pattern(
        &mut self,
        alloc: Global,
        net: &IdPath,
        client: Nhi,
    ) -> Result<(), ShapeFault>
        requires { IsFew self.old }
        ensures added { OnOk result (self.new ≡ with_pattern self.old net.now client) }
        ensures few { OnOk result (IsFew self.new) }
        ensures cause { IfErr result (λ fault. fault ≡ ShapeFault.Memory) }
    {
        let path = net.copied(alloc)?;
        self.traffic
            .push(TrafficSeen::Pattern(PatternSeen { path, client }))?;
        Ok(())
    }

    /// Adds a server of the pattern that came last, in this Net.
    pub(crate) fn add_server(
        &mut self,
        alloc: Global,
        net: &IdPath,
        keys: ServerKeys,
    ) -> Result<(), ShapeFault>
        requires { IsFew self.old }
        ensures fine { OnOk result (server_fault self.old ≡ None) }
        ensures added { OnOk result (self.new ≡ with_server self.old net.now keys) }
        ensures few { OnOk result (IsFew self.new) }
        ensures cause { IfErr result (λ fault. (fault ≡ ShapeFault.Memory) ⊎ (server_fault self.old ≡ Some fault)) }
    {
        if self.servers >= MOST_PARTS {
            return Err(too_many(alloc, b"patterns"));
        }
        let path = net.copied(alloc)?;
        self.traffic
            .push(TrafficSeen::Server(ServerSeen { path, keys }))?;
        self.servers += 1;
        Ok(())
    }
}
