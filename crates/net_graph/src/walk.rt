//! The walk over the tree of a Net, in one pass. Each function answers the first fault of what it
//! walks over, or `Memory`.
ghost use Rattle.std.specs.Prelude.{◌≡◌, ◌+◌, ◌-◌, ◌≤◌, ◌<◌, ◌⊎◌, ◌++◌, [], ◌∷◌, length, None, Some, Ok, Err, false, IfOk, IfErr, OnOk, codes};
ghost use Rattle.std.specs.List.{flat_map};
ghost use Rattle.std.specs.Option.{ForSome, option_copied};
ghost use Rattle.dml_tree.specs.TreeView.{attributes};
ghost use Rattle.nhi_address.specs.NhiFields.{IsId};
ghost use Rattle.net_graph.specs.Keys.{lists_of};
ghost use Rattle.net_graph.specs.ListKeys.{ids_at};
ghost use Rattle.net_graph.specs.Visits.{a_link, walk, ids_in, net_parts, net_copy, net_visits, other_visits, copies, host_parts, host_copy, host_visits, interface_visits, graph_visits, session_visits, traffic_visits, pattern_visits, server_visits};
ghost use Rattle.net_graph.specs.WalkedNets.{seen_by};
ghost use Rattle.net_graph.specs.Steps.{walked, IsFew, kids, list_in, visits_of, attribute_visits, attribute_children, host_attribute_visits, met_after};

use crate::ShapeFault;
use crate::ids::IdPath;
use crate::keys::has_key;
use crate::list_keys::{
    GatewayKeys, read_client, read_gateway, read_ids, read_interface, read_link, read_server,
    read_session,
};
use crate::seen::Seen;
use dml_tree::{Attribute, Tree, Value};
use nhi_address::IdRange;
use std::alloc::Global;

/// The list that an attribute with this key holds.
fn list_at<'a>(attribute: &'a Attribute, key: &[u8]) -> Option<&'a Tree>
    ensures { option_copied result ≡ list_in key.now attribute.now }
{
    if has_key(attribute, key) {
        if let Value::List(inner) = &attribute.value {
            return Some(inner);
        }
    }
    None
}

/// The walk over the tree of a top Net, where a second has so many ticks.
///
/// # Errors
/// The first fault that the walk meets: `BadNumber`, `Missing`, `BadNhi`, `UnknownSession`,
/// `DoubleId`, `TooMany`; and `Memory`.
pub fn walk_over(alloc: Global, frequency: u64, tree: &Tree) -> Result<Seen, ShapeFault>
    requires { frequency ≤ 1000000000000 }
    ensures seen { IfOk result (λ seen. seen_by frequency (walk frequency tree.now) ≡ Ok seen) }
    ensures few { IfOk result IsFew }
    ensures cause { IfErr result (λ fault. (fault ≡ ShapeFault.Memory) ⊎ (seen_by frequency (walk frequency tree.now) ≡ Err fault)) }
{
    let mut seen = Seen::top(alloc)?;
    let path = IdPath::top(alloc);
    seen.parts(alloc, frequency, &path, tree)?;
    Ok(seen)
}

impl Seen {
    /// The parts of a Net in written order.
    #[cycle(walk)]
    fn parts(
        &mut self,
        alloc: Global,
        frequency: u64,
        path: &IdPath,
        tree: &Tree,
    ) -> Result<(), ShapeFault>
        requires frequency { frequency ≤ 1000000000000 }
        requires few { IsFew self.old }
        ensures walked { OnOk result (walked frequency self.old (net_parts frequency path.now 0 tree.now) ≡ Ok self.new) }
        ensures few { OnOk result (IsFew self.new) }
        ensures cause { IfErr result (λ fault. (fault ≡ ShapeFault.Memory) ⊎ (walked frequency self.old (net_parts frequency path.now 0 tree.now) ≡ Err fault)) }
    {
        let mut order = 0;
        for attribute in tree.attributes() {
            order = self.part(alloc, frequency, path, order, attribute)?;
        }
        Ok(())
    }

    /// One part of a Net, of which so many links and Nets came before; answers how many they are then.
    #[cycle(walk)]
    fn part(
        &mut self,
        alloc: Global,
        frequency: u64,
        path: &IdPath,
        order: u32,
        attribute: &Attribute,
    ) -> Result<u32, ShapeFault>
        requires frequency { frequency ≤ 1000000000000 }
        requires few { IsFew self.old }
        requires order { order ≤ kids self.old }
        ensures walked { OnOk result (walked frequency self.old (attribute_visits frequency path.now order attribute.now) ≡ Ok self.new) }
        ensures order { IfOk result (λ next. next ≡ order + attribute_children attribute.now) }
        ensures kids { IfOk result (λ next. next ≤ kids self.new) }
        ensures few { OnOk result (IsFew self.new) }
        ensures cause { IfErr result (λ fault. (fault ≡ ShapeFault.Memory) ⊎ (walked frequency self.old (attribute_visits frequency path.now order attribute.now) ≡ Err fault)) }
    {
        let list = match &attribute.value {
            Value::Plain(_) => return Ok(order),
            Value::List(list) => list,
        };
        if has_key(attribute, b"Net") {
            return self.nested(alloc, frequency, path, order, list);
        }
        if has_key(attribute, b"link") {
            self.link(alloc, frequency, path, order, list)?;
            return Ok(order + 1);
        }
        self.other_part(alloc, frequency, path, attribute, list)?;
        Ok(order)
    }

    /// A part of a Net that is neither a Net nor a link.
    fn other_part(
        &mut self,
        alloc: Global,
        frequency: u64,
        path: &IdPath,
        attribute: &Attribute,
        list: &Tree,
    ) -> Result<(), ShapeFault>
        requires frequency { frequency ≤ 1000000000000 }
        requires few { IsFew self.old }
        ensures walked { OnOk result (walked frequency self.old (other_visits frequency path.now attribute.now.key list.now) ≡ Ok self.new) }
        ensures few { OnOk result (IsFew self.new) }
        ensures cause { IfErr result (λ fault. (fault ≡ ShapeFault.Memory) ⊎ (walked frequency self.old (other_visits frequency path.now attribute.now.key list.now) ≡ Err fault)) }
    {
        if has_key(attribute, b"host") {
            self.hosts(alloc, frequency, path, false, list)
        } else if has_key(attribute, b"router") {
            self.hosts(alloc, frequency, path, true, list)
        } else if has_key(attribute, b"traffic") {
            self.traffic(alloc, frequency, path, list)
        } else {
            Ok(())
        }
    }

    /// The copies of a nested Net; answers how many links and Nets of the parent came before or are these.
    #[cycle(walk)]
    fn nested(
        &mut self,
        alloc: Global,
        frequency: u64,
        parent: &IdPath,
        order: u32,
        list: &Tree,
    ) -> Result<u32, ShapeFault>
        requires frequency { frequency ≤ 1000000000000 }
        requires few { IsFew self.old }
        requires order { order ≤ kids self.old }
        ensures walked { OnOk result (walked frequency self.old (net_visits parent.now order list.now (λ ids. net_parts frequency ids 0 list.now)) ≡ Ok self.new) }
        ensures order { IfOk result (λ next. next ≡ order + copies (ids_at (attributes list.now))) }
        ensures kids { IfOk result (λ next. next ≤ kids self.new) }
        ensures few { OnOk result (IsFew self.new) }
        ensures cause { IfErr result (λ fault. (fault ≡ ShapeFault.Memory) ⊎ (walked frequency self.old (net_visits parent.now order list.now (λ ids. net_parts frequency ids 0 list.now)) ≡ Err fault)) }
    {
        let ids = read_ids(alloc, list)?;
        for id in ids.from..ids.to + 1 {
            self.net_copy(alloc, frequency, parent, ids.from, id, order, list)?;
        }
        Ok(order + (ids.to + 1 - ids.from))
    }

    /// One copy of a nested Net, and its parts. The copy with the first id has this order.
    #[cycle(walk)]
    fn net_copy(
        &mut self,
        alloc: Global,
        frequency: u64,
        parent: &IdPath,
        first: u32,
        id: u32,
        order: u32,
        list: &Tree,
    ) -> Result<(), ShapeFault>
        requires frequency { frequency ≤ 1000000000000 }
        requires few { IsFew self.old }
        requires id { IsId id }
        requires first { first ≤ id }
        requires order { order + (id - first) ≤ kids self.old }
        ensures walked { OnOk result (walked frequency self.old (net_copy parent.now (λ ids. net_parts frequency ids 0 list.now) order first id) ≡ Ok self.new) }
        ensures kids { OnOk result (kids self.old + 1 ≤ kids self.new) }
        ensures few { OnOk result (IsFew self.new) }
        ensures cause { IfErr result (λ fault. (fault ≡ ShapeFault.Memory) ⊎ (walked frequency self.old (net_copy parent.now (λ ids. net_parts frequency ids 0 list.now) order first id) ≡ Err fault)) }
    {
        let path = self.add_net(alloc, parent, id, order + (id - first))?;
        self.parts(alloc, frequency, &path, list)?;
        Ok(())
    }

    /// The copies of a host or router.
    fn hosts(
        &mut self,
        alloc: Global,
        frequency: u64,
        net: &IdPath,
        router: bool,
        list: &Tree,
    ) -> Result<(), ShapeFault>
        requires frequency { frequency ≤ 1000000000000 }
        requires few { IsFew self.old }
        ensures walked { OnOk result (walked frequency self.old (host_visits frequency router net.now list.now) ≡ Ok self.new) }
        ensures few { OnOk result (IsFew self.new) }
        ensures cause { IfErr result (λ fault. (fault ≡ ShapeFault.Memory) ⊎ (walked frequency self.old (host_visits frequency router net.now list.now) ≡ Err fault)) }
    {
        let ids = read_ids(alloc, list)?;
        let gateway = read_gateway(alloc, list)?;
        self.host_copies(alloc, frequency, net, ids, router, &gateway, list)?;
        Ok(())
    }

    /// The copies of a host or router with these ids and this default route.
    fn host_copies(
        &mut self,
        alloc: Global,
        frequency: u64,
        net: &IdPath,
        ids: IdRange,
        router: bool,
        gateway: &Option<GatewayKeys>,
        list: &Tree,
    ) -> Result<(), ShapeFault>
        requires frequency { frequency ≤ 1000000000000 }
        requires few { IsFew self.old }
        requires ids { ids.to < 2147483648 }
        requires gateway { ForSome gateway.now (λ keys. IsId keys.interface) }
        ensures walked { OnOk result (walked frequency self.old (flat_map (host_copy frequency router net.now list.now gateway.now) (ids_in ids)) ≡ Ok self.new) }
        ensures few { OnOk result (IsFew self.new) }
        ensures cause { IfErr result (λ fault. (fault ≡ ShapeFault.Memory) ⊎ (walked frequency self.old (flat_map (host_copy frequency router net.now list.now gateway.now) (ids_in ids)) ≡ Err fault)) }
    {
        for id in ids.from..ids.to + 1 {
            self.host_copy(alloc, frequency, net, id, router, gateway, list)?;
        }
        Ok(())
    }

    /// One copy of a host or router, and its parts.
    fn host_copy(
        &mut self,
        alloc: Global,
        frequency: u64,
        net: &IdPath,
        id: u32,
        router: bool,
        gateway: &Option<GatewayKeys>,
        list: &Tree,
    ) -> Result<(), ShapeFault>
        requires frequency { frequency ≤ 1000000000000 }
        requires few { IsFew self.old }
        requires id { IsId id }
        requires gateway { ForSome gateway.now (λ keys. IsId keys.interface) }
        ensures walked { OnOk result (walked frequency self.old (host_copy frequency router net.now list.now gateway.now id) ≡ Ok self.new) }
        ensures few { OnOk result (IsFew self.new) }
        ensures cause { IfErr result (λ fault. (fault ≡ ShapeFault.Memory) ⊎ (walked frequency self.old (host_copy frequency router net.now list.now gateway.now id) ≡ Err fault)) }
    {
        let host = self.add_host(alloc, net, id, router, gateway)?;
        self.host_parts(alloc, frequency, &host, list)?;
        Ok(())
    }

    /// The interfaces of a host, and the sessions of its first list `graph`.
    fn host_parts(
        &mut self,
        alloc: Global,
        frequency: u64,
        host: &IdPath,
        list: &Tree,
    ) -> Result<(), ShapeFault>
        requires frequency { frequency ≤ 1000000000000 }
        requires few { IsFew self.old }
        requires host { 0 < length host.now }
        ensures walked { OnOk result (walked frequency self.old (host_parts frequency host.now false list.now) ≡ Ok self.new) }
        ensures few { OnOk result (IsFew self.new) }
        ensures cause { IfErr result (λ fault. (fault ≡ ShapeFault.Memory) ⊎ (walked frequency self.old (host_parts frequency host.now false list.now) ≡ Err fault)) }
    {
        let mut met = false;
        for attribute in list.attributes() {
            met = self.host_part(alloc, frequency, host, met, attribute)?;
        }
        Ok(())
    }

    /// One part of a host, where a list `graph` was met before or not; answers whether one was met then.
    fn host_part(
        &mut self,
        alloc: Global,
        frequency: u64,
        host: &IdPath,
        met: bool,
        attribute: &Attribute,
    ) -> Result<bool, ShapeFault>
        requires frequency { frequency ≤ 1000000000000 }
        requires few { IsFew self.old }
        requires host { 0 < length host.now }
        ensures walked { OnOk result (walked frequency self.old (host_attribute_visits frequency host.now met attribute.now) ≡ Ok self.new) }
        ensures met { IfOk result (λ next. next ≡ met_after met attribute.now) }
        ensures few { OnOk result (IsFew self.new) }
        ensures cause { IfErr result (λ fault. (fault ≡ ShapeFault.Memory) ⊎ (walked frequency self.old (host_attribute_visits frequency host.now met attribute.now) ≡ Err fault)) }
    {
        let list = match &attribute.value {
            Value::Plain(_) => return Ok(met),
            Value::List(list) => list,
        };
        if has_key(attribute, b"interface") {
            self.interfaces(alloc, frequency, host, list)?;
            return Ok(met);
        }
        if has_key(attribute, b"graph") {
            if met {
                return Ok(true);
            }
            self.graph(alloc, frequency, list)?;
            return Ok(true);
        }
        Ok(met)
    }

    /// The copies of an interface.
    fn interfaces(
        &mut self,
        alloc: Global,
        frequency: u64,
        host: &IdPath,
        list: &Tree,
    ) -> Result<(), ShapeFault>
        requires few { IsFew self.old }
        requires host { 0 < length host.now }
        ensures walked { OnOk result (walked frequency self.old (interface_visits frequency host.now list.now) ≡ Ok self.new) }
        ensures few { OnOk result (IsFew self.new) }
        ensures cause { IfErr result (λ fault. (fault ≡ ShapeFault.Memory) ⊎ (walked frequency self.old (interface_visits frequency host.now list.now) ≡ Err fault)) }
    {
        let ids = read_ids(alloc, list)?;
        let keys = read_interface(alloc, list, frequency)?;
        for id in ids.from..ids.to + 1 {
            self.add_interface(alloc, host, id, keys)?;
        }
        Ok(())
    }

    /// The sessions of a list `graph`.
    fn graph(&mut self, alloc: Global, frequency: u64, graph: &Tree) -> Result<(), ShapeFault>
        requires frequency { frequency ≤ 1000000000000 }
        requires few { IsFew self.old }
        ensures walked { OnOk result (walked frequency self.old (graph_visits frequency graph.now) ≡ Ok self.new) }
        ensures few { OnOk result (IsFew self.new) }
        ensures cause { IfErr result (λ fault. (fault ≡ ShapeFault.Memory) ⊎ (walked frequency self.old (graph_visits frequency graph.now) ≡ Err fault)) }
    {
        for attribute in graph.attributes() {
            self.graph_part(alloc, frequency, attribute)?;
        }
        Ok(())
    }

    /// The session that one attribute of a list `graph` may be.
    fn graph_part(
        &mut self,
        alloc: Global,
        frequency: u64,
        attribute: &Attribute,
    ) -> Result<(), ShapeFault>
        requires frequency { frequency ≤ 1000000000000 }
        requires few { IsFew self.old }
        ensures walked { OnOk result (walked frequency self.old (visits_of (session_visits frequency) (list_in (codes "ProtocolSession") attribute.now)) ≡ Ok self.new) }
        ensures few { OnOk result (IsFew self.new) }
        ensures cause { IfErr result (λ fault. (fault ≡ ShapeFault.Memory) ⊎ (walked frequency self.old (visits_of (session_visits frequency) (list_in (codes "ProtocolSession") attribute.now)) ≡ Err fault)) }
    {
        match list_at(attribute, b"ProtocolSession") {
            Some(list) => self.session(alloc, frequency, list),
            None => Ok(()),
        }
    }

    /// One session of the host that was met last.
    fn session(&mut self, alloc: Global, frequency: u64, list: &Tree) -> Result<(), ShapeFault>
        requires frequency { frequency ≤ 1000000000000 }
        requires few { IsFew self.old }
        ensures walked { OnOk result (walked frequency self.old (session_visits frequency list.now) ≡ Ok self.new) }
        ensures few { OnOk result (IsFew self.new) }
        ensures cause { IfErr result (λ fault. (fault ≡ ShapeFault.Memory) ⊎ (walked frequency self.old (session_visits frequency list.now) ≡ Err fault)) }
    {
        let keys = read_session(alloc, list, frequency)?;
        self.add_session(alloc, keys)?;
        Ok(())
    }

    /// One link of a Net, of which so many links and Nets came before.
    fn link(
        &mut self,
        alloc: Global,
        frequency: u64,
        net: &IdPath,
        order: u32,
        list: &Tree,
    ) -> Result<(), ShapeFault>
        requires few { IsFew self.old }
        ensures walked { OnOk result (walked frequency self.old (a_link net.now order list.now ∷ []) ≡ Ok self.new) }
        ensures kids { OnOk result (kids self.new ≡ kids self.old + 1) }
        ensures few { OnOk result (IsFew self.new) }
        ensures cause { IfErr result (λ fault. (fault ≡ ShapeFault.Memory) ⊎ (walked frequency self.old (a_link net.now order list.now ∷ []) ≡ Err fault)) }
    {
        let keys = read_link(alloc, list, frequency, self.downs)?;
        self.add_link(alloc, net, order, keys)?;
        Ok(())
    }

    /// The patterns of a list `traffic`.
    fn traffic(
        &mut self,
        alloc: Global,
        frequency: u64,
        net: &IdPath,
        list: &Tree,
    ) -> Result<(), ShapeFault>
        requires few { IsFew self.old }
        ensures walked { OnOk result (walked frequency self.old (traffic_visits net.now list.now) ≡ Ok self.new) }
        ensures few { OnOk result (IsFew self.new) }
        ensures cause { IfErr result (λ fault. (fault ≡ ShapeFault.Memory) ⊎ (walked frequency self.old (traffic_visits net.now list.now) ≡ Err fault)) }
    {
        for attribute in list.attributes() {
            self.traffic_part(alloc, frequency, net, attribute)?;
        }
        Ok(())
    }

    /// The pattern that one attribute of a list `traffic` may be.
    fn traffic_part(
        &mut self,
        alloc: Global,
        frequency: u64,
        net: &IdPath,
        attribute: &Attribute,
    ) -> Result<(), ShapeFault>
        requires few { IsFew self.old }
        ensures walked { OnOk result (walked frequency self.old (visits_of (pattern_visits net.now) (list_in (codes "pattern") attribute.now)) ≡ Ok self.new) }
        ensures few { OnOk result (IsFew self.new) }
        ensures cause { IfErr result (λ fault. (fault ≡ ShapeFault.Memory) ⊎ (walked frequency self.old (visits_of (pattern_visits net.now) (list_in (codes "pattern") attribute.now)) ≡ Err fault)) }
    {
        match list_at(attribute, b"pattern") {
            Some(list) => self.pattern(alloc, frequency, net, list),
            None => Ok(()),
        }
    }

    /// One pattern, and its servers.
    fn pattern(
        &mut self,
        alloc: Global,
        frequency: u64,
        net: &IdPath,
        list: &Tree,
    ) -> Result<(), ShapeFault>
        requires few { IsFew self.old }
        ensures walked { OnOk result (walked frequency self.old (pattern_visits net.now list.now) ≡ Ok self.new) }
        ensures few { OnOk result (IsFew self.new) }
        ensures cause { IfErr result (λ fault. (fault ≡ ShapeFault.Memory) ⊎ (walked frequency self.old (pattern_visits net.now list.now) ≡ Err fault)) }
    {
        let client = read_client(alloc, list)?;
        self.add_pattern(alloc, net, client)?;
        self.servers(alloc, frequency, net, list)?;
        Ok(())
    }

    /// The servers of a pattern.
    fn servers(
        &mut self,
        alloc: Global,
        frequency: u64,
        net: &IdPath,
        list: &Tree,
    ) -> Result<(), ShapeFault>
        requires few { IsFew self.old }
        ensures walked { OnOk result (walked frequency self.old (flat_map (server_visits net.now) (lists_of (codes "servers") (attributes list.now))) ≡ Ok self.new) }
        ensures few { OnOk result (IsFew self.new) }
        ensures cause { IfErr result (λ fault. (fault ≡ ShapeFault.Memory) ⊎ (walked frequency self.old (flat_map (server_visits net.now) (lists_of (codes "servers") (attributes list.now))) ≡ Err fault)) }
    {
        for attribute in list.attributes() {
            self.pattern_part(alloc, frequency, net, attribute)?;
        }
        Ok(())
    }

    /// The server that one attribute of a pattern may be.
    fn pattern_part(
        &mut self,
        alloc: Global,
        frequency: u64,
        net: &IdPath,
        attribute: &Attribute,
    ) -> Result<(), ShapeFault>
        requires few { IsFew self.old }
        ensures walked { OnOk result (walked frequency self.old (visits_of (server_visits net.now) (list_in (codes "servers") attribute.now)) ≡ Ok self.new) }
        ensures few { OnOk result (IsFew self.new) }
        ensures cause { IfErr result (λ fault. (fault ≡ ShapeFault.Memory) ⊎ (walked frequency self.old (visits_of (server_visits net.now) (list_in (codes "servers") attribute.now)) ≡ Err fault)) }
    {
        match list_at(attribute, b"servers") {
            Some(list) => self.server(alloc, frequency, net, list),
            None => Ok(()),
        }
    }

    /// One server of the pattern that came last.
    fn server(
        &mut self,
        alloc: Global,
        _frequency: u64,
        net: &IdPath,
        list: &Tree,
    ) -> Result<(), ShapeFault>
        requires few { IsFew self.old }
        ensures walked { OnOk result (walked _frequency self.old (server_visits net.now list.now) ≡ Ok self.new) }
        ensures few { OnOk result (IsFew self.new) }
        ensures cause { IfErr result (λ fault. (fault ≡ ShapeFault.Memory) ⊎ (walked _frequency self.old (server_visits net.now list.now) ≡ Err fault)) }
    {
        let keys = read_server(alloc, list)?;
        self.add_server(alloc, net, keys)?;
        Ok(())
    }
}
