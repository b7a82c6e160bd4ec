//! Looking up hosts and interfaces by their addresses.
ghost use Rattle.std.specs.Prelude.{◌≡◌, ◌<◌, None, length, position, slice_index_or, replicate, IfOk, IfErr};
ghost use Rattle.std.specs.Option.{ForSome};
ghost use Rattle.net_graph.specs.Names.{same};
ghost use Rattle.net_graph.specs.NetworkOf.{host_by_ids, first_interface, interface_by_nhi};
ghost use Rattle.net_graph.specs.Steps.{IsFew};
ghost use Rattle.net_resolve.specs.Tables.{noted, firsts_after};

use net_graph::{InterfaceRow, Seen, ShapeFault};
use nhi_address::Nhi;
use std::alloc::Global;
use std::marker::Model;

/// What the walk met, with a table of the first interface of each host. Contracts see what the walk
/// met.
#[derive(Drop)]
pub struct Found {
    seen: Seen,
    firsts: Vec<Option<u32>>,
}

impl Model for Found {
    ghost use Rattle.net_graph.specs.declared.seen.Seen.{Seen};
    ghost use Rattle.net_graph.specs.Steps.{IsFew};
    ghost use Rattle.net_resolve.specs.Tables.{IsFirsts};

    ghost Value = { Seen };

    ghost view = { λ f. f.seen };

    ghost invariant = { λ f. IsFew f.seen × IsFirsts f.seen f.firsts.items };
}

/// A table of that many hosts, none of which has an interface.
fn no_firsts(alloc: Global, hosts: usize) -> Result<Vec<Option<u32>>, ShapeFault>
    ensures none { IfOk result (λ firsts. firsts.items ≡ replicate hosts None) }
    ensures cause { IfErr result (λ fault. fault ≡ ShapeFault.Memory) }
{
    let firsts = vec![in alloc; None; hosts]?;
    Ok(firsts)
}

/// Notes an interface of a host, where those of smaller numbers came before.
fn note(firsts: &mut [Option<u32>], host: u32, number: u32)
    ensures { firsts.new ≡ noted firsts.old host number }
{
    let host = host as usize;
    if host < firsts.len() && firsts[host].is_none() {
        firsts[host] = Some(number);
    }
}

/// The table of the first interface of each host.
fn first_interfaces(
    alloc: Global,
    hosts: usize,
    rows: &[InterfaceRow],
) -> Result<Vec<Option<u32>>, ShapeFault>
    requires { length rows.now < 4294967296 }
    ensures firsts { IfOk result (λ firsts. firsts.items ≡ firsts_after (replicate hosts None) 0 rows.now) }
    ensures cause { IfErr result (λ fault. fault ≡ ShapeFault.Memory) }
{
    let mut firsts = no_firsts(alloc, hosts)?;
    for (number, row) in rows.iter().enumerate() {
        note(firsts.as_mut_slice(), row.host, number as u32);
    }
    Ok(firsts)
}

impl Found {
    /// What the walk met, with its table.
    pub fn new(alloc: Global, seen: Seen) -> Result<Found, ShapeFault>
        requires { IsFew seen }
        ensures found { IfOk result (λ found. found ≡ seen) }
        ensures cause { IfErr result (λ fault. fault ≡ ShapeFault.Memory) }
    {
        let firsts = first_interfaces(alloc, seen.host_names.len(), seen.interfaces.as_slice())?;
        Ok(Found { seen, firsts })
    }

    /// What the walk met.
    pub fn seen(&self) -> &Seen
        ensures seen { result.now ≡ self.now }
        ensures few { IsFew self.now }
    {
        &self.seen
    }

    /// What the walk met, without the table.
    pub fn into_seen(self) -> Seen
        ensures { result ≡ self }
    {
        let Found { seen, firsts: _ } = self;
        seen
    }

    /// The number of the host with a full NHI.
    pub fn host_at(&self, nhi: &Nhi) -> Option<u32>
        ensures { result ≡ host_by_ids self.now nhi.now.ids }
    {
        match self.seen.host_names.number_of(nhi.ids()) {
            Some(number) => Some(number as u32),
            None => None,
        }
    }

    /// The number of the first interface of the host with a full NHI.
    fn first_at(&self, nhi: &Nhi) -> Option<u32>
        ensures first { result ≡ first_interface self.now (host_by_ids self.now nhi.now.ids) }
        ensures there { ForSome result (λ n. n < length self.now.interfaces) }
    {
        match self.host_at(nhi) {
            Some(host) => first_of(self.firsts.as_slice(), host),
            None => None,
        }
    }

    /// The number of the interface with these ids, the last of which is its own.
    fn named(&self, ids: &[u32]) -> Option<u32>
        ensures named { result ≡ position (same ids.now) self.now.interface_names }
        ensures there { ForSome result (λ n. n < length self.now.interfaces) }
    {
        match self.seen.interface_names.number_of(ids) {
            Some(number) => Some(number as u32),
            None => None,
        }
    }

    /// The number of the interface with a full NHI; without an interface in it that of the host's first.
    ///
    /// # Errors
    /// `Memory`.
    pub fn interface_at(&self, alloc: Global, nhi: &Nhi) -> Result<Option<u32>, ShapeFault>
        ensures found { IfOk result (λ number. number ≡ interface_by_nhi self.now nhi.now nhi.now.interface) }
        ensures there { IfOk result (λ number. ForSome number (λ n. n < length self.now.interfaces)) }
        ensures cause { IfErr result (λ fault. fault ≡ ShapeFault.Memory) }
    {
        let Some(id) = nhi.interface else {
            return Ok(self.first_at(nhi));
        };
        let mut ids = Vec::from_slice(alloc, nhi.ids())?;
        ids.push(id)?;
        Ok(self.named(ids.as_slice()))
    }
}

/// The first interface of a host.
fn first_of(firsts: &[Option<u32>], host: u32) -> Option<u32>
    ensures { result ≡ slice_index_or firsts.now host None }
{
    match firsts.get(host as usize) {
        Some(first) => *first,
        None => None,
    }
}
