//! The attachments of links.
ghost use Rattle.std.specs.Prelude.{◌≡◌, ◌+◌, ◌<◌, ◌≤◌, ◌⊎◌, Some, None, Ok, Err, length, map, slice_index_or, replicate, IfOk, IfErr, OnOk};
ghost use Rattle.net_graph.specs.NetworkOf.{attachments_of, attachments, interface_by_nhi};
ghost use Rattle.net_resolve.specs.Tables.{attachment_to, put, put_all, taken, interface_of, link_row, link_rows_from, placed_rows};

use crate::found::Found;
use net_graph::{Down, InterfaceRow, LinkRow, LinkSeen, ShapeFault};
use nhi_address::Nhi;
use sim_base::ListOf;
use std::alloc::Global;

/// A table of that many interfaces, none of which is attached.
pub fn no_places(alloc: Global, interfaces: usize) -> Result<Vec<Option<(u32, u32)>>, ShapeFault>
    ensures none { IfOk result (λ places. places.items ≡ replicate interfaces None) }
    ensures cause { IfErr result (λ fault. fault ≡ ShapeFault.Memory) }
{
    let places = vec![in alloc; None; interfaces]?;
    Ok(places)
}

/// Where an interface is attached: the link's number, and the place among its attachments.
pub fn place_of(places: &[Option<(u32, u32)>], interface: u32) -> Option<(u32, u32)>
    ensures { result ≡ slice_index_or places.now interface None }
{
    match places.get(interface as usize) {
        Some(place) => *place,
        None => None,
    }
}

/// Attaches the interface with a full NHI to a link, at this place there; answers its number.
///
/// # Errors
/// `UnknownNhi`, `AttachedTwice`, or `Memory`.
fn attach_one(
    alloc: Global,
    found: &Found,
    places: &mut [Option<(u32, u32)>],
    link: u32,
    place: u32,
    nhi: Nhi,
) -> Result<u32, ShapeFault>
    requires { length places.old ≡ length found.now.interfaces }
    ensures put { OnOk result (put places.old (attachment_to found.now link place nhi) ≡ Ok places.new) }
    ensures number { IfOk result (λ number. interface_by_nhi found.now nhi nhi.interface ≡ Some number) }
    ensures taken { OnOk result (taken places.new ≡ taken places.old + 1) }
    ensures length { length places.new ≡ length places.old }
    ensures cause { IfErr result (λ fault. (fault ≡ ShapeFault.Memory) ⊎ (put places.old (attachment_to found.now link place nhi) ≡ Err fault)) }
{
    let Some(interface) = found.interface_at(alloc, &nhi)? else {
        return Err(ShapeFault::UnknownNhi(nhi));
    };
    match place_of(places, interface) {
        Some(_) => Err(ShapeFault::AttachedTwice(nhi)),
        None => {
            places[interface as usize] = Some((link, place));
            Ok(interface)
        }
    }
}

/// Attaches all that a link attaches; answers the numbers of the interfaces.
fn attach(
    alloc: Global,
    found: &Found,
    places: &mut [Option<(u32, u32)>],
    number: u32,
    link: &LinkSeen,
) -> Result<Vec<u32>, ShapeFault>
    requires places { length places.old ≡ length found.now.interfaces }
    requires few { length found.now.interfaces ≤ 131072 }
    ensures put { OnOk result (put_all places.old (attachments_of found.now number link.now.path 0 link.now.keys.attached) ≡ Ok places.new) }
    ensures attached { IfOk result (λ attached. attached.items ≡ map interface_of (attachments_of found.now number link.now.path 0 link.now.keys.attached)) }
    ensures length { length places.new ≡ length places.old }
    ensures cause { IfErr result (λ fault. (fault ≡ ShapeFault.Memory) ⊎ (put_all places.old (attachments_of found.now number link.now.path 0 link.now.keys.attached) ≡ Err fault)) }
{
    let mut attached = Vec::new(alloc);
    for nhi in link.keys.attached.as_slice() {
        let place = attached.len() as u32;
        let nhi = link.path.full(alloc, nhi)?;
        let interface = attach_one(alloc, found, places, number, place, nhi)?;
        attached.push(interface)?;
    }
    Ok(attached)
}

/// The row of a link, which it attaches.
fn attached_link(
    alloc: Global,
    found: &Found,
    places: &mut [Option<(u32, u32)>],
    number: u32,
    link: &LinkSeen,
) -> Result<LinkRow, ShapeFault>
    requires places { length places.old ≡ length found.now.interfaces }
    requires few { length found.now.interfaces ≤ 131072 }
    ensures put { OnOk result (put_all places.old (attachments_of found.now number link.now.path 0 link.now.keys.attached) ≡ Ok places.new) }
    ensures row { IfOk result (λ row. row ≡ link_row found.now number link.now) }
    ensures length { length places.new ≡ length places.old }
    ensures cause { IfErr result (λ fault. (fault ≡ ShapeFault.Memory) ⊎ (put_all places.old (attachments_of found.now number link.now.path 0 link.now.keys.attached) ≡ Err fault)) }
{
    let attached = attach(alloc, found, places, number, link)?;
    let downs: Vec<Down> = Vec::from_slice(alloc, link.keys.downs.as_slice())?;
    Ok(LinkRow {
        net: link.net,
        order: link.order,
        delay: link.keys.delay,
        attached: ListOf::from_vec(attached),
        priority: link.keys.priority,
        downs: ListOf::from_vec(downs),
    })
}

/// Attaches all links in their order; answers their rows.
pub fn attach_all(
    alloc: Global,
    found: &Found,
    places: &mut [Option<(u32, u32)>],
) -> Result<Vec<LinkRow>, ShapeFault>
    requires { length places.old ≡ length found.now.interfaces }
    ensures put { OnOk result (put_all places.old (attachments found.now) ≡ Ok places.new) }
    ensures rows { IfOk result (λ rows. rows.items ≡ link_rows_from found.now 0 found.now.links) }
    ensures length { length places.new ≡ length places.old }
    ensures cause { IfErr result (λ fault. (fault ≡ ShapeFault.Memory) ⊎ (put_all places.old (attachments found.now) ≡ Err fault)) }
{
    let mut rows = Vec::new(alloc);
    for link in found.seen().links.as_slice() {
        let number = rows.len() as u32;
        let row = attached_link(alloc, found, places, number, link)?;
        rows.push(row)?;
    }
    Ok(rows)
}

/// The rows of interfaces, with the places where they are attached.
pub fn interface_rows(
    alloc: Global,
    places: &[Option<(u32, u32)>],
    rows: &[InterfaceRow],
) -> Result<Vec<InterfaceRow>, ShapeFault>
    requires { length rows.now < 4294967296 }
    ensures rows { IfOk result (λ placed. placed.items ≡ placed_rows places.now 0 rows.now) }
    ensures cause { IfErr result (λ fault. fault ≡ ShapeFault.Memory) }
{
    let mut placed = Vec::new(alloc);
    for row in rows {
        let link = place_of(places, placed.len() as u32);
        placed.push(InterfaceRow { link, ..*row })?;
    }
    Ok(placed)
}
