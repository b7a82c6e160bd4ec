//! The interfaces of a host, and how it sends a packet.
ghost use Rattle.std.specs.Prelude.{◌≡◌, ◌≤◌, ◌^◌, ◌++◌, ◌∷◌, [], OnOk, slice_get};
ghost use Rattle.std.specs.Option.{option_map};
ghost use Rattle.net_iface.specs.InterfaceFields.{InterfaceFields};
ghost use Rattle.net_iface.specs.DropTail.{offered};
ghost use Rattle.ssf_model.specs.declared.event.Line.TheVariants.{Dropped as DroppedLine};
ghost use Rattle.host_rules.specs.Hosts.{Stack as StackFields};
ghost use Rattle.host_rules.specs.Sending.{answered, next_hop};
ghost use Rattle.host_sending.specs.Sites.{after_offers};

use crate::{Routes, Site, lookup};
use host_rules::HostPort;
use ip_layer::{Packet, Verdict};
use net_iface::{Interface, Offer};
use sim_base::{Memory, Reason};
use spf_routes::Route;
use ssf_model::{Line, Out};
use std::marker::Model;

/// Tells that a packet was dropped.
pub fn tell_dropped(reason: Reason, packet: &Packet, out: &mut Out<Packet>) -> Result<(), Memory>
    ensures writes { OnOk result (out.new.writes ≡ out.old.writes) }
    ensures lines { OnOk result (out.new.lines ≡ out.old.lines ++ DroppedLine reason packet.now.tcp packet.now.bytes ∷ []) }
{
    out.line(Line::Dropped {
        reason,
        tcp: packet.tcp,
        bytes: packet.bytes,
    })
}

/// Writes and tells what the interface's answer to a packet makes of it.
fn tell_offer(
    port: &HostPort,
    next: u32,
    channel: u32,
    packet: &Packet,
    offer: Offer,
    out: &mut Out<Packet>,
) -> Result<(), Memory>
    ensures writes { (s : StackFields) → OnOk result (out.new.writes ≡ out.old.writes ++ (answered port.now next channel packet.now offer s).writes) }
    ensures lines { (s : StackFields) → OnOk result (out.new.lines ≡ out.old.lines ++ (answered port.now next channel packet.now offer s).lines) }
{
    match offer {
        Offer::Dropped => tell_dropped(Reason::Buffer, packet, out),
        Offer::Sent(delay) => {
            out.write(channel, delay, *packet)?;
            out.line(Line::Sent {
                interface: port.id,
                next,
                tcp: packet.tcp,
                bytes: packet.bytes,
            })
        }
    }
}

/// The answer of the interface of this place to so many bytes, where there is one.
fn offer_at(interfaces: &mut Vec<Interface>, place: usize, bytes: u64, now: u64) -> Option<Offer>
    requires { now ≤ 10 ^ 18 }
    ensures answer { result ≡ option_map (λ (i : InterfaceFields). offered i bytes now) (slice_get interfaces.old.items place) }
    ensures after { interfaces.new.items ≡ after_offers place bytes now (slice_get interfaces.old.items place) interfaces.old.items }
{
    let interface = interfaces.get_mut(place)?;
    Some(interface.offer(bytes, now))
}

/// The next hop of a packet: the route's, or the destination where the route has none.
fn next_hop(route: &Route, packet: &Packet) -> u32
    ensures { result ≡ next_hop route.now packet.now }
{
    if route.next == 0 {
        packet.dst
    } else {
        route.next
    }
}

/// The interfaces of a host. Contracts see the list of them.
#[derive(Drop)]
pub struct Interfaces {
    items: Vec<Interface>,
}

impl Model for Interfaces {
    ghost use Rattle.std.specs.Prelude.{List};
    ghost use Rattle.net_iface.specs.InterfaceFields.{InterfaceFields};

    ghost Value = { List InterfaceFields };

    ghost view = { λ i. i.items.items };
}

impl Interfaces {
    ghost use Rattle.std.specs.Prelude.{◌≡◌, ◌≤◌, ◌^◌, ◌++◌, OnOk, slice_get};
    ghost use Rattle.host_rules.specs.Sending.{offering, over_link, second_of, forwarded, by_verdict, sending};
    ghost use Rattle.host_rules.specs.Hosts.{Stack};
    ghost use Rattle.host_sending.specs.Sites.{IsPlaceIn, with_interfaces};

    /// These interfaces; takes no memory.
    pub fn of(items: Vec<Interface>) -> Interfaces
        ensures { result ≡ items.items }
    {
        Interfaces { items }
    }

    /// Offers a packet for the next hop to the interface of this place; where it is taken it goes out
    /// on the channel to that hop. At most 10^18 ticks have passed.
    fn offer(
        &mut self,
        port: &HostPort,
        place: u32,
        next: u32,
        channel: u32,
        now: u64,
        packet: &Packet,
        out: &mut Out<Packet>,
    ) -> Result<(), Memory>
        requires { now ≤ 10 ^ 18 }
        ensures stack { (s : Stack) → with_interfaces self.new s ≡ (offering port.now place next channel now packet.now (slice_get self.old place) (with_interfaces self.old s)).stack }
        ensures writes { (s : Stack) → OnOk result (out.new.writes ≡ out.old.writes ++ (offering port.now place next channel now packet.now (slice_get self.old place) (with_interfaces self.old s)).writes) }
        ensures lines { (s : Stack) → OnOk result (out.new.lines ≡ out.old.lines ++ (offering port.now place next channel now packet.now (slice_get self.old place) (with_interfaces self.old s)).lines) }
    {
        match offer_at(&mut self.items, place as usize, packet.bytes, now) {
            Some(offer) => tell_offer(port, next, channel, packet, offer, out),
            None => tell_dropped(Reason::Route, packet, out),
        }
    }

    /// Sends a packet for the next hop over the link of an interface.
    fn cross(
        &mut self,
        port: &HostPort,
        place: u32,
        next: u32,
        now: u64,
        packet: &Packet,
        out: &mut Out<Packet>,
    ) -> Result<(), Memory>
        requires { now ≤ 10 ^ 18 }
        ensures stack { (s : Stack) → with_interfaces self.new s ≡ (over_link port.now place next now packet.now (second_of port.now.outs next) (with_interfaces self.old s)).stack }
        ensures writes { (s : Stack) → OnOk result (out.new.writes ≡ out.old.writes ++ (over_link port.now place next now packet.now (second_of port.now.outs next) (with_interfaces self.old s)).writes) }
        ensures lines { (s : Stack) → OnOk result (out.new.lines ≡ out.old.lines ++ (over_link port.now place next now packet.now (second_of port.now.outs next) (with_interfaces self.old s)).lines) }
    {
        match lookup::second_of(port.outs.as_slice(), next) {
            None => tell_dropped(Reason::Route, packet, out),
            Some(channel) => {
                if lookup::is_down(port, now) {
                    tell_dropped(Reason::Link, packet, out)
                } else {
                    self.offer(port, place, next, channel, now, packet, out)
                }
            }
        }
    }

    /// Sends a packet by a route.
    #[tactic(auto, unfolding(host_rules::specs::Sending::forwarded))]
    fn forward(
        &mut self,
        site: &Site,
        route: &Route,
        now: u64,
        packet: &Packet,
        out: &mut Out<Packet>,
    ) -> Result<(), Memory>
        requires { now ≤ 10 ^ 18 }
        ensures stack { (s : Stack) → with_interfaces self.new s ≡ (forwarded site.now route.now now packet.now (with_interfaces self.old s)).stack }
        ensures writes { (s : Stack) → OnOk result (out.new.writes ≡ out.old.writes ++ (forwarded site.now route.now now packet.now (with_interfaces self.old s)).writes) }
        ensures lines { (s : Stack) → OnOk result (out.new.lines ≡ out.old.lines ++ (forwarded site.now route.now now packet.now (with_interfaces self.old s)).lines) }
    {
        let next = next_hop(route, packet);
        match site.port(route.interface) {
            None => tell_dropped(Reason::Route, packet, out),
            Some(port) => self.cross(port, route.interface, next, now, packet, out),
        }
    }

    /// What becomes of a packet by the verdict of IP.
    pub fn follow(
        &mut self,
        site: &Site,
        routes: &Routes,
        now: u64,
        packet: &Packet,
        verdict: Verdict,
        out: &mut Out<Packet>,
    ) -> Result<(), Memory>
        requires now { now ≤ 10 ^ 18 }
        requires place { IsPlaceIn routes.now verdict }
        ensures stack { (s : Stack) → with_interfaces self.new s ≡ (by_verdict site.now routes.now now packet.now verdict (with_interfaces self.old s)).stack }
        ensures writes { (s : Stack) → OnOk result (out.new.writes ≡ out.old.writes ++ (by_verdict site.now routes.now now packet.now verdict (with_interfaces self.old s)).writes) }
        ensures lines { (s : Stack) → OnOk result (out.new.lines ≡ out.old.lines ++ (by_verdict site.now routes.now now packet.now verdict (with_interfaces self.old s)).lines) }
    {
        match verdict {
            Verdict::Local => Ok(()),
            Verdict::Forward(place) => self.forward(site, routes.route(place), now, packet, out),
            Verdict::Dropped(reason) => tell_dropped(reason, packet, out),
        }
    }

    /// Sends a packet of the host's own.
    #[tactic(auto, unfolding(host_rules::specs::Sending::sending, host_rules::specs::Sending::routes_at))]
    pub fn send(
        &mut self,
        site: &Site,
        now: u64,
        packet: &Packet,
        out: &mut Out<Packet>,
    ) -> Result<(), Memory>
        requires { now ≤ 10 ^ 18 }
        ensures stack { (s : Stack) → with_interfaces self.new s ≡ (sending site.now now packet.now (with_interfaces self.old s)).stack }
        ensures writes { (s : Stack) → OnOk result (out.new.writes ≡ out.old.writes ++ (sending site.now now packet.now (with_interfaces self.old s)).writes) }
        ensures lines { (s : Stack) → OnOk result (out.new.lines ≡ out.old.lines ++ (sending site.now now packet.now (with_interfaces self.old s)).lines) }
    {
        let routes = site.routes(now);
        let verdict = site.sent(&routes, packet);
        self.follow(site, &routes, now, packet, verdict, out)
    }
}
