//! What a host does at a packet that comes.
ghost use Rattle.std.specs.Prelude.{◌≡◌};
ghost use Rattle.ip_layer.specs.Forwarding.{passed_on};
ghost use Rattle.host_rules.specs.Hearing.{sockets_of};

use crate::Stack;
use host_rules::Sockets;
use host_sending::{Site, tell_dropped};
use host_sessions::Turned;
use ip_layer::{Packet, Verdict};
use sim_base::{Memory, Reason, Segment};
use ssf_model::{Line, Out};
use std::alloc::Global;
use tcp_session::{Act, Segments, Session};

/// The most accepted sessions of a host at one time.
pub const MOST_ACCEPTED: u64 = 1_000_000;

/// The ends of the session to which a packet goes.
fn sockets_of(packet: &Packet) -> Sockets
    ensures { result ≡ sockets_of packet.now }
{
    Sockets {
        own: packet.dst,
        own_port: packet.dst_port,
        peer: packet.src,
        peer_port: packet.src_port,
    }
}

/// The packet, passed on.
fn passed_on(packet: &Packet) -> Packet
    ensures { result ≡ passed_on packet.now }
{
    Packet {
        src: packet.src,
        dst: packet.dst,
        tcp: packet.tcp,
        ttl: packet.ttl.saturating_sub(1),
        src_port: packet.src_port,
        dst_port: packet.dst_port,
        bytes: packet.bytes,
        segment: packet.segment,
    }
}

impl Stack {
    ghost use Rattle.std.specs.Prelude.{◌≡◌, ◌<◌, ◌≤◌, ◌^◌, ◌++◌, ◌∷◌, [], Some, None, IsSome, OnOk, OnErr, length, true};
    ghost use Rattle.std.specs.List.{count_by};
    ghost use Rattle.std.specs.Option.{ForSome};
    ghost use Rattle.tcp_rules.specs.Sessions.{at_segment};
    ghost use Rattle.host_rules.specs.Hosts.{EntryFields};
    ghost use Rattle.host_rules.specs.Entries.{found, numbered, is_accepted};
    ghost use Rattle.host_rules.specs.Hearing.{MostAccepted, entry_of, with_entry, turned, udp_arrived, may_accept, opened_by, tcp_arrived, at_home, arrived};
    ghost use Rattle.host_rules.specs.Limits.{EachPair, IsEarlier, IsStack};
    ghost use Rattle.host_rules.specs.Sources.{IsOwnAddress};
    ghost use Rattle.host_stack.specs.Keeping.{after_turn};

    /// After a session's turn: does all that it did, and opens the next transfer where one is over.
    pub(crate) fn follow_turn(
        &mut self,
        alloc: Global,
        site: &Site,
        now: u64,
        outcome: &Turned,
        acts: &[Act],
        out: &mut Out<Packet>,
    ) -> Result<(), Memory>
        requires now { now ≤ 10 ^ 18 }
        requires valid { IsStack site.now self.old }
        requires client { ForSome outcome.now.client (λ client. client < length site.now.clients) }
        ensures stack { OnOk result (self.new ≡ (after_turn site.now now outcome.now acts.now self.old).stack) }
        ensures writes { OnOk result (out.new.writes ≡ out.old.writes ++ (after_turn site.now now outcome.now acts.now self.old).writes) }
        ensures lines { OnOk result (out.new.lines ≡ out.old.lines ++ (after_turn site.now now outcome.now acts.now self.old).lines) }
        ensures kept { IsStack site.now self.new }
    {
        self.do_all(site, now, &outcome.sockets, acts, out)?;
        match outcome.client {
            Some(client) if outcome.over => self.next_transfer(alloc, site, now, client, out),
            _ => Ok(()),
        }
    }

    /// A segment comes to the session of this number.
    fn turn_at_segment(
        &mut self,
        alloc: Global,
        site: &Site,
        now: u64,
        number: u64,
        segment: &Segment,
        out: &mut Out<Packet>,
    ) -> Result<(), Memory>
        requires now { now ≤ 10 ^ 18 }
        requires valid { IsStack site.now self.old }
        requires there { IsSome (numbered number self.old.sessions) }
        ensures stack { (x : EntryFields) → numbered number self.old.sessions ≡ Some x → OnOk result (self.new ≡ (turned site.now now x (at_segment x.session segment.now now) self.old).stack) }
        ensures writes { (x : EntryFields) → numbered number self.old.sessions ≡ Some x → OnOk result (out.new.writes ≡ out.old.writes ++ (turned site.now now x (at_segment x.session segment.now now) self.old).writes) }
        ensures lines { (x : EntryFields) → numbered number self.old.sessions ≡ Some x → OnOk result (out.new.lines ≡ out.old.lines ++ (turned site.now now x (at_segment x.session segment.now now) self.old).lines) }
        ensures kept { IsStack site.now self.new }
    {
        segment.known();
        let mut acts = Segments::new(alloc);
        let turned = self.sessions.segment(number, segment, now, &mut acts)?;
        self.follow_turn(alloc, site, now, &turned, acts.acts(), out)
    }

    /// Delivers a datagram where a server has its port.
    #[tactic(auto, unfolding(host_rules::specs::Hearing::udp_arrived))]
    fn take_datagram(
        &self,
        site: &Site,
        packet: &Packet,
        out: &mut Out<Packet>,
    ) -> Result<(), Memory>
        ensures stack { (udp_arrived site.now packet.now self.now).stack ≡ self.now }
        ensures writes { OnOk result (out.new.writes ≡ out.old.writes ++ (udp_arrived site.now packet.now self.now).writes) }
        ensures lines { OnOk result (out.new.lines ≡ out.old.lines ++ (udp_arrived site.now packet.now self.now).lines) }
    {
        if !site.listens_on(packet.dst_port) {
            return tell_dropped(Reason::Port, packet, out);
        }
        packet.known();
        out.line(Line::Udp {
            port: packet.dst_port,
            bytes: packet.bytes.saturating_sub(28),
        })
    }

    /// Whether a segment without a session is accepted.
    #[tactic(auto, unfolding(host_rules::specs::Hearing::may_accept))]
    fn may_accept(&self, site: &Site, packet: &Packet, segment: &Segment) -> bool
        ensures accepts { result ≡ may_accept site.now packet.now segment.now self.now }
        ensures room { result ≡ true → count_by is_accepted self.now.sessions < MostAccepted }
    {
        segment.syn
            && segment.ack.is_none()
            && site.listens_on(packet.dst_port)
            && self.sessions.accepted() < MOST_ACCEPTED
    }

    /// Accepts a SYN between these ends.
    fn accept(
        &mut self,
        alloc: Global,
        site: &Site,
        now: u64,
        sockets: &Sockets,
        segment: &Segment,
        out: &mut Out<Packet>,
    ) -> Result<(), Memory>
        requires now { now ≤ 10 ^ 18 }
        requires valid { IsStack site.now self.old }
        requires own { IsOwnAddress site.now sockets.now.own }
        requires none { found sockets.now self.old.sessions ≡ None }
        requires room { count_by is_accepted self.old.sessions < MostAccepted }
        ensures stack { OnOk result (self.new ≡ (opened_by site.now now sockets.now segment.now self.old).stack) }
        ensures writes { OnOk result (out.new.writes ≡ out.old.writes ++ (opened_by site.now now sockets.now segment.now self.old).writes) }
        ensures lines { OnOk result (out.new.lines ≡ out.old.lines ++ (opened_by site.now now sockets.now segment.now self.old).lines) }
        ensures kept { IsStack site.now self.new }
    {
        site.known();
        segment.known();
        let mut acts = Segments::new(alloc);
        let session = Session::accept(alloc, &site.rows().tcp, segment, now, &mut acts)?;
        self.add_accepted(sockets, session)?;
        self.do_all(site, now, sockets, acts.acts(), out)
    }

    /// Adds a session that was accepted.
    fn add_accepted(&mut self, sockets: &Sockets, session: Session) -> Result<(), Memory>
        requires order { EachPair IsEarlier (self.old.sessions ++ entry_of sockets.now None session self.old ∷ []) }
        requires few { count_by is_accepted self.old.sessions ≤ MostAccepted }
        ensures ok { OnOk result (self.new ≡ with_entry sockets.now None session self.old) }
        ensures err { OnErr result (self.new ≡ self.old) }
    {
        let made = self.next_made()?;
        self.sessions.add(self.made, sockets, None, session)?;
        self.made = made;
        Ok(())
    }

    /// A packet of TCP for the host: it goes to its session, or opens one.
    fn take_segment(
        &mut self,
        alloc: Global,
        site: &Site,
        now: u64,
        packet: &Packet,
        segment: &Segment,
        out: &mut Out<Packet>,
    ) -> Result<(), Memory>
        requires now { now ≤ 10 ^ 18 }
        requires valid { IsStack site.now self.old }
        requires own { IsOwnAddress site.now packet.now.dst }
        ensures stack { OnOk result (self.new ≡ (tcp_arrived site.now now packet.now segment.now self.old).stack) }
        ensures writes { OnOk result (out.new.writes ≡ out.old.writes ++ (tcp_arrived site.now now packet.now segment.now self.old).writes) }
        ensures lines { OnOk result (out.new.lines ≡ out.old.lines ++ (tcp_arrived site.now now packet.now segment.now self.old).lines) }
        ensures kept { IsStack site.now self.new }
    {
        let sockets = sockets_of(packet);
        if let Some(number) = self.sessions.find(&sockets) {
            return self.turn_at_segment(alloc, site, now, number, segment, out);
        }
        if !self.may_accept(site, packet, segment) {
            return tell_dropped(Reason::Port, packet, out);
        }
        self.accept(alloc, site, now, &sockets, segment, out)
    }

    /// A packet for the host.
    fn take_packet(
        &mut self,
        alloc: Global,
        site: &Site,
        now: u64,
        packet: &Packet,
        out: &mut Out<Packet>,
    ) -> Result<(), Memory>
        requires now { now ≤ 10 ^ 18 }
        requires valid { IsStack site.now self.old }
        requires own { IsOwnAddress site.now packet.now.dst }
        ensures stack { OnOk result (self.new ≡ (at_home site.now now packet.now packet.now.segment self.old).stack) }
        ensures writes { OnOk result (out.new.writes ≡ out.old.writes ++ (at_home site.now now packet.now packet.now.segment self.old).writes) }
        ensures lines { OnOk result (out.new.lines ≡ out.old.lines ++ (at_home site.now now packet.now packet.now.segment self.old).lines) }
        ensures kept { IsStack site.now self.new }
    {
        match &packet.segment {
            Some(segment) => self.take_segment(alloc, site, now, packet, segment, out),
            None => self.take_datagram(site, packet, out),
        }
    }

    /// A packet comes.
    pub(crate) fn arrive(
        &mut self,
        alloc: Global,
        site: &Site,
        now: u64,
        packet: &Packet,
        out: &mut Out<Packet>,
    ) -> Result<(), Memory>
        requires now { now ≤ 10 ^ 18 }
        requires valid { IsStack site.now self.old }
        ensures stack { OnOk result (self.new ≡ (arrived site.now now packet.now self.old).stack) }
        ensures writes { OnOk result (out.new.writes ≡ out.old.writes ++ (arrived site.now now packet.now self.old).writes) }
        ensures lines { OnOk result (out.new.lines ≡ out.old.lines ++ (arrived site.now now packet.now self.old).lines) }
        ensures kept { IsStack site.now self.new }
    {
        site.known();
        let routes = site.routes(now);
        match site.received(&routes, packet) {
            Verdict::Local => self.take_packet(alloc, site, now, packet, out),
            verdict => self.follow(site, &routes, now, &passed_on(packet), verdict, out),
        }
    }
}
