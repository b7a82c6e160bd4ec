//! What events change of a host.
use host_rules::Sockets;
use host_sending::{Interfaces, Routes, Site};
use host_sessions::Sessions;
use ip_layer::{Packet, Verdict};
use sim_base::Memory;
use ssf_model::Out;
use std::marker::Model;
use tcp_session::Act;
use traffic::Apps;

/// What events change of a host: its interfaces, which servers its client sessions were given, what
/// those over UDP have left to send, its TCP sessions in order of creation, and how many of these it
/// opened and had. Contracts see the record of these.
#[derive(Drop)]
pub struct Stack {
    pub(crate) interfaces: Interfaces,
    pub(crate) apps: Apps,
    pub(crate) left: Vec<u64>,
    pub(crate) sessions: Sessions,
    pub(crate) opened: u64,
    pub(crate) made: u64,
}

impl Model for Stack {
    ghost use Rattle.host_rules.specs.Hosts.{Stack as StackFields};

    ghost Value = { StackFields };

    ghost view = { λ s. record { interfaces = s.interfaces; apps = s.apps; left = s.left.items; sessions = s.sessions; opened = s.opened; made = s.made } };
}

impl Stack {
    ghost use Rattle.std.specs.Prelude.{◌≡◌, ◌≤◌, ◌^◌, ◌++◌, OnOk};
    ghost use Rattle.host_rules.specs.Sending.{by_verdict, sending, all_done};
    ghost use Rattle.host_rules.specs.Limits.{IsStack};
    ghost use Rattle.host_sending.specs.Sites.{IsPlaceIn};

    /// What becomes of a packet by the verdict of IP.
    pub(crate) fn follow(
        &mut self,
        site: &Site,
        routes: &Routes,
        now: u64,
        packet: &Packet,
        verdict: Verdict,
        out: &mut Out<Packet>,
    ) -> Result<(), Memory>
        requires now { now ≤ 10 ^ 18 }
        requires place { IsPlaceIn routes.now verdict }
        ensures stack { self.new ≡ (by_verdict site.now routes.now now packet.now verdict self.old).stack }
        ensures writes { OnOk result (out.new.writes ≡ out.old.writes ++ (by_verdict site.now routes.now now packet.now verdict self.old).writes) }
        ensures lines { OnOk result (out.new.lines ≡ out.old.lines ++ (by_verdict site.now routes.now now packet.now verdict self.old).lines) }
    {
        self.interfaces
            .follow(site, routes, now, packet, verdict, out)
    }

    /// Sends a packet of the host's own.
    pub(crate) fn send(
        &mut self,
        site: &Site,
        now: u64,
        packet: &Packet,
        out: &mut Out<Packet>,
    ) -> Result<(), Memory>
        requires { now ≤ 10 ^ 18 }
        ensures stack { self.new ≡ (sending site.now now packet.now self.old).stack }
        ensures writes { OnOk result (out.new.writes ≡ out.old.writes ++ (sending site.now now packet.now self.old).writes) }
        ensures lines { OnOk result (out.new.lines ≡ out.old.lines ++ (sending site.now now packet.now self.old).lines) }
    {
        self.interfaces.send(site, now, packet, out)
    }

    /// Does all that a session between these ends did, in order.
    pub(crate) fn do_all(
        &mut self,
        site: &Site,
        now: u64,
        sockets: &Sockets,
        acts: &[Act],
        out: &mut Out<Packet>,
    ) -> Result<(), Memory>
        requires now { now ≤ 10 ^ 18 }
        requires valid { IsStack site.now self.old }
        ensures stack { OnOk result (self.new ≡ (all_done site.now now sockets.now acts.now self.old).stack) }
        ensures writes { OnOk result (out.new.writes ≡ out.old.writes ++ (all_done site.now now sockets.now acts.now self.old).writes) }
        ensures lines { OnOk result (out.new.lines ≡ out.old.lines ++ (all_done site.now now sockets.now acts.now self.old).lines) }
        ensures kept { IsStack site.now self.new }
    {
        self.interfaces.do_all(site, now, sockets, acts, out)
    }
}
