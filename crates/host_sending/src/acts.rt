//! What a session does, as packets and lines.
ghost use Rattle.std.specs.Prelude.{◌≡◌};
ghost use Rattle.host_rules.specs.Sending.{packet_of};

use crate::{Interfaces, Site};
use host_rules::Sockets;
use ip_layer::Packet;
use sim_base::{Memory, Segment};
use ssf_model::{Line, Out};
use tcp_rules::Act;

/// The packet in which a segment between these ends goes out.
fn packet_of(sockets: &Sockets, segment: &Segment) -> Packet
    ensures { result ≡ packet_of sockets.now segment.now }
{
    Packet {
        src: sockets.own,
        dst: sockets.peer,
        tcp: true,
        ttl: 64,
        src_port: sockets.own_port,
        dst_port: sockets.peer_port,
        bytes: 40 + segment.length,
        segment: Some(*segment),
    }
}

impl Interfaces {
    ghost use Rattle.std.specs.Prelude.{◌≡◌, ◌≤◌, ◌^◌, ◌++◌, OnOk};
    ghost use Rattle.host_rules.specs.Sending.{done, all_done};
    ghost use Rattle.host_rules.specs.Hosts.{Stack};
    ghost use Rattle.host_rules.specs.Limits.{IsStack};
    ghost use Rattle.host_sending.specs.Sites.{with_interfaces};

    /// Does one thing that a session between these ends did.
    fn do_act(
        &mut self,
        site: &Site,
        now: u64,
        sockets: &Sockets,
        act: &Act,
        out: &mut Out<Packet>,
    ) -> Result<(), Memory>
        requires { now ≤ 10 ^ 18 }
        ensures stack { (s : Stack) → with_interfaces self.new s ≡ (done site.now now sockets.now act.now (with_interfaces self.old s)).stack }
        ensures writes { (s : Stack) → OnOk result (out.new.writes ≡ out.old.writes ++ (done site.now now sockets.now act.now (with_interfaces self.old s)).writes) }
        ensures lines { (s : Stack) → OnOk result (out.new.lines ≡ out.old.lines ++ (done site.now now sockets.now act.now (with_interfaces self.old s)).lines) }
    {
        match act {
            Act::Entered(state) => out.line(Line::Entered {
                port: sockets.own_port,
                peer: sockets.peer,
                peer_port: sockets.peer_port,
                state: *state,
            }),
            Act::Delivered(bytes) => out.line(Line::Delivered {
                port: sockets.own_port,
                peer: sockets.peer,
                peer_port: sockets.peer_port,
                bytes: *bytes,
            }),
            Act::Send(segment) => self.send(site, now, &packet_of(sockets, segment), out),
        }
    }

    /// Does all that a session between these ends did, in order.
    pub fn do_all(
        &mut self,
        site: &Site,
        now: u64,
        sockets: &Sockets,
        acts: &[Act],
        out: &mut Out<Packet>,
    ) -> Result<(), Memory>
        requires { now ≤ 10 ^ 18 }
        ensures stack { (s : Stack) → OnOk result (with_interfaces self.new s ≡ (all_done site.now now sockets.now acts.now (with_interfaces self.old s)).stack) }
        ensures writes { (s : Stack) → OnOk result (out.new.writes ≡ out.old.writes ++ (all_done site.now now sockets.now acts.now (with_interfaces self.old s)).writes) }
        ensures lines { (s : Stack) → OnOk result (out.new.lines ≡ out.old.lines ++ (all_done site.now now sockets.now acts.now (with_interfaces self.old s)).lines) }
        ensures kept { (s : Stack) → IsStack site.now (with_interfaces self.old s) → IsStack site.now (with_interfaces self.new s) }
    {
        site.known();
        for act in acts {
            self.do_act(site, now, sockets, act, out)?;
        }
        Ok(())
    }
}
