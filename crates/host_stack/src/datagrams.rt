//! Client sessions over UDP.
ghost use Rattle.std.specs.Prelude.{◌≡◌, ◌+◌, ◌≤◌, false, None};

use crate::Stack;
use host_sending::Site;
use ip_layer::Packet;
use sim_base::{ClientRow, Memory, ServerRow};
use ssf_model::{Out, Wait};

/// A datagram to a server, with this source and so many bytes of data.
fn datagram(source: u32, peer: u32, port: u16, bytes: u64) -> Packet
    requires { bytes ≤ 65507 }
    ensures { result ≡ record { src = source; dst = peer; tcp = false; ttl = 64; src_port = 0; dst_port = port; bytes = 28 + bytes; segment = None } }
{
    Packet {
        src: source,
        dst: peer,
        tcp: false,
        ttl: 64,
        src_port: 0,
        dst_port: port,
        bytes: 28 + bytes,
        segment: None,
    }
}

impl Stack {
    ghost use Rattle.std.specs.Prelude.{◌≡◌, ◌<◌, ◌≤◌, ◌^◌, ◌++◌, Some, OnOk, length, slice_get, slice_index};
    ghost use Rattle.host_rules.specs.Reacting.{refilled, datagram_to, datagram_sent, udp_turn, udp_wait};
    ghost use Rattle.host_rules.specs.Limits.{IsStack};

    /// Where nothing is left the next server follows, if there is one; an empty file is sent to none.
    #[tactic(auto, unfolding(host_rules::specs::Reacting::refilled))]
    fn refill(&mut self, client: u32, file: u64)
        requires left { client < length self.old.left }
        requires given { client < length self.old.apps.given }
        ensures { self.new ≡ refilled client file self.old }
    {
        if self.left[client as usize] != 0 || file == 0 {
            return;
        }
        if self.apps.next(client).is_some() {
            self.left[client as usize] = file;
        }
    }

    /// Sends a datagram of so many bytes of data to this server.
    fn send_datagram(
        &mut self,
        site: &Site,
        now: u64,
        client: u32,
        bytes: u64,
        server: &ServerRow,
        out: &mut Out<Packet>,
    ) -> Result<(), Memory>
        requires now { now ≤ 10 ^ 18 }
        requires client { client < length self.old.left }
        requires bytes { bytes ≤ slice_index self.old.left client }
        requires few { bytes ≤ 65507 }
        requires valid { IsStack site.now self.old }
        ensures stack { self.new ≡ (datagram_to site.now now client bytes (Some server.now) self.old).stack }
        ensures writes { OnOk result (out.new.writes ≡ out.old.writes ++ (datagram_to site.now now client bytes (Some server.now) self.old).writes) }
        ensures lines { OnOk result (out.new.lines ≡ out.old.lines ++ (datagram_to site.now now client bytes (Some server.now) self.old).lines) }
        ensures kept { IsStack site.now self.new }
    {
        site.known();
        let peer = site.server_address(server);
        let packet = datagram(site.source_to(now, peer), peer, server.port, bytes);
        self.left[client as usize] -= bytes;
        self.send(site, now, &packet, out)
    }

    /// Sends one datagram, of no more than is left, to the server that was given last.
    #[tactic(auto, unfolding(host_rules::specs::Reacting::datagram_sent))]
    fn send_next(
        &mut self,
        site: &Site,
        now: u64,
        client: u32,
        row: &ClientRow,
        out: &mut Out<Packet>,
    ) -> Result<(), Memory>
        requires now { now ≤ 10 ^ 18 }
        requires row { slice_get site.now.clients client ≡ Some row.now }
        requires valid { IsStack site.now self.old }
        ensures stack { OnOk result (self.new ≡ (datagram_sent site.now now client row.now self.old).stack) }
        ensures writes { OnOk result (out.new.writes ≡ out.old.writes ++ (datagram_sent site.now now client row.now self.old).writes) }
        ensures lines { OnOk result (out.new.lines ≡ out.old.lines ++ (datagram_sent site.now now client row.now self.old).lines) }
        ensures kept { IsStack site.now self.new }
    {
        let left = self.left[client as usize];
        if left == 0 {
            return Ok(());
        }
        site.known();
        let given = self.apps.given(client).saturating_sub(1);
        let bytes = row.datagram.min(left);
        match site.server(given) {
            Some(server) => self.send_datagram(site, now, client, bytes, server, out),
            None => Ok(()),
        }
    }

    /// A client session over UDP sends its next datagram.
    pub(crate) fn send_turn(
        &mut self,
        site: &Site,
        now: u64,
        client: u32,
        row: &ClientRow,
        out: &mut Out<Packet>,
    ) -> Result<(), Memory>
        requires now { now ≤ 10 ^ 18 }
        requires row { slice_get site.now.clients client ≡ Some row.now }
        requires valid { IsStack site.now self.old }
        ensures stack { OnOk result (self.new ≡ (udp_turn site.now now client row.now self.old).stack) }
        ensures writes { OnOk result (out.new.writes ≡ out.old.writes ++ (udp_turn site.now now client row.now self.old).writes) }
        ensures lines { OnOk result (out.new.lines ≡ out.old.lines ++ (udp_turn site.now now client row.now self.old).lines) }
        ensures kept { IsStack site.now self.new }
    {
        self.refill(client, row.file);
        self.send_next(site, now, client, row, out)?;
        self.refill(client, row.file);
        Ok(())
    }

    /// How a client session over UDP waits for its next datagram.
    pub(crate) fn wait_for_datagram(&self, client: u32, row: &ClientRow) -> Wait
        requires { client < length self.now.left }
        ensures { result ≡ udp_wait client row.now self.now }
    {
        if self.left[client as usize] == 0 {
            Wait::Forever
        } else {
            Wait::For(row.interval)
        }
    }
}
