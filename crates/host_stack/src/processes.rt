//! What the processes of a host do.
ghost use Rattle.std.specs.Prelude.{◌≡◌};
ghost use Rattle.host_rules.specs.Reacting.{blank_packet, is_same_tick, start_wait};

use crate::Stack;
use host_rules::HostPort;
use host_sending::Site;
use ip_layer::Packet;
use sim_base::{ClientRow, Memory};
use ssf_model::{ChannelList, Out, Wait, Wake};
use std::alloc::Global;

/// The longest wait of the clock, in ticks.
const LONGEST_WAIT: u64 = 1_000_000_000_000_000;

/// The poke, which carries nothing.
fn blank_packet() -> Packet
    ensures { result ≡ blank_packet }
{
    Packet {
        src: 0,
        dst: 0,
        tcp: false,
        ttl: 64,
        src_port: 0,
        dst_port: 0,
        bytes: 28,
        segment: None,
    }
}

/// Whether these are one tick, or none.
fn is_same_tick(a: Option<u64>, b: Option<u64>) -> bool
    ensures { result ≡ is_same_tick a b }
{
    match a {
        None => b.is_none(),
        Some(a) => match b {
            None => false,
            Some(b) => a == b,
        },
    }
}

impl Stack {
    ghost use Rattle.std.specs.Prelude.{◌≡◌, ◌<◌, ◌≤◌, ◌^◌, ◌++◌, ◌∷◌, [], Some, IfOk, OnOk, length, slice_get};
    ghost use Rattle.ssf_model.specs.Reaction.{Carries};
    ghost use Rattle.ip_layer.specs.Packets.{IsPacket};
    ghost use Rattle.host_rules.specs.Effects.{Effect};
    ghost use Rattle.host_rules.specs.Entries.{least};
    ghost use Rattle.host_rules.specs.Hearing.{next_transfer};
    ghost use Rattle.host_rules.specs.Reacting.{poke_unless, is_same_tick, heard, tcp_turn, udp_sent, udp_wait, clock_wait, wait_until, start_wait, receiver_reply, clock_reply, client_reply, client_turn};
    ghost use Rattle.host_rules.specs.Limits.{IsStack};

    /// Writes the poke, unless the least deadline is the one that it was before.
    fn poke_unless(
        &self,
        site: &Site,
        before: Option<u64>,
        out: &mut Out<Packet>,
    ) -> Result<(), Memory>
        ensures writes { OnOk result (out.new.writes ≡ out.old.writes ++ (poke_unless (is_same_tick before (least self.now.sessions)) site.now self.now).writes) }
        ensures lines { OnOk result (out.new.lines ≡ out.old.lines) }
    {
        if is_same_tick(before, self.sessions.least()) {
            return Ok(());
        }
        out.write(site.rows().poke_out, 0, blank_packet())
    }

    /// A receiver hears a packet.
    #[tactic(auto, unfolding(host_rules::specs::Reacting::heard, host_rules::specs::Reacting::with_poke))]
    fn hear(
        &mut self,
        alloc: Global,
        site: &Site,
        now: u64,
        packet: &Packet,
        out: &mut Out<Packet>,
    ) -> Result<(), Memory>
        requires now { now ≤ 10 ^ 18 }
        requires valid { IsStack site.now self.old }
        ensures stack { OnOk result (self.new ≡ (heard site.now now packet.now self.old).stack) }
        ensures writes { OnOk result (out.new.writes ≡ out.old.writes ++ (heard site.now now packet.now self.old).writes) }
        ensures lines { OnOk result (out.new.lines ≡ out.old.lines ++ (heard site.now now packet.now self.old).lines) }
        ensures kept { IsStack site.now self.new }
    {
        let before = self.sessions.least();
        self.arrive(alloc, site, now, packet, out)?;
        self.poke_unless(site, before, out)
    }

    /// What the receiver of an interface does.
    pub(crate) fn receive(
        &mut self,
        alloc: Global,
        site: &Site,
        port: &HostPort,
        now: u64,
        wake: &Wake<Packet>,
        out: &mut Out<Packet>,
    ) -> Result<Wait, Memory>
        requires now { now ≤ 10 ^ 18 }
        requires valid { IsStack site.now self.old }
        ensures stack { OnOk result (self.new ≡ (receiver_reply site.now port.now now wake.now self.old).effect.stack) }
        ensures wait { IfOk result (λ wait. wait ≡ (receiver_reply site.now port.now now wake.now self.old).wait) }
        ensures writes { OnOk result (out.new.writes ≡ out.old.writes ++ (receiver_reply site.now port.now now wake.now self.old).effect.writes) }
        ensures lines { OnOk result (out.new.lines ≡ out.old.lines ++ (receiver_reply site.now port.now now wake.now self.old).effect.lines) }
        ensures kept { IsStack site.now self.new }
    {
        let channels = ChannelList::of(alloc, &[port.in_channel])?;
        match wake {
            Wake::Begin | Wake::Timer => {}
            Wake::Message {
                channel: _,
                payload,
            } => self.hear(alloc, site, now, payload, out)?,
        }
        Ok(Wait::On(channels))
    }

    /// How the clock waits: to be poked, and for the least deadline where a session has one.
    #[tactic(auto, unfolding(host_rules::specs::Reacting::clock_wait))]
    fn clock_wait(&self, alloc: Global, site: &Site, now: u64) -> Result<Wait, Memory>
        ensures { IfOk result (λ wait. wait ≡ clock_wait site.now now self.now) }
    {
        let channels = ChannelList::of(alloc, &[site.rows().poke_in])?;
        match self.sessions.least() {
            None => Ok(Wait::On(channels)),
            Some(deadline) => {
                let ticks = deadline.saturating_sub(now).min(LONGEST_WAIT).max(1);
                Ok(Wait::OnFor(channels, ticks))
            }
        }
    }

    /// What the clock does.
    pub(crate) fn keep_time(
        &mut self,
        alloc: Global,
        site: &Site,
        now: u64,
        wake: &Wake<Packet>,
        out: &mut Out<Packet>,
    ) -> Result<Wait, Memory>
        requires now { now ≤ 10 ^ 18 }
        requires valid { IsStack site.now self.old }
        ensures stack { OnOk result (self.new ≡ (clock_reply site.now now wake.now self.old).effect.stack) }
        ensures wait { IfOk result (λ wait. wait ≡ (clock_reply site.now now wake.now self.old).wait) }
        ensures writes { OnOk result (out.new.writes ≡ out.old.writes ++ (clock_reply site.now now wake.now self.old).effect.writes) }
        ensures lines { OnOk result (out.new.lines ≡ out.old.lines ++ (clock_reply site.now now wake.now self.old).effect.lines) }
        ensures kept { IsStack site.now self.new }
    {
        match wake {
            Wake::Begin | Wake::Message { .. } => {}
            Wake::Timer => self.tick(alloc, site, now, out)?,
        }
        self.clock_wait(alloc, site, now)
    }

    /// A client session over TCP opens its first transfer.
    #[tactic(auto, unfolding(host_rules::specs::Reacting::tcp_turn, host_rules::specs::Reacting::with_poke))]
    fn tcp_turn(
        &mut self,
        alloc: Global,
        site: &Site,
        now: u64,
        client: u32,
        out: &mut Out<Packet>,
    ) -> Result<(), Memory>
        requires now { now ≤ 10 ^ 18 }
        requires client { client < length site.now.clients }
        requires valid { IsStack site.now self.old }
        ensures stack { OnOk result (self.new ≡ (tcp_turn site.now now client self.old).stack) }
        ensures writes { OnOk result (out.new.writes ≡ out.old.writes ++ (tcp_turn site.now now client self.old).writes) }
        ensures lines { OnOk result (out.new.lines ≡ out.old.lines ++ (tcp_turn site.now now client self.old).lines) }
        ensures kept { IsStack site.now self.new }
    {
        let before = self.sessions.least();
        self.next_transfer(alloc, site, now, client, out)?;
        self.poke_unless(site, before, out)
    }

    /// A client session over UDP sends its next datagram.
    #[tactic(auto, unfolding(host_rules::specs::Reacting::udp_sent, host_rules::specs::Reacting::with_poke))]
    fn udp_turn(
        &mut self,
        site: &Site,
        now: u64,
        client: u32,
        row: &ClientRow,
        out: &mut Out<Packet>,
    ) -> Result<(), Memory>
        requires now { now ≤ 10 ^ 18 }
        requires row { slice_get site.now.clients client ≡ Some row.now }
        requires valid { IsStack site.now self.old }
        ensures stack { OnOk result (self.new ≡ (udp_sent site.now now client row.now self.old).stack) }
        ensures writes { OnOk result (out.new.writes ≡ out.old.writes ++ (udp_sent site.now now client row.now self.old).writes) }
        ensures lines { OnOk result (out.new.lines ≡ out.old.lines ++ (udp_sent site.now now client row.now self.old).lines) }
        ensures kept { IsStack site.now self.new }
    {
        let before = self.sessions.least();
        self.send_turn(site, now, client, row, out)?;
        self.poke_unless(site, before, out)
    }

    /// A client session is woken: at its start, or over UDP for its next datagram.
    fn client_turn(
        &mut self,
        alloc: Global,
        site: &Site,
        now: u64,
        client: u32,
        row: &ClientRow,
        out: &mut Out<Packet>,
    ) -> Result<Wait, Memory>
        requires now { now ≤ 10 ^ 18 }
        requires row { slice_get site.now.clients client ≡ Some row.now }
        requires valid { IsStack site.now self.old }
        ensures stack { OnOk result (self.new ≡ (client_turn row.now.tcp site.now now client row.now self.old).effect.stack) }
        ensures wait { IfOk result (λ wait. wait ≡ (client_turn row.now.tcp site.now now client row.now self.old).wait) }
        ensures writes { OnOk result (out.new.writes ≡ out.old.writes ++ (client_turn row.now.tcp site.now now client row.now self.old).effect.writes) }
        ensures lines { OnOk result (out.new.lines ≡ out.old.lines ++ (client_turn row.now.tcp site.now now client row.now self.old).effect.lines) }
        ensures kept { IsStack site.now self.new }
    {
        if row.tcp {
            self.tcp_turn(alloc, site, now, client, out)?;
            return Ok(Wait::Forever);
        }
        self.udp_turn(site, now, client, row, out)?;
        Ok(self.wait_for_datagram(client, row))
    }

    /// What a client session does, which starts at this tick.
    pub(crate) fn serve_client(
        &mut self,
        alloc: Global,
        site: &Site,
        start: u64,
        now: u64,
        client: u32,
        row: &ClientRow,
        wake: &Wake<Packet>,
        out: &mut Out<Packet>,
    ) -> Result<Wait, Memory>
        requires now { now ≤ 10 ^ 18 }
        requires row { slice_get site.now.clients client ≡ Some row.now }
        requires valid { IsStack site.now self.old }
        ensures stack { OnOk result (self.new ≡ (client_reply site.now start client row.now now wake.now self.old).effect.stack) }
        ensures wait { IfOk result (λ wait. wait ≡ (client_reply site.now start client row.now now wake.now self.old).wait) }
        ensures writes { OnOk result (out.new.writes ≡ out.old.writes ++ (client_reply site.now start client row.now now wake.now self.old).effect.writes) }
        ensures lines { OnOk result (out.new.lines ≡ out.old.lines ++ (client_reply site.now start client row.now now wake.now self.old).effect.lines) }
        ensures kept { IsStack site.now self.new }
    {
        match wake {
            Wake::Begin => Ok(start_wait(site, start)),
            Wake::Timer => self.client_turn(alloc, site, now, client, row, out),
            Wake::Message { .. } => Ok(Wait::Forever),
        }
    }
}

/// How a client session waits for its start at this tick.
fn start_wait(site: &Site, start: u64) -> Wait
    ensures { result ≡ start_wait site.now.servers start }
{
    match site.rows().servers.as_slice() {
        [] => Wait::Forever,
        _ => Wait::For(start),
    }
}
