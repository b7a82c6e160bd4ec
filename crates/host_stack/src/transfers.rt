//! Transfers of client sessions over TCP.

use crate::Stack;
use host_rules::Sockets;
use host_sending::Site;
use ip_layer::Packet;
use sim_base::{ClientRow, Memory, ServerRow};
use ssf_model::Out;
use std::alloc::Global;
use tcp_session::{Segments, Session};

impl Stack {
    ghost use Rattle.std.specs.Prelude.{◌≡◌, ◌+◌, ◌<◌, ◌≤◌, ◌^◌, ◌++◌, ◌∷◌, [], Some, length, slice_get, IfOk, OnOk, OnErr};
    ghost use Rattle.std.specs.List.{count_by};
    ghost use Rattle.traffic.specs.Progress.{next_server};
    ghost use Rattle.host_rules.specs.Entries.{is_accepted};
    ghost use Rattle.host_rules.specs.Hearing.{MostAccepted, entry_of, with_transfer, transfer_sockets, opening, next_transfer};
    ghost use Rattle.host_rules.specs.Limits.{MostTransfers, EachPair, IsEarlier, IsStack};

    /// How many sessions the host will have had with one more. One that had 2^64 - 1 gets no other.
    ///
    /// # Errors
    /// `Memory`.
    pub(crate) fn next_made(&self) -> Result<u64, Memory>
        ensures { IfOk result (λ made. made ≡ self.now.made + 1) }
    {
        match self.made.checked_add(1) {
            Some(made) => Ok(made),
            None => Err(Memory),
        }
    }

    /// The ends of the transfer that the host opens next.
    #[tactic(auto, unfolding(host_rules::specs::Hearing::transfer_sockets))]
    fn transfer_sockets(&self, site: &Site, now: u64, server: &ServerRow) -> Sockets
        requires { self.now.opened ≤ MostTransfers }
        ensures { result ≡ transfer_sockets site.now now server.now self.now }
    {
        let peer = site.server_address(server);
        Sockets {
            own: site.source_to(now, peer),
            own_port: (10_000 + self.opened) as u16,
            peer,
            peer_port: server.port,
        }
    }

    /// Adds the session of a transfer. Without memory nothing has changed.
    fn add_transfer(
        &mut self,
        sockets: &Sockets,
        client: u32,
        session: Session,
    ) -> Result<(), Memory>
        requires client { client < length self.old.apps.given }
        requires opened { self.old.opened ≤ MostTransfers }
        requires order { EachPair IsEarlier (self.old.sessions ++ entry_of sockets.now (Some client) session self.old ∷ []) }
        requires few { count_by is_accepted self.old.sessions ≤ MostAccepted }
        ensures ok { OnOk result (self.new ≡ with_transfer sockets.now client session self.old) }
        ensures err { OnErr result (self.new ≡ self.old) }
    {
        let made = self.next_made()?;
        self.sessions
            .add(self.made, sockets, Some(client), session)?;
        let _server = self.apps.next(client);
        self.opened += 1;
        self.made = made;
        Ok(())
    }

    /// A client session opens a transfer to this server, its next one.
    fn open(
        &mut self,
        alloc: Global,
        site: &Site,
        now: u64,
        client: u32,
        row: &ClientRow,
        server: &ServerRow,
        out: &mut Out<Packet>,
    ) -> Result<(), Memory>
        requires now { now ≤ 10 ^ 18 }
        requires row { slice_get site.now.clients client ≡ Some row.now }
        requires server { next_server self.old.apps client ≡ Some server.now }
        requires valid { IsStack site.now self.old }
        ensures stack { OnOk result (self.new ≡ (opening site.now now client row.now server.now self.old).stack) }
        ensures writes { OnOk result (out.new.writes ≡ out.old.writes ++ (opening site.now now client row.now server.now self.old).writes) }
        ensures lines { OnOk result (out.new.lines ≡ out.old.lines ++ (opening site.now now client row.now server.now self.old).lines) }
        ensures kept { IsStack site.now self.new }
    {
        site.known();
        let sockets = self.transfer_sockets(site, now, server);
        let mut acts = Segments::new(alloc);
        let session = Session::connect(&site.rows().tcp, row.file, now, &mut acts)?;
        self.add_transfer(&sockets, client, session)?;
        self.do_all(site, now, &sockets, acts.acts(), out)
    }

    /// A client session opens a transfer to its next server, where there is one.
    #[tactic(auto, unfolding(host_rules::specs::Hearing::next_transfer, traffic::specs::Progress::next_server))]
    pub(crate) fn next_transfer(
        &mut self,
        alloc: Global,
        site: &Site,
        now: u64,
        client: u32,
        out: &mut Out<Packet>,
    ) -> Result<(), Memory>
        requires now { now ≤ 10 ^ 18 }
        requires client { client < length site.now.clients }
        requires valid { IsStack site.now self.old }
        ensures stack { OnOk result (self.new ≡ (next_transfer site.now now client self.old).stack) }
        ensures writes { OnOk result (out.new.writes ≡ out.old.writes ++ (next_transfer site.now now client self.old).writes) }
        ensures lines { OnOk result (out.new.lines ≡ out.old.lines ++ (next_transfer site.now now client self.old).lines) }
        ensures kept { IsStack site.now self.new }
    {
        let Some(row) = site.client(client) else {
            return Ok(());
        };
        match site.server(self.apps.given(client)) {
            Some(server) => self.open(alloc, site, now, client, row, server, out),
            None => Ok(()),
        }
    }
}
