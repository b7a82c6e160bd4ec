//! The servers of a host's client sessions.
use sim_base::{ClientRow, Memory, ServerRow};
use std::alloc::Global;
use std::marker::Model;

/// For each client session of a host, how many of the host's servers it was given. Contracts see
/// the list of servers and the list of these numbers.
#[derive(Drop)]
pub struct Apps {
    servers: Vec<ServerRow>,
    given: Vec<usize>,
}

impl Model for Apps {
    ghost use Rattle.traffic.specs.Progress.{Progress, IsProgress};

    ghost Value = { Progress };

    ghost view = { λ a. record { servers = a.servers.items; given = a.given.items } };

    ghost invariant = { λ a. IsProgress (record { servers = a.servers.items; given = a.given.items }) };
}

impl Apps {
    ghost use Rattle.std.specs.Prelude.{◌≡◌, ◌<◌, ◌≤◌, ◌↔◌, length, slice_index, IfOk, IsNone};
    ghost use Rattle.traffic.specs.Progress.{IsProgress, at_first, next_server, after_next};

    /// The client sessions and the servers of one host, in order. No server was given yet.
    #[tactic(auto, unfolding(crate::specs::Progress::at_first))]
    pub fn new(alloc: Global, clients: &[ClientRow], servers: &[ServerRow]) -> Result<Apps, Memory>
        ensures made { IfOk result (λ apps. apps ≡ at_first clients.now servers.now) }
        ensures sessions { IfOk result (λ apps. length apps.given ≡ length clients.now) }
    {
        let servers = Vec::from_slice(alloc, servers)?;
        let given = vec![in alloc; 0; clients.len()]?;
        Ok(Apps { servers, given })
    }

    /// Tells a proof that no session was given more servers than there are.
    pub fn known(&self)
        ensures { IsProgress self.now }
    {
        let _sessions = self.given.len();
    }

    /// How many servers this client session was given.
    pub fn given(&self, client: u32) -> usize
        requires { client < length self.now.given }
        ensures { result ≡ slice_index self.now.given client }
    {
        self.given[client as usize]
    }

    /// The server that this client session goes to next, each in its order. `None` exactly where it
    /// was given all of them, and then nothing changes.
    #[tactic(auto, unfolding(crate::specs::Progress::next_server, crate::specs::Progress::after_next))]
    pub fn next(&mut self, client: u32) -> Option<ServerRow>
        requires { client < length self.old.given }
        ensures server { result ≡ next_server self.old client }
        ensures after { self.new ≡ after_next self.old client }
        ensures sessions { length self.new.given ≡ length self.old.given }
        ensures none { IsNone result ↔ (length self.old.servers ≤ slice_index self.old.given client) }
    {
        let given = &mut self.given[client as usize];
        let server = self.servers.get(*given).copied()?;
        *given += 1;
        Some(server)
    }
}
