//! Sessions of either kind.
use crate::client::Client;
use crate::server::Server;
use crate::{Segments, segments};
use sim_base::{Memory, Segment, TcpConfig, TcpState};
use std::alloc::Global;
use std::marker::Model;
use tcp_rules::Act;

/// The end of a connection that a session is.
#[derive(Drop)]
enum End {
    Client(Client),
    Server(Server),
}

/// A TCP session, of a client or of a server. Contracts see the fields of either.
#[derive(Drop)]
pub struct Session {
    end: End,
}

impl Model for Session {
    ghost use Rattle.tcp_rules.specs.Sessions.{End as EndFields};

    ghost Value = { EndFields };

    ghost use Rattle.tcp_session.specs.SessionViews.{session_view};

    ghost view = { session_view };
}

impl Session {
    ghost use Rattle.std.specs.Prelude.{◌≡◌, ◌≤◌, ◌^◌, ◌++◌, IfOk, OnOk, OnErr, IsSome};
    ghost use Rattle.tcp_rules.specs.Segments.{IsTimedTcp};
    ghost use Rattle.tcp_rules.specs.Sessions.{connecting, accepting, at_segment, at_timeout, deadline_of, state_of, delivered_of};
    ghost use Rattle.tcp_rules.specs.Limits.{IsEnd};

    /// Opens a transfer of `bytes` bytes, at most 2^30, at the tick `now`, at most 10^18: sends a SYN.
    ///
    /// # Errors
    /// `Memory`, and then nothing was sent.
    #[tactic(auto, unfolding(tcp_rules::specs::Sessions::connecting))]
    pub fn connect(
        config: &TcpConfig,
        bytes: u64,
        now: u64,
        out: &mut Segments,
    ) -> Result<Session, Memory>
        requires settings { IsTimedTcp config.now }
        requires bytes { bytes ≤ 2 ^ 30 }
        requires now { now ≤ 10 ^ 18 }
        ensures session { IfOk result (λ s. s ≡ (connecting config.now bytes now).after) }
        ensures acts { OnOk result (out.new ≡ out.old ++ (connecting config.now bytes now).acts) }
        ensures kept { OnErr result (out.new ≡ out.old) }
    {
        let acts = &mut out.items;
        acts.reserve(2)?;
        acts.push_reserved(Act::Entered(TcpState::SynSent));
        acts.push_reserved(Act::Send(segments::syn(config)));
        let client = Client::opened(config, bytes, now);
        Ok(Session {
            end: End::Client(client),
        })
    }

    /// Accepts a client's SYN at the tick `now`, at most 10^18: sends a SYN that acknowledges it.
    ///
    /// # Errors
    /// `Memory`, and then nothing was sent.
    #[tactic(auto, unfolding(tcp_rules::specs::Sessions::accepting))]
    pub fn accept(
        alloc: Global,
        config: &TcpConfig,
        syn: &Segment,
        now: u64,
        out: &mut Segments,
    ) -> Result<Session, Memory>
        requires settings { IsTimedTcp config.now }
        requires now { now ≤ 10 ^ 18 }
        ensures session { IfOk result (λ s. s ≡ (accepting config.now syn.now now).after) }
        ensures acts { OnOk result (out.new ≡ out.old ++ (accepting config.now syn.now now).acts) }
        ensures kept { OnErr result (out.new ≡ out.old) }
    {
        let acts = &mut out.items;
        acts.reserve(2)?;
        let server = Server::listened(alloc, config, syn, now);
        acts.push_reserved(Act::Entered(TcpState::SynReceived));
        acts.push_reserved(Act::Send(server.syn_ack()));
        Ok(Session {
            end: End::Server(server),
        })
    }

    /// A segment comes at the tick `now`, at most 10^18.
    ///
    /// # Errors
    /// `Memory`, and then nothing has changed.
    pub fn segment(&mut self, seg: &Segment, now: u64, out: &mut Segments) -> Result<(), Memory>
        requires { now ≤ 10 ^ 18 }
        ensures session { OnOk result (self.new ≡ (at_segment self.old seg.now now).after) }
        ensures acts { OnOk result (out.new ≡ out.old ++ (at_segment self.old seg.now now).acts) }
        ensures same { OnErr result (self.new ≡ self.old) }
        ensures kept { OnErr result (out.new ≡ out.old) }
    {
        match &mut self.end {
            End::Client(client) => client.segment(seg, now, &mut out.items)?,
            End::Server(server) => server.segment(seg, now, &mut out.items)?,
        }
        Ok(())
    }

    /// The deadline passes at the tick `now`, at most 10^18. The session has one: see [`Session::deadline`].
    ///
    /// # Errors
    /// `Memory`, and then nothing has changed.
    pub fn timeout(&mut self, now: u64, out: &mut Segments) -> Result<(), Memory>
        requires now { now ≤ 10 ^ 18 }
        requires timer { IsSome (deadline_of self.old) }
        ensures session { OnOk result (self.new ≡ (at_timeout self.old now).after) }
        ensures acts { OnOk result (out.new ≡ out.old ++ (at_timeout self.old now).acts) }
        ensures same { OnErr result (self.new ≡ self.old) }
        ensures kept { OnErr result (out.new ≡ out.old) }
    {
        match &mut self.end {
            End::Client(client) => client.timeout(now, &mut out.items)?,
            End::Server(server) => server.timeout(now, &mut out.items)?,
        }
        Ok(())
    }

    /// The tick at which `timeout` is due, if the timer runs.
    pub fn deadline(&self) -> Option<u64>
        ensures { result ≡ deadline_of self.now }
    {
        match &self.end {
            End::Client(client) => client.deadline(),
            End::Server(server) => server.deadline(),
        }
    }

    /// The state that the session entered last.
    pub fn state(&self) -> TcpState
        ensures { result ≡ state_of self.now }
    {
        match &self.end {
            End::Client(client) => client.state(),
            End::Server(server) => server.state(),
        }
    }

    /// How many bytes were delivered in order: none at a client.
    pub fn delivered(&self) -> u64
        ensures { result ≡ delivered_of self.now }
    {
        match &self.end {
            End::Client(_) => 0,
            End::Server(server) => server.delivered(),
        }
    }

    /// Tells a proof that the fields are in their ranges.
    pub fn known(&self)
        ensures { IsEnd self.now }
    {
        match &self.end {
            End::Client(client) => client.known(),
            End::Server(server) => server.known(),
        }
    }
}
