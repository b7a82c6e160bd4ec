//! The server: the end that a connection is opened to, and that receives.
ghost use Rattle.std.specs.Prelude.{◌≡◌, ◌+◌, ◌<◌, ◌≤◌, ◌++◌, vec_len, vec_capacity};
ghost use Rattle.tcp_rules.specs.Servers.{delivery_of};

use crate::ranges::Ranges;
use crate::segments;
use sim_base::{Segment, TcpConfig, TcpState};
use std::alloc::{AllocError, Global};
use std::marker::Model;
use tcp_clock::Rto;
use tcp_rules::{Act, Range};

/// A server session: the peer's first position, the next to be received, what of later ones is kept,
/// the place of the peer's FIN once it came, and the bytes delivered. Contracts see the record of
/// these.
#[derive(Drop)]
pub(crate) struct Server {
    config: TcpConfig,
    state: TcpState,
    irs: u64,
    rcv: u64,
    kept: Ranges,
    fin: Option<u64>,
    delivered: u64,
    rto: Rto,
    tries: u64,
    deadline: Option<u64>,
}

impl Model for Server {
    ghost use Rattle.tcp_rules.specs.Servers.{ServerFields};
    ghost use Rattle.tcp_rules.specs.Limits.{IsServerEnd};

    ghost Value = { ServerFields };

    ghost use Rattle.tcp_session.specs.ServerViews.{server_view};

    ghost view = { server_view };

    ghost invariant = { λ s. IsServerEnd (server_view s) };
}

impl Server {
    ghost use Rattle.std.specs.Prelude.{◌≡◌, ◌+◌, ◌-◌, ◌<◌, ◌≤◌, ◌^◌, ◌++◌, OnOk, OnErr, vec_len, vec_capacity};
    ghost use Rattle.tcp_rules.specs.Segments.{IsTimedTcp};
    ghost use Rattle.tcp_rules.specs.Servers.{server_syn_ack, server_ack, server_fin, hole, listened, fits, keeping, moved, finishing, at_end, at_kept, at_data};
    ghost use Rattle.tcp_rules.specs.Servers.{opening, established, at_start, server_closed, at_last, server_segment, server_last, waiting, server_timeout};
    ghost use Rattle.tcp_rules.specs.Limits.{IsServerEnd};

    /// A server that has accepted a client's SYN at `now`.
    #[tactic(auto, unfolding(tcp_rules::specs::Servers::listened))]
    pub(crate) fn listened(alloc: Global, config: &TcpConfig, syn: &Segment, now: u64) -> Server
        requires settings { IsTimedTcp config.now }
        requires now { now ≤ 10 ^ 18 }
        ensures { result ≡ listened config.now syn.now now }
    {
        syn.known();
        let rto = Rto::new(config.frequency);
        rto.known();
        Server {
            config: *config,
            state: TcpState::SynReceived,
            irs: syn.seq,
            rcv: syn.seq + 1,
            kept: Ranges::new(alloc),
            fin: None,
            delivered: 0,
            rto,
            tries: 0,
            deadline: Some(now + rto.value()),
        }
    }

    /// The own SYN, which acknowledges the peer's.
    pub(crate) fn syn_ack(&self) -> Segment
        ensures { result ≡ server_syn_ack self.now }
    {
        segments::syn_ack(&self.config, self.rcv)
    }

    /// An acknowledgment of what was received.
    fn pure_ack(&self) -> Segment
        ensures { result ≡ server_ack self.now }
    {
        segments::data(&self.config, self.config.iss + 1, self.rcv, 0)
    }

    /// The own FIN, which acknowledges the peer's.
    fn fin(&self) -> Segment
        ensures { result ≡ server_fin self.now }
    {
        segments::fin(&self.config, self.config.iss + 1, self.rcv)
    }

    /// Whether a segment ends within the own window.
    fn fits(&self, segment: &Segment) -> bool
        ensures { result ≡ fits self.now segment.now }
    {
        segment.known();
        segment.seq + segment.length <= self.rcv + segments::offered(&self.config)
    }

    /// Keeps the data of a segment that fits, and the place of its FIN.
    #[tactic(auto, unfolding(tcp_rules::specs::Servers::kept_with, tcp_rules::specs::Servers::fin_with), using(tcp_rules::proofs::Holes::furthest_added))]
    fn keep(&mut self, segment: &Segment) -> Result<(), AllocError>
        ensures ok { OnOk result (self.new ≡ keeping self.old segment.now) }
        ensures err { OnErr result (self.new ≡ self.old) }
    {
        if self.fits(segment) {
            segment.known();
            let end = segment.seq + segment.length;
            self.kept.add(Range {
                from: segment.seq,
                to: end,
            })?;
            if segment.fin {
                self.fin = Some(end);
            }
        }
        Ok(())
    }

    /// Moves over what is kept without a hole, and answers how many bytes that delivers.
    #[tactic(auto, using(tcp_rules::proofs::Holes::hole_low, tcp_rules::proofs::Holes::hole_high, tcp_rules::proofs::Holes::furthest_beyond))]
    fn advance(&mut self) -> u64
        ensures server { self.new ≡ moved self.old }
        ensures bytes { result ≡ hole self.old.kept self.old.rcv - self.old.rcv }
    {
        let to = self.kept.hole(self.rcv);
        self.kept.forget_below(to);
        let bytes = to - self.rcv;
        self.rcv = to;
        self.delivered += bytes;
        bytes
    }

    /// Passes the peer's FIN where it comes next, and answers.
    #[tactic(auto, unfolding(tcp_rules::specs::Servers::at_end))]
    fn answer(&mut self, now: u64, acts: &mut Vec<Act>)
        requires now { now ≤ 10 ^ 18 }
        requires room { vec_len acts.old + 2 ≤ vec_capacity acts.old }
        ensures server { self.new ≡ (at_end self.old now).after }
        ensures acts { acts.new.items ≡ acts.old.items ++ (at_end self.old now).acts }
    {
        if segments::is_ack_of(self.rcv, self.fin) {
            self.finish(now);
            acts.push_reserved(Act::Entered(TcpState::LastAck));
            acts.push_reserved(Act::Send(self.fin()));
        } else {
            acts.push_reserved(Act::Send(self.pure_ack()));
        }
    }

    /// The peer's FIN is passed, and the own one goes out.
    fn finish(&mut self, now: u64)
        requires now { now ≤ 10 ^ 18 }
        requires fin { self.old.fin ≡ Some self.old.rcv }
        ensures { self.new ≡ finishing self.old now }
    {
        self.rto.known();
        self.rcv += 1;
        self.state = TcpState::LastAck;
        self.deadline = Some(now + self.rto.value());
    }

    /// Delivers what is kept without a hole, and answers.
    #[tactic(auto, unfolding(tcp_rules::specs::Servers::at_kept))]
    fn deliver(&mut self, now: u64, acts: &mut Vec<Act>)
        requires now { now ≤ 10 ^ 18 }
        requires room { vec_len acts.old + 3 ≤ vec_capacity acts.old }
        ensures server { self.new ≡ (at_kept self.old now).after }
        ensures acts { acts.new.items ≡ acts.old.items ++ (at_kept self.old now).acts }
    {
        let bytes = self.advance();
        add_delivery(bytes, acts);
        self.answer(now, acts);
    }

    #[tactic(auto, unfolding(tcp_rules::specs::Servers::at_data))]
    fn at_data(
        &mut self,
        segment: &Segment,
        now: u64,
        acts: &mut Vec<Act>,
    ) -> Result<(), AllocError>
        requires { now ≤ 10 ^ 18 }
        ensures server { OnOk result (self.new ≡ (at_data self.old segment.now now).after) }
        ensures acts { OnOk result (acts.new.items ≡ acts.old.items ++ (at_data self.old segment.now now).acts) }
        ensures same { OnErr result (self.new ≡ self.old) }
        ensures kept { OnErr result (acts.new.items ≡ acts.old.items) }
    {
        if segments::carries(segment) {
            acts.reserve(3)?;
            self.keep(segment)?;
            self.deliver(now, acts);
        }
        Ok(())
    }

    /// The own SYN is acknowledged.
    fn establish(&mut self)
        ensures { self.new ≡ established self.old }
    {
        let rto = Rto::new(self.config.frequency);
        rto.known();
        self.rto = rto;
        self.state = TcpState::Established;
        self.tries = 0;
        self.deadline = None;
    }

    /// The own SYN is acknowledged by a segment that may carry data.
    #[tactic(auto, unfolding(tcp_rules::specs::Servers::at_data, tcp_rules::specs::Servers::kept_with, tcp_rules::specs::Servers::fin_with))]
    fn open(&mut self, segment: &Segment, now: u64, acts: &mut Vec<Act>) -> Result<(), AllocError>
        requires { now ≤ 10 ^ 18 }
        ensures server { OnOk result (self.new ≡ (opening self.old segment.now now).after) }
        ensures acts { OnOk result (acts.new.items ≡ acts.old.items ++ (opening self.old segment.now now).acts) }
        ensures same { OnErr result (self.new ≡ self.old) }
        ensures kept { OnErr result (acts.new.items ≡ acts.old.items) }
    {
        acts.reserve(4)?;
        if segments::carries(segment) {
            self.keep(segment)?;
            self.establish();
            acts.push_reserved(Act::Entered(TcpState::Established));
            self.deliver(now, acts);
        } else {
            self.establish();
            acts.push_reserved(Act::Entered(TcpState::Established));
        }
        Ok(())
    }

    #[tactic(auto, unfolding(tcp_rules::specs::Servers::at_start))]
    fn at_start(
        &mut self,
        segment: &Segment,
        now: u64,
        acts: &mut Vec<Act>,
    ) -> Result<(), AllocError>
        requires { now ≤ 10 ^ 18 }
        ensures server { OnOk result (self.new ≡ (at_start self.old segment.now now).after) }
        ensures acts { OnOk result (acts.new.items ≡ acts.old.items ++ (at_start self.old segment.now now).acts) }
        ensures same { OnErr result (self.new ≡ self.old) }
        ensures kept { OnErr result (acts.new.items ≡ acts.old.items) }
    {
        if segment.syn {
            acts.reserve(1)?;
            acts.push_reserved(Act::Send(self.syn_ack()));
            return Ok(());
        }
        if segments::is_ack_of(self.config.iss + 1, segment.ack) {
            return self.open(segment, now, acts);
        }
        Ok(())
    }

    fn close(&mut self, acts: &mut Vec<Act>)
        requires { vec_len acts.old < vec_capacity acts.old }
        ensures server { self.new ≡ (server_closed self.old).after }
        ensures acts { acts.new.items ≡ acts.old.items ++ (server_closed self.old).acts }
    {
        self.state = TcpState::Closed;
        self.deadline = None;
        acts.push_reserved(Act::Entered(TcpState::Closed));
    }

    #[tactic(auto, unfolding(tcp_rules::specs::Servers::at_last))]
    fn at_last(&mut self, segment: &Segment, acts: &mut Vec<Act>) -> Result<(), AllocError>
        ensures server { OnOk result (self.new ≡ (at_last self.old segment.now).after) }
        ensures acts { OnOk result (acts.new.items ≡ acts.old.items ++ (at_last self.old segment.now).acts) }
        ensures same { OnErr result (self.new ≡ self.old) }
        ensures kept { OnErr result (acts.new.items ≡ acts.old.items) }
    {
        if segment.syn {
            return Ok(());
        }
        acts.reserve(1)?;
        if segments::is_ack_of(self.config.iss + 2, segment.ack) {
            self.close(acts);
        } else if segments::carries(segment) {
            acts.push_reserved(Act::Send(self.fin()));
        }
        Ok(())
    }

    /// A segment comes at `now`.
    pub(crate) fn segment(
        &mut self,
        segment: &Segment,
        now: u64,
        acts: &mut Vec<Act>,
    ) -> Result<(), AllocError>
        requires { now ≤ 10 ^ 18 }
        ensures server { OnOk result (self.new ≡ (server_segment self.old segment.now now).after) }
        ensures acts { OnOk result (acts.new.items ≡ acts.old.items ++ (server_segment self.old segment.now now).acts) }
        ensures same { OnErr result (self.new ≡ self.old) }
        ensures kept { OnErr result (acts.new.items ≡ acts.old.items) }
    {
        match self.state {
            TcpState::SynReceived => self.at_start(segment, now, acts),
            TcpState::Established => {
                if segment.syn {
                    return Ok(());
                }
                self.at_data(segment, now, acts)
            }
            TcpState::LastAck => self.at_last(segment, acts),
            _ => Ok(()),
        }
    }

    /// The own SYN or FIN, whichever was sent last.
    fn last_sent(&self) -> Segment
        ensures { result ≡ server_last self.now.state self.now }
    {
        match self.state {
            TcpState::SynReceived => self.syn_ack(),
            _ => self.fin(),
        }
    }

    /// The timeout doubles, and the timer starts again.
    fn wait(&mut self, now: u64)
        requires now { now ≤ 10 ^ 18 }
        requires tries { self.old.tries < self.old.config.tries }
        ensures { self.new ≡ waiting self.old now }
    {
        self.tries += 1;
        self.rto.timeout();
        self.rto.known();
        self.deadline = Some(now + self.rto.value());
    }

    /// The deadline passes at `now`.
    #[tactic(auto, unfolding(tcp_rules::specs::Servers::server_timeout))]
    pub(crate) fn timeout(&mut self, now: u64, acts: &mut Vec<Act>) -> Result<(), AllocError>
        requires { now ≤ 10 ^ 18 }
        ensures server { OnOk result (self.new ≡ (server_timeout self.old now).after) }
        ensures acts { OnOk result (acts.new.items ≡ acts.old.items ++ (server_timeout self.old now).acts) }
        ensures same { OnErr result (self.new ≡ self.old) }
        ensures kept { OnErr result (acts.new.items ≡ acts.old.items) }
    {
        acts.reserve(1)?;
        if self.tries + 1 > self.config.tries {
            self.close(acts);
        } else {
            acts.push_reserved(Act::Send(self.last_sent()));
            self.wait(now);
        }
        Ok(())
    }

    pub(crate) fn deadline(&self) -> Option<u64>
        ensures { result ≡ self.now.deadline }
    {
        self.deadline
    }

    pub(crate) fn state(&self) -> TcpState
        ensures { result ≡ self.now.state }
    {
        self.state
    }

    pub(crate) fn delivered(&self) -> u64
        ensures { result ≡ self.now.delivered }
    {
        self.delivered
    }

    /// Tells a proof that the fields are in their ranges.
    pub(crate) fn known(&self)
        ensures { IsServerEnd self.now }
    {
        let _state = self.state;
    }
}

/// Adds that so many bytes were delivered, where there are any.
fn add_delivery(bytes: u64, acts: &mut Vec<Act>)
    requires { vec_len acts.old < vec_capacity acts.old }
    ensures acts { acts.new.items ≡ acts.old.items ++ delivery_of bytes }
    ensures len { vec_len acts.new ≤ vec_len acts.old + 1 }
    ensures capacity { vec_capacity acts.new ≡ vec_capacity acts.old }
{
    if bytes > 0 {
        acts.push_reserved(Act::Delivered(bytes));
    }
}
