//! The client: the end that opens a connection and sends.
ghost use Rattle.std.specs.Prelude.{◌≡◌};
ghost use Rattle.tcp_rules.specs.Clients.{measured, is_timed_below};

use crate::segments;
use sim_base::{Segment, TcpConfig, TcpState};
use std::alloc::AllocError;
use std::marker::Model;
use tcp_clock::{Cwnd, Rto};
use tcp_rules::{Act, Timing};

/// A client session. Positions of the send sequence: the first that is not acknowledged, the next to
/// be sent and the greatest of these so far, and the end of the data, which is the FIN's place; the
/// next position to be received, and the peer's window in bytes. Contracts see the record of these.
#[derive(Clone, Copy)]
pub(crate) struct Client {
    config: TcpConfig,
    state: TcpState,
    una: u64,
    nxt: u64,
    top: u64,
    end: u64,
    rcv: u64,
    peer: u64,
    window: Cwnd,
    rto: Rto,
    timed: Option<Timing>,
    tries: u64,
    duplicates: u64,
    deadline: Option<u64>,
}

impl Model for Client {
    ghost use Rattle.tcp_rules.specs.Clients.{ClientFields};
    ghost use Rattle.tcp_rules.specs.Limits.{IsClientEnd};

    ghost Value = { ClientFields };

    ghost use Rattle.tcp_session.specs.ClientViews.{client_view, client_inside};

    ghost view = { client_view };

    ghost invariant = { λ c. IsClientEnd (client_view c) };

    ghost inverse = { client_inside };
}

impl Client {
    ghost use Rattle.std.specs.Prelude.{◌≡◌, ◌+◌, ◌-◌, ◌<◌, ◌≤◌, ◌^◌, ◌++◌, OnOk, OnErr, vec_len, vec_capacity};
    ghost use Rattle.tcp_rules.specs.Segments.{IsTimedTcp, span};
    ghost use Rattle.tcp_rules.specs.Clients.{ClientFields, client_ack, client_fin, client_data, first_segment, timing_at_send, advanced, deadline_at, with_deadline, opened};
    ghost use Rattle.tcp_rules.specs.Clients.{edge, data_stop, data_count, data_sent, fin_sent, sent, synchronized, at_syn_ack, acknowledged, at_new_ack, is_duplicate};
    ghost use Rattle.tcp_rules.specs.Clients.{at_duplicate, at_ack, hears, at_acknowledgment, at_last_fin, at_fin, at_plain, at_opening, at_later, client_segment};
    ghost use Rattle.tcp_rules.specs.Limits.{IsClientEnd};
    ghost use Rattle.tcp_rules.specs.Clients.{fin_acknowledged, client_closed, window_after_timeout, retransmitted, at_client_timeout, client_timeout};

    /// A client that has sent its SYN at `now`, for so many bytes.
    #[tactic(auto, unfolding(tcp_rules::specs::Clients::opened))]
    pub(crate) fn opened(config: &TcpConfig, bytes: u64, now: u64) -> Client
        requires settings { IsTimedTcp config.now }
        requires bytes { bytes ≤ 2 ^ 30 }
        requires now { now ≤ 10 ^ 18 }
        ensures { result ≡ opened config.now bytes now }
    {
        let rto = Rto::new(config.frequency);
        rto.known();
        let window = Cwnd::new(config.mss, 2 * config.mss);
        window.known();
        Client {
            config: *config,
            state: TcpState::SynSent,
            una: config.iss,
            nxt: config.iss + 1,
            top: config.iss + 1,
            end: config.iss + 1 + bytes,
            rcv: 0,
            peer: 0,
            window,
            rto,
            timed: Some(Timing {
                position: config.iss,
                since: now,
            }),
            tries: 0,
            duplicates: 0,
            deadline: Some(now + rto.value()),
        }
    }

    /// An acknowledgment of what was received.
    fn pure_ack(&self) -> Segment
        ensures { result ≡ client_ack self.now }
    {
        segments::data(&self.config, self.nxt, self.rcv, 0)
    }

    /// The FIN, behind all data.
    fn fin(&self) -> Segment
        ensures { result ≡ client_fin self.now }
    {
        segments::fin(&self.config, self.end, self.rcv)
    }

    /// Data of some length, which ends at most where the FIN ends.
    fn data(&self, position: u64, length: u64) -> Segment
        requires { position + length ≤ self.now.end + 1 }
        ensures { result ≡ client_data self.now position length }
    {
        segments::data(&self.config, position, self.rcv, length)
    }

    /// The first segment that is not acknowledged.
    #[tactic(auto, unfolding(tcp_rules::specs::Clients::first_segment))]
    fn first_segment(&self) -> Segment
        ensures value { result ≡ first_segment self.now }
        ensures past { self.now.config.iss + 1 ≤ self.now.una + span result }
        ensures within { self.now.una + span result ≤ self.now.end + 1 }
    {
        if self.una == self.config.iss {
            segments::syn(&self.config)
        } else if self.una == self.end {
            self.fin()
        } else {
            self.data(
                self.una,
                self.window.mss().min(self.end.saturating_sub(self.una)),
            )
        }
    }

    /// The timing after a segment at `nxt` is sent: one that was sent before gives no sample.
    #[tactic(auto, unfolding(tcp_rules::specs::Clients::timing_at_send))]
    fn timing_at_send(&self, now: u64) -> Option<Timing>
        ensures { result ≡ timing_at_send self.now now }
    {
        if self.nxt < self.top {
            return None;
        }
        match self.timed {
            None => Some(Timing {
                position: self.nxt,
                since: now,
            }),
            Some(timing) => Some(timing),
        }
    }

    /// So many positions more are sent.
    fn advance(&mut self, now: u64, positions: u64)
        requires { self.old.nxt + positions ≤ self.old.end + 1 }
        ensures { self.new ≡ advanced self.old now positions }
    {
        self.timed = self.timing_at_send(now);
        self.nxt += positions;
        self.top = self.top.max(self.nxt);
    }

    /// When the timer runs out that is started at `now`, where something is in flight.
    #[tactic(auto, unfolding(tcp_rules::specs::Clients::deadline_at))]
    fn deadline_at(&self, now: u64) -> Option<u64>
        requires { now ≤ 10 ^ 18 }
        ensures { result ≡ deadline_at self.now now }
    {
        self.rto.known();
        (self.una < self.nxt).then_some(now + self.rto.value())
    }

    /// Starts the timer where something is in flight, and else stops it.
    fn set_deadline(&mut self, now: u64)
        requires { now ≤ 10 ^ 18 }
        ensures { self.new ≡ with_deadline self.old now }
    {
        self.deadline = self.deadline_at(now);
    }

    /// The position up to which data may be in flight.
    #[tactic(auto, unfolding(tcp_rules::specs::Clients::edge))]
    fn edge(&self) -> u64
        ensures value { result ≡ edge self.now }
        ensures most { result ≤ 2 ^ 34 }
    {
        let own = self.config.send * self.config.mss;
        self.una + self.window.window().min(self.peer.min(own))
    }

    /// Where the data ends that may be sent now.
    #[tactic(auto, unfolding(tcp_rules::specs::Clients::data_stop))]
    fn data_stop(&self) -> u64
        ensures value { result ≡ data_stop self.now }
        ensures within { self.now.nxt < result → result ≤ self.now.end }
    {
        let edge = self.edge();
        if self.end <= edge {
            return self.end;
        }
        self.window.known();
        let room = edge.saturating_sub(self.nxt);
        self.nxt + (room - room % self.window.mss())
    }

    /// How many segments of data lead there.
    #[tactic(auto, unfolding(tcp_rules::specs::Clients::data_count))]
    fn data_count(&self, stop: u64) -> u64
        requires { self.now.nxt < stop → stop ≤ self.now.end }
        ensures value { result ≡ data_count stop self.now }
        ensures few { result ≤ 2 ^ 32 }
    {
        self.window.known();
        let mss = self.window.mss();
        (stop.saturating_sub(self.nxt) + (mss - 1)) / mss
    }

    /// One segment of data at `nxt`, which ends at most at `stop`.
    fn send_data_segment(&mut self, stop: u64, now: u64, acts: &mut Vec<Act>)
        requires stop { self.old.nxt < stop → stop ≤ self.old.end }
        requires room { vec_len acts.old < vec_capacity acts.old }
        ensures client { self.new ≡ (data_sent 1 stop now self.old).after }
        ensures acts { acts.new.items ≡ acts.old.items ++ (data_sent 1 stop now self.old).acts }
        ensures len { vec_len acts.new ≡ vec_len acts.old + 1 }
        ensures capacity { vec_capacity acts.new ≡ vec_capacity acts.old }
        ensures stop { self.new.nxt < stop → stop ≤ self.new.end }
    {
        let length = self.window.mss().min(stop.saturating_sub(self.nxt));
        acts.push_reserved(Act::Send(self.data(self.nxt, length)));
        self.advance(now, length);
    }

    /// So many segments of data, up to `stop`.
    fn send_data(&mut self, count: u64, stop: u64, now: u64, acts: &mut Vec<Act>)
        requires stop { self.old.nxt < stop → stop ≤ self.old.end }
        requires room { vec_len acts.old + count ≤ vec_capacity acts.old }
        ensures client { self.new ≡ (data_sent count stop now self.old).after }
        ensures acts { acts.new.items ≡ acts.old.items ++ (data_sent count stop now self.old).acts }
        ensures len { vec_len acts.new ≡ vec_len acts.old + count }
        ensures capacity { vec_capacity acts.new ≡ vec_capacity acts.old }
    {
        for _index in 0..count {
            self.send_data_segment(stop, now, acts);
        }
    }

    /// The FIN, where all data is sent.
    #[tactic(auto, unfolding(tcp_rules::specs::Clients::fin_sent))]
    fn send_fin(&mut self, now: u64, acts: &mut Vec<Act>)
        requires room { vec_len acts.old + 2 ≤ vec_capacity acts.old }
        ensures client { self.new ≡ (fin_sent now self.old).after }
        ensures acts { acts.new.items ≡ acts.old.items ++ (fin_sent now self.old).acts }
        ensures len { vec_len acts.new ≤ vec_len acts.old + 2 }
        ensures capacity { vec_capacity acts.new ≡ vec_capacity acts.old }
    {
        if self.nxt != self.end {
            return;
        }
        if matches!(self.state, TcpState::Established) {
            acts.push_reserved(Act::Entered(TcpState::FinWait1));
        }
        acts.push_reserved(Act::Send(self.fin()));
        self.advance(now, 1);
        self.state = TcpState::FinWait1;
    }

    /// What may go out goes out.
    #[tactic(auto, unfolding(tcp_rules::specs::Clients::sent))]
    fn send(&mut self, now: u64, acts: &mut Vec<Act>)
        requires now { now ≤ 10 ^ 18 }
        requires room { vec_len acts.old + data_count (data_stop self.old) self.old + 2 ≤ vec_capacity acts.old }
        ensures client { self.new ≡ (sent now self.old).after }
        ensures acts { acts.new.items ≡ acts.old.items ++ (sent now self.old).acts }
        ensures len { vec_len acts.new ≤ vec_len acts.old + data_count (data_stop self.old) self.old + 2 }
        ensures capacity { vec_capacity acts.new ≡ vec_capacity acts.old }
    {
        let stop = self.data_stop();
        let count = self.data_count(stop);
        self.send_data(count, stop, now, acts);
        self.send_fin(now, acts);
        self.set_deadline(now);
    }

    /// The room that `send` needs, with two places for acts before it or for what a FIN adds.
    fn room(&self) -> usize
        ensures { result ≡ data_count (data_stop self.now) self.now + 4 }
    {
        self.data_count(self.data_stop()) as usize + 4
    }

    /// The own SYN is acknowledged by the peer's.
    fn synchronize(&mut self, segment: &Segment, now: u64)
        ensures { self.new ≡ synchronized self.old segment.now now }
    {
        segment.known();
        let mss = self.config.mss.min(segment.window).max(1);
        let window = Cwnd::new(mss, segment.window.max(2 * mss));
        window.known();
        let rto = measured(self.rto, now, self.timed);
        rto.known();
        self.rto = rto;
        self.timed = None;
        self.una = self.config.iss + 1;
        self.rcv = segment.seq + 1;
        self.peer = segment.window;
        self.window = window;
        self.tries = 0;
        self.state = TcpState::Established;
    }

    #[tactic(auto, unfolding(tcp_rules::specs::Clients::at_syn_ack))]
    fn at_syn_ack(
        &mut self,
        segment: &Segment,
        now: u64,
        acts: &mut Vec<Act>,
    ) -> Result<(), AllocError>
        requires { now ≤ 10 ^ 18 }
        ensures client { OnOk result (self.new ≡ (at_syn_ack self.old segment.now now).after) }
        ensures acts { OnOk result (acts.new.items ≡ acts.old.items ++ (at_syn_ack self.old segment.now now).acts) }
        ensures same { OnErr result (self.new ≡ self.old) }
        ensures kept { OnErr result (acts.new.items ≡ acts.old.items) }
    {
        let mut next = *self;
        next.synchronize(segment, now);
        acts.reserve(next.room())?;
        acts.push_reserved(Act::Entered(TcpState::Established));
        acts.push_reserved(Act::Send(next.pure_ack()));
        next.send(now, acts);
        *self = next;
        Ok(())
    }

    /// New positions are acknowledged, up to `ack`.
    #[tactic(auto, unfolding(tcp_clock::specs::Congestion::grown))]
    fn acknowledge(&mut self, ack: u64, now: u64)
        requires new { self.old.una < ack }
        requires sent { ack ≤ self.old.top }
        ensures { self.new ≡ acknowledged self.old ack now }
    {
        if is_timed_below(ack, self.timed) {
            self.rto = measured(self.rto, now, self.timed);
            self.timed = None;
        }
        self.rto.known();
        self.tries = 0;
        self.duplicates = 0;
        self.window.acked(ack - self.una);
        self.window.known();
        self.una = ack;
        self.nxt = self.nxt.max(ack);
    }

    #[tactic(auto, unfolding(tcp_rules::specs::Clients::at_new_ack))]
    fn at_new_ack(&mut self, ack: u64, now: u64, acts: &mut Vec<Act>) -> Result<(), AllocError>
        requires new { self.old.una < ack }
        requires sent { ack ≤ self.old.top }
        requires now { now ≤ 10 ^ 18 }
        ensures client { OnOk result (self.new ≡ (at_new_ack self.old ack now).after) }
        ensures acts { OnOk result (acts.new.items ≡ acts.old.items ++ (at_new_ack self.old ack now).acts) }
        ensures same { OnErr result (self.new ≡ self.old) }
        ensures kept { OnErr result (acts.new.items ≡ acts.old.items) }
        ensures room { OnOk result (vec_len acts.new + 2 ≤ vec_capacity acts.new) }
    {
        let mut next = *self;
        next.acknowledge(ack, now);
        acts.reserve(next.room())?;
        if ack == self.end + 1 {
            next.enter_fin_wait_2(now);
            acts.push_reserved(Act::Entered(TcpState::FinWait2));
        } else {
            next.send(now, acts);
        }
        *self = next;
        Ok(())
    }

    /// The own FIN is acknowledged.
    fn enter_fin_wait_2(&mut self, now: u64)
        requires { now ≤ 10 ^ 18 }
        ensures { self.new ≡ fin_acknowledged self.old now }
    {
        self.set_deadline(now);
        self.state = TcpState::FinWait2;
    }

    /// Whether an acknowledgment is a duplicate.
    fn is_duplicate(&self, segment: &Segment, ack: u64) -> bool
        ensures { result ≡ is_duplicate self.now segment.now ack }
    {
        ack == self.una && segment.length == 0 && !segment.fin && self.una < self.nxt
    }

    #[tactic(auto, unfolding(tcp_rules::specs::Clients::at_duplicate, tcp_clock::specs::Congestion::third_duplicate))]
    fn at_duplicate(&mut self, acts: &mut Vec<Act>)
        requires room { vec_len acts.old < vec_capacity acts.old }
        ensures client { self.new ≡ (at_duplicate self.old).after }
        ensures acts { acts.new.items ≡ acts.old.items ++ (at_duplicate self.old).acts }
        ensures len { vec_len acts.new ≤ vec_len acts.old + 1 }
        ensures capacity { vec_capacity acts.new ≡ vec_capacity acts.old }
    {
        if self.duplicates == 2 {
            acts.push_reserved(Act::Send(self.first_segment()));
            self.duplicates = 3;
            self.window.third_duplicate(self.nxt - self.una);
            self.window.known();
            self.timed = None;
        } else {
            self.duplicates = (self.duplicates + 1).min(4);
        }
    }

    #[tactic(auto, unfolding(tcp_rules::specs::Clients::at_ack))]
    fn at_ack(
        &mut self,
        segment: &Segment,
        ack: u64,
        now: u64,
        acts: &mut Vec<Act>,
    ) -> Result<(), AllocError>
        requires { now ≤ 10 ^ 18 }
        ensures client { OnOk result (self.new ≡ (at_ack self.old segment.now ack now).after) }
        ensures acts { OnOk result (acts.new.items ≡ acts.old.items ++ (at_ack self.old segment.now ack now).acts) }
        ensures same { OnErr result (self.new ≡ self.old) }
        ensures kept { OnErr result (acts.new.items ≡ acts.old.items) }
        ensures room { OnOk result (vec_len acts.new + 2 ≤ vec_capacity acts.new) }
    {
        if self.una < ack && ack <= self.top {
            return self.at_new_ack(ack, now, acts);
        }
        acts.reserve(3)?;
        if self.is_duplicate(segment, ack) {
            self.at_duplicate(acts);
        }
        Ok(())
    }

    /// What the acknowledgment of a segment says, where the state minds it.
    #[tactic(auto, unfolding(tcp_rules::specs::Clients::at_acknowledgment))]
    fn at_acknowledgment(
        &mut self,
        segment: &Segment,
        now: u64,
        acts: &mut Vec<Act>,
    ) -> Result<(), AllocError>
        requires { now ≤ 10 ^ 18 }
        ensures client { OnOk result (self.new ≡ (at_acknowledgment self.old segment.now now).after) }
        ensures acts { OnOk result (acts.new.items ≡ acts.old.items ++ (at_acknowledgment self.old segment.now now).acts) }
        ensures same { OnErr result (self.new ≡ self.old) }
        ensures kept { OnErr result (acts.new.items ≡ acts.old.items) }
        ensures room { OnOk result (vec_len acts.new + 2 ≤ vec_capacity acts.new) }
    {
        if !matches!(self.state, TcpState::Established | TcpState::FinWait1) {
            return acts.reserve(2);
        }
        match segment.ack {
            None => acts.reserve(2),
            Some(ack) => self.at_ack(segment, ack, now, acts),
        }
    }

    #[tactic(auto, unfolding(tcp_rules::specs::Clients::at_last_fin))]
    fn at_last_fin(&mut self, now: u64, acts: &mut Vec<Act>)
        requires now { now ≤ 10 ^ 18 }
        requires rcv { self.old.rcv < 2 ^ 32 }
        requires room { vec_len acts.old + 2 ≤ vec_capacity acts.old }
        ensures client { self.new ≡ (at_last_fin self.old now).after }
        ensures acts { acts.new.items ≡ acts.old.items ++ (at_last_fin self.old now).acts }
    {
        self.rcv += 1;
        self.state = TcpState::TimeWait;
        self.deadline = Some(now + 2 * self.config.msl);
        acts.push_reserved(Act::Entered(TcpState::TimeWait));
        acts.push_reserved(Act::Send(self.pure_ack()));
    }

    /// What the FIN of a segment says.
    fn at_fin(&mut self, segment: &Segment, now: u64, acts: &mut Vec<Act>)
        requires now { now ≤ 10 ^ 18 }
        requires room { vec_len acts.old + 2 ≤ vec_capacity acts.old }
        ensures client { self.new ≡ (at_fin self.old.state self.old segment.now now).after }
        ensures acts { acts.new.items ≡ acts.old.items ++ (at_fin self.old.state self.old segment.now now).acts }
    {
        segment.known();
        match self.state {
            TcpState::FinWait2 => {
                if segment.fin && segment.seq + segment.length == self.rcv {
                    self.at_last_fin(now, acts);
                }
            }
            TcpState::TimeWait => {
                if segment.fin {
                    acts.push_reserved(Act::Send(self.pure_ack()));
                }
            }
            _ => {}
        }
    }

    #[tactic(auto, unfolding(tcp_rules::specs::Clients::at_plain))]
    fn at_plain(
        &mut self,
        segment: &Segment,
        now: u64,
        acts: &mut Vec<Act>,
    ) -> Result<(), AllocError>
        requires { now ≤ 10 ^ 18 }
        ensures client { OnOk result (self.new ≡ (at_plain self.old segment.now now).after) }
        ensures acts { OnOk result (acts.new.items ≡ acts.old.items ++ (at_plain self.old segment.now now).acts) }
        ensures same { OnErr result (self.new ≡ self.old) }
        ensures kept { OnErr result (acts.new.items ≡ acts.old.items) }
    {
        self.at_acknowledgment(segment, now, acts)?;
        self.at_fin(segment, now, acts);
        Ok(())
    }

    #[tactic(auto, unfolding(tcp_rules::specs::Clients::at_opening))]
    fn at_opening(
        &mut self,
        segment: &Segment,
        now: u64,
        acts: &mut Vec<Act>,
    ) -> Result<(), AllocError>
        requires { now ≤ 10 ^ 18 }
        ensures client { OnOk result (self.new ≡ (at_opening self.old segment.now now).after) }
        ensures acts { OnOk result (acts.new.items ≡ acts.old.items ++ (at_opening self.old segment.now now).acts) }
        ensures same { OnErr result (self.new ≡ self.old) }
        ensures kept { OnErr result (acts.new.items ≡ acts.old.items) }
    {
        if segment.syn && segments::is_ack_of(self.config.iss + 1, segment.ack) {
            return self.at_syn_ack(segment, now, acts);
        }
        Ok(())
    }

    #[tactic(auto, unfolding(tcp_rules::specs::Clients::at_later))]
    fn at_later(
        &mut self,
        segment: &Segment,
        now: u64,
        acts: &mut Vec<Act>,
    ) -> Result<(), AllocError>
        requires { now ≤ 10 ^ 18 }
        ensures client { OnOk result (self.new ≡ (at_later self.old segment.now now).after) }
        ensures acts { OnOk result (acts.new.items ≡ acts.old.items ++ (at_later self.old segment.now now).acts) }
        ensures same { OnErr result (self.new ≡ self.old) }
        ensures kept { OnErr result (acts.new.items ≡ acts.old.items) }
    {
        if !segment.syn {
            return self.at_plain(segment, now, acts);
        }
        if segment.ack.is_some() {
            acts.reserve(1)?;
            acts.push_reserved(Act::Send(self.pure_ack()));
        }
        Ok(())
    }

    /// A segment comes at `now`.
    pub(crate) fn segment(
        &mut self,
        segment: &Segment,
        now: u64,
        acts: &mut Vec<Act>,
    ) -> Result<(), AllocError>
        requires { now ≤ 10 ^ 18 }
        ensures client { OnOk result (self.new ≡ (client_segment self.old segment.now now).after) }
        ensures acts { OnOk result (acts.new.items ≡ acts.old.items ++ (client_segment self.old segment.now now).acts) }
        ensures same { OnErr result (self.new ≡ self.old) }
        ensures kept { OnErr result (acts.new.items ≡ acts.old.items) }
    {
        match self.state {
            TcpState::SynSent => self.at_opening(segment, now, acts),
            TcpState::Closed => Ok(()),
            _ => self.at_later(segment, now, acts),
        }
    }

    fn close(&mut self, acts: &mut Vec<Act>)
        requires { vec_len acts.old < vec_capacity acts.old }
        ensures client { self.new ≡ (client_closed self.old).after }
        ensures acts { acts.new.items ≡ acts.old.items ++ (client_closed self.old).acts }
    {
        self.state = TcpState::Closed;
        self.deadline = None;
        acts.push_reserved(Act::Entered(TcpState::Closed));
    }

    /// The congestion window after a timeout, which there is once the peer's window is known.
    #[tactic(auto, unfolding(tcp_rules::specs::Clients::window_after_timeout, tcp_clock::specs::Congestion::timed_out, tcp_clock::specs::Congestion::timed_out_again))]
    fn window_after_timeout(&self) -> Cwnd
        ensures value { result ≡ window_after_timeout self.now.state self.now }
        ensures mss { result.mss ≡ self.now.window.mss }
    {
        let mut window = self.window;
        match self.state {
            TcpState::SynSent => {}
            _ => {
                if self.tries == 0 {
                    window.timeout(self.nxt - self.una);
                } else {
                    window.timeout_again();
                }
            }
        }
        window
    }

    /// The first segment goes out again.
    fn retransmit(&mut self, now: u64)
        requires now { now ≤ 10 ^ 18 }
        requires tries { self.old.tries < self.old.config.tries }
        ensures { self.new ≡ retransmitted self.old now }
    {
        let after = self.una + segments::span(&self.first_segment());
        let window = self.window_after_timeout();
        window.known();
        self.rto.timeout();
        self.rto.known();
        self.window = window;
        self.tries += 1;
        self.duplicates = 0;
        self.timed = None;
        self.nxt = after;
        self.top = self.top.max(after);
        self.deadline = Some(now + self.rto.value());
    }

    #[tactic(auto, unfolding(tcp_rules::specs::Clients::at_client_timeout))]
    fn at_timeout(&mut self, now: u64, acts: &mut Vec<Act>)
        requires now { now ≤ 10 ^ 18 }
        requires room { vec_len acts.old < vec_capacity acts.old }
        ensures client { self.new ≡ (at_client_timeout self.old now).after }
        ensures acts { acts.new.items ≡ acts.old.items ++ (at_client_timeout self.old now).acts }
    {
        if self.tries + 1 > self.config.tries {
            self.close(acts);
        } else {
            acts.push_reserved(Act::Send(self.first_segment()));
            self.retransmit(now);
        }
    }

    /// The deadline passes at `now`.
    pub(crate) fn timeout(&mut self, now: u64, acts: &mut Vec<Act>) -> Result<(), AllocError>
        requires { now ≤ 10 ^ 18 }
        ensures client { OnOk result (self.new ≡ (client_timeout self.old now).after) }
        ensures acts { OnOk result (acts.new.items ≡ acts.old.items ++ (client_timeout self.old now).acts) }
        ensures same { OnErr result (self.new ≡ self.old) }
        ensures kept { OnErr result (acts.new.items ≡ acts.old.items) }
    {
        acts.reserve(1)?;
        match self.state {
            TcpState::TimeWait => self.close(acts),
            _ => self.at_timeout(now, acts),
        }
        Ok(())
    }

    pub(crate) fn deadline(&self) -> Option<u64>
        ensures { result ≡ self.now.deadline }
    {
        self.deadline
    }

    pub(crate) fn state(&self) -> TcpState
        ensures { result ≡ self.now.state }
    {
        self.state
    }

    /// Tells a proof that the fields are in their ranges.
    pub(crate) fn known(&self)
        ensures { IsClientEnd self.now }
    {
        let _state = self.state;
    }
}

/// The timeout with a sample of the round-trip time, where a position is timed.
#[tactic(auto, unfolding(tcp_rules::specs::Clients::measured))]
fn measured(rto: Rto, now: u64, timed: Option<Timing>) -> Rto
    ensures { result ≡ measured rto now timed }
{
    let mut rto = rto;
    if let Some(timing) = timed {
        rto.sample(now.saturating_sub(timing.since));
    }
    rto
}

/// Whether the position that is timed lies below another.
fn is_timed_below(position: u64, timed: Option<Timing>) -> bool
    ensures { result ≡ is_timed_below position timed }
{
    match timed {
        None => false,
        Some(timing) => timing.position < position,
    }
}
