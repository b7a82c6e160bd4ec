//! A client and a server, and a network between them that carries each segment in a tick.
use sim_base::{Memory, Segment, TcpState};
use std::alloc::Global;
use tcp_session::{Act, Segments, Session};

/// What the network does to the segments that an end sends.
#[derive(Clone, Copy, Debug, PartialEq, Eq)]
pub enum Fault {
    None,
    EveryThirdLost,
    EachTwice,
    PairsReversed,
}

/// How a transfer ended: the states of client and server, the bytes that the server delivered, and
/// those that it told of.
#[derive(Clone, Copy, Debug, PartialEq, Eq)]
pub struct Outcome {
    pub client: TcpState,
    pub server: TcpState,
    pub delivered: u64,
    pub told: u64,
}

/// One end, what it did in this tick, and how many segments it sent so far.
#[derive(Drop)]
pub struct Host {
    pub session: Session,
    pub out: Segments,
    pub sent: u64,
    pub told: u64,
}

/// The last tick at which the ends act.
const LAST: u64 = 1_000_000_000;

impl Host {
    /// Takes what arrives.
    fn take(&mut self, arrived: &[Segment], now: u64) -> Result<(), Memory> {
        for segment in arrived {
            if now <= LAST {
                self.session.segment(segment, now, &mut self.out)?;
            }
        }
        Ok(())
    }

    /// Lets the deadline pass where it is due.
    fn tick(&mut self, now: u64) -> Result<(), Memory> {
        match self.session.deadline() {
            Some(due) if due <= now && now <= LAST => self.session.timeout(now, &mut self.out),
            _ => Ok(()),
        }
    }

    /// What the network makes of the segments that were sent.
    fn carried(&mut self, alloc: Global, fault: Fault) -> Result<Vec<Segment>, Memory> {
        let mut segments = Vec::new(alloc);
        for act in self.out.acts() {
            match act {
                Act::Send(segment) => {
                    self.sent = self.sent.saturating_add(1);
                    if fault != Fault::EveryThirdLost || self.sent % 3 != 0 {
                        segments.push(*segment)?;
                    }
                    if fault == Fault::EachTwice {
                        segments.push(*segment)?;
                    }
                }
                Act::Delivered(bytes) => self.told = self.told.saturating_add(*bytes),
                Act::Entered(_) => {}
            }
        }
        self.out.clear();
        if fault == Fault::PairsReversed {
            reverse_pairs(&mut segments);
        }
        Ok(segments)
    }
}

/// Each two in the other order.
fn reverse_pairs(segments: &mut [Segment]) {
    for k in 0..segments.len() / 2 {
        segments.swap(2 * k, 2 * k + 1);
    }
}

/// The earlier of two deadlines.
fn earlier(a: Option<u64>, b: Option<u64>) -> Option<u64> {
    match (a, b) {
        (Some(x), Some(y)) => Some(x.min(y)),
        (Some(x), None) => Some(x),
        (None, other) => other,
    }
}

/// Runs a transfer until nothing is under way and no timer runs.
pub fn run(
    alloc: Global,
    client: &mut Host,
    server: &mut Host,
    fault: Fault,
) -> Result<Outcome, Memory> {
    let mut now: u64 = 1;
    for _ in 0..10_000 {
        let at_client = server.carried(alloc, fault)?;
        let at_server = client.carried(alloc, fault)?;
        if at_client.is_empty() && at_server.is_empty() {
            match earlier(client.session.deadline(), server.session.deadline()) {
                None => break,
                Some(due) => now = due.max(now),
            }
        }
        client.take(&at_client, now)?;
        server.take(&at_server, now)?;
        client.tick(now)?;
        server.tick(now)?;
        now = now.saturating_add(1);
    }
    Ok(Outcome {
        client: client.session.state(),
        server: server.session.state(),
        delivered: server.session.delivered(),
        told: server.told,
    })
}
