//! Worked traces.
ghost use Rattle.std.specs.Prelude.{◌≡◌, ◌<◌, length, IfOk};

use event_order::Key;
use sim_base::{ListOf, Memory, Reason, TcpState, Text};
use ssf_model::{Entry, Line, Names};
use std::alloc::Global;
use std::test::Fail;
use trace_writer::{OneHistory, Tally, end_line, report_text, trace_line};

/// The names of a router and two hosts.
fn names(alloc: Global) -> Result<Names, Memory>
    ensures { IfOk result (λ names. length names.names ≡ 3) }
{
    let router = Text::of(alloc, b"1")?;
    let client = Text::of(alloc, b"0")?;
    let server = Text::of(alloc, b"2")?;
    Ok(Names::new(vec![in alloc; router, client, server]?))
}

/// An executed event: time, round, channel and number, its entity, and its lines.
fn entry(
    alloc: Global,
    key: (u64, u64, u32, u64),
    entity: u32,
    lines: &[Line],
) -> Result<Entry, Memory>
    ensures { IfOk result (λ entry. entry.entity ≡ entity) }
{
    Ok(Entry {
        key: Key {
            time: key.0,
            round: key.1,
            priority: 9,
            channel: key.2,
            number: key.3,
        },
        entity,
        lines: ListOf::from_vec(Vec::from_slice(alloc, lines)?),
    })
}

/// The beginning of a transfer over a router.
#[test]
fn transfer(rt: HostRuntime) -> Result<(), Fail> {
    let alloc = rt.alloc();
    let names = names(alloc)?;
    let opened = Line::Entered {
        port: 10_000,
        peer: 167_772_165,
        peer_port: 10,
        state: TcpState::SynSent,
    };
    let to_router = Line::Sent {
        interface: 0,
        next: 167_772_162,
        tcp: true,
        bytes: 40,
    };
    let mut out = Vec::new(alloc);
    let start = entry(alloc, (0, 0, 1, 0), 1, &[])?;
    trace_line(&names, &start, &mut out)?;
    let opening = entry(alloc, (1_000_000_000, 0, 4, 0), 0, &[opened, to_router])?;
    trace_line(&names, &opening, &mut out)?;
    let poked = entry(alloc, (1_003_180_000, 1, 9, 0), 2, &[])?;
    trace_line(&names, &poked, &mut out)?;
    end_line(1_005_000_000, 8, &mut out)?;
    let want =
        b"E 0 0 1 0 0\nE 1000000000 0 4 0 1\nC 10000 10.0.0.5:10 SYN_SENT\nS 0 10.0.0.2 tcp 40\nE 1003180000 1 9 0 2\nend 1005000000 8\n";
    assert_eq!(rt; out.as_slice(), want.as_slice());
    Ok(())
}

/// Each kind of line, with words and numbers at their ends.
#[test]
fn kinds_of_lines(rt: HostRuntime) -> Result<(), Fail> {
    let alloc = rt.alloc();
    let names = names(alloc)?;
    let most = u64::MAX;
    let lines = [
        Line::Sent {
            interface: u32::MAX,
            next: u32::MAX,
            tcp: false,
            bytes: most,
        },
        Line::Dropped {
            reason: Reason::Buffer,
            tcp: true,
            bytes: 1_040,
        },
        Line::Udp {
            port: 7,
            bytes: 1_000,
        },
        Line::Entered {
            port: u16::MAX,
            peer: u32::MAX,
            peer_port: u16::MAX,
            state: TcpState::Established,
        },
        Line::Delivered {
            port: 1,
            peer: 0,
            peer_port: 0,
            bytes: 0,
        },
    ];
    let full = entry(alloc, (most, most, u32::MAX, most), 0, &lines)?;
    let mut out = Vec::new(alloc);
    trace_line(&names, &full, &mut out)?;
    let want =
        b"E 18446744073709551615 18446744073709551615 4294967295 18446744073709551615 1\nS 4294967295 255.255.255.255 udp 18446744073709551615\nX buffer tcp 1040\nU 7 1000\nC 65535 255.255.255.255:65535 ESTABLISHED\nD 1 0.0.0.0:0 0\n";
    assert_eq!(rt; out.as_slice(), want.as_slice());
    Ok(())
}

/// Each reason and each state that the other tests leave out.
#[test]
fn words(rt: HostRuntime) -> Result<(), Fail> {
    let alloc = rt.alloc();
    let names = names(alloc)?;
    let mut lines = Vec::new(alloc);
    for reason in [Reason::Ttl, Reason::Route, Reason::Port, Reason::Link] {
        lines.push(Line::Dropped {
            reason,
            tcp: false,
            bytes: 0,
        })?;
    }
    for state in [
        TcpState::SynReceived,
        TcpState::FinWait1,
        TcpState::FinWait2,
        TcpState::TimeWait,
        TcpState::LastAck,
        TcpState::Closed,
    ] {
        lines.push(Line::Entered {
            port: 1,
            peer: 0,
            peer_port: 2,
            state,
        })?;
    }
    let told = entry(alloc, (0, 0, 1, 0), 1, lines.as_slice())?;
    let mut out = Vec::new(alloc);
    trace_line(&names, &told, &mut out)?;
    let want =
        b"E 0 0 1 0 0\nX ttl udp 0\nX route udp 0\nX port udp 0\nX link udp 0\nC 1 0.0.0.0:2 SYN_RCVD\nC 1 0.0.0.0:2 FIN_WAIT_1\nC 1 0.0.0.0:2 FIN_WAIT_2\nC 1 0.0.0.0:2 TIME_WAIT\nC 1 0.0.0.0:2 LAST_ACK\nC 1 0.0.0.0:2 CLOSED\n";
    assert_eq!(rt; out.as_slice(), want.as_slice());
    Ok(())
}

/// The report of a transfer, as one text from a list and as a tally.
#[test]
fn report(rt: HostRuntime) -> Result<(), Fail> {
    let alloc = rt.alloc();
    let sent = Line::Sent {
        interface: 0,
        next: 1,
        tcp: true,
        bytes: 40,
    };
    let dropped = Line::Dropped {
        reason: Reason::Ttl,
        tcp: true,
        bytes: 29,
    };
    let datagram = Line::Udp { port: 7, bytes: 3 };
    let delivered = Line::Delivered {
        port: 10,
        peer: 1,
        peer_port: 2,
        bytes: u64::MAX,
    };
    let first = entry(alloc, (0, 0, 1, 0), 1, &[sent, sent, datagram])?;
    let second = entry(alloc, (9, 0, 1, 1), 1, &[delivered, dropped, delivered])?;
    let mut tally = Tally::new();
    let mut out = Vec::new(alloc);
    tally.text(&mut out)?;
    let none = b"events 0\nlast 0\nsent 0 0\ndropped 0 0\nudp 0 0\ntcp 0\n";
    assert_eq!(rt; out.as_slice(), none.as_slice());
    tally.add(&first);
    tally.add(&second);
    let mut summed = Vec::new(alloc);
    tally.text(&mut summed)?;
    let want = b"events 2\nlast 9\nsent 2 80\ndropped 1 29\nudp 1 3\ntcp 36893488147419103230\n";
    assert_eq!(rt; summed.as_slice(), want.as_slice());
    let entries = vec![in alloc; first, second]?;
    let mut whole = Vec::new(alloc);
    report_text(&OneHistory::new(entries.as_slice()), &mut whole)?;
    assert_eq!(rt; whole.as_slice(), want.as_slice());
    Ok(())
}
