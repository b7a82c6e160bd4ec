//! Worked examples.
ghost use Rattle.std.specs.Prelude.{◌≤◌, ◌^◌};
ghost use Rattle.tcp_rules.specs.Segments.{IsTimedTcp};

use crate::network::{Fault, Host, Outcome, run};
use sim_base::{Segment, TcpConfig, TcpState};
use std::test::Fail;
use tcp_clock::Cwnd;
use tcp_session::{Act, Segments, Session};

/// Segments of 1,000 bytes, windows of 32 of them, and twelve retransmissions.
fn settings(iss: u16, frequency: u32) -> TcpConfig
    requires { 1 ≤ frequency }
    ensures { IsTimedTcp result }
{
    TcpConfig {
        iss: u64::from(iss),
        mss: 1_000,
        receive: 32,
        send: 32,
        tries: 12,
        msl: 60 * u64::from(frequency),
        frequency: u64::from(frequency),
    }
}

/// A segment of an end with these settings. The flags are SYN and FIN.
fn segment(seq: u16, ack: Option<u16>, flags: (bool, bool), length: u16) -> Segment {
    Segment {
        seq: u64::from(seq),
        ack: ack.map(|a| u64::from(a)),
        syn: flags.0,
        fin: flags.1,
        length: u64::from(length),
        window: 32_000,
    }
}

const SYN: (bool, bool) = (true, false);

const FIN: (bool, bool) = (false, true);

const PLAIN: (bool, bool) = (false, false);

/// Lets the deadline of a session pass.
fn pass(session: &mut Session, now: u64, out: &mut Segments) -> Result<(), Fail>
    requires { now ≤ 10 ^ 18 }
{
    match session.deadline() {
        Some(_) => session.timeout(now, out).ok().ok_or("memory")?,
        None => Err("no deadline")?,
    }
    Ok(())
}

/// The acts that a row wants, at most four.
type Wanted = (Option<Act>, Option<Act>, Option<Act>, Option<Act>);

/// Whether these acts are the wanted ones.
fn are(acts: &[Act], want: Wanted) -> bool {
    let (first, second, third, fourth) = want;
    acts.first().copied() == first
        && acts.get(1).copied() == second
        && acts.get(2).copied() == third
        && acts.get(3).copied() == fourth
        && acts.len() <= 4
}

/// 1,500 bytes as the client sees them.
#[test]
fn client_transfer(rt: HostRuntime) -> Result<(), Fail> {
    let mut out = Segments::new(rt.alloc());
    let mut client = Session::connect(&settings(100, 1_000_000_000), 1_500, 0, &mut out)
        .ok()
        .ok_or("memory")?;
    let opened = [
        Act::Entered(TcpState::SynSent),
        Act::Send(segment(100, None, SYN, 0)),
    ];
    assert_eq!(rt; out.acts(), opened.as_slice());
    assert_eq!(rt; client.deadline(), Some(1_000_000_000));
    out.clear();
    client
        .segment(&segment(500, Some(101), SYN, 0), 200_000_000, &mut out)
        .ok()
        .ok_or("memory")?;
    let first = [
        Act::Entered(TcpState::Established),
        Act::Send(segment(101, Some(501), PLAIN, 0)),
        Act::Send(segment(101, Some(501), PLAIN, 1_000)),
    ];
    assert_eq!(rt; out.acts(), first.as_slice());
    assert_eq!(rt; client.deadline(), Some(1_200_000_000));
    out.clear();
    client
        .segment(&segment(501, Some(1101), PLAIN, 0), 400_000_000, &mut out)
        .ok()
        .ok_or("memory")?;
    let last = [
        Act::Send(segment(1101, Some(501), PLAIN, 500)),
        Act::Entered(TcpState::FinWait1),
        Act::Send(segment(1601, Some(501), FIN, 0)),
    ];
    assert_eq!(rt; out.acts(), last.as_slice());
    assert_eq!(rt;
        (client.state(), client.deadline()),
        (TcpState::FinWait1, Some(1_400_000_000))
    );
    Ok(())
}

/// The same bytes as the server sees them, out of order and twice: what comes, what was delivered
/// after it, and the answer.
#[test]
fn server_transfer(rt: HostRuntime) -> Result<(), Fail> {
    let mut out = Segments::new(rt.alloc());
    let config = settings(500, 1_000_000_000);
    let mut server = Session::accept(
        rt.alloc(),
        &config,
        &segment(100, None, SYN, 0),
        0,
        &mut out,
    )
    .ok()
    .ok_or("memory")?;
    let accepted = [
        Act::Entered(TcpState::SynReceived),
        Act::Send(segment(500, Some(101), SYN, 0)),
    ];
    assert_eq!(rt; out.acts(), accepted.as_slice());
    let rows = [
        (
            segment(101, Some(501), PLAIN, 0),
            0,
            TcpState::Established,
            None,
        ),
        (
            segment(1101, Some(501), PLAIN, 500),
            0,
            TcpState::Established,
            Some(segment(501, Some(101), PLAIN, 0)),
        ),
        (
            segment(101, Some(501), PLAIN, 1_000),
            1_500,
            TcpState::Established,
            Some(segment(501, Some(1601), PLAIN, 0)),
        ),
        (
            segment(101, Some(501), PLAIN, 1_000),
            1_500,
            TcpState::Established,
            Some(segment(501, Some(1601), PLAIN, 0)),
        ),
        (
            segment(1601, Some(501), FIN, 0),
            1_500,
            TcpState::LastAck,
            Some(segment(501, Some(1602), FIN, 0)),
        ),
        (
            segment(1602, Some(502), PLAIN, 0),
            1_500,
            TcpState::Closed,
            None,
        ),
    ];
    for (comes, delivered, state, answer) in rows {
        out.clear();
        server.segment(&comes, 1, &mut out).ok().ok_or("memory")?;
        assert_eq!(rt; (server.delivered(), server.state()), (delivered, state));
        let mut said = None;
        for act in out.acts() {
            if let Act::Send(sent) = act {
                said = Some(*sent);
            }
        }
        assert_eq!(rt; said, answer);
    }
    Ok(())
}

/// 50,500 bytes in ticks of a millisecond, whatever the network does: all is delivered, and both ends
/// close.
#[test]
fn transfers(rt: HostRuntime) -> Result<(), Fail> {
    let alloc = rt.alloc();
    let faults = [
        Fault::None,
        Fault::EveryThirdLost,
        Fault::EachTwice,
        Fault::PairsReversed,
    ];
    for fault in faults {
        let mut out = Segments::new(alloc);
        let client = Session::connect(&settings(100, 1_000), 50_500, 0, &mut out)
            .ok()
            .ok_or("memory")?;
        out.clear();
        let mut answer = Segments::new(alloc);
        let server = Session::accept(
            alloc,
            &settings(500, 1_000),
            &segment(100, None, SYN, 0),
            0,
            &mut answer,
        )
        .ok()
        .ok_or("memory")?;
        let mut client = Host {
            session: client,
            out,
            sent: 0,
            told: 0,
        };
        let mut server = Host {
            session: server,
            out: answer,
            sent: 0,
            told: 0,
        };
        let ended = run(alloc, &mut client, &mut server, fault)
            .ok()
            .ok_or("memory")?;
        let whole = Outcome {
            client: TcpState::Closed,
            server: TcpState::Closed,
            delivered: 50_500,
            told: 50_500,
        };
        assert_eq!(rt; ended, whole, "{fault:?}");
    }
    Ok(())
}

/// A peer that never answers: twelve retransmissions, each after twice the time up to 64 seconds, and
/// then both ends close.
#[test]
fn tries(rt: HostRuntime) -> Result<(), Fail> {
    let alloc = rt.alloc();
    let config = settings(100, 1);
    let mut out = Segments::new(alloc);
    let client = Session::connect(&config, 1, 0, &mut out)
        .ok()
        .ok_or("memory")?;
    let server = Session::accept(alloc, &config, &segment(500, None, SYN, 0), 0, &mut out)
        .ok()
        .ok_or("memory")?;
    let mut ends = [client, server];
    let due = [1, 3, 7, 15, 31, 63, 127, 191, 255, 319, 383, 447, 511];
    for end in ends.iter_mut() {
        for now in due {
            prove!(now <= 511);
            assert_eq!(rt; end.deadline(), Some(now));
            out.clear();
            pass(end, now, &mut out)?;
            assert_eq!(rt; out.acts().len(), 1);
        }
        assert_eq!(rt; (end.state(), end.deadline()), (TcpState::Closed, None));
    }
    Ok(())
}

/// What a client of 5,000 bytes sends at each segment or timeout, and its deadline after it, in
/// milliseconds: three duplicates and a fast retransmit, a late SYN, an acknowledgment that gives no
/// sample since the segment was sent twice, a timeout, and an acknowledgment above all that was sent.
#[test]
fn losses(rt: HostRuntime) -> Result<(), Fail> {
    let mut out = Segments::new(rt.alloc());
    let mut client = Session::connect(&settings(100, 1_000_000_000), 5_000, 0, &mut out)
        .ok()
        .ok_or("memory")?;
    let data = |seq: u16| Act::Send(segment(seq, Some(501), PLAIN, 1_000));
    let ack = |a: u16| Some(segment(501, Some(a), PLAIN, 0));
    let syn = || Some(segment(500, Some(101), SYN, 0));
    let fin = || Act::Send(segment(5101, Some(501), FIN, 0));
    let pure = |seq: u16| Act::Send(segment(seq, Some(501), PLAIN, 0));
    let rows = [
        (
            syn(),
            900,
            (
                Some(Act::Entered(TcpState::Established)),
                Some(pure(101)),
                Some(data(101)),
                None,
            ),
            3_600,
        ),
        (
            ack(1101),
            1_800,
            (Some(data(1101)), Some(data(2101)), None, None),
            4_050,
        ),
        (ack(1101), 1_900, (None, None, None, None), 4_050),
        (ack(1101), 1_910, (None, None, None, None), 4_050),
        (
            ack(1101),
            1_920,
            (Some(data(1101)), None, None, None),
            4_050,
        ),
        (ack(1101), 1_930, (None, None, None, None), 4_050),
        (syn(), 1_940, (Some(pure(3101)), None, None, None), 4_050),
        (
            ack(3101),
            2_700,
            (
                Some(data(3101)),
                Some(data(4101)),
                Some(Act::Entered(TcpState::FinWait1)),
                Some(fin()),
            ),
            4_950,
        ),
        (None, 4_950, (Some(data(3101)), None, None, None), 9_450),
        (
            ack(4101),
            5_000,
            (Some(data(4101)), Some(fin()), None, None),
            9_500,
        ),
        (ack(5103), 5_100, (None, None, None, None), 9_500),
    ];
    for (comes, at, want, due) in rows {
        out.clear();
        prove!(at <= 10_000);
        prove!(due <= 10_000);
        let now = at * 1_000_000;
        match comes {
            Some(came) => client.segment(&came, now, &mut out).ok().ok_or("memory")?,
            None => pass(&mut client, now, &mut out)?,
        }
        assert!(rt; are(out.acts(), want), "{at}");
        assert_eq!(rt; client.deadline(), Some(due * 1_000_000), "{at}");
    }
    Ok(())
}

/// What a server answers, and how much it has delivered: a SYN again, data that establishes, data and a
/// FIN beyond the window, an early FIN, a hole that is filled, and the FIN again.
#[test]
fn server_again(rt: HostRuntime) -> Result<(), Fail> {
    let mut out = Segments::new(rt.alloc());
    let first = segment(100, None, SYN, 0);
    let mut server = Session::accept(
        rt.alloc(),
        &settings(500, 1_000_000_000),
        &first,
        0,
        &mut out,
    )
    .ok()
    .ok_or("memory")?;
    let answer = |a: u16| Act::Send(segment(501, Some(a), PLAIN, 0));
    let syn = || Act::Send(segment(500, Some(101), SYN, 0));
    let fin = || Act::Send(segment(501, Some(1602), FIN, 0));
    let rows = [
        (first, (Some(syn()), None, None, None), 0),
        (
            segment(101, Some(500), PLAIN, 1_000),
            (None, None, None, None),
            0,
        ),
        (
            segment(101, Some(501), PLAIN, 1_000),
            (
                Some(Act::Entered(TcpState::Established)),
                Some(Act::Delivered(1_000)),
                Some(answer(1101)),
                None,
            ),
            1_000,
        ),
        (first, (None, None, None, None), 1_000),
        (
            segment(32102, Some(501), PLAIN, 1_000),
            (Some(answer(1101)), None, None, None),
            1_000,
        ),
        (
            segment(33102, Some(501), FIN, 0),
            (Some(answer(1101)), None, None, None),
            1_000,
        ),
        (
            segment(1601, Some(501), FIN, 0),
            (Some(answer(1101)), None, None, None),
            1_000,
        ),
        (
            segment(1301, Some(501), PLAIN, 300),
            (Some(answer(1101)), None, None, None),
            1_000,
        ),
        (
            segment(1101, Some(501), PLAIN, 250),
            (
                Some(Act::Delivered(500)),
                Some(Act::Entered(TcpState::LastAck)),
                Some(fin()),
                None,
            ),
            1_500,
        ),
        (
            segment(1601, Some(501), FIN, 0),
            (Some(fin()), None, None, None),
            1_500,
        ),
        (
            segment(1602, Some(501), PLAIN, 0),
            (None, None, None, None),
            1_500,
        ),
        (
            segment(1602, Some(502), PLAIN, 0),
            (Some(Act::Entered(TcpState::Closed)), None, None, None),
            1_500,
        ),
        (
            segment(1601, Some(501), FIN, 0),
            (None, None, None, None),
            1_500,
        ),
    ];
    for (comes, want, delivered) in rows {
        out.clear();
        server.segment(&comes, 1, &mut out).ok().ok_or("memory")?;
        assert!(rt; are(out.acts(), want), "{comes:?}");
        assert_eq!(rt; server.delivered(), delivered);
    }
    Ok(())
}

/// The numbers of RFC 5681 for segments of 1,460 bytes, worked out by hand from its equations (3) and (4): a loss halves
/// what is in flight, down to two segments, a timeout leaves one segment of window, and a second one no less.
#[test]
fn windows_by_rfc_5681(rt: HostRuntime) -> Result<(), Fail> {
    let mut window = Cwnd::new(1_460, 100_000);
    window.third_duplicate(20_000);
    assert_eq!(rt; window.ssthresh(), 10_000);
    window.timeout(5_000);
    assert_eq!(rt; (window.ssthresh(), window.window()), (2_920, 1_460));
    window.timeout_again();
    assert_eq!(rt; (window.ssthresh(), window.window()), (2_920, 1_460));
    window.acked(1_460);
    assert_eq!(rt; window.window(), 2_920);
    window.acked(1_460);
    assert_eq!(rt; window.window(), 3_650);
    Ok(())
}
