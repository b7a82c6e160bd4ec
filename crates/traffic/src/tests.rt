//! Random starts by words of another program, and servers in order.
use crate::{Apps, start_ticks};
use rand_core::SeedableRng;
use rand_core::utils::NextWord;
use rand_pcg::Pcg32;
use sim_base::{ClientRow, ServerRow};
use std::test::Fail;

/// The first words of the generator at the seeds 0 and 7, computed by another program after the
/// published algorithm, and the starts that they give.
#[test]
fn starts(rt: HostRuntime) {
    let words = [
        (0, [298_703_107, 4_236_525_527, 336_081_875, 1_056_616_254]),
        (
            7,
            [2_442_223_337, 414_063_806, 2_743_600_285, 3_524_868_804],
        ),
    ];
    for (seed, first) in words {
        let mut stream = Pcg32::seed_from_u64(seed);
        for word in first {
            assert_eq!(rt; stream.next_word(), word);
        }
    }
    let rows = [
        (0, 0, 999, 69),
        (0, 1_000_000, 5_000_000, 1_347_736),
        (0, 0, 1_000_000_000_000_000, 69_547_236_664_220),
        (7, 0, 999, 568),
        (7, 1_000_000, 5_000_000, 3_843_122),
        (7, 0, 1_000_000_000_000_000, 568_624_431_500_211),
    ];
    for (seed, start, window, want) in rows {
        prove!(start + window <= 1_000_000_000_000_000);
        let mut stream = Pcg32::seed_from_u64(seed);
        assert_eq!(rt; start_ticks(&mut stream, start, window), want);
    }
}

/// Without a window nothing is drawn: the sessions with one get the first words.
#[test]
fn no_window_draws_nothing(rt: HostRuntime) {
    let mut stream = Pcg32::seed_from_u64(7);
    assert_eq!(rt; start_ticks(&mut stream, 5, 0), 5);
    assert_eq!(rt; start_ticks(&mut stream, 0, 999), 568);
    assert_eq!(rt;
        start_ticks(&mut stream, 1_000_000_000_000_000, 0),
        1_000_000_000_000_000
    );
    assert_eq!(rt; start_ticks(&mut stream, 0, 999), 96);
}

#[test]
fn servers_in_order(rt: HostRuntime) -> Result<(), Fail> {
    let client = ClientRow {
        tcp: true,
        start: 0,
        window: 0,
        file: 10_000,
        datagram: 1_000,
        interval: 10,
    };
    let near = ServerRow {
        client: 0,
        interface: 2,
        port: 10,
    };
    let far = ServerRow {
        client: 0,
        interface: 5,
        port: 65_535,
    };
    let mut apps = Apps::new(rt.alloc(), &[client, client], &[near, far])?;
    assert_eq!(rt; apps.next(0), Some(near));
    assert_eq!(rt; apps.next(1), Some(near));
    assert_eq!(rt; apps.next(0), Some(far));
    assert_eq!(rt; apps.next(0), None);
    assert_eq!(rt; apps.next(0), None);
    assert_eq!(rt; apps.next(1), Some(far));
    let mut idle = Apps::new(rt.alloc(), &[client], &[])?;
    assert_eq!(rt; idle.next(0), None);
    Ok(())
}
