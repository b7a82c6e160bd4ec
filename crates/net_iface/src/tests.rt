//! Worked examples, and the limits of rates.
use crate::{Interface, Offer};

#[test]
fn drop_tail(rt: HostRuntime) {
    let mut interface = Interface::new(8_000_000, 1_000_000_000, 2_000);
    let rows = [
        (1_500, 0, Offer::Sent(1_500_000)),
        (1_500, 0, Offer::Dropped),
        (500, 0, Offer::Sent(2_000_000)),
        (600, 1_400_000, Offer::Sent(1_200_000)),
    ];
    for (bytes, now, want) in rows {
        prove!(now <= 1_400_000);
        assert_eq!(rt; interface.offer(bytes, now), want);
    }
}

/// A bit in a second of one tick: the greatest buffer, at the last tick.
#[test]
fn slow_and_coarse(rt: HostRuntime) {
    let mut interface = Interface::new(1, 1, 1 << 31);
    let last = 1_000_000_000_000_000_000;
    assert_eq!(rt; interface.offer((1 << 31) + 1, last), Offer::Dropped);
    assert_eq!(rt; interface.offer(1 << 31, last), Offer::Sent(17_179_869_184));
    assert_eq!(rt; interface.offer(1, last), Offer::Dropped);
    assert_eq!(rt; interface.offer(0, last), Offer::Sent(17_179_869_184));
}

/// A bit in a second of 10^12 ticks: the greatest buffer that leaves in 10^15 ticks.
#[test]
fn slow_and_fine(rt: HostRuntime) {
    let mut interface = Interface::new(1, 1_000_000_000_000, 124);
    assert_eq!(rt; interface.offer(124, 0), Offer::Sent(992_000_000_000_000));
    assert_eq!(rt; interface.offer(1, 0), Offer::Dropped);
    assert_eq!(rt; interface.offer(1, 1), Offer::Sent(999_999_999_999_999));
}

/// 10^12 bits in a second of one tick: a packet takes a whole tick.
#[test]
fn fast_and_coarse(rt: HostRuntime) {
    let mut interface = Interface::new(1_000_000_000_000, 1, 1 << 31);
    assert_eq!(rt; interface.offer(u64::MAX, 5), Offer::Dropped);
    assert_eq!(rt; interface.offer(1, 5), Offer::Sent(1));
    assert_eq!(rt; interface.offer(1, 5), Offer::Dropped);
    assert_eq!(rt; interface.offer(1 << 31, 6), Offer::Sent(1));
}

/// 10^12 bits in a second of 10^12 ticks: eight ticks a byte.
#[test]
fn fast_and_fine(rt: HostRuntime) {
    let mut interface = Interface::new(1_000_000_000_000, 1_000_000_000_000, 1 << 31);
    assert_eq!(rt; interface.offer(1 << 31, 0), Offer::Sent(17_179_869_184));
    assert_eq!(rt; interface.offer(1, 0), Offer::Dropped);
    assert_eq!(rt; interface.offer(1, 1), Offer::Sent(17_179_869_191));
    assert_eq!(rt; interface.offer(1, 0), Offer::Dropped);
}
