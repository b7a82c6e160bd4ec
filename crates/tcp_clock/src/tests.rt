//! Worked examples, and the limits.
use crate::{Cwnd, Rto};

#[test]
fn timeouts(rt: HostRuntime) {
    let mut rto = Rto::new(1_000_000_000);
    assert_eq!(rt; rto.value(), 1_000_000_000);
    rto.sample(200_000_000);
    assert_eq!(rt; rto.value(), 1_000_000_000);
    rto.sample(300_000_000);
    assert_eq!(rt; rto.value(), 1_000_000_000);
    rto.timeout();
    assert_eq!(rt; rto.value(), 2_000_000_000);
}

/// Samples above a second, a variation of nothing, and the ceiling of 64 seconds.
#[test]
fn timeout_limits(rt: HostRuntime) {
    let mut rto = Rto::new(1);
    rto.sample(1);
    assert_eq!(rt; rto.value(), 2);
    rto.sample(40);
    assert_eq!(rt; rto.value(), 41);
    rto.timeout();
    assert_eq!(rt; rto.value(), 64);
    rto.sample(u64::MAX);
    assert_eq!(rt; rto.value(), 64);
    let mut rto = Rto::new(1_000_000_000_000);
    for _ in 0..7 {
        rto.timeout();
    }
    assert_eq!(rt; rto.value(), 64_000_000_000_000);
}

#[test]
fn windows(rt: HostRuntime) {
    let mut cwnd = Cwnd::new(1_000, 8_000);
    assert_eq!(rt; cwnd.window(), 1_000);
    cwnd.acked(1_000);
    assert_eq!(rt; cwnd.window(), 2_000);
    cwnd.third_duplicate(9_000);
    assert_eq!(rt; (cwnd.window(), cwnd.ssthresh()), (4_500, 4_500));
    cwnd.acked(1_000);
    assert_eq!(rt; cwnd.window(), 4_722);
    cwnd.timeout(3_000);
    assert_eq!(rt; (cwnd.window(), cwnd.ssthresh()), (1_000, 2_000));
    cwnd.acked(1_000);
    assert_eq!(rt; cwnd.window(), 2_000);
    cwnd.timeout_again();
    assert_eq!(rt; (cwnd.window(), cwnd.ssthresh()), (1_000, 2_000));
}

/// The window opens by a byte at least, and no further than 2^30.
#[test]
fn window_limits(rt: HostRuntime) {
    let mut cwnd = Cwnd::new(1, 1);
    cwnd.third_duplicate(2_000_000_000);
    cwnd.acked(1);
    assert_eq!(rt; cwnd.window(), 1_000_000_001);
    cwnd.third_duplicate(1 << 31);
    cwnd.acked(1);
    assert_eq!(rt; cwnd.window(), 1 << 30);
    cwnd.third_duplicate(u64::MAX);
    cwnd.acked(u64::MAX);
    assert_eq!(rt; cwnd.window(), 1 << 30);
}

/// By another program after the formulas of RFC 6298 and RFC 5681, at 1,000 ticks a second.
#[test]
fn as_another_program(rt: HostRuntime) {
    let mut rto = Rto::new(1_000);
    for (sample, value) in [(1_500, 4_500), (2_500, 4_873), (900, 4_694), (3_000, 5_553)] {
        rto.sample(sample);
        assert_eq!(rt; rto.value(), value);
    }
    rto.timeout();
    assert_eq!(rt; rto.value(), 11_106);
    rto.sample(2_000);
    assert_eq!(rt; rto.value(), 4_912);
    let mut cwnd = Cwnd::new(1_460, 5_840);
    for want in [2_920, 4_380, 5_840, 6_205, 6_548] {
        cwnd.acked(1_460);
        assert_eq!(rt; cwnd.window(), want);
    }
}
