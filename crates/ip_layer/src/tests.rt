//! The rows of the two tables.
use crate::{Packet, Verdict, receive, send};
use ip_blocks::Block;
use sim_base::Reason;
use spf_routes::Route;

fn to(dst: u32, ttl: u8) -> Packet {
    Packet {
        src: 1,
        dst,
        tcp: false,
        ttl,
        src_port: 0,
        dst_port: 7,
        bytes: 1028,
        segment: None,
    }
}

#[test]
fn tables(rt: HostRuntime) {
    let base = 10 << 24;
    let own = [base + 1, base + 5];
    let link = Route {
        block: Block {
            base: base + 4,
            bits: 30,
        },
        interface: 1,
        next: 0,
        cost: 1,
    };
    let default = Route {
        block: Block { base: 0, bits: 0 },
        interface: 0,
        next: base + 2,
        cost: 0,
    };
    let rows = [
        (
            to(base + 5, 1),
            Verdict::Local,
            Verdict::Dropped(Reason::Route),
        ),
        (to(base + 6, 64), Verdict::Forward(0), Verdict::Forward(0)),
        (to(base + 9, 2), Verdict::Forward(1), Verdict::Forward(1)),
        (
            to(base + 9, 1),
            Verdict::Dropped(Reason::Ttl),
            Verdict::Forward(1),
        ),
        (
            to(base + 9, 0),
            Verdict::Dropped(Reason::Ttl),
            Verdict::Forward(1),
        ),
    ];
    for (packet, received, sent) in rows {
        assert_eq!(rt; receive(&own, &[link, default], &packet), received);
        assert_eq!(rt; send(&own, &[link, default], &packet), sent);
    }
    assert_eq!(rt;
        receive(&own, &[link], &to(base + 9, 2)),
        Verdict::Dropped(Reason::Route)
    );
    assert_eq!(rt;
        send(&own, &[], &to(base + 9, 2)),
        Verdict::Dropped(Reason::Route)
    );
}
