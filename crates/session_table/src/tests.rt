//! A worked example.
use crate::{Entry, SessionTable, Sockets};

fn ends(peer_port: u16) -> Sockets {
    Sockets {
        own: 1,
        own_port: 80,
        peer: 2,
        peer_port,
    }
}

#[test]
fn finds_by_ends_and_by_deadline(rt: HostRuntime) {
    let mut table = SessionTable::new(rt.alloc());
    let accepted = Entry {
        number: 3,
        sockets: ends(7),
        client: None,
        deadline: Some(50),
        session: 8_u8,
    };
    assert!(rt; table.put(accepted).is_ok());
    assert_eq!(rt; table.least(), Some(50));
    assert_eq!(rt;
        (table.find(&ends(7)), table.find(&ends(8))),
        (Some(3), None)
    );
    assert_eq!(rt; table.entry(3).map(|entry| entry.session), Some(8));
}
