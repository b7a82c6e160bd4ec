//! What no command shows of keys: the values of sessions that the model leaves out, numbers of a range that no key
//! has, and the table of names.
use dml_tree::read;
use net_graph::{Paths, SessionKeys, default_settings, read_integer, read_session};
use std::test::Fail;

#[test]
fn numbers_have_a_least_value(rt: HostRuntime) {
    assert_eq!(rt; read_integer(b"1", 2, 5), None);
    assert_eq!(rt; read_integer(b"2", 2, 5), Some(2));
}

#[test]
fn silent_keys_of_clients_have_their_defaults(rt: HostRuntime) -> Result<(), Fail> {
    let client = read(rt.alloc(), 0, b"name client")?;
    let Ok(SessionKeys::Client(row)) = read_session(rt.alloc(), &client, 250) else {
        return Err(Fail::from("refused"));
    };
    assert!(rt; row.tcp);
    assert_eq!(rt; row.file, 10_000);
    assert_eq!(rt; row.interval, 2);
    Ok(())
}

#[test]
fn silent_keys_of_tcp_have_their_defaults(rt: HostRuntime) -> Result<(), Fail> {
    let tcp = read(rt.alloc(), 0, b"name tcp")?;
    let Ok(SessionKeys::Tcp(settings)) = read_session(rt.alloc(), &tcp, 250) else {
        return Err(Fail::from("refused"));
    };
    assert_eq!(rt; settings.msl, 15_000);
    assert_eq!(rt; settings, default_settings(250));
    Ok(())
}

#[test]
fn names_are_numbered_in_the_order_in_which_they_came(rt: HostRuntime) -> Result<(), Fail> {
    let mut paths = Paths::new(rt.alloc());
    for id in 0..3u32 {
        let path = [7, id];
        if !paths.has(path.as_slice()) {
            assert!(rt; paths.add(rt.alloc(), path.as_slice()).is_ok());
        }
    }
    assert_eq!(rt; paths.number_of([7, 2].as_slice()), Some(2));
    assert_eq!(rt; paths.number_of([7].as_slice()), None);
    assert_eq!(rt; paths.len(), 3);
    Ok(())
}
