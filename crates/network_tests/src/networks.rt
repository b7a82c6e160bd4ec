//! The rows of a worked network that no command shows.
use dml_tree::read;
use net_graph::Network;
use net_resolve::build_network;
use sim_base::ServerRow;
use std::process::Abort;
use std::test::Fail;

/// The settings of the first host, whose first session `tcp` counts, and the servers.
fn check_rows(rt: &impl Abort, network: &Network) {
    let hosts = network.hosts.as_slice();
    assert_eq!(rt; hosts.len(), 3);
    assert_eq!(rt; hosts[0].tcp.iss, 10_000);
    let servers = [
        ServerRow {
            client: 0,
            interface: 3,
            port: 10,
        },
        ServerRow {
            client: 0,
            interface: 1,
            port: 11,
        },
    ];
    assert!(rt; network.servers.as_slice() == servers.as_slice());
}

#[test]
fn settings_and_servers_are_as_written(rt: HostRuntime) -> Result<(), Fail> {
    let text = b"Net [
      host [ id 1 interface [ id 0 ]
        graph [ ProtocolSession [ name tcp ISS 10000 ] ProtocolSession [ name tcp ISS 7 ] ] ]
      router [ id 0 interface [ idrange [ from 0 to 1 ] ] ]
      host [ id 2 interface [ id 0 ] ]
      link [ attach 1(0) attach 0(0) ]
      link [ attach 2(0) attach 0(1) ]
      traffic [ pattern [ client 2 ] pattern [ client 1 servers [ nhi 2(0) port 10 ] servers [ nhi 0 port 11 ] ] ] ]";
    let tree = read(rt.alloc(), 0, text.as_slice())?;
    let Ok(network) = build_network(rt.alloc(), &tree) else {
        return Err(Fail::from("refused"));
    };
    check_rows(&rt, &network);
    Ok(())
}
