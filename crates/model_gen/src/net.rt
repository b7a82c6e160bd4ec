//! One net: a router, two hosts, and a link between the router and each host.
ghost use Rattle.std.specs.Prelude.{◌≡◌, ◌++◌, OnOk};
ghost use Rattle.model_gen.specs.Campus.{lines, router, hosts, first_link, second_link, net_of};

use crate::numbers::push_decimal;
use sim_base::Memory;

/// Appends the net of this number.
#[tactic(auto, using(crate::proofs::Texts::net_is))]
pub(crate) fn push_net(i: u32, out: &mut Vec<u8>) -> Result<(), Memory>
    ensures { OnOk result (out.new.items ≡ out.old.items ++ lines 2 (net_of i)) }
{
    out.extend_from_slice(b"  Net [\n    id ")?;
    push_decimal(out, i)?;
    out.extend_from_slice(b"\n")?;
    push_router(out)?;
    push_hosts(out)?;
    push_first_link(out)?;
    push_second_link(out)?;
    out.extend_from_slice(b"  ]\n")?;
    Ok(())
}

/// Appends the router of a net.
#[tactic(auto, unfolding(crate::specs::Campus::lines, crate::specs::Campus::router))]
fn push_router(out: &mut Vec<u8>) -> Result<(), Memory>
    ensures { OnOk result (out.new.items ≡ out.old.items ++ lines 4 router) }
{
    out.extend_from_slice(
        b"    router [
      id 0
      interface [
        idrange [
          from 0
          to 3
        ]
        bitrate 100000000
      ]
      graph [
        ProtocolSession [
          name ip
        ]
        ProtocolSession [
          name OSPF
        ]
      ]
    ]
",
    )?;
    Ok(())
}

/// Appends the hosts of a net.
#[tactic(auto, unfolding(crate::specs::Campus::lines, crate::specs::Campus::hosts))]
fn push_hosts(out: &mut Vec<u8>) -> Result<(), Memory>
    ensures { OnOk result (out.new.items ≡ out.old.items ++ lines 4 hosts) }
{
    out.extend_from_slice(
        b"    host [
      idrange [
        from 1
        to 2
      ]
      interface [
        id 0
        bitrate 10000000
      ]
      nhi_route [
        dest default
        interface 0
      ]
      graph [
        ProtocolSession [
          name client
          start_time 0.001
          file_size 20000
        ]
        ProtocolSession [
          name server
          port 10
        ]
        ProtocolSession [
          name tcp
        ]
        ProtocolSession [
          name ip
        ]
      ]
    ]
",
    )?;
    Ok(())
}

/// Appends the link between the router and the first host.
#[tactic(auto, unfolding(crate::specs::Campus::lines, crate::specs::Campus::first_link))]
fn push_first_link(out: &mut Vec<u8>) -> Result<(), Memory>
    ensures { OnOk result (out.new.items ≡ out.old.items ++ lines 4 first_link) }
{
    out.extend_from_slice(
        b"    link [
      attach 0(0)
      attach 1(0)
      delay 0.00001
    ]
",
    )?;
    Ok(())
}

/// Appends the link between the router and the second host.
#[tactic(auto, unfolding(crate::specs::Campus::lines, crate::specs::Campus::second_link))]
fn push_second_link(out: &mut Vec<u8>) -> Result<(), Memory>
    ensures { OnOk result (out.new.items ≡ out.old.items ++ lines 4 second_link) }
{
    out.extend_from_slice(
        b"    link [
      attach 0(1)
      attach 2(0)
      delay 0.00001
    ]
",
    )?;
    Ok(())
}
