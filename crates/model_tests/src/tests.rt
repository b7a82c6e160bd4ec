//! Texts of campuses beside those of another program, and their way back through the reader. That
//! program follows the published algorithm of the generator and the rules of the format.
use dml_tree::{read, write};
use model_gen::campus;
use sha2::{Digest, Sha256};
use std::test::Fail;

/// The campus of seed 7 with one net.
const ONE: &[u8] = b"Net [
  frequency 1000000000
  Net [
    id 0
    router [
      id 0
      interface [
        idrange [
          from 0
          to 3
        ]
        bitrate 100000000
      ]
      graph [
        ProtocolSession [
          name ip
        ]
        ProtocolSession [
          name OSPF
        ]
      ]
    ]
    host [
      idrange [
        from 1
        to 2
      ]
      interface [
        id 0
        bitrate 10000000
      ]
      nhi_route [
        dest default
        interface 0
      ]
      graph [
        ProtocolSession [
          name client
          start_time 0.001
          file_size 20000
        ]
        ProtocolSession [
          name server
          port 10
        ]
        ProtocolSession [
          name tcp
        ]
        ProtocolSession [
          name ip
        ]
      ]
    ]
    link [
      attach 0(0)
      attach 1(0)
      delay 0.00001
    ]
    link [
      attach 0(1)
      attach 2(0)
      delay 0.00001
    ]
  ]
  traffic [
    pattern [
      client 0:1
      servers [
        nhi 0:2(0)
        port 10
      ]
    ]
  ]
]
";

/// What follows the nets in the campus of seed 7 with two.
const AFTER_TWO: &[u8] = b"  link [
    attach 0:0(2)
    attach 1:0(3)
    delay 0.000537
  ]
  link [
    attach 1:0(2)
    attach 0:0(3)
    delay 0.000785
  ]
  traffic [
    pattern [
      client 0:1
      servers [
        nhi 0:2(0)
        port 10
      ]
    ]
    pattern [
      client 1:1
      servers [
        nhi 0:2(0)
        port 10
      ]
    ]
  ]
]
";

/// Seeds and sizes, and the SHA-256 of their texts.
const DIGESTS: [(u64, u32, &[u8]); 5] = [
    (
        7,
        2,
        b"\xe6\xb1\x51\x15\x9b\xa7\x60\xf1\xf3\xdf\x0f\xfe\x53\x87\x1a\x56\x42\xcc\x02\xcd\x40\x8b\x69\xb0\xe5\xe3\x3a\xc4\x96\x9c\x81\xfb",
    ),
    (
        0,
        10,
        b"\xa4\x68\xdd\x3b\x20\xa4\xf6\x40\x48\x11\x64\x7d\x84\x8e\xa8\x42\x49\x09\xc9\x25\x80\x1e\x63\xfb\xe8\xe1\xf0\x8a\xd8\x4b\x92\xf5",
    ),
    (
        7,
        10,
        b"\x25\x7d\xd4\x2a\x73\x7a\xcb\x08\x02\xc9\xaa\x17\x00\xaa\xf3\xcf\x62\x7d\x11\xe6\x04\x4e\xaf\xd6\xc3\x43\xa3\x05\xc1\xa0\x1f\x8d",
    ),
    (
        1_000_000_000_000_000_000,
        10,
        b"\xc9\x3d\x08\x5d\xb3\xfe\xc4\xab\x11\x71\x49\x6f\x98\xfd\xa6\x9a\x59\x44\xfd\x7a\x05\xf7\xc7\xac\x06\xa3\x2e\xc4\x2e\x81\x56\xe1",
    ),
    (
        7,
        1_000,
        b"\x7e\x71\xe0\x5a\x65\xeb\xd1\x9e\xca\x05\xeb\xb3\xeb\xc7\x71\xdd\x61\x81\x5b\xc2\xfb\x0c\x13\xf2\x59\x2c\x9d\x4b\x89\x97\xce\x4d",
    ),
];

#[test]
fn one_net(rt: HostRuntime) -> Result<(), Fail> {
    let text = campus(rt.alloc(), 7, 1)?;
    assert_eq!(rt; text.as_slice(), ONE);
    Ok(())
}

#[test]
fn two_nets(rt: HostRuntime) -> Result<(), Fail> {
    let text = campus(rt.alloc(), 7, 2)?;
    assert!(rt; text.as_slice().ends_with(AFTER_TWO));
    Ok(())
}

#[test]
fn digests(rt: HostRuntime) -> Result<(), Fail> {
    for (seed, size, want) in DIGESTS {
        assert!(rt; size >= 1);
        let text = campus(rt.alloc(), seed, size)?;
        assert_eq!(rt; Sha256::digest(text.as_slice()).as_slice(), want);
    }
    Ok(())
}

/// The same seed and size give the same text, and another seed another.
#[test]
fn the_same_at_each_call(rt: HostRuntime) -> Result<(), Fail> {
    let first = campus(rt.alloc(), 7, 10)?;
    let again = campus(rt.alloc(), 7, 10)?;
    let other = campus(rt.alloc(), 8, 10)?;
    assert!(rt; first.as_slice() == again.as_slice());
    assert!(rt; first.as_slice() != other.as_slice());
    Ok(())
}

/// A text reads as a tree, whose canonical printing is the text.
#[test]
fn reads_back(rt: HostRuntime) -> Result<(), Fail> {
    for size in [1, 2, 10, 1_000] {
        assert!(rt; size >= 1);
        let text = campus(rt.alloc(), 7, size)?;
        let tree = read(rt.alloc(), 0, text.as_slice())?;
        let mut again = Vec::new(rt.alloc());
        write(&tree, &mut again)?;
        assert!(rt; again.as_slice() == text.as_slice());
    }
    Ok(())
}
