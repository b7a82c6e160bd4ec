//! What a TCP server delivers in a run of hosts: nothing but what the host of its peer's address sent
//! to it from the peer's port, without a gap, however packets are forwarded, lost in full buffers or on
//! links that are down, sent again or late, and however many sessions there are.
//!
//! Contracts cite `specs/Sent.antt` (the segments that are sent to a session in a run),
//! `specs/Stretch.antt` (what a server has passed) and `specs/Spoken.antt` (between which ends a host
//! sends) besides the definitions of `host_rules`, `tcp_rules` and `ssf_model`. `proofs/Sessions.antt`
//! shows what an action makes of each session of a host, `proofs/Sources.antt` where the packets of a
//! run come from.
#![tactic(auto)]

pub mod laws;
