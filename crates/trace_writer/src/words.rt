//! The words of a trace.
ghost use Rattle.std.specs.Prelude.{◌≡◌, ◌≤◌, length};
ghost use Rattle.trace_writer.specs.Words.{reason_word, state_word, protocol_word};

use sim_base::{Reason, TcpState};

/// Why a packet was dropped.
pub(crate) fn reason_word(reason: Reason) -> &'static [u8]
    ensures word { result.now ≡ reason_word reason }
    ensures short { length result.now ≤ 6 }
{
    match reason {
        Reason::Ttl => b"ttl",
        Reason::Route => b"route",
        Reason::Port => b"port",
        Reason::Buffer => b"buffer",
        Reason::Link => b"link",
    }
}

/// The state of a TCP session.
pub(crate) fn state_word(state: TcpState) -> &'static [u8]
    ensures word { result.now ≡ state_word state }
    ensures short { length result.now ≤ 11 }
{
    match state {
        TcpState::SynSent => b"SYN_SENT",
        TcpState::SynReceived => b"SYN_RCVD",
        TcpState::Established => b"ESTABLISHED",
        TcpState::FinWait1 => b"FIN_WAIT_1",
        TcpState::FinWait2 => b"FIN_WAIT_2",
        TcpState::TimeWait => b"TIME_WAIT",
        TcpState::LastAck => b"LAST_ACK",
        TcpState::Closed => b"CLOSED",
    }
}

/// The protocol of a packet.
pub(crate) fn protocol_word(tcp: bool) -> &'static [u8]
    ensures word { result.now ≡ protocol_word tcp }
    ensures short { length result.now ≤ 3 }
{
    if tcp { b"tcp" } else { b"udp" }
}
