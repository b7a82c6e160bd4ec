//! Single lines of a trace, appended to a text that has room for them.
ghost use Rattle.std.specs.Prelude.{◌≡◌, ◌≤◌, ◌+◌, ◌*◌, ◌++◌, length, vec_len};
ghost use Rattle.std.specs.List.{flat_map};
ghost use Rattle.std.specs.Vec.{vec_capacity};
ghost use Rattle.ssf_model.specs.declared.event.Line.TheVariants.{Sent, Dropped, Udp, Entered, Delivered};
ghost use Rattle.trace_writer.specs.Trace.{event_line, action_line};

use crate::fields::{put, put_address, put_number, put_peer, put_word};
use crate::words::{protocol_word, reason_word, state_word};
use sim_base::{Reason, TcpState};
use ssf_model::{Entry, Line};

/// The greatest length of an event's line without the entity's name.
pub(crate) const EVENT_ROOM: usize = 77;

/// The greatest length of an action's line.
pub(crate) const ACTION_ROOM: usize = 54;

/// Appends the line of an event at the entity with this name.
#[tactic(auto, unfolding(crate::specs::Trace::event_line))]
pub(crate) fn put_event_line(name: &[u8], entry: &Entry, out: &mut Vec<u8>)
    requires room { vec_len out.old + (EVENT_ROOM + length name.now) ≤ vec_capacity out.old }
    ensures items { out.new.items ≡ out.old.items ++ event_line name.now entry.now }
    ensures len { vec_len out.new ≤ vec_len out.old + (EVENT_ROOM + length name.now) }
    ensures capacity { vec_capacity out.old ≤ vec_capacity out.new }
{
    put(out, b"E");
    put_number(out, entry.key.time);
    put_number(out, entry.key.round);
    put_number(out, entry.key.channel);
    put_number(out, entry.key.number);
    put_word(out, name);
    put(out, b"\n");
}

/// Appends the lines of actions, one after another.
pub(crate) fn put_action_lines(lines: &[Line], out: &mut Vec<u8>)
    requires room { vec_len out.old + ACTION_ROOM * length lines.now ≤ vec_capacity out.old }
    ensures items { out.new.items ≡ out.old.items ++ flat_map action_line lines.now }
    ensures capacity { vec_capacity out.old ≤ vec_capacity out.new }
{
    for line in lines {
        put_action_line(line, out);
    }
}

/// Appends the line of an action.
pub(crate) fn put_action_line(line: &Line, out: &mut Vec<u8>)
    requires room { vec_len out.old + ACTION_ROOM ≤ vec_capacity out.old }
    ensures items { out.new.items ≡ out.old.items ++ action_line line.now }
    ensures len { vec_len out.new ≤ vec_len out.old + ACTION_ROOM }
    ensures capacity { vec_capacity out.old ≤ vec_capacity out.new }
{
    match *line {
        Line::Sent {
            interface,
            next,
            tcp,
            bytes,
        } => put_sent(interface, next, tcp, bytes, out),
        Line::Dropped { reason, tcp, bytes } => put_dropped(reason, tcp, bytes, out),
        Line::Udp { port, bytes } => put_udp(port, bytes, out),
        Line::Entered {
            port,
            peer,
            peer_port,
            state,
        } => put_entered(port, (peer, peer_port), state, out),
        Line::Delivered {
            port,
            peer,
            peer_port,
            bytes,
        } => put_delivered(port, (peer, peer_port), bytes, out),
    }
}

/// Appends the line of a packet that left.
#[tactic(auto, unfolding(crate::specs::Trace::action_line))]
fn put_sent(interface: u32, next: u32, tcp: bool, bytes: u64, out: &mut Vec<u8>)
    requires room { vec_len out.old + ACTION_ROOM ≤ vec_capacity out.old }
    ensures items { out.new.items ≡ out.old.items ++ action_line (Sent interface next tcp bytes) }
    ensures len { vec_len out.new ≤ vec_len out.old + ACTION_ROOM }
    ensures capacity { vec_capacity out.old ≤ vec_capacity out.new }
{
    put(out, b"S");
    put_number(out, interface);
    put_address(out, next);
    put_word(out, protocol_word(tcp));
    put_number(out, bytes);
    put(out, b"\n");
}

/// Appends the line of a packet that was dropped.
#[tactic(auto, unfolding(crate::specs::Trace::action_line))]
fn put_dropped(reason: Reason, tcp: bool, bytes: u64, out: &mut Vec<u8>)
    requires room { vec_len out.old + ACTION_ROOM ≤ vec_capacity out.old }
    ensures items { out.new.items ≡ out.old.items ++ action_line (Dropped reason tcp bytes) }
    ensures len { vec_len out.new ≤ vec_len out.old + ACTION_ROOM }
    ensures capacity { vec_capacity out.old ≤ vec_capacity out.new }
{
    put(out, b"X");
    put_word(out, reason_word(reason));
    put_word(out, protocol_word(tcp));
    put_number(out, bytes);
    put(out, b"\n");
}

/// Appends the line of a datagram that reached its port.
#[tactic(auto, unfolding(crate::specs::Trace::action_line))]
fn put_udp(port: u16, bytes: u64, out: &mut Vec<u8>)
    requires room { vec_len out.old + ACTION_ROOM ≤ vec_capacity out.old }
    ensures items { out.new.items ≡ out.old.items ++ action_line (Udp port bytes) }
    ensures len { vec_len out.new ≤ vec_len out.old + ACTION_ROOM }
    ensures capacity { vec_capacity out.old ≤ vec_capacity out.new }
{
    put(out, b"U");
    put_number(out, port);
    put_number(out, bytes);
    put(out, b"\n");
}

/// Appends the line of a session that entered a state.
#[tactic(auto, unfolding(crate::specs::Trace::action_line))]
fn put_entered(port: u16, peer: (u32, u16), state: TcpState, out: &mut Vec<u8>)
    requires room { vec_len out.old + ACTION_ROOM ≤ vec_capacity out.old }
    ensures items { out.new.items ≡ out.old.items ++ action_line (Entered port peer.0 peer.1 state) }
    ensures len { vec_len out.new ≤ vec_len out.old + ACTION_ROOM }
    ensures capacity { vec_capacity out.old ≤ vec_capacity out.new }
{
    put(out, b"C");
    put_number(out, port);
    put_peer(out, peer.0, peer.1);
    put_word(out, state_word(state));
    put(out, b"\n");
}

/// Appends the line of data that a session delivered.
#[tactic(auto, unfolding(crate::specs::Trace::action_line))]
fn put_delivered(port: u16, peer: (u32, u16), bytes: u64, out: &mut Vec<u8>)
    requires room { vec_len out.old + ACTION_ROOM ≤ vec_capacity out.old }
    ensures items { out.new.items ≡ out.old.items ++ action_line (Delivered port peer.0 peer.1 bytes) }
    ensures len { vec_len out.new ≤ vec_len out.old + ACTION_ROOM }
    ensures capacity { vec_capacity out.old ≤ vec_capacity out.new }
{
    put(out, b"D");
    put_number(out, port);
    put_peer(out, peer.0, peer.1);
    put_number(out, bytes);
    put(out, b"\n");
}
