//! The records of a trace, and its end.
ghost use Rattle.std.specs.Prelude.{◌≡◌, ◌<◌, ◌≤◌, ◌+◌, ◌*◌, ◌++◌, length, IfOk, OnErr, OnOk};
ghost use Rattle.trace_writer.specs.Trace.{record_text, end_line};

use crate::fields::{put, put_number};
use crate::lines::{ACTION_ROOM, EVENT_ROOM, put_action_lines, put_event_line};
use sim_base::Memory;
use ssf_model::{Entry, Line, Names};

/// The greatest length of the line that ends a trace.
const END_ROOM: usize = 46;

/// Appends the record of an executed event: its line, and the lines of its actions. The entity of
/// the event has a name. Without memory nothing is appended.
#[tactic(auto, unfolding(crate::specs::Trace::record_text))]
pub fn trace_line(names: &Names, entry: &Entry, out: &mut Vec<u8>) -> Result<(), Memory>
    requires { entry.now.entity < length names.now.names }
    ensures appended { OnOk result (out.new.items ≡ out.old.items ++ record_text names.now entry.now) }
    ensures kept { OnErr result (out.new.items ≡ out.old.items) }
{
    let name = names.name(entry.entity);
    let lines = entry.lines.as_slice();
    out.reserve(record_room(name, lines)?)?;
    put_event_line(name, entry, out);
    put_action_lines(lines, out);
    Ok(())
}

/// Appends the line that ends a trace: the end time in ticks, and how many events there were.
/// Without memory nothing is appended.
#[tactic(auto, unfolding(crate::specs::Trace::end_line))]
pub fn end_line(until: u64, count: u64, out: &mut Vec<u8>) -> Result<(), Memory>
    ensures appended { OnOk result (out.new.items ≡ out.old.items ++ end_line until count) }
    ensures kept { OnErr result (out.new.items ≡ out.old.items) }
{
    out.reserve(END_ROOM)?;
    put(out, b"end");
    put_number(out, until);
    put_number(out, count);
    put(out, b"\n");
    Ok(())
}

/// Bytes that are enough for the record of an event at the entity with this name.
fn record_room(name: &[u8], lines: &[Line]) -> Result<usize, Memory>
    ensures { IfOk result (λ room. EVENT_ROOM + length name.now + ACTION_ROOM * length lines.now ≤ room) }
{
    let actions = lines.len().checked_mul(ACTION_ROOM).ok_or(Memory)?;
    let event = name.len().checked_add(EVENT_ROOM).ok_or(Memory)?;
    actions.checked_add(event).ok_or(Memory)
}
