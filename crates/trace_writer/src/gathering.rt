//! Lines of a trace, gathered in a buffer that is written to a sink where it has no room for the next one.
ghost use Rattle.std.specs.Prelude.{◌≡◌, ◌+◌, ◌≤◌, ◌<◌, ◌++◌, [], length, vec_len, OnOk, OnErr};
ghost use Rattle.std.specs.Vec.{vec_capacity};
ghost use Rattle.std.specs.List.{flat_map};
ghost use Rattle.sim_base.specs.Outside.{Rose, Appends, AppendsPrefix};
ghost use Rattle.trace_writer.specs.Trace.{action_line, event_line, record_text};
ghost use Rattle.trace_writer.specs.Merging.{longest_name};
ghost use Rattle.trace_writer.specs.Sending.{Sends};

use crate::lines::{ACTION_ROOM, EVENT_ROOM, put_action_line, put_event_line};
use sim_base::{Failed, Sink, write_all};
use ssf_model::{Entry, Line, Names};

/// The room of a line besides an entity's name, in bytes.
pub(crate) const LINE_ROOM: usize = 160;

/// Writes what was gathered, and gathers anew. Where that is nothing the sink is not called.
pub(crate) fn flush<K: Sink>(gathered: &mut Vec<u8>, sink: &mut K) -> Result<(), Failed>
    ensures all { OnOk result (Appends gathered.old.items (K.held sink.old) (K.held sink.new)) }
    ensures empty { OnOk result (gathered.new.items ≡ []) }
    ensures len { OnOk result (vec_len gathered.new ≡ 0) }
    ensures part { OnErr result (AppendsPrefix gathered.old.items (K.held sink.old) (K.held sink.new)) }
    ensures cause { OnErr result (Rose (K.faults sink.old) (K.faults sink.new)) }
    ensures never_falls { K.faults sink.old ≤ K.faults sink.new }
    ensures capacity { vec_capacity gathered.old ≤ vec_capacity gathered.new }
{
    write_all(sink, gathered.as_slice())?;
    gathered.clear();
    Ok(())
}

/// Writes what was gathered where there is no room for so many bytes more.
#[tactic(auto, using(crate::proofs::Sends::sends_nothing, crate::proofs::Sends::sends_all))]
fn make_room<K: Sink>(gathered: &mut Vec<u8>, room: usize, sink: &mut K) -> Result<(), Failed>
    requires { room ≤ vec_capacity gathered.old }
    ensures sent { OnOk result (Sends gathered.old.items gathered.new.items (K.held sink.old) (K.held sink.new)) }
    ensures room { OnOk result (vec_len gathered.new + room ≤ vec_capacity gathered.new) }
    ensures part { OnErr result (AppendsPrefix gathered.old.items (K.held sink.old) (K.held sink.new)) }
    ensures cause { OnErr result (Rose (K.faults sink.old) (K.faults sink.new)) }
    ensures never_falls { K.faults sink.old ≤ K.faults sink.new }
    ensures capacity { vec_capacity gathered.old ≤ vec_capacity gathered.new }
{
    if room <= gathered.capacity() - gathered.len() {
        return Ok(());
    }
    flush(gathered, sink)
}

/// Gathers the line of an event at the entity with this name.
#[tactic(auto, using(crate::proofs::Sends::sends_put, crate::proofs::Sends::part_longer))]
fn send_event<K: Sink>(
    name: &[u8],
    entry: &Entry,
    gathered: &mut Vec<u8>,
    sink: &mut K,
) -> Result<(), Failed>
    requires { EVENT_ROOM + length name.now ≤ vec_capacity gathered.old }
    ensures sent { OnOk result (Sends (gathered.old.items ++ event_line name.now entry.now) gathered.new.items (K.held sink.old) (K.held sink.new)) }
    ensures part { OnErr result (AppendsPrefix (gathered.old.items ++ event_line name.now entry.now) (K.held sink.old) (K.held sink.new)) }
    ensures cause { OnErr result (Rose (K.faults sink.old) (K.faults sink.new)) }
    ensures never_falls { K.faults sink.old ≤ K.faults sink.new }
    ensures capacity { vec_capacity gathered.old ≤ vec_capacity gathered.new }
{
    make_room(gathered, EVENT_ROOM + name.len(), sink)?;
    put_event_line(name, entry, gathered);
    Ok(())
}

/// Gathers the line of an action.
#[tactic(auto, using(crate::proofs::Sends::sends_put, crate::proofs::Sends::part_longer))]
fn send_action<K: Sink>(line: &Line, gathered: &mut Vec<u8>, sink: &mut K) -> Result<(), Failed>
    requires { ACTION_ROOM ≤ vec_capacity gathered.old }
    ensures sent { OnOk result (Sends (gathered.old.items ++ action_line line.now) gathered.new.items (K.held sink.old) (K.held sink.new)) }
    ensures part { OnErr result (AppendsPrefix (gathered.old.items ++ action_line line.now) (K.held sink.old) (K.held sink.new)) }
    ensures cause { OnErr result (Rose (K.faults sink.old) (K.faults sink.new)) }
    ensures never_falls { K.faults sink.old ≤ K.faults sink.new }
    ensures capacity { vec_capacity gathered.old ≤ vec_capacity gathered.new }
{
    make_room(gathered, ACTION_ROOM, sink)?;
    put_action_line(line, gathered);
    Ok(())
}

/// Gathers the lines of actions, one after another.
fn send_actions<K: Sink>(lines: &[Line], gathered: &mut Vec<u8>, sink: &mut K) -> Result<(), Failed>
    requires { ACTION_ROOM ≤ vec_capacity gathered.old }
    ensures sent { OnOk result (Sends (gathered.old.items ++ flat_map action_line lines.now) gathered.new.items (K.held sink.old) (K.held sink.new)) }
    ensures part { OnErr result (AppendsPrefix (gathered.old.items ++ flat_map action_line lines.now) (K.held sink.old) (K.held sink.new)) }
    ensures cause { OnErr result (Rose (K.faults sink.old) (K.faults sink.new)) }
    ensures never_falls { K.faults sink.old ≤ K.faults sink.new }
    ensures capacity { vec_capacity gathered.old ≤ vec_capacity gathered.new }
{
    for line in lines {
        send_action(line, gathered, sink)?;
    }
    Ok(())
}

/// Gathers the record of an entry: its line, and the lines of its actions.
pub(crate) fn send_record<K: Sink>(
    names: &Names,
    entry: &Entry,
    gathered: &mut Vec<u8>,
    sink: &mut K,
) -> Result<(), Failed>
    requires room { longest_name names.now + LINE_ROOM ≤ vec_capacity gathered.old }
    requires named { entry.now.entity < length names.now.names }
    ensures sent { OnOk result (Sends (gathered.old.items ++ record_text names.now entry.now) gathered.new.items (K.held sink.old) (K.held sink.new)) }
    ensures part { OnErr result (AppendsPrefix (gathered.old.items ++ record_text names.now entry.now) (K.held sink.old) (K.held sink.new)) }
    ensures cause { OnErr result (Rose (K.faults sink.old) (K.faults sink.new)) }
    ensures never_falls { K.faults sink.old ≤ K.faults sink.new }
    ensures capacity { vec_capacity gathered.old ≤ vec_capacity gathered.new }
{
    send_event(names.name(entry.entity), entry, gathered, sink)?;
    send_actions(entry.lines.as_slice(), gathered, sink)?;
    Ok(())
}
