//! Records, gathered in a buffer and written to a sink piece by piece.
ghost use Rattle.std.specs.Prelude.{◌≡◌, ◌<◌, ◌≤◌, ◌++◌, [], length, OnOk, OnErr, IsErrOf};
ghost use Rattle.sim_base.specs.Outside.{Rose, Appends, AppendsPrefix};
ghost use Rattle.trace_writer.specs.Trace.{record_text, end_line as end_text};
ghost use Rattle.list_run.specs.Sending.{Sends};

use crate::running::ListFault;
use sim_base::{Failed, Sink, write_all};
use ssf_model::{Entry, Names};
use trace_writer::{end_line, trace_line};

/// How many bytes are gathered before they are written.
pub(crate) const PIECE: usize = 65_536;

/// Writes what was gathered, and gathers anew.
pub(crate) fn flush<K: Sink>(gathered: &mut Vec<u8>, sink: &mut K) -> Result<(), ListFault>
    ensures all { OnOk result (Appends gathered.old.items (K.held sink.old) (K.held sink.new)) }
    ensures empty { OnOk result (gathered.new.items ≡ []) }
    ensures part { OnErr result (AppendsPrefix gathered.old.items (K.held sink.old) (K.held sink.new)) }
    ensures cause { OnErr result (Rose (K.faults sink.old) (K.faults sink.new)) }
    ensures never_falls { K.faults sink.old ≤ K.faults sink.new }
{
    match write_all(sink, gathered.as_slice()) {
        Ok(()) => {
            gathered.clear();
            Ok(())
        }
        Err(Failed) => Err(ListFault::Write),
    }
}

/// Gathers the record of an entry, and writes what was gathered where it is a piece.
pub(crate) fn send_entry<K: Sink>(
    names: &Names,
    entry: &Entry,
    gathered: &mut Vec<u8>,
    sink: &mut K,
) -> Result<(), ListFault>
    requires { entry.now.entity < length names.now.names }
    ensures sent { OnOk result (Sends (gathered.old.items ++ record_text names.now entry.now) gathered.new.items (K.held sink.old) (K.held sink.new)) }
    ensures part { OnErr result (AppendsPrefix (gathered.old.items ++ record_text names.now entry.now) (K.held sink.old) (K.held sink.new)) }
    ensures cause { IsErrOf result ListFault.Write → Rose (K.faults sink.old) (K.faults sink.new) }
    ensures never_falls { K.faults sink.old ≤ K.faults sink.new }
{
    trace_line(names, entry, gathered)?;
    if gathered.len() < PIECE {
        return Ok(());
    }
    flush(gathered, sink)
}

/// Writes what was gathered, and behind it the line that ends a trace up to the time `until`, whose last event has
/// the number `count`.
pub(crate) fn send_end<K: Sink>(
    until: u64,
    count: u64,
    gathered: &mut Vec<u8>,
    sink: &mut K,
) -> Result<(), ListFault>
    ensures all { OnOk result (Appends (gathered.old.items ++ end_text until count) (K.held sink.old) (K.held sink.new)) }
    ensures part { OnErr result (AppendsPrefix (gathered.old.items ++ end_text until count) (K.held sink.old) (K.held sink.new)) }
    ensures cause { IsErrOf result ListFault.Write → Rose (K.faults sink.old) (K.faults sink.new) }
    ensures never_falls { K.faults sink.old ≤ K.faults sink.new }
{
    end_line(until, count, gathered)?;
    flush(gathered, sink)
}
