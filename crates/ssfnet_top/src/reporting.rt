//! The report of a run, for which the room is taken before the run.
ghost use Rattle.std.specs.Prelude.{◌≡◌, ◌+◌, ◌≤◌, ◌++◌, true, vec_len, OnOk};
ghost use Rattle.std.specs.Vec.{vec_capacity};
ghost use Rattle.ssfnet_top.specs.Answering.{report_with_if};

use sim_base::Memory;
use trace_writer::Tally;

/// The greatest length of a report, in bytes.
pub const REPORT_ROOM: usize = 374;

/// Takes the room for a report where one is wanted.
pub fn make_room(wanted: bool, report: &mut Vec<u8>) -> Result<(), Memory>
    ensures same { report.new.items ≡ report.old.items }
    ensures room { OnOk result (wanted ≡ true → vec_len report.new + REPORT_ROOM ≤ vec_capacity report.new) }
{
    if !wanted {
        return Ok(());
    }
    report.reserve(REPORT_ROOM)?;
    Ok(())
}

/// Appends the report of a tally where one is wanted.
pub fn add_report(wanted: bool, tally: &Tally, report: &mut Vec<u8>)
    requires room { wanted ≡ true → vec_len report.old + REPORT_ROOM ≤ vec_capacity report.old }
    ensures { report.new.items ≡ report.old.items ++ report_with_if wanted tally.now }
{
    if !wanted {
        return;
    }
    match tally.text(report) {
        Ok(()) => (),
        Err(Memory) => unreachable!(),
    }
}
