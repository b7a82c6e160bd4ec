//! The report of several histories.
ghost use Rattle.std.specs.Prelude.{◌≡◌, ◌++◌, OnErr, OnOk};
ghost use Rattle.trace_writer.specs.Report.{events_of, report_of, totals_of};

use crate::{Histories, Tally};
use sim_base::Memory;

/// Appends the report of all events of the histories. Without memory nothing is appended.
#[tactic(auto, unfolding(crate::specs::Report::report_of))]
pub fn report_text<H: Histories>(histories: &H, out: &mut Vec<u8>) -> Result<(), Memory>
    ensures appended { OnOk result (out.new.items ≡ out.old.items ++ report_of (events_of (H.lists histories.now))) }
    ensures kept { OnErr result (out.new.items ≡ out.old.items) }
{
    tally_of(histories).text(out)
}

/// The tally of all events of the histories.
fn tally_of<H: Histories>(histories: &H) -> Tally
    ensures { result ≡ totals_of (events_of (H.lists histories.now)) }
{
    let mut tally = Tally::new();
    for i in 0..histories.count() {
        tally.add_all(histories.history(i));
    }
    tally
}
