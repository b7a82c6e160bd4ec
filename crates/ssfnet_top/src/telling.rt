//! Lines with numbers, written without taking memory.
ghost use Rattle.std.specs.Prelude.{◌≤◌, ◌++◌, ◌∷◌, [], codes, decimal, OnOk, OnErr};
ghost use Rattle.sim_base.specs.Outside.{Rose, Appends, AppendsPrefix};
ghost use Rattle.ssfnet_top.specs.Outcome.{refusal_line, windows_line};
ghost use Rattle.ssfnet_top.specs.declared.refusal.Refusal.TheVariants as refusal;

use itoa::Buffer;
use sim_base::{Failed, Sink, write_all};

/// Writes some bytes and a number in decimal.
fn write_count<J: Sink>(front: &[u8], count: u64, err: &mut J) -> Result<(), Failed>
    ensures all { OnOk result (Appends (front.now ++ decimal count) (J.held err.old) (J.held err.new)) }
    ensures part { OnErr result (AppendsPrefix (front.now ++ decimal count) (J.held err.old) (J.held err.new)) }
    ensures cause { OnErr result (Rose (J.faults err.old) (J.faults err.new)) }
    ensures never_falls { J.faults err.old ≤ J.faults err.new }
{
    let mut buffer = Buffer::new();
    write_all(err, front)?;
    write_all(err, buffer.format(count).as_bytes())
}

/// Writes some bytes and a number in decimal, and ends the line.
fn write_last<J: Sink>(front: &[u8], count: u64, err: &mut J) -> Result<(), Failed>
    ensures all { OnOk result (Appends (front.now ++ (decimal count ++ 10 ∷ [])) (J.held err.old) (J.held err.new)) }
    ensures part { OnErr result (AppendsPrefix (front.now ++ (decimal count ++ 10 ∷ [])) (J.held err.old) (J.held err.new)) }
    ensures cause { OnErr result (Rose (J.faults err.old) (J.faults err.new)) }
    ensures never_falls { J.faults err.old ≤ J.faults err.new }
{
    write_count(front, count, err)?;
    write_all(err, b"\n")
}

/// Writes the line that a run was ended for want of memory, with exactly the records below this time.
#[tactic(auto, unfolding(crate::specs::Refusals::line_of))]
pub fn write_below<J: Sink>(below: u64, err: &mut J) -> Result<(), Failed>
    ensures all { OnOk result (Appends (refusal_line (refusal.MemoryBelow below)) (J.held err.old) (J.held err.new)) }
    ensures part { OnErr result (AppendsPrefix (refusal_line (refusal.MemoryBelow below)) (J.held err.old) (J.held err.new)) }
    ensures cause { OnErr result (Rose (J.faults err.old) (J.faults err.new)) }
{
    write_last(b"memory below ", below, err)
}

/// Writes the line that a timeline has more events than the budget, with the time of the first that is one too many.
#[tactic(auto, unfolding(crate::specs::Refusals::line_of))]
pub fn write_timeline<J: Sink>(
    timeline: u32,
    budget: u64,
    below: u64,
    err: &mut J,
) -> Result<(), Failed>
    ensures all { OnOk result (Appends (refusal_line (refusal.TimelineBudget timeline budget below)) (J.held err.old) (J.held err.new)) }
    ensures part { OnErr result (AppendsPrefix (refusal_line (refusal.TimelineBudget timeline budget below)) (J.held err.old) (J.held err.new)) }
    ensures cause { OnErr result (Rose (J.faults err.old) (J.faults err.new)) }
{
    write_count(b"budget timeline ", u64::from(timeline), err)?;
    write_count(b" ", budget, err)?;
    write_last(b" below ", below, err)
}

/// Writes the line that a worker was stopped, with exactly the records below this time.
#[tactic(auto, unfolding(crate::specs::Refusals::line_of))]
pub fn write_stopped<J: Sink>(worker: u32, below: u64, err: &mut J) -> Result<(), Failed>
    ensures all { OnOk result (Appends (refusal_line (refusal.Stopped worker below)) (J.held err.old) (J.held err.new)) }
    ensures part { OnErr result (AppendsPrefix (refusal_line (refusal.Stopped worker below)) (J.held err.old) (J.held err.new)) }
    ensures cause { OnErr result (Rose (J.faults err.old) (J.faults err.new)) }
{
    write_count(b"stopped worker ", u64::from(worker), err)?;
    write_last(b" below ", below, err)
}

/// Writes the line of the windows that were crossed.
pub fn write_windows<J: Sink>(crossed: u64, last: u64, err: &mut J) -> Result<(), Failed>
    ensures all { OnOk result (Appends (windows_line crossed last) (J.held err.old) (J.held err.new)) }
    ensures part { OnErr result (AppendsPrefix (windows_line crossed last) (J.held err.old) (J.held err.new)) }
    ensures cause { OnErr result (Rose (J.faults err.old) (J.faults err.new)) }
{
    write_count(b"windows ", crossed, err)?;
    write_last(b" ", last, err)
}
