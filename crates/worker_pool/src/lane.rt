//! A worker's lane: its gate, and during a run the worker.

ghost use Rattle.std.specs.Prelude.{◌≡◌, ◌≤◌, [], ℕ, Some, length, slice_get, vec_len, vec_capacity};
ghost use Rattle.event_order.specs.Pending.{Among};
ghost use Rattle.turn_table.specs.declared.pass.Pass.{Pass as PassValue};
ghost use Rattle.worker_turns.specs.declared.worker.Worker.{Worker as WorkerValue};
ghost use Rattle.worker_pool.specs.declared.lane.Lane.{Lane as LaneValue};
ghost use Rattle.worker_pool.specs.Lanes.{EachIs, EachBecame, HasPass, IsCleared, IsKept, IsLent};

use sim_base::Gate;
use turn_table::Pass;
use worker_turns::{Turned, Worker};

/// A gate and, during a run, the worker that goes by it, with its last answer.
#[derive(Drop)]
pub struct Lane<G> {
    pub(crate) gate: G,
    /// How often the gate had stopped a worker before the run.
    pub(crate) stops_before: u64,
    pub(crate) worker: Option<Worker>,
    pub(crate) last: Turned,
}

impl<G> Lane<G> {
    ghost use Rattle.std.specs.Prelude.{◌≡◌, ◌+◌, ◌<◌, ◌∷◌, ◌++◌, [], Some, vec_len, vec_capacity};
    ghost use Rattle.worker_turns.specs.Passes.{pass_of};
    ghost use Rattle.worker_turns.specs.declared.worker.Worker.{Worker as WorkerValue};
    ghost use Rattle.worker_pool.specs.Lanes.{gate_of, HasPass, IsKept};

    /// A lane with this gate.
    pub fn new(gate: G) -> Lane<G>
        ensures { gate_of result ≡ gate }
    {
        Lane {
            gate,
            stops_before: 0,
            worker: None,
            last: Turned::Nothing,
        }
    }

    /// The gate.
    pub fn gate(&self) -> &G
        ensures { result.now ≡ gate_of self.now }
    {
        &self.gate
    }

    /// Lends the lane a worker with this pass.
    fn lend(&mut self, pass: Pass)
        ensures kept { IsKept self.old self.new }
        ensures pass { HasPass (λ p. p ≡ pass) self.new }
    {
        self.worker = Some(Worker::new(pass));
    }

    /// Takes the worker, and adds its pass to a list.
    fn take_back(&mut self, passes: &mut Vec<Pass>)
        requires worker { (w : WorkerValue) × (self.old.worker ≡ Some w) }
        requires room { vec_len passes.old < vec_capacity passes.old }
        ensures kept { IsKept self.old self.new }
        ensures pass { (w : WorkerValue) × (self.old.worker ≡ Some w) × (passes.new.items ≡ passes.old.items ++ pass_of w ∷ []) }
        ensures capacity { vec_capacity passes.new ≡ vec_capacity passes.old }
    {
        match self.worker.take() {
            Some(worker) => passes.push_reserved(worker.into_pass()),
            None => unreachable!(),
        }
    }
}

/// Forgets the last answers, and keeps how often each gate has stopped a worker.
pub(crate) fn clear_all<G: Gate>(lanes: &mut [Lane<G>])
    ensures { EachBecame (IsCleared G.stops) lanes.old lanes.new }
{
    for place in 0..lanes.len() {
        clear(&mut lanes[place]);
    }
}

/// Forgets the last answer, and keeps how often the gate has stopped a worker.
fn clear<G: Gate>(lane: &mut Lane<G>)
    ensures { IsCleared G.stops lane.old lane.new }
{
    lane.last = Turned::Nothing;
    lane.stops_before = lane.gate.stops();
}

/// Lends each lane a worker with one of these passes.
pub(crate) fn lend_all<G>(lanes: &mut [Lane<G>], passes: &mut Vec<Pass>)
    requires many { vec_len passes.old ≡ length lanes.old }
    ensures lent { EachBecame (IsLent passes.old.items) lanes.old lanes.new }
    ensures none { passes.new.items ≡ [] }
    ensures capacity { vec_capacity passes.new ≡ vec_capacity passes.old }
{
    for place in 0..lanes.len() {
        match passes.pop() {
            Some(pass) => lanes[place].lend(pass),
            None => unreachable!(),
        }
    }
}

/// Takes all workers, and adds their passes to a list.
pub(crate) fn take_all_back<G>(lanes: &mut [Lane<G>], passes: &mut Vec<Pass>)
    requires workers { EachIs (λ lane. (w : WorkerValue) × (lane.worker ≡ Some w)) lanes.old }
    requires none { passes.old.items ≡ [] }
    requires room { length lanes.old ≤ vec_capacity passes.old }
    ensures kept { EachBecame IsKept lanes.old lanes.new }
    ensures many { vec_len passes.new ≡ length lanes.old }
    ensures passes { (p : PassValue) → Among p passes.new.items → (w : ℕ) × (lane : LaneValue G) × (slice_get lanes.old w ≡ Some lane) × HasPass (λ q. q ≡ p) lane }
{
    for place in 0..lanes.len() {
        lanes[place].take_back(passes);
    }
}
