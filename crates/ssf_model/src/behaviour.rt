//! What a model does at an event: the trait that every model implements.

use crate::{Out, Process, Wait, Wake};
use sim_base::Memory;
use std::alloc::Global;

/// How the entities of a model react. Its meaning is a total function, `reaction`, and a predicate
/// on states, `valid`, for which the laws at the end hold.
pub trait Behaviour: Drop {
    ghost use Rattle.std.specs.Prelude.{◌≡◌, ◌++◌, ◌↔◌, ℕ, Bool, List, map, IfOk, IsTrue};
    ghost use Rattle.ssf_model.specs.declared.wait.Wait.{Wait as WaitValue};
    ghost use Rattle.ssf_model.specs.Reaction.{Reaction, IsReady, KeepsValid, is_timed};
    ghost use Rattle.ssf_model.specs.Deliver.{IsModest};

    /// The state of an entity.
    type State: Drop + Send;

    /// What a message carries.
    type Payload: Copy + Send;

    /// What an action makes of the state, waits for, writes and tells, by the state, the process, the
    /// time and what wakes it.
    ghost reaction: { Self → Reaction Self.State Self.Payload };

    /// Which states are valid for an entity with these in-channels and out-channels, these processes,
    /// `true` where one is timed, and these waits of theirs.
    ghost valid: { Self → Self.State → List ℕ → List ℕ → List Bool → List WaitValue → Type 0 };

    /// What messages may carry.
    ghost carried: { Self → Self.Payload → Type 0 };

    /// The action of process number `process` at the time `now`, in ticks, when `wake` wakes it:
    /// changes the entity's state, writes and tells on `out`, and answers what the process waits
    /// for. After `Memory` nothing is said of the state, nor of what was written and told.
    fn action(
        &self,
        alloc: Global,
        state: &mut Self::State,
        process: u32,
        now: u64,
        wake: &Wake<Self::Payload>,
        out: &mut Out<Self::Payload>,
    ) -> Result<Wait, Memory>
        requires ready { IsReady (valid self.now) (carried self.now) state.old process now wake.now }
        ensures state { IfOk result (λ _. state.new ≡ (reaction self.now state.old process now wake.now).state) }
        ensures wait { IfOk result (λ wait. wait ≡ (reaction self.now state.old process now wake.now).wait) }
        ensures writes { IfOk result (λ _. out.new.writes ≡ out.old.writes ++ (reaction self.now state.old process now wake.now).writes) }
        ensures lines { IfOk result (λ _. out.new.lines ≡ out.old.lines ++ (reaction self.now state.old process now wake.now).lines) };

    /// Tells a proof that a payload is one that messages carry.
    fn known(&self, payload: &Self::Payload)
        ensures { carried self.now payload.now };

    /// Whether a state is valid for an entity with these own in-channels and out-channels, these
    /// processes, timed where they have a timer channel, and these waits of theirs.
    fn is_valid(
        &self,
        state: &Self::State,
        ins: &[u32],
        outs: &[u32],
        processes: &[Process],
        waits: &[Wait],
    ) -> bool
        ensures { IsTrue result ↔ valid self.now state.now ins.now outs.now (map is_timed processes.now) waits.now };

    /// From a valid state an action leads to a valid one. It writes on out-channels of its entity what
    /// messages may carry, and waits on in-channels of its entity, with delays and times in range; a
    /// process that is not timed waits for no time.
    ghost sound: { (b : Self) → KeepsValid (valid b) (carried b) (reaction b) };

    /// In a valid state one event writes at most `MostWrites` times on one out-channel.
    ghost modest: { (b : Self) → IsModest (valid b) (carried b) (reaction b) };
}
