//! A worker, which takes turns at timelines.

ghost use Rattle.std.specs.Prelude.{◌≡◌, ◌≢◌, ◌<◌, ◌≤◌, ◌+◌, ◌^◌, ◌↔◌, ℕ, Some, Err, OnOk, IsTrue};
ghost use Rattle.sim_base.specs.Outside.{Rose};
ghost use Rattle.turn_table.specs.Passes.{view_of, HoldsNone};
ghost use Rattle.turn_table.specs.Turned.{IsPassOf, key_of};
ghost use Rattle.timeline.specs.declared.answers.Ran.TheVariants.{Over as WasOver};
ghost use Rattle.sync_steps.specs.declared.steps.Step.TheVariants.{Execute};
ghost use Rattle.core_rules.specs.Cores.{IsCoreOfRun};
ghost use Rattle.share_rules.specs.Places.{count_of, barrier_place, round_word};
ghost use Rattle.share_turns.specs.Rows.{AreNear};
ghost use Rattle.share_turns.specs.Tables.{IsTableOf};
ghost use Rattle.share_turns.specs.Holdings.{HasTimeline};
ghost use Rattle.worker_hands.specs.declared.hand.Answer.TheVariants.{Executed};
ghost use Rattle.worker_hands.specs.Hands.{IsAsked, IsToldOn};
ghost use Rattle.worker_hands.specs.Asked.{last_answer};
ghost use Rattle.worker_turns.specs.Passes.{pass_of};
ghost use Rattle.worker_turns.specs.Working.{HasLost, HasLostMore, IsWorked};
ghost use Rattle.worker_turns.specs.Turning.{most_executed, AreSteps};

use crate::task::{Seen, execute, meet, post, take};
use share_turns::{Layout, Near, RunTable, Share};
use sim_base::Gate;
use ssf_model::Behaviour;
use std::alloc::Global;
use sync_core::CrossEnd;
use turn_table::{Held, Pass, Tenant, Turns};
use worker_hands::{Halt, Hand};

/// A turn executes at most so many events.
const MOST_EXECUTED: u32 = 1024;

/// What became of a turn.
#[derive(Clone, Copy, Debug, PartialEq, Eq)]
pub enum Turned {
    /// The worker did what there was to do.
    Worked,
    /// Another has the timeline's turn.
    Nothing,
    /// The gate is closed.
    Stopped,
    /// The timeline's budget is spent.
    Over,
    /// There was no memory.
    Memory,
}

/// A worker with its pass.
#[derive(Drop)]
pub struct Worker {
    pub(crate) pass: Pass,
    pub(crate) seen: Seen,
    /// Whether the last turn found something to do.
    pub(crate) moved: bool,
}

impl Worker {
    ghost use Rattle.std.specs.Prelude.{◌≡◌, ◌≢◌, ◌<◌, ◌≤◌, ◌+◌, ◌^◌, ◌↔◌, ℕ, Some, Err, OnOk, IsTrue};
    ghost use Rattle.sim_base.specs.Outside.{Rose};
    ghost use Rattle.turn_table.specs.Passes.{view_of, HoldsNone};
    ghost use Rattle.turn_table.specs.Turned.{IsPassOf, key_of};
    ghost use Rattle.timeline.specs.declared.answers.Ran.TheVariants.{Over as WasOver};
    ghost use Rattle.sync_steps.specs.declared.steps.Step.TheVariants.{Execute};
    ghost use Rattle.core_rules.specs.Cores.{IsCoreOfRun};
    ghost use Rattle.share_rules.specs.Places.{count_of, barrier_place, round_word};
    ghost use Rattle.share_turns.specs.Rows.{AreNear};
    ghost use Rattle.share_turns.specs.Tables.{IsTableOf};
    ghost use Rattle.share_turns.specs.Holdings.{HasTimeline};
    ghost use Rattle.worker_hands.specs.declared.hand.Answer.TheVariants.{Executed};
    ghost use Rattle.worker_hands.specs.Hands.{IsAsked, IsToldOn};
    ghost use Rattle.worker_hands.specs.Asked.{last_answer};
    ghost use Rattle.worker_turns.specs.Passes.{pass_of};
    ghost use Rattle.worker_turns.specs.Working.{HasLost, HasLostMore, IsWorked};
    ghost use Rattle.worker_turns.specs.Turning.{most_executed, AreSteps};

    /// A worker with this pass.
    pub fn new(pass: Pass) -> Worker
        ensures { pass_of result ≡ pass }
    {
        Worker {
            pass,
            seen: Seen {
                ended: false,
                round: 0,
            },
            moved: false,
        }
    }

    /// The worker's pass.
    pub fn into_pass(self) -> Pass
        ensures { result ≡ pass_of self }
    {
        let Worker { pass, .. } = self;
        pass
    }

    /// Whether the barrier had ended when the worker last held it. A hint: no contract speaks of it.
    pub fn has_seen_end(&self) -> bool {
        self.seen.ended
    }

    /// The barrier's round when the worker last held it. A hint: no contract speaks of it.
    pub fn round_seen(&self) -> u64 {
        self.seen.round
    }

    /// Whether the timeline's lower bound rose in the last turn. A hint: no contract speaks of it.
    pub fn has_moved(&self) -> bool {
        self.moved
    }

    /// Whether the stop word stands.
    pub fn is_stopped<B: Behaviour>(&mut self, turns: &Turns<Share<B>>) -> bool
        requires pass { IsPassOf ⟦<Share<B> as Tenant>⟧ turns.now (pass_of self.old) }
        requires free { HoldsNone (pass_of self.old) }
        ensures pass { IsPassOf ⟦<Share<B> as Tenant>⟧ turns.now (pass_of self.new) }
        ensures free { HoldsNone (pass_of self.new) }
        ensures answer { IsTrue result ↔ ((view_of (pass_of self.new)).stop_found ≢ 0) }
    {
        turns.stopped(&mut self.pass)
    }

    /// Raises the stop word.
    pub fn stop<B: Behaviour>(&mut self, turns: &Turns<Share<B>>)
        requires pass { IsPassOf ⟦<Share<B> as Tenant>⟧ turns.now (pass_of self.old) }
        requires free { HoldsNone (pass_of self.old) }
        ensures pass { IsPassOf ⟦<Share<B> as Tenant>⟧ turns.now (pass_of self.new) }
        ensures free { HoldsNone (pass_of self.new) }
    {
        turns.stop(&mut self.pass);
    }

    /// Takes a turn at a timeline: asks the gate once with the timeline's lower bound, then takes its mail, executes,
    /// meets the barrier, executes what is then before its bound, and posts, where the turns of those parts are free, and
    /// gives every turn back. It executes at most 1,024 events.
    ///
    /// `Nothing` comes exactly where the pass's count of lost tries of the timeline rose, `Stopped` only where the gate's count of stops did.
    /// The hand goes on telling its list while it has room, and is asked for steps of this timeline alone.
    pub fn turn<B: Behaviour + Sync, G: Gate>(
        &mut self,
        alloc: Global,
        behaviour: &B,
        ends: &[CrossEnd],
        near: &Near,
        turns: &Turns<Share<B>>,
        gate: &mut G,
        hand: &mut Hand,
        timeline: u32,
    ) -> Turned
        requires pass { IsPassOf ⟦<Share<B> as Tenant>⟧ turns.now (pass_of self.old) }
        requires free { HoldsNone (pass_of self.old) }
        requires run { IsCoreOfRun (B.valid (key_of turns.now).value.behaviour) (B.carried (key_of turns.now).value.behaviour) (B.reaction (key_of turns.now).value.behaviour) (key_of turns.now).value }
        requires behaviour { behaviour.now ≡ (key_of turns.now).value.behaviour }
        requires ends { ends.now ≡ (key_of turns.now).value.ends }
        requires near { AreNear (key_of turns.now).value.ends (count_of (key_of turns.now).value) near.now.rows.items }
        requires timeline { timeline < count_of (key_of turns.now).value }
        requires places { barrier_place (key_of turns.now).value + 1 < 2 ^ 32 }
        requires words { round_word (key_of turns.now).value + 1 < 2 ^ 32 }
        ensures pass { IsPassOf ⟦<Share<B> as Tenant>⟧ turns.now (pass_of self.new) }
        ensures free { HoldsNone (pass_of self.new) }
        ensures nothing { (result ≡ Turned.Nothing) ↔ HasLost (view_of (pass_of self.old)) (view_of (pass_of self.new)) timeline }
        ensures stopped { result ≡ Turned.Stopped → Rose (G.stops gate.old) (G.stops gate.new) }
        ensures never_falls { G.stops gate.old ≤ G.stops gate.new }
        ensures told { IsToldOn hand.old hand.new }
        ensures steps { IsAsked hand.old hand.new (AreSteps (key_of turns.now).value most_executed timeline) }
        ensures over { result ≡ Turned.Over → IsAsked hand.old hand.new (λ made. last_answer (Execute timeline) made ≡ Some (Executed WasOver)) }
        ensures worked { result ≡ Turned.Worked → IsAsked hand.old hand.new (IsWorked (key_of turns.now).value most_executed timeline (view_of (pass_of self.old)) (view_of (pass_of self.new))) }
    {
        self.moved = false;
        let Some(turn) = turns.try_take(&mut self.pass, timeline) else {
            return Turned::Nothing;
        };
        let table = RunTable {
            turns,
            ends,
            near,
            layout: Layout {
                timelines: turns.places() / 2,
                ends: ends.len() as u32,
            },
            number: timeline,
        };
        let mut own = table.bring_timeline(&mut self.pass, turn);
        let turned = self.go(alloc, behaviour, &table, gate, hand, &mut own);
        table.give_timeline(&mut self.pass, own);
        turned
    }

    // Asks the gate once, and makes the steps of the turn where it is open.
    fn go<B: Behaviour + Sync, G: Gate>(
        &mut self,
        alloc: Global,
        behaviour: &B,
        table: &RunTable<B>,
        gate: &mut G,
        hand: &mut Hand,
        own: &mut Held<Share<B>>,
    ) -> Turned
        requires pass { IsPassOf ⟦<Share<B> as Tenant>⟧ table.now.turns.now (pass_of self.old) }
        requires table { IsTableOf (key_of table.now.turns.now).value table.now.ends.now table.now.near.now.rows.items table.now.layout table.now.number }
        requires run { IsCoreOfRun (B.valid (key_of table.now.turns.now).value.behaviour) (B.carried (key_of table.now.turns.now).value.behaviour) (B.reaction (key_of table.now.turns.now).value.behaviour) (key_of table.now.turns.now).value }
        requires has { HasTimeline B.valid B.carried B.reaction (key_of table.now.turns.now).value (view_of (pass_of self.old)) table.now.number own.old }
        requires behaviour { behaviour.now ≡ (key_of table.now.turns.now).value.behaviour }
        ensures pass { IsPassOf ⟦<Share<B> as Tenant>⟧ table.now.turns.now (pass_of self.new) }
        ensures has { HasTimeline B.valid B.carried B.reaction (key_of table.now.turns.now).value (view_of (pass_of self.new)) table.now.number own.new }
        ensures tries { HasLostMore (key_of table.now.turns.now).value (view_of (pass_of self.old)) (view_of (pass_of self.new)) }
        ensures nothing { result ≡ Turned.Nothing → ⊥ }
        ensures stopped { result ≡ Turned.Stopped → Rose (G.stops gate.old) (G.stops gate.new) }
        ensures never_falls { G.stops gate.old ≤ G.stops gate.new }
        ensures told { IsToldOn hand.old hand.new }
        ensures steps { IsAsked hand.old hand.new (AreSteps (key_of table.now.turns.now).value most_executed table.now.number) }
        ensures over { result ≡ Turned.Over → IsAsked hand.old hand.new (λ made. last_answer (Execute table.now.number) made ≡ Some (Executed WasOver)) }
        ensures worked { result ≡ Turned.Worked → IsAsked hand.old hand.new (IsWorked (key_of table.now.turns.now).value most_executed table.now.number (view_of (pass_of self.old)) (view_of (pass_of self.new))) }
    {
        let bound = own.value().timeline().lower_bound();
        if !gate.may_go(table.number, bound) {
            return Turned::Stopped;
        }
        let turned = self.work(alloc, behaviour, table, hand, own);
        self.moved = own.value().timeline().lower_bound() > bound;
        turned
    }

    // Makes the steps of a turn.
    fn work<B: Behaviour + Sync>(
        &mut self,
        alloc: Global,
        behaviour: &B,
        table: &RunTable<B>,
        hand: &mut Hand,
        own: &mut Held<Share<B>>,
    ) -> Turned
        requires pass { IsPassOf ⟦<Share<B> as Tenant>⟧ table.now.turns.now (pass_of self.old) }
        requires table { IsTableOf (key_of table.now.turns.now).value table.now.ends.now table.now.near.now.rows.items table.now.layout table.now.number }
        requires run { IsCoreOfRun (B.valid (key_of table.now.turns.now).value.behaviour) (B.carried (key_of table.now.turns.now).value.behaviour) (B.reaction (key_of table.now.turns.now).value.behaviour) (key_of table.now.turns.now).value }
        requires has { HasTimeline B.valid B.carried B.reaction (key_of table.now.turns.now).value (view_of (pass_of self.old)) table.now.number own.old }
        requires behaviour { behaviour.now ≡ (key_of table.now.turns.now).value.behaviour }
        ensures pass { IsPassOf ⟦<Share<B> as Tenant>⟧ table.now.turns.now (pass_of self.new) }
        ensures has { HasTimeline B.valid B.carried B.reaction (key_of table.now.turns.now).value (view_of (pass_of self.new)) table.now.number own.new }
        ensures tries { HasLostMore (key_of table.now.turns.now).value (view_of (pass_of self.old)) (view_of (pass_of self.new)) }
        ensures nothing { result ≡ Turned.Nothing → ⊥ }
        ensures stopped { result ≡ Turned.Stopped → ⊥ }
        ensures told { IsToldOn hand.old hand.new }
        ensures steps { IsAsked hand.old hand.new (AreSteps (key_of table.now.turns.now).value most_executed table.now.number) }
        ensures over { result ≡ Turned.Over → IsAsked hand.old hand.new (λ made. last_answer (Execute table.now.number) made ≡ Some (Executed WasOver)) }
        ensures worked { result ≡ Turned.Worked → IsAsked hand.old hand.new (IsWorked (key_of table.now.turns.now).value most_executed table.now.number (view_of (pass_of self.old)) (view_of (pass_of self.new))) }
    {
        match self.steps(alloc, behaviour, table, hand, own) {
            Ok(()) => Turned::Worked,
            Err(Halt::Over) => Turned::Over,
            Err(Halt::Memory) => Turned::Memory,
        }
    }

    // Takes mail, executes, meets the barrier, executes what is then before the bound, and posts.
    fn steps<B: Behaviour + Sync>(
        &mut self,
        alloc: Global,
        behaviour: &B,
        table: &RunTable<B>,
        hand: &mut Hand,
        own: &mut Held<Share<B>>,
    ) -> Result<(), Halt>
        requires pass { IsPassOf ⟦<Share<B> as Tenant>⟧ table.now.turns.now (pass_of self.old) }
        requires table { IsTableOf (key_of table.now.turns.now).value table.now.ends.now table.now.near.now.rows.items table.now.layout table.now.number }
        requires run { IsCoreOfRun (B.valid (key_of table.now.turns.now).value.behaviour) (B.carried (key_of table.now.turns.now).value.behaviour) (B.reaction (key_of table.now.turns.now).value.behaviour) (key_of table.now.turns.now).value }
        requires has { HasTimeline B.valid B.carried B.reaction (key_of table.now.turns.now).value (view_of (pass_of self.old)) table.now.number own.old }
        requires behaviour { behaviour.now ≡ (key_of table.now.turns.now).value.behaviour }
        ensures pass { IsPassOf ⟦<Share<B> as Tenant>⟧ table.now.turns.now (pass_of self.new) }
        ensures has { HasTimeline B.valid B.carried B.reaction (key_of table.now.turns.now).value (view_of (pass_of self.new)) table.now.number own.new }
        ensures tries { HasLostMore (key_of table.now.turns.now).value (view_of (pass_of self.old)) (view_of (pass_of self.new)) }
        ensures done { OnOk result (IsAsked hand.old hand.new (IsWorked (key_of table.now.turns.now).value most_executed table.now.number (view_of (pass_of self.old)) (view_of (pass_of self.new)))) }
        ensures told { IsToldOn hand.old hand.new }
        ensures steps { IsAsked hand.old hand.new (AreSteps (key_of table.now.turns.now).value most_executed table.now.number) }
        ensures over { result ≡ Err Halt.Over → IsAsked hand.old hand.new (λ made. last_answer (Execute table.now.number) made ≡ Some (Executed WasOver)) }
    {
        let mut left = MOST_EXECUTED;
        let Ok(()) = take(table, &mut self.pass, hand, own) else {
            return Err(Halt::Memory);
        };
        let first = execute(table, behaviour, &mut self.pass, hand, own, &mut left);
        let Ok(()) = first else {
            return first;
        };
        let Ok(()) = meet(alloc, table, &mut self.pass, hand, own, &mut self.seen) else {
            return Err(Halt::Memory);
        };
        let second = execute(table, behaviour, &mut self.pass, hand, own, &mut left);
        let Ok(()) = second else {
            return second;
        };
        let Ok(()) = post(table, &mut self.pass, hand, own) else {
            return Err(Halt::Memory);
        };
        Ok(())
    }
}
