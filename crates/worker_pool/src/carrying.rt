//! Workers in threads, one for each lane, which take turns until one of them stops all.

ghost use Rattle.std.specs.Prelude.{◌≡◌, ◌<◌, ◌≤◌, ◌^◌, ℕ, true, All, length, vec_len};
ghost use Rattle.sim_base.specs.Outside.{Rose};
ghost use Rattle.turn_table.specs.Passes.{HoldsNone, IsNew};
ghost use Rattle.turn_table.specs.Rule.{AreHome};
ghost use Rattle.share_rules.specs.Places.{shape_of};
ghost use Rattle.turn_table.specs.Turned.{IsPassOf, table_of, key_of, made_of};
ghost use Rattle.worker_turns.specs.Passes.{pass_of};
ghost use Rattle.worker_pool.specs.Lanes.{EachIs, EachBecame, HasPass, IsFreeIn, IsIdle, IsCarried};
ghost use Rattle.worker_pool.specs.Carried.{CanWork};

use crate::lane::{Lane, lend_all, take_all_back};
use crate::route::Route;
use share_turns::{Near, Share};
use sim_base::Gate;
use ssf_model::Behaviour;
use std::alloc::Global;
use std::sync::Wait;
use std::thread::{Threads, for_each_mut, yield_now};
use sync_core::CrossEnd;
use turn_table::{Pass, Tenant, Turns};
use worker_hands::Hand;
use worker_turns::{Turned, Worker};

/// The most workers.
pub(crate) const MOST_WORKERS: usize = 64;

/// What workers take turns at.
#[derive(Clone, Copy)]
pub(crate) struct Work<'a, B: Behaviour> {
    pub(crate) alloc: Global,
    /// The behaviour, and the channels between timelines.
    pub(crate) behaviour: &'a B,
    pub(crate) ends: &'a [CrossEnd],
    /// By which the channels of one timeline are found.
    pub(crate) near: &'a Near,
    /// How many workers there are.
    pub(crate) workers: u32,
    /// In this round of the barrier they stop.
    pub(crate) last: u64,
}

/// Lets workers take turns until one of them stops all, and gathers the values.
pub(crate) fn carry_turns<R: Threads + Wait + Sync, B: Behaviour + Sync, G: Gate + Send>(
    rt: &R,
    work: &Work<B>,
    turns: Turns<Share<B>>,
    mut passes: Vec<Pass>,
    lanes: &mut [Lane<G>],
) -> Vec<Share<B>>
    requires work { CanWork B.valid B.carried B.reaction (key_of turns).value work.now.behaviour.now work.now.ends.now work.now.near.now.rows.items }
    requires workers { work.now.workers ≡ length lanes.old }
    requires few { work.now.workers < 2 ^ 32 }
    requires some { 1 ≤ length lanes.old }
    requires passes { All (λ p. IsPassOf ⟦<Share<B> as Tenant>⟧ turns p × IsNew p) passes.items }
    requires many { vec_len passes ≡ length lanes.old }
    requires made { made_of turns ≡ length lanes.old }
    requires idle { EachIs (IsIdle G.stops) lanes.old }
    ensures values { (counts : ℕ → ℕ) × AreHome ⟦<Share<B> as Tenant>⟧ (key_of turns) counts result.items }
    ensures lanes { EachBecame (IsCarried G.stops) lanes.old lanes.new }
{
    lend_all(lanes, &mut passes);
    carry_lanes(rt, work, &turns, lanes);
    take_all_back(lanes, &mut passes);
    turns.gather(passes)
}

/// Lets the worker of each lane take turns in a thread of its own.
fn carry_lanes<R: Threads + Wait + Sync, B: Behaviour + Sync, G: Gate + Send>(
    rt: &R,
    work: &Work<B>,
    turns: &Turns<Share<B>>,
    lanes: &mut [Lane<G>],
)
    requires work { CanWork B.valid B.carried B.reaction (key_of turns.now).value work.now.behaviour.now work.now.ends.now work.now.near.now.rows.items }
    requires workers { work.now.workers ≡ length lanes.old }
    requires few { work.now.workers < 2 ^ 32 }
    requires passes { EachIs (HasPass (IsFreeIn (table_of turns.now) (shape_of (key_of turns.now).value))) lanes.old }
    requires idle { EachIs (IsIdle G.stops) lanes.old }
    ensures passes { EachIs (HasPass (IsFreeIn (table_of turns.now) (shape_of (key_of turns.now).value))) lanes.new }
    ensures lanes { EachBecame (IsCarried G.stops) lanes.old lanes.new }
{
    for_each_mut(
        rt,
        lanes,
        MOST_WORKERS,
        &|place: usize, lane: &mut Lane<G>|
            requires work { CanWork B.valid B.carried B.reaction (key_of turns.now).value work.now.behaviour.now work.now.ends.now work.now.near.now.rows.items }
            requires place { place < work.now.workers }
            requires few { work.now.workers < 2 ^ 32 }
            requires pass { HasPass (IsFreeIn (table_of turns.now) (shape_of (key_of turns.now).value)) lane.old }
            requires idle { IsIdle G.stops lane.old }
            ensures pass { HasPass (IsFreeIn (table_of turns.entry.now) (shape_of (key_of turns.entry.now).value)) lane.new }
            ensures carried { IsCarried G.stops lane.old lane.new }
        { carry(rt, work, turns, lane, place as u32) },
    );
}

/// Lets the worker of a lane take turns until the stop word stands.
fn carry<R: Wait, B: Behaviour + Sync, G: Gate>(
    rt: &R,
    work: &Work<B>,
    turns: &Turns<Share<B>>,
    lane: &mut Lane<G>,
    place: u32,
)
    requires work { CanWork B.valid B.carried B.reaction (key_of turns.now).value work.now.behaviour.now work.now.ends.now work.now.near.now.rows.items }
    requires place { place < work.now.workers }
    requires pass { HasPass (IsFreeIn (table_of turns.now) (shape_of (key_of turns.now).value)) lane.old }
    requires idle { IsIdle G.stops lane.old }
    ensures pass { HasPass (IsFreeIn (table_of turns.now) (shape_of (key_of turns.now).value)) lane.new }
    ensures carried { IsCarried G.stops lane.old lane.new }
{
    if let Some(worker) = &mut lane.worker {
        lane.last = take_turns(rt, work, turns, worker, &mut lane.gate, place);
    }
}

/// Lets a worker take turns until the stop word stands, and tells its last answer.
fn take_turns<R: Wait, B: Behaviour + Sync, G: Gate>(
    rt: &R,
    work: &Work<B>,
    turns: &Turns<Share<B>>,
    worker: &mut Worker,
    gate: &mut G,
    place: u32,
) -> Turned
    requires work { CanWork B.valid B.carried B.reaction (key_of turns.now).value work.now.behaviour.now work.now.ends.now work.now.near.now.rows.items }
    requires place { place < work.now.workers }
    requires pass { IsPassOf ⟦<Share<B> as Tenant>⟧ turns.now (pass_of worker.old) }
    requires free { HoldsNone (pass_of worker.old) }
    ensures pass { IsPassOf ⟦<Share<B> as Tenant>⟧ turns.now (pass_of worker.new) }
    ensures free { HoldsNone (pass_of worker.new) }
    ensures up { G.stops gate.old ≤ G.stops gate.new }
    ensures stopped { result ≡ Turned.Stopped → Rose (G.stops gate.old) (G.stops gate.new) }
{
    let mut hand = Hand::plain(work.alloc);
    let mut route = Route::new(place, work.workers, turns.places() / 2);
    let mut turned = Turned::Nothing;
    for _ in rt.forever() {
        if route.is_at_look() && worker.is_stopped(turns) {
            break;
        }
        turned = worker.turn(
            work.alloc,
            work.behaviour,
            work.ends,
            work.near,
            turns,
            gate,
            &mut hand,
            route.next(),
        );
        if is_last(turned) || worker.has_seen_end() || worker.round_seen() >= work.last {
            worker.stop(turns);
            break;
        }
        if route.go_on(worker.has_moved()) {
            yield_now();
        }
    }
    turned
}

/// Whether a worker stops all after this turn.
fn is_last(turned: Turned) -> bool
    ensures { turned ≡ Turned.Stopped → result ≡ true }
{
    match turned {
        Turned::Worked | Turned::Nothing => false,
        Turned::Stopped | Turned::Over | Turned::Memory => true,
    }
}
