//! The miniature crossing: a barrier that goes on only as far as it has marked the worker's done word.
ghost use Rattle.std.specs.Prelude.{◌≡◌, ◌≤◌, suc, IfSome};
ghost use Rattle.turn_table.specs.Passes.{HoldsNone, mark_of};
ghost use Rattle.turn_table.specs.Turned.{IsPassOf};

use turn_table::{Pass, Tenant, Turns};

/// The worker, with what it has done, or the barrier, with its round.
#[derive(Drop)]
pub struct Part {
    /// How much was done, or the round.
    pub number: u64,
}

impl Tenant for Part {
    ghost use Rattle.turn_examples.specs.Crossing.{crossing_shape, Owes, Keeps, Marked};
    ghost use Rattle.turn_examples.specs.CrossingLaws.{owes_on, marked_less, marked_none, marked_more};

    type Key = ();

    ghost shape = { λ _. crossing_shape };

    ghost sound = { λ k p x. Unit {0} };

    ghost owes = { λ k f p x. Owes f p x };

    ghost keeps = { λ k f. Keeps f };

    ghost marked = { λ k m p x. Marked m p x };

    ghost stays = { λ k f g p x same up owed. owes_on f g p x same owed };

    ghost forgets = { λ k m n p x less marked. marked_less m n p x less marked };

    ghost cleared = { λ k m p x none. marked_none m p x none };

    ghost marks = { λ k f m p x c kept owed marked. marked_more f m p x c kept owed marked };
}

/// The worker does one thing more, where its turn was won, and its done word says so.
///
/// Gives the number that it wrote there, which the pass then has as its mark of the done word.
pub fn work(turns: &Turns<Part>, pass: &mut Pass) -> Option<u64>
    requires pass { IsPassOf ⟦<Part as Tenant>⟧ turns.now pass.old }
    requires free { HoldsNone pass.old }
    ensures pass { IsPassOf ⟦<Part as Tenant>⟧ turns.now pass.new }
    ensures free { HoldsNone pass.new }
    ensures rises { IfSome result (λ n. mark_of pass.old 0 ≤ n) }
    ensures done { IfSome result (λ n. mark_of pass.new 0 ≡ suc n) }
{
    let turn = turns.try_take(pass, 0)?;
    let n = turns.load(pass, 0);
    if n == u64::MAX {
        turns.leave(pass, turn);
        return None;
    }
    let mut worker = turns.bring(pass, turn);
    worker.value().number += 1;
    turns.write(pass, 0, n + 1);
    turns.give(pass, worker);
    Some(n + 1)
}

/// The barrier's round becomes what the worker has done, where the barrier's turn was won.
///
/// The done word is marked while the barrier is still at home. Gives the round, which the pass then has as
/// its mark of the done word and of the round word.
pub fn cross(turns: &Turns<Part>, pass: &mut Pass) -> Option<u64>
    requires pass { IsPassOf ⟦<Part as Tenant>⟧ turns.now pass.old }
    requires free { HoldsNone pass.old }
    ensures pass { IsPassOf ⟦<Part as Tenant>⟧ turns.now pass.new }
    ensures free { HoldsNone pass.new }
    ensures done { IfSome result (λ n. mark_of pass.new 0 ≡ suc n) }
    ensures round { IfSome result (λ n. mark_of pass.new 1 ≡ suc n) }
{
    let turn = turns.try_take(pass, 1)?;
    let _round = turns.load(pass, 1);
    let done = turns.load(pass, 0);
    let mut barrier = turns.bring(pass, turn);
    barrier.value().number = done;
    turns.write(pass, 1, done);
    turns.give(pass, barrier);
    Some(done)
}
