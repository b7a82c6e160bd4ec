//! Balls that are passed to and fro, for the tests.
ghost use Rattle.std.specs.Prelude.{◌≡◌, ◌<◌, ◌≤◌, ℕ, [], IfSome, vec_len, vec_capacity};
ghost use Rattle.turn_table.specs.Passes.{HoldsNone};
ghost use Rattle.turn_table.specs.Turned.{IsPassOf, made_of};

use std::alloc::Global;
use turn_table::{Pass, Tenant, Turns};

/// A ball, with how often it was hit.
#[derive(Drop)]
pub struct Ball {
    pub name: u32,
    pub hits: u32,
}

impl Tenant for Ball {
    ghost use Rattle.turn_examples.specs.Balls.{ball_shape};

    type Key = ();

    ghost shape = { λ _. ball_shape };

    ghost sound = { λ k p x. Unit {0} };

    ghost owes = { λ k f p x. Unit {0} };

    ghost keeps = { λ k f. Unit {0} };

    ghost marked = { λ k m p x. Unit {0} };

    ghost stays = { λ k f g p x same up owed. tt };

    ghost forgets = { λ k m n p x less marked. tt };

    ghost cleared = { λ k m p x none. tt };

    ghost marks = { λ k f m p x c kept owed marked. tt };
}

/// A table of four balls with two passes, and the room in which the passes come back.
pub struct Court {
    pub turns: Turns<Ball>,
    pub first: Pass,
    pub second: Pass,
    pub room: Vec<Pass>,
}

fn balls(alloc: Global) -> Option<Vec<Ball>>
    ensures { IfSome result (λ v. vec_len v ≡ 4) }
{
    let mut balls = Vec::with_capacity(alloc, 4).ok()?;
    balls.push_reserved(Ball { name: 0, hits: 0 });
    balls.push_reserved(Ball { name: 1, hits: 0 });
    balls.push_reserved(Ball { name: 2, hits: 0 });
    balls.push_reserved(Ball { name: 3, hits: 0 });
    Some(balls)
}

/// A court, where there is memory.
pub fn open(alloc: Global) -> Option<Court>
    ensures { IfSome result (λ c. IsPassOf ⟦<Ball as Tenant>⟧ c.turns c.first × HoldsNone c.first × IsPassOf ⟦<Ball as Tenant>⟧ c.turns c.second × HoldsNone c.second × (made_of c.turns ≡ 2) × (vec_len c.room ≡ 0) × (2 ≤ vec_capacity c.room)) }
{
    let (turns, mut room) = match Turns::new(alloc, balls(alloc)?, Vec::new(alloc), 2, &()) {
        Ok(made) => made,
        Err(_refused) => return None,
    };
    let Some(second) = room.pop() else {
        unreachable!();
    };
    let Some(first) = room.pop() else {
        unreachable!();
    };
    Some(Court {
        turns,
        first,
        second,
        room,
    })
}

/// The balls, in the order of their places.
pub fn close(court: Court) -> Vec<Ball>
    requires first { IsPassOf ⟦<Ball as Tenant>⟧ court.turns court.first × HoldsNone court.first }
    requires second { IsPassOf ⟦<Ball as Tenant>⟧ court.turns court.second × HoldsNone court.second }
    requires made { made_of court.turns ≡ 2 }
    requires room { (vec_len court.room ≡ 0) × (2 ≤ vec_capacity court.room) }
{
    let Court {
        turns,
        first,
        second,
        mut room,
    } = court;
    room.push_reserved(first);
    room.push_reserved(second);
    turns.gather(room)
}

/// Hits a ball, where its turn was won and it is for this side.
pub fn hit(turns: &Turns<Ball>, pass: &mut Pass, place: u32, side: u32) -> bool
    requires pass { IsPassOf ⟦<Ball as Tenant>⟧ turns.now pass.old }
    requires free { HoldsNone pass.old }
    requires place { place < 4 }
    ensures pass { IsPassOf ⟦<Ball as Tenant>⟧ turns.now pass.new }
    ensures free { HoldsNone pass.new }
{
    let Some(turn) = turns.try_take(pass, place) else {
        return false;
    };
    let mut held = turns.bring(pass, turn);
    let mine = is_for(&held.value().hits, side);
    if mine {
        count(&mut held.value().hits);
    }
    turns.give(pass, held);
    mine
}

fn is_for(hits: &u32, side: u32) -> bool {
    *hits % 2 == side
}

fn count(hits: &mut u32) {
    *hits = hits.wrapping_add(1);
}
