//! Tests of tables of turns: a value has one holder, none is lost, a stop is seen, and posts reach both ends.
ghost use Rattle.std.specs.Prelude.{◌<◌};
ghost use Rattle.turn_table.specs.Passes.{HoldsNone};
ghost use Rattle.turn_table.specs.Turned.{IsPassOf};

use crate::ball::{Ball, Court, close, hit, open};
use crate::office::{self, Office};
use crate::post::{Counted, post};
use std::sync::Wait;
use std::thread::{Threads, join};
use turn_table::{Pass, Tenant, Turns};

// The ball of this place: its name and its hits.
fn told(balls: &[Ball], at: usize) -> Option<(u32, u32)> {
    let ball = balls.get(at)?;
    Some((ball.name, ball.hits))
}

#[test]
fn a_second_pass_gets_the_turn_after_the_first(rt: HostRuntime) {
    let Some(court) = open(rt.alloc()) else {
        panic!(rt; "there is memory");
    };
    let Court {
        turns,
        mut first,
        mut second,
        room,
    } = court;
    assert_eq!(rt; turns.places(), 4);
    let Some(turn) = turns.try_take(&mut first, 0) else {
        panic!(rt; "the turn is free");
    };
    if let Some(other) = turns.try_take(&mut second, 0) {
        turns.leave(&mut second, other);
        panic!(rt; "the turn is held");
    }
    let held = turns.bring(&mut first, turn);
    turns.give(&mut first, held);
    let Some(turn) = turns.try_take(&mut second, 0) else {
        panic!(rt; "the turn was given");
    };
    turns.leave(&mut second, turn);
    let balls = close(Court {
        turns,
        first,
        second,
        room,
    });
    assert_eq!(rt; told(balls.as_slice(), 0), Some((0, 0)));
}

#[test]
fn a_stop_is_seen_by_the_other(rt: HostRuntime) {
    let Some(court) = open(rt.alloc()) else {
        panic!(rt; "there is memory");
    };
    let Court {
        turns,
        mut first,
        mut second,
        room,
    } = court;
    assert!(rt; !turns.stopped(&mut second));
    turns.stop(&mut first);
    assert!(rt; turns.stopped(&mut second));
    assert!(rt; turns.stopped(&mut first));
    let balls = close(Court {
        turns,
        first,
        second,
        room,
    });
    assert_eq!(rt; balls.len(), 4);
}

// Hits this ball a thousand times, each time when it has come back.
fn play<R: Wait>(rt: &R, turns: &Turns<Ball>, pass: &mut Pass, place: u32, side: u32)
    requires pass { IsPassOf ⟦<Ball as Tenant>⟧ turns.now pass.old }
    requires free { HoldsNone pass.old }
    requires place { place < 4 }
    ensures pass { IsPassOf ⟦<Ball as Tenant>⟧ turns.now pass.new }
    ensures free { HoldsNone pass.new }
{
    let mut left = 1000u32;
    for _ in rt.forever() {
        if left == 0 {
            break;
        }
        if hit(turns, pass, place, side) {
            left -= 1;
        } else {
            std::thread::yield_now();
        }
    }
}

fn play_all<R: Wait>(rt: &R, turns: &Turns<Ball>, mut pass: Pass, side: u32) -> Pass
    requires pass { IsPassOf ⟦<Ball as Tenant>⟧ turns.now pass }
    requires free { HoldsNone pass }
    ensures pass { IsPassOf ⟦<Ball as Tenant>⟧ turns.now result }
    ensures free { HoldsNone result }
{
    for place in 0..4 {
        play(rt, turns, &mut pass, place, side);
    }
    pass
}

fn play_both<R: Threads + Wait + Sync>(
    rt: &R,
    turns: &Turns<Ball>,
    first: Pass,
    second: Pass,
) -> (Pass, Pass)
    requires first { IsPassOf ⟦<Ball as Tenant>⟧ turns.now first × HoldsNone first }
    requires second { IsPassOf ⟦<Ball as Tenant>⟧ turns.now second × HoldsNone second }
    ensures first { IsPassOf ⟦<Ball as Tenant>⟧ turns.now result.0 × HoldsNone result.0 }
    ensures second { IsPassOf ⟦<Ball as Tenant>⟧ turns.now result.1 × HoldsNone result.1 }
{
    join(
        rt,
        || play_all(rt, turns, first, 0),
        || play_all(rt, turns, second, 1),
    )
}

#[test]
fn two_threads_pass_four_balls_and_lose_none(rt: HostRuntime) {
    let Some(court) = open(rt.alloc()) else {
        panic!(rt; "there is memory");
    };
    let Court {
        turns,
        first,
        second,
        room,
    } = court;
    let (first, second) = play_both(&rt, &turns, first, second);
    let balls = close(Court {
        turns,
        first,
        second,
        room,
    });
    assert_eq!(rt; balls.len(), 4);
    assert_eq!(rt; told(balls.as_slice(), 0), Some((0, 2000)));
    assert_eq!(rt; told(balls.as_slice(), 1), Some((1, 2000)));
    assert_eq!(rt; told(balls.as_slice(), 2), Some((2, 2000)));
    assert_eq!(rt; told(balls.as_slice(), 3), Some((3, 2000)));
}

fn posted(counted: &[Counted], at: usize) -> Option<u64> {
    Some(counted.get(at)?.posted)
}

#[test]
fn after_three_posts_sender_and_mail_agree(rt: HostRuntime) {
    let Some(office) = office::open(rt.alloc()) else {
        panic!(rt; "there is memory");
    };
    let Office {
        turns,
        mut pass,
        room,
    } = office;
    assert!(rt; post(&turns, &mut pass));
    assert!(rt; post(&turns, &mut pass));
    assert!(rt; post(&turns, &mut pass));
    let counted = office::close(Office { turns, pass, room });
    assert_eq!(rt; counted.len(), 2);
    assert_eq!(rt; posted(counted.as_slice(), 0), Some(3));
    assert_eq!(rt; posted(counted.as_slice(), 1), Some(3));
}
