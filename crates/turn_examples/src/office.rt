//! A post office of one pass, for the tests.
ghost use Rattle.std.specs.Prelude.{◌≡◌, ◌≤◌, ◌∷◌, [], IfSome, vec_len, vec_capacity};
ghost use Rattle.turn_table.specs.Passes.{HoldsNone};
ghost use Rattle.turn_table.specs.Turned.{IsPassOf, made_of};

use crate::post::Counted;
use std::alloc::Global;
use turn_table::{Pass, Tenant, Turns};

/// A table of a sender and its mail with one pass, and the room in which the pass comes back.
pub struct Office {
    pub turns: Turns<Counted>,
    pub pass: Pass,
    pub room: Vec<Pass>,
}

fn unposted(alloc: Global) -> Option<Vec<Counted>>
    ensures { IfSome result (λ v. v.items ≡ record { posted = 0 } ∷ record { posted = 0 } ∷ []) }
{
    let mut both = Vec::with_capacity(alloc, 2).ok()?;
    both.push_reserved(Counted { posted: 0 });
    both.push_reserved(Counted { posted: 0 });
    Some(both)
}

fn word(alloc: Global) -> Option<Vec<u64>>
    ensures { IfSome result (λ v. v.items ≡ 0 ∷ []) }
{
    let mut words = Vec::with_capacity(alloc, 1).ok()?;
    words.push_reserved(0);
    Some(words)
}

/// An office where nothing was posted yet, where there is memory.
pub fn open(alloc: Global) -> Option<Office>
    ensures { IfSome result (λ o. IsPassOf ⟦<Counted as Tenant>⟧ o.turns o.pass × HoldsNone o.pass × (made_of o.turns ≡ 1) × (vec_len o.room ≡ 0) × (1 ≤ vec_capacity o.room)) }
{
    let both = unposted(alloc)?;
    let (turns, mut room) = match Turns::new(alloc, both, word(alloc)?, 1, &()) {
        Ok(made) => made,
        Err(_refused) => return None,
    };
    let Some(pass) = room.pop() else {
        unreachable!();
    };
    Some(Office { turns, pass, room })
}

/// The sender and the mail.
pub fn close(office: Office) -> Vec<Counted>
    requires pass { IsPassOf ⟦<Counted as Tenant>⟧ office.turns office.pass × HoldsNone office.pass }
    requires made { made_of office.turns ≡ 1 }
    requires room { (vec_len office.room ≡ 0) × (1 ≤ vec_capacity office.room) }
{
    let Office {
        turns,
        pass,
        mut room,
    } = office;
    room.push_reserved(pass);
    turns.gather(room)
}
