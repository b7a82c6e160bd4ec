//! How a table of turns is made, with its passes.
ghost use Rattle.std.specs.Prelude.{◌≡◌, ◌+◌, ◌^◌, ◌<◌, ◌≤◌, ◌++◌, [], IfOk, IfErr, All, vec_len, vec_capacity, slice_index, replicate};
ghost use Rattle.turn_table.specs.Passes.{IsSeated, IsNew};
ghost use Rattle.turn_table.specs.Shapes.{places_in, words_in};
ghost use Rattle.turn_table.specs.Views.{rooted};

use crate::cell::{Cell, empty, fill};
use crate::pass::Pass;
use crate::rule::{Cut, Law};
use crate::tenant::Tenant;
use crate::turns::{Board, Turns};
use crate::view::View;
use atomic_table::{Refused, Seat, Shared, Table};
use sim_base::Memory;
use std::alloc::Global;

// The words of a table: the stop word and the turn words, all 0, and the count words.
fn words_for(alloc: Global, places: usize, counts: &[u64]) -> Result<Vec<u64>, Memory>
    requires { places < 2 ^ 32 }
    ensures { IfOk result (λ w. w.items ≡ replicate (places + 1) 0 ++ counts.now) }
{
    let mut words = vec![in alloc; 0u64; places + 1]?;
    words.extend_from_slice(counts)?;
    Ok(words)
}

// Makes passes, as many as there is room for.
fn split_all<V: Tenant>(
    shared: &Shared<Cell<V>, View, V::Key, Law>,
    root: &mut Seat<Cell<V>, View>,
    seats: u32,
    passes: &mut Vec<Pass>,
)
    requires table { root.old.table_id ≡ shared.now.table_id }
    requires root { root.old.me ≡ (rooted (V.shape shared.now.key), []) }
    requires room { seats ≤ vec_capacity passes.old }
    requires bare { vec_len passes.old ≡ 0 }
    requires slots { shared.now.table_id.slots ≡ places_in (V.shape shared.now.key) + 1 }
    requires words { shared.now.table_id.words ≡ places_in (V.shape shared.now.key) + 1 + words_in (V.shape shared.now.key) }
    ensures table { root.new.table_id ≡ root.old.table_id }
    ensures root { root.new.me ≡ (record (rooted (V.shape shared.now.key)) { made = seats }, []) }
    ensures len { vec_len passes.new ≡ seats }
    ensures passes { All (λ p. IsSeated shared.now.table_id (V.shape shared.now.key) p × IsNew p) passes.new.items }
{
    for i in 0..seats {
        let seat = shared.split_seat::<Cut>(root);
        passes.push_reserved(Pass {
            badge: seat.into_badge(),
            number: u64::from(i) + 1,
        });
    }
}

impl<V: Tenant> Turns<V> {
    ghost use Rattle.turn_table.specs.Rule.{AreHome};
    ghost use Rattle.turn_table.specs.Turned.{key_of, count_of, places_of, made_of, IsPassOf};

    /// A table of these values and count words, and as many passes as `seats` says. All values are at home.
    ///
    /// The table is told `about` for good. Without memory the values come back.
    pub fn new(
        alloc: Global,
        values: Vec<V>,
        counts: Vec<u64>,
        seats: u32,
        about: &V::Key,
    ) -> Result<(Turns<V>, Vec<Pass>), (Vec<V>, Memory)>
        requires seats { 0 < seats }
        requires places { vec_len values < 2 ^ 32 }
        requires words { vec_len counts ≡ words_in (V.shape about.now) }
        requires values { AreHome V.Tenant about.now (λ c. slice_index counts.items c) values.items }
        ensures key { IfOk result (λ t. key_of t.0 ≡ about.now) }
        ensures places { IfOk result (λ t. (count_of t.0 ≡ vec_len values) × (places_of V.Tenant t.0 ≡ vec_len values)) }
        ensures made { IfOk result (λ t. (made_of t.0 ≡ seats) × (vec_len t.1 ≡ seats)) }
        ensures passes { IfOk result (λ t. All (λ p. IsPassOf V.Tenant t.0 p × IsNew p) t.1.items) }
        ensures refused { IfErr result (λ e. e.0.items ≡ values.items) }
    {
        let places = values.len();
        let Ok(words) = words_for(alloc, places, counts.as_slice()) else {
            return Err((values, Memory));
        };
        let Ok(mut passes) = Vec::with_capacity(alloc, seats as usize) else {
            return Err((values, Memory));
        };
        let Ok(mut cells) = Vec::with_capacity(alloc, places + 1) else {
            return Err((values, Memory));
        };
        fill(values, &mut cells);
        match Table::new(alloc, words.as_slice(), cells, about) {
            Err(Refused { slots }) => Err((empty(slots), Memory)),
            Ok((table, mut seat)) => {
                split_all(&table.shared, &mut seat, seats, &mut passes);
                let turns = Turns {
                    board: Board {
                        table,
                        places: places as u32,
                    },
                    root: seat.into_badge(),
                };
                Ok((turns, passes))
            }
        }
    }
}
