//! How a table of turns ends.
ghost use Rattle.std.specs.Prelude.{◌≡◌, ℕ, ◌+◌, ◌<◌, [], true, All, length, vec_len};
ghost use Rattle.turn_table.specs.Passes.{IsSeated, HoldsNone};

use crate::cell::{Cell, unload};
use crate::pass::Pass;
use crate::rule::{Glue, Law};
use crate::tenant::Tenant;
use crate::turns::{Board, Turns};
use crate::view::View;
use atomic_table::{Seat, Shared};

// Takes passes in.
fn join_all<V: Tenant>(
    shared: &Shared<Cell<V>, View, V::Key, Law>,
    root: &mut Seat<Cell<V>, View>,
    mut passes: Vec<Pass>,
)
    requires table { root.old.table_id ≡ shared.now.table_id }
    requires root { (root.old.me.0.is_root ≡ true) × (root.old.me.1 ≡ []) }
    requires words { 0 < shared.now.table_id.words }
    requires passes { All (λ p. IsSeated shared.now.table_id (V.shape shared.now.key) p × HoldsNone p) passes.items }
    ensures table { root.new.table_id ≡ root.old.table_id }
    ensures root { (root.new.me.0.is_root ≡ true) × (root.new.me.1 ≡ []) × (root.new.me.0.made ≡ root.old.me.0.made) }
    ensures back { length root.new.me.0.back ≡ length root.old.me.0.back + vec_len passes }
{
    while let Some(pass) = passes.pop() {
        shared.join_seat::<Glue>(root, pass.badge.into_seat());
    }
}

impl<V: Tenant> Turns<V> {
    ghost use Rattle.turn_table.specs.Rule.{AreHome};
    ghost use Rattle.turn_table.specs.Turned.{key_of, made_of, IsPassOf};

    /// Ends the table: all values, in the order of their places. Takes no memory.
    pub fn gather(self, passes: Vec<Pass>) -> Vec<V>
        requires all { made_of self ≡ vec_len passes }
        requires seats { 0 < vec_len passes }
        requires passes { All (λ p. IsPassOf V.Tenant self p × HoldsNone p) passes.items }
        ensures { (counts : ℕ → ℕ) × AreHome V.Tenant (key_of self) counts result.items }
    {
        let Turns { board, root } = self;
        let Board { table, places } = board;
        let mut seat = root.into_seat();
        join_all(&table.shared, &mut seat, passes);
        unload(table.close_with(seat), places as usize)
    }
}
