//! The shared rule, and the kinds of steps that a pass makes under it.
ghost use Rattle.turn_table.specs.Rule.{Kept};
ghost use Rattle.turn_table.specs.Steps.{tried, reached, emptied, entered, settled, given, read, written, marked_all, looked, raised};
ghost use Rattle.turn_table.specs.Views.{rooted, made_one, fresh, taken_in, spent};
ghost use Rattle.std.specs.Prelude.{Option, None};

use crate::cell::Cell;
use crate::tenant::Tenant;
use crate::view::View;
use atomic_table::{Join, Play, Split, TableRule};
use std::marker::{Brand, PhantomData};

/// The rule of a table of turns (`specs/Rule.antt`).
pub enum Law {}

impl<V: Tenant> TableRule<Cell<V>, View, V::Key> for Law {
    ghost holds = { Kept V.Tenant };

    ghost first = { λ key. rooted (V.shape key) };
}

/// The key of a table, which a step that speaks of its values has to name. No step can read it.
pub(crate) trait About<K> {
    ghost key: { Option K };
}

impl<K> About<K> for Brand {
    ghost key = { None };
}

/// Takes a turn: compares the turn word with 0 and exchanges it.
pub(crate) enum Try {}

impl<V> Play<Cell<V>, View> for Try {
    ghost then = { tried };
}

/// Takes the slot of a value at home.
pub(crate) struct Reach<R> {
    about: PhantomData<R>,
}

impl<V: Tenant, R: About<V::Key>> Play<Cell<V>, View> for Reach<R> {
    ghost then = { reached V.Tenant R.key };
}

/// Gives the slot back, empty.
pub(crate) enum Clear {}

impl<V> Play<Cell<V>, View> for Clear {
    ghost then = { emptied };
}

/// Takes the empty slot of a place.
pub(crate) enum Enter {}

impl<V> Play<Cell<V>, View> for Enter {
    ghost then = { entered };
}

/// Gives the slot back with a value.
pub(crate) enum Settle {}

impl<V> Play<Cell<V>, View> for Settle {
    ghost then = { settled };
}

/// Gives a turn: stores 0 in its word.
pub(crate) enum Give {}

impl<V> Play<Cell<V>, View> for Give {
    ghost then = { given };
}

/// Reads a count word.
pub(crate) enum Read {}

impl<V> Play<Cell<V>, View> for Read {
    ghost then = { read };
}

/// Writes a count word.
pub(crate) enum Write {}

impl<V> Play<Cell<V>, View> for Write {
    ghost then = { written };
}

/// Marks each count word.
pub(crate) enum Mark {}

impl<V> Play<Cell<V>, View> for Mark {
    ghost then = { marked_all };
}

/// Reads the stop word.
pub(crate) enum Look {}

impl<V> Play<Cell<V>, View> for Look {
    ghost then = { looked };
}

/// Raises the stop word.
pub(crate) enum Raise {}

impl<V> Play<Cell<V>, View> for Raise {
    ghost then = { raised };
}

/// Makes a pass.
pub(crate) enum Cut {}

impl Split<View> for Cut {
    ghost left = { made_one };

    ghost right = { fresh };
}

/// Takes a pass in.
pub(crate) enum Glue {}

impl Join<View> for Glue {
    ghost both = { taken_in };

    ghost spent = { spent };
}
