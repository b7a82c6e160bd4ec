//! What a slot of the table holds.
ghost use Rattle.std.specs.Prelude.{◌≡◌, ◌+◌, ◌<◌, [], vec_len, vec_capacity};
ghost use Rattle.std.specs.Slots.{slots_items, slots_len, IsFull};
ghost use Rattle.turn_table.specs.Cells.{IsValue, IsRoom, AreCells, AreFull, StandIn, values_in};

use atomic_table::Closed;
use std::alloc::Global;

/// A value, nothing, or the room in which the values are gathered at the end.
pub enum Cell<V> {
    Value(V),
    Empty,
    Room(Vec<V>),
}

// The value of a cell that has one.
pub(crate) fn into_value<V>(cell: Cell<V>) -> V
    requires { IsValue cell }
    ensures { cell ≡ Cell.Value result }
{
    match cell {
        Cell::Value(x) => x,
        _ => unreachable!(),
    }
}

// The room of a cell that has it.
pub(crate) fn into_room<V>(cell: Cell<V>) -> Vec<V>
    requires { IsRoom cell }
    ensures { cell ≡ Cell.Room result }
{
    match cell {
        Cell::Room(room) => room,
        _ => unreachable!(),
    }
}

// Moves the values into cells, in their order, and puts the emptied room behind them.
pub(crate) fn fill<V>(mut values: Vec<V>, cells: &mut Vec<Cell<V>>)
    requires bare { cells.old.items ≡ [] }
    requires room { vec_len values < vec_capacity cells.old }
    ensures { AreCells cells.new.items values.items }
{
    values.reverse();
    while let Some(x) = values.pop() {
        cells.push_reserved(Cell::Value(x));
    }
    cells.push_reserved(Cell::Room(values));
}

// The values of such cells, in their order, in the room behind them.
pub(crate) fn empty<V>(mut cells: Vec<Cell<V>>) -> Vec<V>
    requires { AreCells cells.items (values_in cells.items) }
    ensures { result.items ≡ values_in cells.items }
{
    let mut room = match cells.pop() {
        Some(last) => into_room(last),
        None => unreachable!(),
    };
    while let Some(cell) = cells.pop() {
        room.push_reserved(into_value(cell));
    }
    cells.destroy_empty();
    room.reverse();
    room
}

// The values of a table's slots, in their order, in the room behind them.
pub(crate) fn unload<V>(mut closed: Closed<Cell<V>, Global>, places: usize) -> Vec<V>
    requires filled { IsFull closed.slots }
    requires count { slots_len closed.slots ≡ places + 1 }
    requires cells { AreFull (slots_items closed.slots) places }
    ensures len { vec_len result ≡ places }
    ensures values { StandIn (slots_items closed.slots) result.items }
{
    let mut room = into_room(closed.take(places));
    for p in 0..places {
        room.push_reserved(into_value(closed.take(p)));
    }
    closed.free();
    room
}
