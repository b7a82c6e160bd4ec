//! Lists that are filled side by side: a list for each host, or for each interface.
ghost use Rattle.std.specs.Prelude.{◌≡◌, ◌<◌, [], replicate, vec_len, IfOk, OnOk};
ghost use Rattle.net_layout.specs.Gathered.{appended_at};

use sim_base::{ListOf, Memory};
use std::alloc::Global;

/// So many empty lists.
pub(crate) fn empty_lists<T: Drop>(alloc: Global, count: usize) -> Result<Vec<ListOf<T>>, Memory>
    ensures { IfOk result (λ lists. lists.items ≡ replicate count []) }
{
    let mut lists = Vec::new(alloc);
    for _list in 0..count {
        lists.push(ListOf::new(alloc))?;
    }
    Ok(lists)
}

/// Appends an item to the list at a place, where there is an item.
pub(crate) fn append_at<T: Drop>(
    lists: &mut Vec<ListOf<T>>,
    place: usize,
    item: Option<T>,
) -> Result<(), Memory>
    requires { place < vec_len lists.old }
    ensures { OnOk result (lists.new.items ≡ appended_at lists.old.items place item) }
{
    let Some(item) = item else {
        return Ok(());
    };
    let list = &mut lists[place];
    match list.push(item) {
        Ok(()) => Ok(()),
        Err(_) => Err(Memory),
    }
}
