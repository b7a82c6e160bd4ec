//! The level of a list: its attributes with every substitution replaced.
ghost use Rattle.std.specs.Prelude.{◌≡◌, ◌<◌, ◌≤◌, ◌++◌, ◌⊎◌, ◌&&◌, [], Ok, Err, IfOk, IfErr, All, map, length, OnOk, Bool, IfSome};
ghost use Rattle.dml_tree.specs.Attributes.{weight};
ghost use Rattle.dml_resolve.specs.Resolving.{named, plain_entries, known, level, is_schemas};
ghost use Rattle.dml_resolve.specs.Members.{entries_of, level_at, given, followed, adds, value_weight, IsKeysOf, IsWithin, IsSmall};

use crate::PathFault;
use crate::counter::Counter;
use crate::members::{Member, first_list, push_found, push_missing, with_key};
use crate::own_keys::made_once;
use crate::paths::{components, is_find, is_schemas, is_substitution};
use crate::roots::{Root, in_root};
use dml_tree::{Attribute, Place, Tree, Value};
use std::alloc::Global;
use std::collections::BTreeSet;

/// The level of a list in which `left` substitutions may be followed in one another. An attribute
/// `schemas` is kept as written where the list is the root list.
#[cycle(levels)]
pub fn level<'a>(
    alloc: Global,
    root: &Root<'a>,
    written: &'a Tree,
    left: u32,
    is_root: bool,
    counter: &mut Counter,
) -> Result<Vec<Member<'a>>, PathFault>
    requires { weight written.now ≤ weight root.now }
    ensures level { IfOk result (λ members. level_at root.now left is_root written.now counter.old.counted ≡ Ok (entries_of root.now members.items, counter.new.counted)) }
    ensures fault { IfErr result (λ fault. (fault ≡ PathFault.Memory) ⊎ (level_at root.now left is_root written.now counter.old.counted ≡ Err fault)) }
    ensures rises { OnOk result (counter.old.counted ≤ counter.new.counted) }
    ensures within { IfOk result (λ members. All (IsWithin root.now left written.now is_root) members.items) }
{
    let mut members = Vec::new(alloc);
    let mut keys = None;
    for attribute in written.attributes() {
        add(
            root,
            written,
            attribute,
            left,
            is_root,
            &mut keys,
            &mut members,
            counter,
        )?;
    }
    Ok(members)
}

// Adds what one attribute of a list gives.
#[cycle(levels)]
fn add<'a>(
    root: &Root<'a>,
    written: &'a Tree,
    attribute: &'a Attribute,
    left: u32,
    is_root: bool,
    keys: &mut Option<BTreeSet<&'a [u8]>>,
    members: &mut Vec<Member<'a>>,
    counter: &mut Counter,
) -> Result<(), PathFault>
    requires small { weight written.now ≤ weight root.now }
    requires lighter { value_weight attribute.now.value < weight written.now }
    requires keys { IfSome keys.old (IsKeysOf written.now) }
    ensures added { OnOk result (adds (entries_of root.now members.old.items) (given root.now left is_root written.now attribute.now counter.old.counted) ≡ Ok (entries_of root.now members.new.items, counter.new.counted)) }
    ensures fault { IfErr result (λ fault. (fault ≡ PathFault.Memory) ⊎ (given root.now left is_root written.now attribute.now counter.old.counted ≡ Err fault)) }
    ensures rises { OnOk result (counter.old.counted ≤ counter.new.counted) }
    ensures within { OnOk result (All (IsWithin root.now left written.now is_root) members.old.items → All (IsWithin root.now left written.now is_root) members.new.items) }
    ensures keys { OnOk result (IfSome keys.new (IsKeysOf written.now)) }
{
    let key = attribute.key.as_bytes();
    if is_substitution(key) {
        return follow(root, written, attribute, left, keys, members, counter);
    }
    members.push(Member {
        attribute,
        left,
        kept: is_kept(is_root, key),
    })?;
    Ok(())
}

// Whether an attribute that is written in a list is kept as it is.
fn is_kept(is_root: bool, key: &[u8]) -> bool
    ensures { result ≡ (is_root && is_schemas key.now) }
{
    is_root && is_schemas(key)
}

// Adds what a substitution gives.
#[cycle(levels)]
#[tactic(auto, unfolding(crate::specs::Resolving::below))]
fn follow<'a>(
    root: &Root<'a>,
    written: &'a Tree,
    attribute: &'a Attribute,
    left: u32,
    keys: &mut Option<BTreeSet<&'a [u8]>>,
    members: &mut Vec<Member<'a>>,
    counter: &mut Counter,
) -> Result<(), PathFault>
    requires small { weight written.now ≤ weight root.now }
    requires lighter { 0 < weight written.now }
    requires keys { IfSome keys.old (IsKeysOf written.now) }
    ensures added { OnOk result (adds (entries_of root.now members.old.items) (followed root.now left written.now attribute.now counter.old.counted) ≡ Ok (entries_of root.now members.new.items, counter.new.counted)) }
    ensures fault { IfErr result (λ fault. (fault ≡ PathFault.Memory) ⊎ (followed root.now left written.now attribute.now counter.old.counted ≡ Err fault)) }
    ensures rises { OnOk result (counter.old.counted ≤ counter.new.counted) }
    ensures within { OnOk result ((is_root : Bool) → All (IsWithin root.now left written.now is_root) members.old.items → All (IsWithin root.now left written.now is_root) members.new.items) }
    ensures keys { OnOk result (IfSome keys.new (IsKeysOf written.now)) }
{
    let alloc = *members.allocator();
    let place = attribute.place;
    let Value::Plain(text) = &attribute.value else {
        return Err(PathFault::BadPath(place));
    };
    let Some(path) = components(alloc, text.as_bytes())? else {
        return Err(PathFault::BadPath(place));
    };
    if left == 0 {
        return Err(PathFault::TooDeep(place));
    }
    counter.count(1)?;
    let found = named(alloc, root, path.as_slice(), place, left - 1, counter)?;
    if is_find(attribute.key.as_bytes()) {
        push_found(found.as_slice(), left - 1, members)?;
        return Ok(());
    }
    let list = first_list(found.as_slice(), place)?;
    let included = level(alloc, root, list, left - 1, false, counter)?;
    let own = made_once(alloc, written, keys.take())?;
    push_missing(included.as_slice(), written, &own, members)?;
    *keys = Some(own);
    Ok(())
}

// The attributes that a path names.
#[cycle(levels)]
fn named<'a>(
    alloc: Global,
    root: &Root<'a>,
    path: &[&[u8]],
    place: Place,
    left: u32,
    counter: &mut Counter,
) -> Result<Vec<Member<'a>>, PathFault>
    ensures named { IfOk result (λ members. named place (level root.now left) (map (λ component. component.now) path.now) (plain_entries (level root.now left) root.now) counter.old.counted ≡ Ok (entries_of root.now members.items, counter.new.counted)) }
    ensures fault { IfErr result (λ fault. (fault ≡ PathFault.Memory) ⊎ (named place (level root.now left) (map (λ component. component.now) path.now) (plain_entries (level root.now left) root.now) counter.old.counted ≡ Err fault)) }
    ensures rises { OnOk result (counter.old.counted ≤ counter.new.counted) }
    ensures small { IfOk result (λ members. All (IsSmall (weight root.now)) members.items) }
{
    let Some((first, others)) = path.split_first() else {
        return Err(PathFault::BadPath(place));
    };
    let mut found = known(in_root(alloc, root, first, left)?, place)?;
    for component in others {
        let list = first_list(found.as_slice(), place)?;
        let inside = level(alloc, root, list, left, false, counter)?;
        found = known(with_key(alloc, inside.as_slice(), component)?, place)?;
    }
    Ok(found)
}

// The members of a key, where there are some.
fn known<'a>(found: Vec<Member<'a>>, place: Place) -> Result<Vec<Member<'a>>, PathFault>
    ensures some { IfOk result (λ same. (same.items ≡ found.entry.items) × (0 < length same.items)) }
    ensures none { IfErr result (λ fault. (found.entry.items ≡ []) × (fault ≡ PathFault.UnknownPath place)) }
{
    if found.is_empty() {
        return Err(PathFault::UnknownPath(place));
    }
    Ok(found)
}
