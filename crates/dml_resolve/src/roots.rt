//! The root list, in which the first component of each path is looked up.
ghost use Rattle.std.specs.Prelude.{◌≡◌, ℕ, List, ◌++◌, ◌∷◌, [], IfOk, OnOk, All, filter, map};
ghost use Rattle.dml_tree.specs.Attributes.{weight};
ghost use Rattle.dml_resolve.specs.Resolving.{plain_entries, level, same_key};
ghost use Rattle.dml_resolve.specs.Members.{entries_of, IsSmall};
ghost use Rattle.dml_resolve.specs.Roots.{under, root_member, IsByKey};
ghost use Rattle.dml_resolve.specs.Places.{has_key};

use crate::members::Member;
use crate::paths::is_substitution;
use dml_tree::{Attribute, Tree};
use sim_base::Memory;
use std::alloc::{AllocError, Global};
use std::collections::BTreeMap;
use std::marker::Model;

/// The root list, and its plain attributes by their keys. Contracts see the list.
#[derive(Drop)]
pub struct Root<'a> {
    tree: &'a Tree,
    by_key: BTreeMap<&'a [u8], Vec<&'a Attribute>>,
}

impl<'a> Model for Root<'a> {
    ghost use Rattle.dml_tree.specs.Attributes.{Attributes};
    ghost use Rattle.dml_tree.specs.AttributesCode.{coded_attributes};
    ghost use Rattle.dml_resolve.specs.Roots.{IsByKey};

    ghost Value = { Attributes };

    ghost coded = { coded_attributes };

    ghost view = { λ r. r.tree.now };

    ghost invariant = { λ r. IsByKey r.tree.now r.by_key };
}

impl<'a> Root<'a> {
    /// This root list.
    pub fn of(alloc: Global, tree: &'a Tree) -> Result<Root<'a>, Memory>
        ensures { IfOk result (λ root. root ≡ tree.now) }
    {
        let by_key = by_key(alloc, tree)?;
        Ok(Root { tree, by_key })
    }
}

// The plain attributes of a list by their keys.
fn by_key<'a>(
    alloc: Global,
    tree: &'a Tree,
) -> Result<BTreeMap<&'a [u8], Vec<&'a Attribute>>, Memory>
    ensures { IfOk result (λ by_key. IsByKey tree.now by_key) }
{
    let mut by_key = BTreeMap::new(alloc);
    for attribute in tree.attributes() {
        if !is_substitution(attribute.key.as_bytes()) {
            put(alloc, &mut by_key, attribute)?;
        }
    }
    Ok(by_key)
}

// Puts one more attribute under its key.
fn put<'a>(
    alloc: Global,
    by_key: &mut BTreeMap<&'a [u8], Vec<&'a Attribute>>,
    attribute: &'a Attribute,
) -> Result<(), Memory>
    ensures { OnOk result ((wanted : List ℕ) → under by_key.new wanted ≡ under by_key.old wanted ++ filter (has_key wanted) (attribute.now ∷ [])) }
{
    let key = attribute.key.as_bytes();
    let mut found = match by_key.remove(key) {
        Some(found) => found,
        None => Vec::new(alloc),
    };
    found.push(attribute)?;
    by_key.insert(key, found)?;
    Ok(())
}

/// The plain attributes of the root list that have this key.
pub fn in_root<'a>(
    alloc: Global,
    root: &Root<'a>,
    key: &[u8],
    left: u32,
) -> Result<Vec<Member<'a>>, AllocError>
    ensures found { IfOk result (λ members. entries_of root.now members.items ≡ filter (same_key key.now) (plain_entries (level root.now left) root.now)) }
    ensures small { IfOk result (λ members. All (IsSmall (weight root.now)) members.items) }
{
    match root.by_key.get(key) {
        Some(found) => members_of(alloc, found.as_slice(), left),
        None => Ok(Vec::new(alloc)),
    }
}

// These attributes of the root list as what a path names.
fn members_of<'a>(
    alloc: Global,
    found: &[&'a Attribute],
    left: u32,
) -> Result<Vec<Member<'a>>, AllocError>
    ensures { IfOk result (λ members. members.items ≡ map (root_member left) found.now) }
{
    let mut members = Vec::new(alloc);
    for attribute in found {
        members.push(Member {
            attribute: *attribute,
            left,
            kept: false,
        })?;
    }
    Ok(members)
}
