//! The attributes of a level: where they are written, and what their lists are resolved to.
ghost use Rattle.std.specs.Prelude.{◌≡◌, ℕ, ◌≤◌, ◌++◌, Ok, Err, IfOk, IfErr, OnOk, All, map, filter};
ghost use Rattle.dml_tree.specs.Attributes.{Attributes, weight};
ghost use Rattle.dml_resolve.specs.Resolving.{first_list};
ghost use Rattle.dml_resolve.specs.Members.{entries_of, is_keyed, is_missing, moved_to, IsKeysOf, IsSmall};

use crate::PathFault;
use dml_tree::{Attribute, Place, Tree, Value};
use std::alloc::{AllocError, Global};
use std::collections::BTreeSet;

/// An attribute of a level.
#[derive(Clone, Copy)]
pub struct Member<'a> {
    /// The attribute as it is written.
    pub attribute: &'a Attribute,
    /// How many substitutions may be followed in one another in its list.
    pub left: u32,
    /// Whether its list is kept as written.
    pub kept: bool,
}

/// The members that have this key.
pub fn with_key<'a>(
    alloc: Global,
    members: &[Member<'a>],
    key: &[u8],
) -> Result<Vec<Member<'a>>, AllocError>
    ensures { IfOk result (λ found. found.items ≡ filter (is_keyed key.now) members.now) }
{
    let mut found = Vec::new(alloc);
    for member in members {
        if member.attribute.key.as_bytes() == key {
            found.push(*member)?;
        }
    }
    Ok(found)
}

/// The first list among the members of a key that a path names.
pub fn first_list<'a>(members: &[Member<'a>], place: Place) -> Result<&'a Tree, PathFault>
    ensures list { IfOk result (λ list. (root : Attributes) (counted : ℕ) → first_list place (entries_of root members.now) counted ≡ Ok (list.now, counted)) }
    ensures small { IfOk result (λ list. (most : ℕ) → All (IsSmall most) members.now → weight list.now ≤ most) }
    ensures none { IfErr result (λ fault. (root : Attributes) (counted : ℕ) → first_list place (entries_of root members.now) counted ≡ Err fault) }
{
    for member in members {
        match &member.attribute.value {
            Value::Plain(_) => {}
            Value::List(inner) => return Ok(inner),
        }
    }
    Err(PathFault::NotAList(place))
}

/// Adds the members that `_find` gives.
pub fn push_found<'a>(
    found: &[Member<'a>],
    left: u32,
    members: &mut Vec<Member<'a>>,
) -> Result<(), AllocError>
    ensures { OnOk result (members.new.items ≡ members.old.items ++ map (moved_to left) found.now) }
{
    for member in found {
        members.push(Member {
            attribute: member.attribute,
            left,
            kept: false,
        })?;
    }
    Ok(())
}

/// Adds the members that `_extends` gives in a list: those whose key no plain attribute of the list has.
pub fn push_missing<'a>(
    included: &[Member<'a>],
    written: &Tree,
    keys: &BTreeSet<&[u8]>,
    members: &mut Vec<Member<'a>>,
) -> Result<(), AllocError>
    requires { IsKeysOf written.now keys.now }
    ensures { OnOk result (members.new.items ≡ members.old.items ++ filter (is_missing written.now) included.now) }
{
    for member in included {
        if !keys.contains(member.attribute.key.as_bytes()) {
            members.push(*member)?;
        }
    }
    Ok(())
}
