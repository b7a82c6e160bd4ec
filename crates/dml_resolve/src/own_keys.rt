//! The keys of a list's own plain attributes, in an ordered set.
ghost use Rattle.std.specs.Prelude.{IfOk, IfSome};
ghost use Rattle.dml_resolve.specs.Members.{IsKeysOf};

use crate::paths::is_substitution;
use dml_tree::Tree;
use sim_base::Memory;
use std::alloc::Global;
use std::collections::BTreeSet;

/// The keys of the plain attributes that are written in a list.
pub fn plain_keys<'a>(alloc: Global, written: &'a Tree) -> Result<BTreeSet<&'a [u8]>, Memory>
    ensures { IfOk result (λ keys. IsKeysOf written.now keys) }
{
    let mut keys = BTreeSet::new(alloc);
    for attribute in written.attributes() {
        let key = attribute.key.as_bytes();
        if !is_substitution(key) {
            keys.insert(key)?;
        }
    }
    Ok(keys)
}

/// The set of these keys: the one that was made before, or else a new one.
pub fn made_once<'a>(
    alloc: Global,
    written: &'a Tree,
    made: Option<BTreeSet<&'a [u8]>>,
) -> Result<BTreeSet<&'a [u8]>, Memory>
    requires { IfSome made (IsKeysOf written.now) }
    ensures { IfOk result (λ keys. IsKeysOf written.now keys) }
{
    match made {
        Some(keys) => Ok(keys),
        None => plain_keys(alloc, written),
    }
}
