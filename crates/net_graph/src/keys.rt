//! Looking keys up in a list of attributes.
ghost use Rattle.std.specs.Prelude.{◌≡◌, ◌⊎◌, Ok, Err, IfOk, IfErr, nat_eq};
ghost use Rattle.std.specs.Option.{option_copied};
ghost use Rattle.std.specs.Cmp.Lexicographic.{pointwise};
ghost use Rattle.dml_tree.specs.TreeView.{attributes};
ghost use Rattle.net_graph.specs.Keys.{values_of, lists_of, first_of, has_net, number_of_value};

use crate::ShapeFault;
use crate::fault::bad_number;
use crate::readers::read_integer;
use dml_tree::{Attribute, Tree, Value};
use std::alloc::Global;

/// Whether an attribute has this key.
pub fn has_key(attribute: &Attribute, key: &[u8]) -> bool
    ensures { result ≡ pointwise nat_eq attribute.now.key key.now }
{
    attribute.key.as_bytes() == key
}

/// The value of the first attribute with this key.
pub fn first_value<'a>(tree: &'a Tree, key: &[u8]) -> Option<&'a Value>
    ensures { option_copied result ≡ first_of (values_of key.now (attributes tree.now)) }
{
    for attribute in tree.attributes() {
        if has_key(attribute, key) {
            return Some(&attribute.value);
        }
    }
    None
}

/// The first list that is the value of this key; texts are passed by.
pub fn first_list<'a>(tree: &'a Tree, key: &[u8]) -> Option<&'a Tree>
    ensures { option_copied result ≡ first_of (lists_of key.now (attributes tree.now)) }
{
    for attribute in tree.attributes() {
        if has_key(attribute, key) {
            if let Value::List(inner) = &attribute.value {
                return Some(inner);
            }
        }
    }
    None
}

/// Whether the model of a tree is a Net: an attribute `Net` of the root has a list value.
pub fn is_net(tree: &Tree) -> bool
    ensures { result ≡ has_net (attributes tree.now) }
{
    first_list(tree, b"Net").is_some()
}

/// The whole number of a value, which has to be a text: from `least` on and below `end`.
///
/// # Errors
/// `BadNumber` with the key, or `Memory`.
pub fn number_in(
    alloc: Global,
    key: &[u8],
    value: &Value,
    least: u64,
    end: u64,
) -> Result<u64, ShapeFault>
    ensures read { IfOk result (λ n. number_of_value key.now least end value.now ≡ Ok n) }
    ensures cause { IfErr result (λ fault. (fault ≡ ShapeFault.Memory) ⊎ (number_of_value key.now least end value.now ≡ Err fault)) }
{
    let number = match value {
        Value::Plain(text) => read_integer(text.as_bytes(), least, u64::MAX),
        Value::List(_) => None,
    };
    match number {
        Some(number) if number < end => Ok(number),
        _ => Err(bad_number(alloc, key)),
    }
}
