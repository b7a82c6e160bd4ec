//! Where attributes of a key stand in a list.
ghost use Rattle.std.specs.Prelude.{◌≡◌, ◌+◌, drop};
ghost use Rattle.std.specs.List.{position_from};
ghost use Rattle.dml_tree.specs.TreeView.{attributes};
ghost use Rattle.dml_resolve.specs.Places.{has_key};

use dml_tree::Tree;

/// The index, from 0, of the first attribute with this key among the attributes of the list itself.
pub fn first(tree: &Tree, key: &[u8]) -> Option<usize>
    ensures { result ≡ position_from (has_key key.now) 0 (attributes tree.now) }
{
    place_from(tree, key, 0)
}

/// The index of the first attribute with this key behind the index `after`, among the attributes of the
/// list itself.
pub fn next(tree: &Tree, key: &[u8], after: usize) -> Option<usize>
    ensures { result ≡ position_from (has_key key.now) (after + 1) (drop (after + 1) (attributes tree.now)) }
{
    if after >= tree.attributes().len() {
        return None;
    }
    place_from(tree, key, after + 1)
}

fn place_from(tree: &Tree, key: &[u8], from: usize) -> Option<usize>
    ensures { result ≡ position_from (has_key key.now) from (drop from (attributes tree.now)) }
{
    let attributes = tree.attributes();
    let mut at = from;
    while at < attributes.len() {
        if attributes[at].key.as_bytes() == key {
            return Some(at);
        }
        at += 1;
    }
    None
}
