//! Equality of trees: the same keys and values in the same order. Places are not looked at.
ghost use Rattle.std.specs.Prelude.{◌≡◌, drop};
ghost use Rattle.dml_tree.specs.TreeView.{tree_of};
ghost use Rattle.dml_tree.specs.SameValue.{same_value};
ghost use Rattle.dml_tree.specs.SameTree.{same_tree};

use crate::{Tree, Value};

impl PartialEq for Tree {
    ghost use Rattle.dml_tree.specs.SameTree.{same_tree};
    ghost use Rattle.dml_tree.specs.SameTreeLaws.{same_tree_partial};

    ghost eq = { same_tree };

    ghost laws = { same_tree_partial };

    fn eq(&self, other: &Tree) -> bool {
        are_same(self, other)
    }
}

impl Eq for Tree {
    ghost use Rattle.dml_tree.specs.SameTreeLaws.{same_tree_equivalence};

    ghost laws = { same_tree_equivalence };
}

#[cycle(same)]
fn are_same(first: &Tree, second: &Tree) -> bool
    ensures { result ≡ same_tree first.now second.now }
{
    let firsts = first.attributes();
    let seconds = second.attributes();
    if firsts.len() != seconds.len() {
        return false;
    }
    let mut at = 0;
    while at < firsts.len() {
        let one = &firsts[at];
        let another = &seconds[at];
        if one.key.as_bytes() != another.key.as_bytes() {
            return false;
        }
        if !are_same_values(&one.value, &another.value) {
            return false;
        }
        at += 1;
    }
    true
}

#[cycle(same)]
fn are_same_values(first: &Value, second: &Value) -> bool
    ensures { result ≡ same_value first.now second.now }
{
    match (first, second) {
        (Value::Plain(text), Value::Plain(other)) => text.as_bytes() == other.as_bytes(),
        (Value::List(inner), Value::List(other)) => are_same(inner, other),
        (Value::Plain(_), Value::List(_)) => false,
        (Value::List(_), Value::Plain(_)) => false,
    }
}
