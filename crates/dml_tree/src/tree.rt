//! Trees of attributes (DML): what they are, how they are made, read and joined.
ghost use Rattle.std.specs.Prelude.{◌≡◌, OnErr, OnOk, IfErr};
ghost use Rattle.dml_tree.specs.TreeView.{tree_of, attributes, joined};

use sim_base::{Memory, Text};
use std::marker::Model;

/// Where something stands: in which file, and where in it.
#[derive(Clone, Copy, Debug, PartialEq, Eq)]
pub struct Place {
    /// The number of the file, from 0.
    pub file: u32,
    /// How many bytes of the file stand before it.
    pub at: u32,
}

/// A list of attributes in order. Contracts see it as `Attributes` of `specs/`.
#[cycle(tree)]
#[derive(Drop)]
pub struct Tree {
    attributes: Vec<Attribute>,
}

/// A key, the place at which it begins, and its value.
#[cycle(tree)]
#[derive(Drop)]
pub struct Attribute {
    pub key: Text,
    pub place: Place,
    pub value: Value,
}

/// What a key has: a text, or a list of attributes.
#[cycle(tree)]
#[derive(Drop)]
pub enum Value {
    Plain(Text),
    List(Tree),
}

impl Model for Tree {
    ghost use Rattle.dml_tree.specs.Attributes.{Attributes, weight};
    ghost use Rattle.dml_tree.specs.AttributesCode.{coded_attributes};

    ghost Value = { Attributes };

    ghost coded = { coded_attributes };

    ghost use Rattle.dml_tree.specs.TreeView.{tree_of};

    ghost view = { λ a. tree_of a.attributes.items };

    ghost size = { weight };

    ghost use Rattle.dml_tree.specs.TreeFalls.{most_le-weight};

    ghost size_decreases = { λ a h. most_le-weight a.attributes.items };
}

impl Tree {
    /// The tree of these attributes; takes no memory.
    pub fn of(attributes: Vec<Attribute>) -> Tree
        ensures { result ≡ tree_of attributes.items }
    {
        Tree { attributes }
    }

    /// The attributes in order.
    pub fn attributes(&self) -> &[Attribute]
        ensures { result.now ≡ attributes self.now }
    {
        self.attributes.as_slice()
    }
}

/// Appends the attributes of the second tree to the first.
///
/// # Errors
/// Without memory the first tree stays and the second comes back.
pub fn join(first: &mut Tree, second: Tree) -> Result<(), (Tree, Memory)>
    ensures joined { OnOk result (first.new ≡ joined first.old second) }
    ensures kept { OnErr result (first.new ≡ first.old) }
    ensures returned { IfErr result (λ back. back.0 ≡ second) }
{
    let Tree { mut attributes } = second;
    if let Err(_refused) = first.attributes.append(&mut attributes) {
        return Err((Tree { attributes }, Memory));
    }
    Ok(())
}
