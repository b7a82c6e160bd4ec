//! Resolved lists: a level in which each list is resolved in turn.
ghost use Rattle.std.specs.Prelude.{◌≡◌, ◌<◌, ◌≤◌, ◌+◌, ◌⊎◌, Ok, Err, IfOk, IfErr, if◌then◌else◌};
ghost use Rattle.dml_tree.specs.Attributes.{weight};
ghost use Rattle.dml_resolve.specs.Resolving.{expand};
ghost use Rattle.dml_resolve.specs.Members.{level_at, value_of, value_weight, inner_weight, weight_at};

use crate::PathFault;
use crate::counter::Counter;
use crate::levels::level;
use crate::members::Member;
use crate::roots::Root;
use dml_tree::{Attribute, Tree, Value};
use sim_base::{Memory, Text};
use std::alloc::Global;

/// A list with every substitution in it replaced, where `left` may be followed in one another.
#[cycle(expanding)]
pub fn expand<'a>(
    alloc: Global,
    root: &Root<'a>,
    written: &'a Tree,
    left: u32,
    is_root: bool,
    counter: &mut Counter,
) -> Result<Tree, PathFault>
    requires { weight written.now ≤ weight root.now }
    ensures tree { IfOk result (λ tree. expand (level_at root.now left is_root written.now) counter.old.counted ≡ Ok (tree, counter.new.counted)) }
    ensures fault { IfErr result (λ fault. (fault ≡ PathFault.Memory) ⊎ (expand (level_at root.now left is_root written.now) counter.old.counted ≡ Err fault)) }
    ensures counted { IfOk result (λ tree. counter.old.counted + weight_at is_root tree ≤ counter.new.counted) }
{
    let members = level(alloc, root, written, left, is_root, counter)?;
    counter.count(members.len())?;
    let mut attributes = Vec::new(alloc);
    for member in &members {
        let value = value_of(alloc, root, member, counter)?;
        attributes.push(Attribute {
            key: Text::of(alloc, member.attribute.key.as_bytes())?,
            place: member.attribute.place,
            value,
        })?;
    }
    Ok(Tree::of(attributes))
}

// The value of an attribute of a level, in which every substitution is replaced.
#[cycle(expanding)]
fn value_of<'a>(
    alloc: Global,
    root: &Root<'a>,
    member: &Member<'a>,
    counter: &mut Counter,
) -> Result<Value, PathFault>
    requires { inner_weight member.now ≤ weight root.now }
    ensures value { IfOk result (λ value. value_of root.now member.now counter.old.counted ≡ Ok (value, counter.new.counted)) }
    ensures fault { IfErr result (λ fault. (fault ≡ PathFault.Memory) ⊎ (value_of root.now member.now counter.old.counted ≡ Err fault)) }
    ensures counted { IfOk result (λ value. counter.old.counted + (if member.now.kept then 0 else value_weight value) ≤ counter.new.counted) }
{
    match &member.attribute.value {
        Value::Plain(text) => Ok(Value::Plain(Text::of(alloc, text.as_bytes())?)),
        Value::List(inner) => {
            if member.kept {
                return Ok(Value::List(copied(alloc, inner)?));
            }
            let expanded = expand(alloc, root, inner, member.left, false, counter)?;
            Ok(Value::List(expanded))
        }
    }
}

// The same list once more.
fn copied(alloc: Global, tree: &Tree) -> Result<Tree, Memory>
    ensures { IfOk result (λ same. same ≡ tree.now) }
{
    let mut attributes = Vec::new(alloc);
    for attribute in tree.attributes() {
        let value = match &attribute.value {
            Value::Plain(text) => Value::Plain(Text::of(alloc, text.as_bytes())?),
            Value::List(inner) => Value::List(copied(alloc, inner)?),
        };
        attributes.push(Attribute {
            key: Text::of(alloc, attribute.key.as_bytes())?,
            place: attribute.place,
            value,
        })?;
    }
    Ok(Tree::of(attributes))
}
