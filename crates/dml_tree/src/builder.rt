//! A tree while it is built: the lists that are open, and the attributes so far of the innermost one.
ghost use Rattle.std.specs.Prelude.{◌≡◌, ◌+◌, ◌-◌, ◌<◌, ◌≤◌, ◌++◌, ◌∷◌, [], length, slice_range, IfOk, IfErr, OnOk, Some, None, ◌⊎◌};
ghost use Rattle.dml_lexer.specs.Tokens.{LiesIn};
ghost use Rattle.dml_tree.specs.TreeView.{tree_of};
ghost use Rattle.dml_tree.specs.Grammar.{key_wanted, value_wanted, end_refusal};
ghost use Rattle.dml_tree.specs.Building.{Holds, GoesOn, IsRefusal, IsOneMore, IsOpened, IsClosed, wanted, brackets};

use crate::{Attribute, Place, Tree, TreeFault, Value};
use dml_lexer::{Token, TokenKind};
use sim_base::{Memory, Text};
use std::alloc::Global;
use std::mem;

/// The most lists that may be open at once.
pub const MOST_OPEN: usize = 128;

/// A key whose value is still to come.
#[derive(Drop)]
struct Key {
    text: Text,
    place: Place,
}

/// A list that is open: the attributes before it, its key, and the place of its `[`.
#[derive(Drop)]
struct Open {
    before: Vec<Attribute>,
    key: Key,
    bracket: u32,
}

/// A tree while it is built, token by token.
#[derive(Drop)]
pub struct Builder {
    file: u32,
    opened: Vec<Open>,
    attributes: Vec<Attribute>,
    key: Option<Key>,
}

impl Builder {
    /// Nothing so far.
    pub fn new(alloc: Global, file: u32) -> Builder
        ensures file { result.file ≡ file }
        ensures opened { result.opened.items ≡ [] }
        ensures attributes { result.attributes.items ≡ [] }
        ensures key { result.key ≡ None }
    {
        Builder {
            file,
            opened: Vec::new(alloc),
            attributes: Vec::new(alloc),
            key: None,
        }
    }

    /// Goes over one more token.
    pub fn take(&mut self, alloc: Global, bytes: &[u8], token: &Token) -> Result<(), TreeFault>
        requires { LiesIn (length bytes.now) token.now }
        ensures goes_on { OnOk result (GoesOn bytes.now token.now self.old self.old.key self.new) }
        ensures fault { IfErr result (IsRefusal self.old.opened.items (wanted self.old.key) token.now) }
    {
        match self.key.take() {
            None => self.key_at(alloc, bytes, token),
            Some(key) => self.value_at(alloc, bytes, token, key),
        }
    }

    fn key_at(&mut self, alloc: Global, bytes: &[u8], token: &Token) -> Result<(), TreeFault>
        requires lies { LiesIn (length bytes.now) token.now }
        requires no_key { self.old.key ≡ None }
        ensures goes_on { OnOk result (GoesOn bytes.now token.now self.old None self.new) }
        ensures fault { IfErr result (IsRefusal self.old.opened.items key_wanted token.now) }
    {
        match token.kind {
            TokenKind::Word => {
                let text = word(alloc, bytes, token)?;
                let place = Place {
                    file: self.file,
                    at: token.from,
                };
                self.key = Some(Key { text, place });
                Ok(())
            }
            TokenKind::RightBracket => self.close_list(token.from),
            TokenKind::Quoted | TokenKind::LeftBracket => Err(TreeFault::KeyWanted(token.from)),
        }
    }

    fn value_at(
        &mut self,
        alloc: Global,
        bytes: &[u8],
        token: &Token,
        key: Key,
    ) -> Result<(), TreeFault>
        requires lies { LiesIn (length bytes.now) token.now }
        requires no_key { self.old.key ≡ None }
        ensures goes_on { OnOk result (GoesOn bytes.now token.now self.old (Some key) self.new) }
        ensures fault { IfErr result (IsRefusal self.old.opened.items value_wanted token.now) }
    {
        match token.kind {
            TokenKind::Word => {
                let text = word(alloc, bytes, token)?;
                self.add(key, Value::Plain(text))
            }
            TokenKind::Quoted => {
                let text = quoted(alloc, bytes, token)?;
                self.add(key, Value::Plain(text))
            }
            TokenKind::LeftBracket => self.open_list(alloc, key, token.from),
            TokenKind::RightBracket => Err(TreeFault::ValueWanted(token.from)),
        }
    }

    // Adds an attribute to the innermost list.
    fn add(&mut self, key: Key, value: Value) -> Result<(), TreeFault>
        ensures added { OnOk result (IsOneMore self.old key value self.new) }
        ensures fault { IfErr result (λ fault. fault ≡ TreeFault.Memory) }
    {
        let Key { text, place } = key;
        self.attributes.push(Attribute {
            key: text,
            place,
            value,
        })?;
        Ok(())
    }

    // Opens a list.
    fn open_list(&mut self, alloc: Global, key: Key, bracket: u32) -> Result<(), TreeFault>
        ensures opened { OnOk result (IsOpened self.old key bracket self.new) }
        ensures fault { IfErr result (λ fault. (fault ≡ TreeFault.Memory) ⊎ ((MOST_OPEN ≤ length self.old.opened.items) × (fault ≡ TreeFault.NestedTooDeep bracket))) }
    {
        if self.opened.len() >= MOST_OPEN {
            return Err(TreeFault::NestedTooDeep(bracket));
        }
        let before = mem::replace(&mut self.attributes, Vec::new(alloc));
        self.opened.push(Open {
            before,
            key,
            bracket,
        })?;
        Ok(())
    }

    // Closes the innermost list.
    fn close_list(&mut self, at: u32) -> Result<(), TreeFault>
        ensures closed { OnOk result (IsClosed self.old self.new) }
        ensures fault { IfErr result (λ fault. (fault ≡ TreeFault.Memory) ⊎ ((self.old.opened.items ≡ []) × (fault ≡ TreeFault.StrayClose at))) }
    {
        let Some(open) = self.opened.pop() else {
            return Err(TreeFault::StrayClose(at));
        };
        let Open {
            before,
            key,
            bracket: _,
        } = open;
        let inner = mem::replace(&mut self.attributes, before);
        self.add(key, Value::List(Tree::of(inner)))?;
        Ok(())
    }

    /// The tree, at the end of a text of this length.
    pub fn finish(self, end: u32) -> Result<Tree, TreeFault>
        ensures tree { IfOk result (λ tree. (self.opened.items ≡ []) × (self.key ≡ None) × (tree ≡ tree_of self.attributes.items)) }
        ensures fault { IfErr result (λ fault. end_refusal (wanted self.key) (brackets self.opened.items) end ≡ Some fault) }
    {
        let Builder {
            file: _,
            mut opened,
            attributes,
            key,
        } = self;
        if let Some(_key) = key {
            return Err(TreeFault::ValueWanted(end));
        }
        if let Some(list) = opened.pop() {
            return Err(TreeFault::OpenList(list.bracket));
        }
        Ok(Tree::of(attributes))
    }
}

// The text of a word.
fn word(alloc: Global, bytes: &[u8], token: &Token) -> Result<Text, Memory>
    requires from { token.now.from ≤ token.now.to }
    requires to { token.now.to ≤ length bytes.now }
    ensures { IfOk result (λ text. text ≡ slice_range bytes.now token.now.from token.now.to) }
{
    Text::of(alloc, &bytes[token.from as usize..token.to as usize])
}

// The text between the quotes of a quoted text.
fn quoted(alloc: Global, bytes: &[u8], token: &Token) -> Result<Text, Memory>
    requires from { token.now.from + 2 ≤ token.now.to }
    requires to { token.now.to ≤ length bytes.now }
    ensures { IfOk result (λ text. text ≡ slice_range bytes.now (token.now.from + 1) (token.now.to - 1)) }
{
    Text::of(
        alloc,
        &bytes[token.from as usize + 1..token.to as usize - 1],
    )
}
