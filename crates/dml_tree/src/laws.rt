//! Laws of trees and of the grammar: what holds of every tree, every list of tokens and every file, whatever code
//! reads them.
ghost use Rattle.std.specs.Prelude.{◌≡◌, ◌<◌, ℕ, List, ◌∷◌, ◌++◌, length, get_or, Result, Some};
ghost use Rattle.dml_lexer.specs.declared.lexer.Token.{Token};
ghost use Rattle.dml_tree.specs.Attributes.{Attributes, weight};
ghost use Rattle.dml_tree.specs.declared.tree.Attribute.{Attribute};
ghost use Rattle.dml_tree.specs.declared.tree.Value.TheVariants as value;
ghost use Rattle.dml_tree.specs.TreeView.{tree_of, attributes, joined};
ghost use Rattle.dml_tree.specs.declared.reading.TreeFault.{TreeFault};
ghost use Rattle.dml_tree.specs.Grammar.{Spells, Faulted, Begins, Wanted, refusal};
ghost use Rattle.dml_tree.specs.Reading.{Reads, ReadsBack};
ghost use Rattle.dml_tree.specs.Printing.{printing};

/// A list of tokens spells at most one tree.
pub fn one_tree()
    ensures { (file : ℕ) (bytes : List ℕ) (tokens : List Token) (tree other : Attributes) → Spells file bytes 0 tokens tree → Spells file bytes 0 tokens other → tree ≡ other }
{}

/// Tokens that spell a tree have no fault.
pub fn no_fault()
    ensures { (file : ℕ) (bytes : List ℕ) (tokens : List Token) (tree : Attributes) (fault : TreeFault) → Spells file bytes 0 tokens tree → ¬ (Faulted file bytes tokens fault) }
{}

/// Tokens that begin a list go on to a list in the grammar.
pub fn beginnings_go_on()
    ensures { (file : ℕ) (bytes : List ℕ) (tokens : List Token) (opened : List ℕ) (wanted : Wanted) → Begins file bytes 0 tokens opened wanted → (more : List Token) × (tree : Attributes) × Spells file bytes 0 (tokens ++ more) tree }
{}

/// No list in the grammar goes on with a token that is refused.
pub fn no_way_past_a_fault()
    ensures { (file : ℕ) (bytes : List ℕ) (before : List Token) (token : Token) (after : List Token) (opened : List ℕ) (wanted : Wanted) (fault : TreeFault) (tree : Attributes) → Begins file bytes 0 before opened wanted → refusal wanted opened token ≡ Some fault → ¬ (Spells file bytes 0 (before ++ token ∷ after) tree) }
{}

/// A list of tokens has at most one fault.
pub fn one_fault()
    ensures { (file : ℕ) (bytes : List ℕ) (tokens : List Token) (fault other : TreeFault) → Faulted file bytes tokens fault → Faulted file bytes tokens other → fault ≡ other }
{}

/// The bytes of a file have a meaning: a tree or a fault.
pub fn each_file()
    ensures { (file : ℕ) (bytes : List ℕ) → (meaning : Result Attributes TreeFault) × Reads file bytes meaning }
{}

/// The bytes of a file have at most one meaning: one tree, or one fault.
pub fn one_meaning()
    ensures { (file : ℕ) (bytes : List ℕ) (meaning other : Result Attributes TreeFault) → Reads file bytes meaning → Reads file bytes other → meaning ≡ other }
{}

/// What is printed reads back: where some bytes spell an equal tree and the canonical printing has at most
/// 16,777,216 bytes, the printing spells an equal tree.
pub fn reads_back()
    ensures { (tree : Attributes) → ReadsBack (printing 0 tree) tree }
{}

/// A tree and its list of attributes are made of one another, and the tree of two lists, one after the other, is their
/// two trees joined.
pub fn trees_are_lists()
    ensures attributes_of_tree { (list : List Attribute) → attributes (tree_of list) ≡ list }
    ensures tree_of_attributes { (tree : Attributes) → tree_of (attributes tree) ≡ tree }
    ensures joined { (first second : List Attribute) → tree_of (first ++ second) ≡ joined (tree_of first) (tree_of second) }
{}

/// A list that is the value of an attribute weighs less than the tree that holds the attribute: inner attributes count
/// too.
pub fn inner_lists_are_lighter()
    ensures { (tree : Attributes) (items : List Attribute) → items ≡ attributes tree → (at : ℕ) (default : Attribute) (inner : Attributes) → at < length items → (get_or items at default).value ≡ value.List inner → weight inner < weight tree }
{}
