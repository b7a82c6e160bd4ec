//! From tokens to a tree, by a stack of open lists.
ghost use Rattle.std.specs.Prelude.{◌≡◌, ◌≤◌, length, All};
ghost use Rattle.dml_lexer.specs.Tokens.{LiesIn};
ghost use Rattle.dml_tree.specs.Reading.{Reads, Answers, of_lexing};
ghost use Rattle.dml_tree.specs.Building.{Builds};
ghost use Rattle.dml_tree.specs.declared.reading.TreeFault.TheVariants.{Memory};

use crate::Tree;
use crate::builder::Builder;
use dml_lexer::{LexFault, MOST_BYTES, Token, lex};
use sim_base::Memory;
use std::alloc::{AllocFailed, Global};
use thiserror::Error;

/// Why a text has no tree. A number is the place at which the fault stands: how many bytes stand before it.
#[derive(Debug, PartialEq, Eq, Drop, Error)]
pub enum TreeFault {
    /// No token begins with this byte.
    #[error("no token begins with the byte at {0}")]
    BadByte(u32),
    /// This quote has no closing one.
    #[error("the quote at {0} is not closed")]
    OpenQuote(u32),
    /// A quoted text or a `[` stands where a key is wanted.
    #[error("a key is wanted at {0}")]
    KeyWanted(u32),
    /// A `]` or the end stands where a value is wanted.
    #[error("a value is wanted at {0}")]
    ValueWanted(u32),
    /// The text ends while the list that this `[` opened is open.
    #[error("the list at {0} is not closed")]
    OpenList(u32),
    /// A `]` stands where no list is open.
    #[error("no list is open at {0}")]
    StrayClose(u32),
    /// This `[` would open a list while 128 are open.
    #[error("128 lists are open at {0}")]
    NestedTooDeep(u32),
    /// The text has more than 16,777,216 bytes.
    #[error("the text is too long")]
    TooLong,
    /// There was no memory for the tokens or the tree.
    #[error("out of memory")]
    Memory,
}

impl From<Memory> for TreeFault {
    ghost from_gives = { λ _ e. e ≡ Memory };

    fn from(_memory: Memory) -> TreeFault {
        TreeFault::Memory
    }
}

impl<T: Drop> From<AllocFailed<T>> for TreeFault {
    ghost from_gives = { λ _ e. e ≡ Memory };

    fn from(_refused: AllocFailed<T>) -> TreeFault {
        TreeFault::Memory
    }
}

/// The tree that a text spells. `file` is the number of the file that its places name.
///
/// # Errors
/// `TooLong` before all others, then `BadByte` and `OpenQuote` by the tokens, then the first of the
/// others from the left; `Memory`.
pub fn read(alloc: Global, file: u32, bytes: &[u8]) -> Result<Tree, TreeFault>
    ensures { Answers (Reads file bytes.now) result }
{
    if bytes.len() > MOST_BYTES {
        return Err(TreeFault::TooLong);
    }
    let tokens = match lex(alloc, bytes) {
        Ok(tokens) => tokens,
        Err(fault) => return Err(of_lexing(fault)),
    };
    build(alloc, file, bytes, tokens.as_slice())
}

// The same fault among those of trees.
fn of_lexing(fault: LexFault) -> TreeFault
    ensures { result ≡ of_lexing fault }
{
    match fault {
        LexFault::BadByte(at) => TreeFault::BadByte(at),
        LexFault::OpenQuote(at) => TreeFault::OpenQuote(at),
        LexFault::Memory => TreeFault::Memory,
    }
}

// The tree that the tokens of a text spell.
fn build(alloc: Global, file: u32, bytes: &[u8], tokens: &[Token]) -> Result<Tree, TreeFault>
    requires short { length bytes.now ≤ MOST_BYTES }
    requires lie { All (LiesIn (length bytes.now)) tokens.now }
    ensures { Builds file bytes.now tokens.now result }
{
    let mut builder = Builder::new(alloc, file);
    for token in tokens {
        builder.take(alloc, bytes, token)?;
    }
    builder.finish(bytes.len() as u32)
}
