//! The walk over a text, front by front.
ghost use Rattle.std.specs.Prelude.{◌≡◌, ◌≤◌, ◌<◌, ◌+◌, List, length, All, IfOk, IfErr};
ghost use Rattle.dml_lexer.specs.declared.lexer.LexFault.TheVariants.{Memory};
ghost use Rattle.dml_lexer.specs.Tokens.{Spelt, Unspelt, LiesIn};

use crate::fronts::{FirstFront, front};
use std::alloc::{AllocFailed, Global};
use thiserror::Error;

/// The longest text that is read, in bytes.
pub const MOST_BYTES: usize = 16_777_216;

/// What a token is.
#[derive(Clone, Copy, Debug, PartialEq, Eq)]
pub enum TokenKind {
    /// A run of word bytes, as long as possible.
    Word,
    /// Any bytes but `"` between two quotes, which belong to the span.
    Quoted,
    /// `[`
    LeftBracket,
    /// `]`
    RightBracket,
}

/// A token, and the bytes from `from` up to `to`, without `to`, that it spans.
#[derive(Clone, Copy, Debug, PartialEq, Eq)]
pub struct Token {
    pub kind: TokenKind,
    /// How many bytes of the text stand before its first byte.
    pub from: u32,
    /// How many bytes of the text stand up to its last byte, which counts too; more than `from`, and at most the
    /// length of the text.
    pub to: u32,
}

/// Why a text has no tokens. A place is the number of bytes before it.
#[derive(Debug, PartialEq, Eq, Drop, Error)]
pub enum LexFault {
    /// No front begins with the byte at this place.
    #[error("no token begins with the byte at {0}")]
    BadByte(u32),
    /// The quote at this place has no closing one.
    #[error("the quote at {0} is not closed")]
    OpenQuote(u32),
    /// There was no memory for the tokens.
    #[error("out of memory")]
    Memory,
}

impl<T: Drop> From<AllocFailed<T>> for LexFault {
    ghost from_gives = { λ _ e. e ≡ Memory };

    fn from(_refused: AllocFailed<T>) -> LexFault {
        LexFault::Memory
    }
}

/// The tokens of a text in order, each with its span. The text has at most 16,777,216 bytes (`MOST_BYTES`).
///
/// # Errors
/// `BadByte` at the first byte that begins no front, where no quote before it is open; `OpenQuote` at a
/// quote without a later one; `Memory`.
pub fn lex(alloc: Global, bytes: &[u8]) -> Result<Vec<Token>, LexFault>
    requires { length bytes.now ≤ MOST_BYTES }
    ensures spelt { IfOk result (λ tokens. Spelt bytes.now tokens.items) }
    ensures within { IfOk result (λ tokens. All (LiesIn (length bytes.now)) tokens.items) }
    ensures fault { IfErr result (Unspelt bytes.now) }
{
    let mut tokens = Vec::new(alloc);
    let mut at = 0;
    while at < bytes.len() {
        let from = at as u32;
        match front(bytes[at], &bytes[at + 1..]) {
            FirstFront::Skipped(len) => at += len,
            FirstFront::Token(kind, len) => {
                at += len;
                let to = at as u32;
                tokens.push(Token { kind, from, to })?;
            }
            FirstFront::NoFront => return Err(LexFault::BadByte(from)),
            FirstFront::Unclosed => return Err(LexFault::OpenQuote(from)),
        }
    }
    Ok(tokens)
}
