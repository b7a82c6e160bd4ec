//! The tokens of a DML text: words, quoted texts and brackets, each with the bytes that it spans.
//!
//! A text is split into fronts, one after another: a blank byte, a comment, a bracket, a quoted text or
//! a word. `specs/Tokens.antt` says what a front is and which tokens a text has (`Spelt`), and where a
//! text has none (`Unspelt`); the contract of `lex` cites both.
#![tactic(auto)]

mod fronts;
pub mod laws;
mod lexer;

pub use fronts::is_word_byte;
pub use lexer::{LexFault, MOST_BYTES, Token, TokenKind, lex};
