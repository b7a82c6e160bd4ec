//! One front of a text.
ghost use Rattle.std.specs.Prelude.{◌≡◌, ◌≤◌, ◌∷◌, ◌==◌, not, false, length};
ghost use Rattle.dml_lexer.specs.Tokens.{is_word_byte, is_blank, is_mark};
ghost use Rattle.std.specs.List.{prefix_len};
ghost use Rattle.dml_lexer.specs.FirstFront.{Begins};

use crate::TokenKind;

/// What stands at the beginning of a text, and how many bytes it takes.
#[derive(Clone, Copy, Debug, PartialEq, Eq)]
pub enum FirstFront {
    /// A blank byte or a comment.
    Skipped(usize),
    /// A token of this kind.
    Token(TokenKind, usize),
    /// A byte that begins no front.
    NoFront,
    /// A quote that no other follows.
    Unclosed,
}

/// Whether a byte may stand in a word: from 0x21 to 0x7E or from 0x80 on, but none of `#`, `[`, `]` and `"`.
pub fn is_word_byte(byte: u8) -> bool
    ensures { result ≡ is_word_byte byte }
{
    match byte {
        b'#' | b'[' | b']' | b'"' => false,
        0x21..=0x7E | 0x80..=0xFF => true,
        _ => false,
    }
}

// How many word bytes a text begins with.
fn word_len(bytes: &[u8]) -> usize
    ensures within { result ≤ length bytes.now }
    ensures run { result ≡ prefix_len is_word_byte bytes.now }
{
    for (at, byte) in bytes.iter().enumerate() {
        if !is_word_byte(*byte) {
            return at;
        }
    }
    bytes.len()
}

// How many bytes stand before the first `end`, or all where there is none.
fn len_before(bytes: &[u8], end: u8) -> usize
    ensures within { result ≤ length bytes.now }
    ensures run { result ≡ prefix_len (λ byte. not (byte == end)) bytes.now }
{
    for (at, byte) in bytes.iter().enumerate() {
        if *byte == end {
            return at;
        }
    }
    bytes.len()
}

/// What stands at the beginning of a text, given its first byte and those after it.
pub fn front(first: u8, more: &[u8]) -> FirstFront
    ensures { Begins (first ∷ more.now) result }
{
    match first {
        b' ' | b'\t' | b'\r' | b'\n' => FirstFront::Skipped(1),
        b'#' => FirstFront::Skipped(1 + len_before(more, b'\n')),
        b'[' => FirstFront::Token(TokenKind::LeftBracket, 1),
        b']' => FirstFront::Token(TokenKind::RightBracket, 1),
        b'"' => quoted(more),
        _ => word(first, more),
    }
}

// What a quote begins, given the bytes after it.
fn quoted(more: &[u8]) -> FirstFront
    ensures { Begins (34 ∷ more.now) result }
{
    let len = len_before(more, b'"');
    if len < more.len() {
        FirstFront::Token(TokenKind::Quoted, len + 2)
    } else {
        FirstFront::Unclosed
    }
}

// What a byte begins that is no blank and no mark.
fn word(first: u8, more: &[u8]) -> FirstFront
    requires blank { is_blank first ≡ false }
    requires mark { is_mark first ≡ false }
    ensures { Begins (first ∷ more.now) result }
{
    if is_word_byte(first) {
        FirstFront::Token(TokenKind::Word, 1 + word_len(more))
    } else {
        FirstFront::NoFront
    }
}
