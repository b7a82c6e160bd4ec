//! The canonical printing of a tree: a line for each attribute, its list indented by two spaces more.
ghost use Rattle.std.specs.Prelude.{◌≡◌, ◌++◌, OnOk, OnErr, length, drop};
ghost use Rattle.std.specs.List.{list_all};
ghost use Rattle.dml_lexer.specs.Tokens.{is_word_byte};
ghost use Rattle.dml_tree.specs.Printing.{printing, blanks, text_end, is_bare};
ghost use Rattle.dml_tree.specs.Reading.{ReadsBack};

use crate::{Tree, Value};
use dml_lexer::is_word_byte;
use sim_base::{Memory, Text};

/// Appends the canonical printing of a tree: `key value` or `key [`, the list and `]`, each on a line of
/// its own, indented by two spaces for each open list. A text is bare where it is not empty and has word
/// bytes alone, else it stands between quotes.
///
/// What is appended reads back as an equal tree, where some bytes spell an equal tree and what is appended has at
/// most 16,777,216 bytes. Places do not matter: the
/// tree may be joined or made by hand.
///
/// # Errors
/// Without memory nothing is appended.
pub fn write(tree: &Tree, out: &mut Vec<u8>) -> Result<(), Memory>
    ensures printed { OnOk result (out.new.items ≡ out.old.items ++ printing 0 tree.now) }
    ensures reads_back { OnOk result (ReadsBack (drop (length out.old.items) out.new.items) tree.now) }
    ensures kept { OnErr result (out.new.items ≡ out.old.items) }
{
    let mut lines = Vec::new(*out.allocator());
    write_list(tree, 0, &mut lines)?;
    out.append(&mut lines)?;
    Ok(())
}

fn write_list(tree: &Tree, indent: usize, out: &mut Vec<u8>) -> Result<(), Memory>
    ensures { OnOk result (out.new.items ≡ out.old.items ++ printing indent tree.now) }
{
    for attribute in tree.attributes() {
        push_blanks(indent, out)?;
        out.extend_from_slice(attribute.key.as_bytes())?;
        match &attribute.value {
            Value::Plain(text) => push_text(text, out)?,
            Value::List(inner) => {
                let within = indent.checked_add(2).ok_or(Memory)?;
                out.extend_from_slice(b" [\n")?;
                write_list(inner, within, out)?;
                push_blanks(indent, out)?;
                out.extend_from_slice(b"]\n")?;
            }
        }
    }
    Ok(())
}

fn push_blanks(count: usize, out: &mut Vec<u8>) -> Result<(), Memory>
    ensures { OnOk result (out.new.items ≡ out.old.items ++ blanks count) }
{
    for _ in 0..count {
        out.push(b' ')?;
    }
    Ok(())
}

// The end of a line with a text.
fn push_text(text: &Text, out: &mut Vec<u8>) -> Result<(), Memory>
    ensures { OnOk result (out.new.items ≡ out.old.items ++ text_end text.now) }
{
    let bytes = text.as_bytes();
    if is_bare(bytes) {
        out.push(b' ')?;
        out.extend_from_slice(bytes)?;
        out.push(b'\n')?;
    } else {
        out.extend_from_slice(b" \"")?;
        out.extend_from_slice(bytes)?;
        out.extend_from_slice(b"\"\n")?;
    }
    Ok(())
}

// Whether a text is printed bare.
fn is_bare(bytes: &[u8]) -> bool
    ensures { result ≡ is_bare bytes.now }
{
    !bytes.is_empty() && are_word_bytes(bytes)
}

fn are_word_bytes(bytes: &[u8]) -> bool
    ensures { result ≡ list_all is_word_byte bytes.now }
{
    bytes.iter().all(|byte| is_word_byte(*byte))
}
