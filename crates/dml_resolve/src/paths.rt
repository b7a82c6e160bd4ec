//! Paths, and the keys of substitutions.
ghost use Rattle.std.specs.Prelude.{◌≡◌, map, Option, IfOk};
ghost use Rattle.std.specs.Option.{option_map};
ghost use Rattle.dml_resolve.specs.Resolving.{is_find, is_substitution, is_schemas, components};

use sim_base::Memory;
use std::alloc::Global;

/// Whether an attribute of this key stands for those that its path names.
pub fn is_find(key: &[u8]) -> bool
    ensures { result ≡ is_find key.now }
{
    key == b"_find".as_slice()
}

/// Whether an attribute of this key is a substitution.
pub fn is_substitution(key: &[u8]) -> bool
    ensures { result ≡ is_substitution key.now }
{
    key == b"_find".as_slice() || key == b"_extends".as_slice()
}

/// Whether an attribute of this key is kept as written where it is written in the root list.
pub fn is_schemas(key: &[u8]) -> bool
    ensures { result ≡ is_schemas key.now }
{
    key == b"schemas".as_slice()
}

/// The components of a path. A path begins with `.` and has one or more components, none of them empty,
/// with `.` between them; any other text has none.
pub fn components<'a>(alloc: Global, text: &'a [u8]) -> Result<Option<Vec<&'a [u8]>>, Memory>
    ensures { IfOk result (λ path. option_map (λ found. map (λ component. component.now) found.items) path ≡ components text.now) }
{
    let mut found = Vec::new(alloc);
    if text.is_empty() || text[0] != b'.' {
        return Ok(None);
    }
    let mut from = 1;
    let mut at = 1;
    while at < text.len() {
        if text[at] == b'.' {
            if from == at {
                return Ok(None);
            }
            found.push(&text[from..at])?;
            from = at + 1;
        }
        at += 1;
    }
    if from == at {
        return Ok(None);
    }
    found.push(&text[from..at])?;
    Ok(Some(found))
}
