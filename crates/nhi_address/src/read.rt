//! From bytes to an NHI.
ghost use Rattle.std.specs.Prelude.{◌≡◌, ℕ, None, Some, nat_eq, [], ◌∷◌, ◌++◌, position, IfErr, IfOk, OnOk};
ghost use Rattle.nhi_address.specs.NhiText.{id_of, ids_of, interface_of, nhi_of};

use crate::number::read_number;
use crate::{MOST_ID, Nhi};
use smallvec::SmallVec;
use std::alloc::Global;

/// Why there is no NHI.
#[derive(Clone, Copy, Debug, PartialEq, Eq)]
pub enum NhiFault {
    /// The bytes are not in the grammar, or an id is above `MOST_ID`.
    BadNhi,
    /// There was no memory.
    Memory,
}

/// The NHI that these bytes spell.
///
/// # Errors
/// `BadNhi` where they spell none, and `Memory`.
pub fn read_nhi(alloc: Global, bytes: &[u8]) -> Result<Nhi, NhiFault>
    ensures read { IfOk result (λ nhi. nhi_of bytes.now ≡ Some nhi) }
    ensures bad { IfErr result (λ fault. fault ≡ NhiFault.BadNhi → nhi_of bytes.now ≡ None) }
{
    let front = find(bytes, b'(').unwrap_or(bytes.len());
    let ids = read_ids(alloc, &bytes[..front])?;
    let Some(interface) = read_interface(&bytes[front..]) else {
        return Err(NhiFault::BadNhi);
    };
    Ok(Nhi { ids, interface })
}

/// The ids that colons join in these bytes.
fn read_ids(alloc: Global, bytes: &[u8]) -> Result<SmallVec<u32, 4>, NhiFault>
    ensures read { IfOk result (λ ids. ids_of bytes.now ≡ Some ids.items) }
    ensures bad { IfErr result (λ fault. fault ≡ NhiFault.BadNhi → ids_of bytes.now ≡ None) }
{
    let mut ids = SmallVec::new(alloc);
    let mut rest = bytes;
    while let Some(colon) = find(rest, b':') {
        push_id(&rest[..colon], &mut ids)?;
        rest = &rest[colon + 1..];
    }
    push_id(rest, &mut ids)?;
    Ok(ids)
}

/// Adds the id that these bytes spell.
fn push_id(bytes: &[u8], ids: &mut SmallVec<u32, 4>) -> Result<(), NhiFault>
    ensures read { OnOk result ((id : ℕ) × (id_of bytes.now ≡ Some id) × (ids.new.items ≡ ids.old.items ++ id ∷ [])) }
    ensures bad { IfErr result (λ fault. fault ≡ NhiFault.BadNhi → id_of bytes.now ≡ None) }
{
    let Some(id) = read_id(bytes) else {
        return Err(NhiFault::BadNhi);
    };
    match ids.push(id) {
        Ok(()) => Ok(()),
        Err(_) => Err(NhiFault::Memory),
    }
}

/// Nothing, or the id in brackets that these bytes are.
fn read_interface(bytes: &[u8]) -> Option<Option<u32>>
    ensures { result ≡ interface_of bytes.now }
{
    match bytes {
        [] => Some(None),
        [b'(', id @ .., b')'] => Some(Some(read_id(id)?)),
        _ => None,
    }
}

/// The id that these bytes spell.
fn read_id(bytes: &[u8]) -> Option<u32>
    ensures { result ≡ id_of bytes.now }
{
    let id = read_number(bytes, 10, 0, u64::from(MOST_ID))?;
    Some(id as u32)
}

/// The first place of a byte.
fn find(bytes: &[u8], wanted: u8) -> Option<usize>
    ensures { result ≡ position (λ b. nat_eq b wanted) bytes.now }
{
    bytes.iter().position(|byte| *byte == wanted)
}
