//! What an NHI is, and how it is printed.
ghost use Rattle.std.specs.Prelude.{◌≡◌, ◌<◌, ◌++◌, length, Some, IfOk, OnOk, OnErr};
ghost use Rattle.std.specs.Option.{ForSome};
ghost use Rattle.std.specs.List.{All};
ghost use Rattle.nhi_address.specs.NhiFields.{IsId, IsNhi};
ghost use Rattle.nhi_address.specs.NhiText.{ids_text, nhi_of, nhi_text};
ghost use Rattle.nhi_address.specs.Extends.{Extends};

use sim_base::{Memory, push_number};
use smallvec::SmallVec;
use std::alloc::Global;
use std::marker::Model;

/// The greatest id of a Net, a host or an interface.
pub const MOST_ID: u32 = 2_147_483_647;

/// The address of a host, or of one of its interfaces: the ids of the Nets from the outermost one
/// on, then the host's, and perhaps the interface's. There is at least one id, and none is above
/// `MOST_ID`. Contracts see the two fields.
#[derive(Drop)]
pub struct Nhi {
    pub(crate) ids: SmallVec<u32, 4>,
    pub interface: Option<u32>,
}

impl Model for Nhi {
    ghost use Rattle.nhi_address.specs.NhiFields.{NhiFields, IsNhi};

    ghost Value = { NhiFields };

    ghost view = { λ n. record { ids = n.ids.items; interface = n.interface } };

    ghost invariant = { λ n. IsNhi (record { ids = n.ids.items; interface = n.interface }) };
}

impl Nhi {
    /// The NHI with these ids, of which the last one is the host's.
    ///
    /// # Errors
    /// `Memory` where there was no memory.
    pub fn new(alloc: Global, ids: &[u32], interface: Option<u32>) -> Result<Nhi, Memory>
        requires some { 0 < length ids.now }
        requires within { All IsId ids.now }
        requires interface { ForSome interface IsId }
        ensures ids { IfOk result (λ nhi. nhi.ids ≡ ids.now) }
        ensures interface { IfOk result (λ nhi. nhi.interface ≡ interface) }
    {
        let ids = SmallVec::from_slice(alloc, ids)?;
        Ok(Nhi { ids, interface })
    }

    /// The ids of the Nets and of the host; there is at least one.
    pub fn ids(&self) -> &[u32]
        ensures ids { result.now ≡ self.now.ids }
        ensures known { IsNhi self.now }
    {
        self.ids.as_slice()
    }
}

/// A range of ids: from the first to the last one, which belongs to it. Where keys were read, `from` is
/// at most `to`, and both are at most `MOST_ID`.
#[derive(Clone, Copy, Debug, PartialEq, Eq)]
pub struct IdRange {
    pub from: u32,
    pub to: u32,
}

/// Puts the ids of a Net in front of an NHI that is relative to it.
///
/// # Errors
/// `Memory` where there was no memory.
pub fn under(alloc: Global, net: &[u32], nhi: &Nhi) -> Result<Nhi, Memory>
    requires { All IsId net.now }
    ensures ids { IfOk result (λ whole. whole.ids ≡ net.now ++ nhi.now.ids) }
    ensures interface { IfOk result (λ whole. whole.interface ≡ nhi.now.interface) }
{
    let mut ids = SmallVec::from_slice(alloc, net)?;
    ids.extend_from_slice(nhi.ids.as_slice())?;
    Ok(Nhi {
        ids,
        interface: nhi.interface,
    })
}

/// Appends the text of an NHI; `read_nhi` reads it back as the same NHI.
///
/// # Errors
/// `Memory` where there was no memory; then nothing is appended.
pub fn print_nhi(nhi: &Nhi, out: &mut Vec<u8>) -> Result<(), Memory>
    ensures appended { OnOk result (out.new.items ≡ out.old.items ++ nhi_text nhi.now) }
    ensures kept { OnErr result (out.new.items ≡ out.old.items) }
    ensures reads_back { nhi_of (nhi_text nhi.now) ≡ Some nhi.now }
{
    let before = out.len();
    let pushed = push_nhi(nhi, out);
    if pushed.is_err() {
        out.truncate(before);
    }
    pushed
}

/// Appends the text of an NHI, or a part of it from its beginning.
fn push_nhi(nhi: &Nhi, out: &mut Vec<u8>) -> Result<(), Memory>
    ensures appended { OnOk result (out.new.items ≡ out.old.items ++ nhi_text nhi.now) }
    ensures kept { Extends out.old.items out.new.items }
    ensures known { IsNhi nhi.now }
{
    push_ids(nhi.ids.as_slice(), out)?;
    if let Some(interface) = nhi.interface {
        out.push(b'(')?;
        push_number(out, u64::from(interface))?;
        out.push(b')')?;
    }
    Ok(())
}

/// Appends ids with a colon between each two, or a part of that from its beginning.
fn push_ids(ids: &[u32], out: &mut Vec<u8>) -> Result<(), Memory>
    ensures appended { OnOk result (out.new.items ≡ out.old.items ++ ids_text ids.now) }
    ensures kept { Extends out.old.items out.new.items }
{
    for (place, id) in ids.iter().enumerate() {
        if place > 0 {
            out.push(b':')?;
        }
        push_number(out, u64::from(*id))?;
    }
    Ok(())
}
