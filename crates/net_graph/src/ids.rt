//! The ids by which a Net or a host is named.
ghost use Rattle.std.specs.Prelude.{◌≡◌, ◌<◌, ◌++◌, [], ◌∷◌, length, IfOk};
ghost use Rattle.std.specs.Option.{ForSome};
ghost use Rattle.nhi_address.specs.NhiFields.{IsId};

use nhi_address::{Nhi, under};
use sim_base::Memory;
use std::alloc::Global;
use std::marker::Model;

/// The ids of the Nets from the outermost nested one down to a Net, or those of a host: its Net's
/// and then its own. Contracts see the list.
#[derive(Drop)]
pub struct IdPath {
    ids: Vec<u32>,
}

impl Model for IdPath {
    ghost use Rattle.std.specs.Prelude.{List, ℕ};
    ghost use Rattle.std.specs.List.{All};
    ghost use Rattle.nhi_address.specs.NhiFields.{IsId};

    ghost Value = { List ℕ };

    ghost view = { λ p. p.ids.items };

    ghost invariant = { λ p. All IsId p.ids.items };
}

impl IdPath {
    /// The top Net.
    pub fn top(alloc: Global) -> IdPath
        ensures { result ≡ [] }
    {
        IdPath {
            ids: Vec::new(alloc),
        }
    }

    /// A Net or a host of this Net.
    ///
    /// # Errors
    /// `Memory` where there was no memory.
    pub fn child(&self, alloc: Global, id: u32) -> Result<IdPath, Memory>
        requires { IsId id }
        ensures { IfOk result (λ path. path ≡ self.now ++ id ∷ []) }
    {
        let mut ids = Vec::from_slice(alloc, self.ids.as_slice())?;
        ids.push(id)?;
        Ok(IdPath { ids })
    }

    /// The same ids once more.
    ///
    /// # Errors
    /// `Memory` where there was no memory.
    pub fn copied(&self, alloc: Global) -> Result<IdPath, Memory>
        ensures { IfOk result (λ path. path ≡ self.now) }
    {
        let ids = Vec::from_slice(alloc, self.ids.as_slice())?;
        Ok(IdPath { ids })
    }

    /// The ids.
    pub fn as_slice(&self) -> &[u32]
        ensures { result.now ≡ self.now }
    {
        self.ids.as_slice()
    }

    /// The address of this host, or of one of its interfaces.
    ///
    /// # Errors
    /// `Memory` where there was no memory.
    pub fn address(&self, alloc: Global, interface: Option<u32>) -> Result<Nhi, Memory>
        requires some { 0 < length self.now }
        requires interface { ForSome interface IsId }
        ensures { IfOk result (λ nhi. nhi ≡ record { ids = self.now; interface = interface }) }
    {
        let nhi = Nhi::new(alloc, self.ids.as_slice(), interface)?;
        Ok(nhi)
    }

    /// An address that is relative to this Net, in full.
    ///
    /// # Errors
    /// `Memory` where there was no memory.
    pub fn full(&self, alloc: Global, nhi: &Nhi) -> Result<Nhi, Memory>
        ensures { IfOk result (λ whole. whole ≡ record { ids = self.now ++ nhi.now.ids; interface = nhi.now.interface }) }
    {
        let whole = under(alloc, self.ids.as_slice(), nhi)?;
        Ok(whole)
    }
}
