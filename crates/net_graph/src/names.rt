//! A table of names: a name's number is its place in the order in which names were added.
ghost use Rattle.std.specs.Prelude.{◌≡◌, ◌++◌, [], ◌∷◌, false, length, position, OnOk, OnErr};
ghost use Rattle.std.specs.List.{list_any};
ghost use Rattle.net_graph.specs.Names.{same};

use indexmap::IndexSet;
use sim_base::Memory;
use std::alloc::Global;
use std::marker::Model;

/// The ids of Nets, or those of hosts, each from the outermost Net on. Contracts see the list.
#[derive(Drop)]
pub struct Paths {
    names: IndexSet<Vec<u32>>,
}

impl Model for Paths {
    ghost use Rattle.std.specs.Prelude.{List, ℕ, map};

    ghost Value = { List (List ℕ) };

    ghost view = { λ p. map (λ k. k.items) p.names.keys };
}

impl Paths {
    /// No paths.
    pub fn new(alloc: Global) -> Paths
        ensures { result ≡ [] }
    {
        Paths {
            names: IndexSet::new(alloc),
        }
    }

    /// The number of a path.
    pub fn number_of(&self, path: &[u32]) -> Option<usize>
        ensures { result ≡ position (same path.now) self.now }
    {
        self.names.get_index_of(path)
    }

    /// How many paths there are.
    pub fn len(&self) -> usize
        ensures { result ≡ length self.now }
    {
        self.names.len()
    }

    /// Whether a path is there.
    pub fn has(&self, path: &[u32]) -> bool
        ensures { result ≡ list_any (same path.now) self.now }
    {
        self.names.contains(path)
    }

    /// Adds a path that is not there.
    ///
    /// # Errors
    /// `Memory` where there was no memory; then nothing is added.
    pub fn add(&mut self, alloc: Global, path: &[u32]) -> Result<(), Memory>
        requires { list_any (same path.now) self.old ≡ false }
        ensures added { OnOk result (self.new ≡ self.old ++ path.now ∷ []) }
        ensures kept { OnErr result (self.new ≡ self.old) }
    {
        let name = Vec::from_slice(alloc, path)?;
        self.names.insert(name)?;
        Ok(())
    }
}
