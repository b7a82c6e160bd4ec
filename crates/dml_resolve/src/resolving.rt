//! The resolved tree, or why there is none.
ghost use Rattle.std.specs.Prelude.{◌≡◌, ◌≤◌, ◌⊎◌, Ok, Err, IfOk, IfErr};
ghost use Rattle.dml_resolve.specs.Resolving.{resolved, counted_weight, most_weight};
ghost use Rattle.dml_resolve.specs.declared.resolving.PathFault.TheVariants.{Memory};

use crate::counter::Counter;
use crate::expanding::expand;
use crate::roots::Root;
use dml_tree::{Place, Tree};
use sim_base::Memory;
use std::alloc::{AllocError, AllocFailed, Global};
use thiserror::Error;

/// How many substitutions may be followed in one another.
const MOST_NESTED: u32 = 64;

/// Why a tree has no resolved tree. A place is that of the substitution that was being followed, the
/// innermost one.
#[derive(Debug, PartialEq, Eq, Drop, Error)]
pub enum PathFault {
    /// The value of a substitution is a list, or no path.
    #[error("no path at {0:?}")]
    BadPath(Place),
    /// No attribute has the key that a component of the path names.
    #[error("an unknown path at {0:?}")]
    UnknownPath(Place),
    /// Some attribute has the key, a list is wanted, and none is a list.
    #[error("a list is wanted at {0:?}")]
    NotAList(Place),
    /// The substitution stands in 64 others.
    #[error("nested too deep at {0:?}")]
    TooDeep(Place),
    /// The substitutions and attributes are more than 1,000,000.
    #[error("too large")]
    TooLarge,
    /// There was no memory for the tree.
    #[error("out of memory")]
    Memory,
}

impl From<Memory> for PathFault {
    ghost from_gives = { λ _ e. e ≡ Memory };

    fn from(_memory: Memory) -> PathFault {
        PathFault::Memory
    }
}

impl From<AllocError> for PathFault {
    ghost from_gives = { λ _ e. e ≡ Memory };

    fn from(_refused: AllocError) -> PathFault {
        PathFault::Memory
    }
}

impl<T: Drop> From<AllocFailed<T>> for PathFault {
    ghost from_gives = { λ _ e. e ≡ Memory };

    fn from(_refused: AllocFailed<T>) -> PathFault {
        PathFault::Memory
    }
}

/// The tree in which every substitution is replaced by what its path names, but those within an
/// attribute `schemas` of the root list.
///
/// # Errors
/// The fault that is met first; `Memory`.
pub fn resolve(alloc: Global, tree: &Tree) -> Result<Tree, PathFault>
    ensures resolved { IfOk result (λ resolved_tree. resolved tree.now ≡ Ok resolved_tree) }
    ensures cause { IfErr result (λ fault. (fault ≡ PathFault.Memory) ⊎ (resolved tree.now ≡ Err fault)) }
    ensures small { IfOk result (λ resolved_tree. counted_weight resolved_tree ≤ most_weight) }
{
    let mut counter = Counter::new();
    let root = Root::of(alloc, tree)?;
    expand(alloc, &root, tree, MOST_NESTED, true, &mut counter)
}
