//! Which entities share a timeline.
ghost use Rattle.std.specs.Prelude.{◌≡◌, ℕ, ◌<◌, ◌≤◌, ◌⊎◌, List, length, IfOk, IfErr};
ghost use Rattle.ssf_model.specs.Run.{IsWired};
ghost use Rattle.alignment.specs.Alignment.{IsAlignment, line_of, timeline_count};

use crate::Mode;
use crate::groups::Groups;
use sim_base::Memory;
use ssf_model::{Behaviour, Plan};
use std::alloc::Global;
use std::marker::Model;

/// The most timelines of an alignment.
pub const MOST_TIMELINES: u32 = 4096;

/// Why a plan is not aligned.
#[derive(Clone, Copy, Debug, PartialEq, Eq)]
pub enum AlignFault {
    /// There are so many timelines, which is more than `MOST_TIMELINES`.
    TooManyTimelines(u32),
    /// There was no memory.
    Memory,
}

impl From<Memory> for AlignFault {
    ghost use Rattle.std.specs.Prelude.{◌≡◌};
    ghost use Rattle.alignment.specs.declared.timelines.AlignFault.TheVariants.{Memory as NoMemory};

    ghost from_gives = { λ _ fault. fault ≡ NoMemory };

    fn from(_memory: Memory) -> AlignFault {
        AlignFault::Memory
    }
}

/// The timeline of each entity of a plan. Contracts see the list of these, in the order of the
/// entities.
#[derive(Drop)]
pub struct Alignment {
    lines: Vec<u32>,
    count: u32,
}

impl Model for Alignment {
    ghost use Rattle.std.specs.Prelude.{◌≡◌, List, ℕ};
    ghost use Rattle.alignment.specs.Alignment.{timeline_count};

    ghost Value = { List ℕ };

    ghost view = { λ a. a.lines.items };

    ghost invariant = { λ a. a.count ≡ timeline_count a.lines.items };
}

impl Alignment {
    /// How many timelines there are. They are numbered from 0.
    pub fn count(&self) -> u32
        ensures { result ≡ timeline_count self.now }
    {
        self.count
    }

    /// The timeline of an entity.
    pub fn timeline(&self, entity: u32) -> u32
        requires { entity < length self.now }
        ensures { result ≡ line_of self.now entity }
    {
        self.lines[entity as usize]
    }
}

/// Gives each entity of the plan its timeline. `nets` has the innermost Net of each entity; only the
/// mode `Net` asks for it.
///
/// # Errors
/// - `TooManyTimelines` exactly where there are more than `MOST_TIMELINES`, with their number.
/// - `Memory` where there was none.
pub fn align<B: Behaviour>(
    alloc: Global,
    plan: &Plan<B>,
    nets: &[u32],
    mode: Mode,
) -> Result<Alignment, AlignFault>
    requires wired { IsWired plan.now }
    requires nets { length nets.now ≡ length plan.now.entities }
    ensures aligned { IfOk result (λ lines. IsAlignment plan.now nets.now mode lines) }
    ensures most { IfOk result (λ lines. timeline_count lines ≤ MOST_TIMELINES) }
    ensures cause { IfErr result (λ fault. (fault ≡ AlignFault.Memory) ⊎ ((lines : List ℕ) × IsAlignment plan.now nets.now mode lines × (MOST_TIMELINES < timeline_count lines) × (fault ≡ AlignFault.TooManyTimelines (timeline_count lines)))) }
{
    let mut groups = Groups::new(alloc, nets.len() as u32)?;
    groups.join_labels(alloc, mode, nets)?;
    groups.join_ends(plan.mappings());
    let (lines, count) = groups.timelines(alloc)?;
    if count > MOST_TIMELINES {
        return Err(AlignFault::TooManyTimelines(count));
    }
    Ok(Alignment { lines, count })
}
