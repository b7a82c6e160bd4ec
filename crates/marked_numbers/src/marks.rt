//! The marks, by blocks.

ghost use Rattle.std.specs.Prelude.{◌≡◌, ℕ, ◌+◌, ◌<◌, ◌≤◌, ◌^◌, true, false, length, replicate, slice_set, IfOk, IfSome, IfNone};
ghost use Rattle.marked_numbers.specs.Least.{IsMarked, IsLeast};
ghost use Rattle.marked_numbers.specs.Blocks.{IsBlocked};

use sim_base::Memory;
use std::alloc::Global;
use std::marker::Model;

/// How many numbers a block has.
const BLOCK: usize = 64;

/// Which of the numbers below a count are marked.
#[derive(Drop)]
pub struct Marks {
    marked: Vec<bool>,
    // for each block of numbers whether one of it may be marked
    blocks: Vec<bool>,
}

impl Model for Marks {
    ghost use Rattle.std.specs.Prelude.{Bool, List};
    ghost use Rattle.marked_numbers.specs.Blocks.{IsBlocked};

    ghost Value = { List Bool };

    ghost view = { λ m. m.marked.items };

    ghost invariant = { λ m. IsBlocked m.marked.items m.blocks.items };
}

impl Marks {
    /// All numbers below `count`, marked.
    ///
    /// # Errors
    /// `Memory`.
    pub fn all(alloc: Global, count: usize) -> Result<Marks, Memory>
        requires { count < 2 ^ 32 }
        ensures { IfOk result (λ marks. marks ≡ replicate count true) }
    {
        let marked = Vec::from_elem(alloc, true, count)?;
        let blocks = Vec::from_elem(alloc, true, count / BLOCK + 1)?;
        Ok(Marks { marked, blocks })
    }

    /// Marks a number.
    pub fn mark(&mut self, number: u32)
        requires { number < length self.old }
        ensures { self.new ≡ slice_set self.old number true }
    {
        put_mark(&mut self.marked, &mut self.blocks, number as usize);
    }

    /// Takes the mark of a number away.
    #[tactic(auto, using(crate::proofs::Marking::blocked_taken))]
    pub fn unmark(&mut self, number: u32)
        requires { number < length self.old }
        ensures { self.new ≡ slice_set self.old number false }
    {
        self.marked[number as usize] = false;
    }

    /// Marks all numbers.
    pub fn mark_all(&mut self)
        ensures { self.new ≡ replicate (length self.old) true }
    {
        self.marked.fill(true);
        self.blocks.fill(true);
    }

    /// The least number that is marked, if there is one. It looks at the blocks, and at the numbers of
    /// those that may have a marked one.
    pub fn first(&mut self) -> Option<u32>
        ensures same { self.new ≡ self.old }
        ensures some { IfSome result (IsLeast self.old) }
        ensures none { IfNone result ((k : ℕ) → IsMarked self.old k → ⊥) }
    {
        find_first(self.marked.as_slice(), &mut self.blocks)
    }
}

/// Marks a number, and its block.
#[tactic(auto, using(crate::proofs::Marking::blocked_put))]
fn put_mark(marked: &mut Vec<bool>, blocks: &mut Vec<bool>, number: usize)
    requires number { number < length marked.old.items }
    requires blocks { IsBlocked marked.old.items blocks.old.items }
    ensures marked { marked.new.items ≡ slice_set marked.old.items number true }
    ensures blocks { IsBlocked marked.new.items blocks.new.items }
{
    marked[number] = true;
    blocks[number / BLOCK] = true;
}

/// The least marked number; blocks that have none lose their mark.
fn find_first(marked: &[bool], blocks: &mut Vec<bool>) -> Option<u32>
    requires { IsBlocked marked.now blocks.old.items }
    ensures blocks { IsBlocked marked.now blocks.new.items }
    ensures some { IfSome result (IsLeast marked.now) }
    ensures none { IfNone result ((k : ℕ) → IsMarked marked.now k → ⊥) }
{
    for block in 0..blocks.len() {
        if blocks[block] {
            if let Some(number) = first_in(marked, block * BLOCK) {
                return Some(number);
            }
            blocks[block] = false;
        }
    }
    None
}

/// The least marked number of the block that begins at `from`.
fn first_in(marked: &[bool], from: usize) -> Option<u32>
    requires few { length marked.now < 2 ^ 32 }
    requires from { from ≤ length marked.now }
    ensures from { IfSome result (λ n. from ≤ n) }
    ensures marked { IfSome result (λ n. IsMarked marked.now n) }
    ensures least { IfSome result (λ n. (k : ℕ) → from ≤ k → k < n → IsMarked marked.now k → ⊥) }
    ensures none { IfNone result ((k : ℕ) → from ≤ k → k < from + 64 → IsMarked marked.now k → ⊥) }
{
    for number in from..marked.len().min(from + BLOCK) {
        if marked[number] {
            return Some(number as u32);
        }
    }
    None
}
