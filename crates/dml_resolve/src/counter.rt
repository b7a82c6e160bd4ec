//! How much was counted so far: the substitutions that were met and the attributes of resolved lists.
ghost use Rattle.std.specs.Prelude.{◌≡◌, ◌≤◌, ◌+◌, Ok, Err, MatchResult, OnOk};
ghost use Rattle.dml_resolve.specs.Resolving.{count};

use crate::PathFault;

/// The most that may be counted.
pub const MOST_WEIGHT: usize = 1_000_000;

/// How much was counted so far.
#[derive(Drop)]
pub struct Counter {
    pub counted: usize,
    ghost in_range: { counted ≤ 1000000 },
}

impl Counter {
    /// Nothing so far.
    pub fn new() -> Counter
        ensures { result.counted ≡ 0 }
    {
        Counter { counted: 0 }
    }

    /// Counts so many more.
    pub fn count(&mut self, more: usize) -> Result<(), PathFault>
        ensures counted { MatchResult result (λ _. count more self.old.counted ≡ Ok (tt, self.new.counted)) (λ fault. count more self.old.counted ≡ Err fault) }
        ensures sum { OnOk result (self.new.counted ≡ self.old.counted + more) }
    {
        if more > MOST_WEIGHT - self.counted {
            return Err(PathFault::TooLarge);
        }
        self.counted += more;
        Ok(())
    }
}
