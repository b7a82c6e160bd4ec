//! Sums over lines of one kind.
ghost use Rattle.std.specs.Prelude.{◌≡◌};

/// How many lines of a kind there are, and their bytes together; each is at most 2^128 - 1.
#[derive(Clone, Copy, Debug, PartialEq, Eq)]
pub struct Total {
    pub count: u128,
    pub bytes: u128,
}

impl Total {
    ghost use Rattle.trace_writer.specs.Tallying.{added};

    /// Nothing.
    pub(crate) fn new() -> Total
        ensures { result ≡ record { count = 0; bytes = 0 } }
    {
        Total { count: 0, bytes: 0 }
    }

    /// Adds a line with so many bytes.
    pub(crate) fn add(&mut self, bytes: u64)
        ensures { self.new ≡ added self.old bytes }
    {
        self.count = self.count.saturating_add(1);
        self.bytes = self.bytes.saturating_add(u128::from(bytes));
    }
}
