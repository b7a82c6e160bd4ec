//! A law of the sizes of blocks.
ghost use Rattle.std.specs.Prelude.{ℕ, ◌^◌, ◌≤◌};
ghost use Rattle.ip_blocks.specs.Blocks.{exponent_of};

/// The exponent of a number of addresses is that of the least power of two that is at least as large.
pub fn sizes_are_least()
    ensures { (n : ℕ) → (n ≤ 2 ^ exponent_of n) × ((e : ℕ) → n ≤ 2 ^ e → exponent_of n ≤ e) }
{}
