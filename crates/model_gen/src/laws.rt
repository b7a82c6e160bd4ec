//! Laws of generated models: contracts of functions with empty bodies.
ghost use Rattle.std.specs.Prelude.{◌≡◌, ◌≢◌, ◌≤◌, ◌<◌, ℕ, length};
ghost use Rattle.model_gen.specs.Draws.{delay, server_net};
ghost use Rattle.model_gen.specs.Campus.{delay_text, next_net};

/// The delay of each link of the ring is from 100 to 999 millionths of a second, so that its text
/// has three digits after `0.000`; and each server is in one of the nets.
pub fn draws_are_in_range()
    ensures delays { (seed i : ℕ) → (100 ≤ delay seed i) × (delay seed i ≤ 999) }
    ensures digits { (seed i : ℕ) → length (delay_text (delay seed i)) ≡ 8 }
    ensures servers { (seed size i : ℕ) → 1 ≤ size → server_net seed size i < size }
{}

/// Each link of the ring leads to a net that is there, and to another than its own.
pub fn links_join_nets()
    ensures there { (size i : ℕ) → 1 ≤ size → next_net size i < size }
    ensures another { (size i : ℕ) → 2 ≤ size → i < size → next_net size i ≢ i }
{}
