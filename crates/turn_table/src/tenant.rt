//! What the values of a table are true of.

use crate::view::Shape;

/// A type of values that may lie in a table of turns. It has no calls. Its members say what the shared rule says of such values.
///
/// Counts and marks are functions from count words to numbers. The mark of a word is one more than a
/// number that the word has reached, and 0 where there is none.
pub trait Tenant {
    ghost use Rattle.std.specs.Prelude.{◌≡◌, ℕ, suc, ◌≤◌, ◌⊎◌, true};
    ghost use Rattle.turn_table.specs.Changes.{put};
    ghost use Rattle.turn_table.specs.Shapes.{Speaks, is_cleared};
    ghost use Rattle.turn_table.specs.declared.view.Shape.{Shape};

    /// What a table is told once, when it is made.
    type Key;

    // The places, the count words, and the marks that are lost.
    ghost shape: { Self.Key → Shape };

    // What holds of a value at home: of the key, the place and the value.
    ghost sound: { Self.Key → ℕ → Self → Type 0 };

    // What a value at home owes to the counts: of the key, the counts, the place and the value.
    ghost owes: { Self.Key → (ℕ → ℕ) → ℕ → Self → Type 0 };

    // What the counts keep among themselves.
    ghost keeps: { Self.Key → (ℕ → ℕ) → Type 0 };

    // What the marks of the holder of a place say of its value at home: of the key, the marks, the place and the value.
    ghost marked: { Self.Key → (ℕ → ℕ) → ℕ → Self → Type 0 };

    // What is owed stays owed while the counts that speak of the place are the same and the others only rise.
    ghost stays: { (k : Self.Key) (f g : ℕ → ℕ) (p : ℕ) (x : Self) → ((c : ℕ) → Speaks (shape k) c p → f c ≡ g c) → ((c : ℕ) → f c ≤ g c) → owes k f p x → owes k g p x };

    // Marks may be lost.
    ghost forgets: { (k : Self.Key) (m n : ℕ → ℕ) (p : ℕ) (x : Self) → ((c : ℕ) → (n c ≡ 0) ⊎ (n c ≡ m c)) → marked k m p x → marked k n p x };

    // Nothing is said of a value where the marks are lost that its place clears.
    ghost cleared: { (k : Self.Key) (m : ℕ → ℕ) (p : ℕ) (x : Self) → ((c : ℕ) → is_cleared (shape k) p c ≡ true → m c ≡ 0) → marked k m p x };

    // A count that was just read may be marked.
    ghost marks: { (k : Self.Key) (f m : ℕ → ℕ) (p : ℕ) (x : Self) (c : ℕ) → keeps k f → owes k f p x → marked k m p x → marked k (put m c (suc (f c))) p x };
}
