//! The miniature post: what a sender has posted and what its mail has got agree whenever both are at home.
ghost use Rattle.std.specs.Prelude.{◌≡◌, ℕ, IsTrue};
ghost use Rattle.turn_table.specs.Passes.{HoldsNone, lost_tries};
ghost use Rattle.turn_table.specs.Turned.{IsPassOf};

use turn_table::{Pass, Tenant, Turns};

/// A sender, or a mail.
#[derive(Drop)]
pub struct Counted {
    /// How many were posted.
    pub posted: u64,
}

impl Tenant for Counted {
    ghost use Rattle.std.specs.Prelude.{◌≡◌};
    ghost use Rattle.std.proofs.Common.{◌∙◌, sym};
    ghost use Rattle.turn_table.specs.Shapes.{Speaks};
    ghost use Rattle.turn_examples.specs.Post.{post_shape};

    type Key = ();

    ghost shape = { λ _. post_shape };

    ghost sound = { λ k p x. Unit {0} };

    // At home each has the posted word's number.
    ghost owes = { λ k f p x. Speaks post_shape 0 p → f 0 ≡ x.posted };

    ghost keeps = { λ k f. Unit {0} };

    ghost marked = { λ k m p x. Unit {0} };

    ghost stays = { λ k f g p x same up owed says. sym (same 0 says) ∙ owed says };

    ghost forgets = { λ k m n p x less marked. tt };

    ghost cleared = { λ k m p x none. tt };

    ghost marks = { λ k f m p x c kept owed marked. tt };
}

/// Posts one, where both turns were won: the sender and the mail count it, and so does the posted word.
///
/// True comes only where no try was lost.
pub fn post(turns: &Turns<Counted>, pass: &mut Pass) -> bool
    requires pass { IsPassOf ⟦<Counted as Tenant>⟧ turns.now pass.old }
    requires free { HoldsNone pass.old }
    ensures pass { IsPassOf ⟦<Counted as Tenant>⟧ turns.now pass.new }
    ensures free { HoldsNone pass.new }
    ensures won { IsTrue result → (place : ℕ) → lost_tries pass.new place ≡ lost_tries pass.old place }
{
    let Some(first) = turns.try_take(pass, 0) else {
        return false;
    };
    let Some(second) = turns.try_take(pass, 1) else {
        turns.leave(pass, first);
        return false;
    };
    let n = turns.load(pass, 0);
    if n == u64::MAX {
        turns.leave(pass, second);
        turns.leave(pass, first);
        return false;
    }
    let mut sender = turns.bring(pass, first);
    let mut mail = turns.bring(pass, second);
    sender.value().posted += 1;
    mail.value().posted += 1;
    turns.write(pass, 0, n + 1);
    turns.give(pass, mail);
    turns.give(pass, sender);
    true
}
