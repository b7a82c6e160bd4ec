//! A law of the texts of plans.
ghost use Rattle.std.specs.Prelude.{◌≡◌, ℕ, List};
ghost use Rattle.net_graph.specs.declared.rows.Network.{Network};
ghost use Rattle.net_build.specs.PlanText.{IsPlanText};

/// A network has at most one text of its plan.
pub fn plan_texts_are_one()
    ensures { (network : Network) (a b : List ℕ) → IsPlanText network a → IsPlanText network b → a ≡ b }
{}
