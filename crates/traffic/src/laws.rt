//! A law of client sessions: the contract of a function with an empty body.
ghost use Rattle.std.specs.Prelude.{ℕ};
ghost use Rattle.traffic.specs.Progress.{Progress, IsProgress, after_next};

/// A session that is given its next server is never given more than there are.
pub fn giving_keeps_progress()
    ensures { (p : Progress) (client : ℕ) → IsProgress p → IsProgress (after_next p client) }
{}
