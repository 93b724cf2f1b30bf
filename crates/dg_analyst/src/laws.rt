//! A law of commits, the contract of a function that does nothing.
ghost use Rattle.dg_analyst.specs.Commits.{StaleIsCommitted, TriedIsCommitted};

/// What `commit_stale` enters is what `commit` enters for each verdict on the look, and `commit_rank` for each answer of the
/// rank test; so it need not be known.
pub fn stale_is_committed()
    ensures judged { StaleIsCommitted }
    ensures ranked { TriedIsCommitted }
{}
