//! Laws of ranks, each the contract of a function that does nothing.
ghost use Rattle.dg_rank.specs.Ladders.{TestsTellRank, TestsTellBoth};

/// A rank is what `rank_at_least` tells for the degrees 0, 1, 2 and so on: `rank`, and `both_ranks_in_limits` of a divisor
/// and its residual, name the last degree of which it answers `AtLeast`, one before the first `Below`; and they answer `None`
/// exactly if it answers `TooMany` before it answers `Below`.
pub fn tests_tell_ranks()
    ensures one { TestsTellRank }
    ensures both { TestsTellBoth }
{}
