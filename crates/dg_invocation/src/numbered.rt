//! Tasks with a number that has limits.
ghost use Rattle.std.specs.Prelude.{◌≤◌};
ghost use Rattle.dg_invocation.specs.declared.limits.TheConstants.{MAX_TURNS, MAX_WORKERS};

/// A rank test of a table's position.
#[derive(Drop)]
pub struct RankTask<'a> {
    /// The name of the table file.
    pub file: &'a str,
    /// The degree.
    pub degree: u32,
    /// How many workers share the trials, 1 to 16.
    pub workers: u32,
    ghost helped: { (1 ≤ workers) × (workers ≤ MAX_WORKERS) },
}

/// The greedy strategy on a table.
#[derive(Drop)]
pub struct GreedyTask<'a> {
    /// The name of the table file.
    pub file: &'a str,
    /// How many turns it has, 0 to 65,536.
    pub turns: u32,
    ghost few: { turns ≤ MAX_TURNS },
}
