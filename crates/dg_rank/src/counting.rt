//! How many trials of a degree there are, and which one has a number.
ghost use Rattle.std.specs.Prelude.{◌≡◌, ℕ, ◌+◌, ◌<◌, ◌≤◌, MatchOption, min};
ghost use Rattle.dg_rank.specs.Divisors.{IsTrialNumber};
ghost use Rattle.dg_rank.specs.Limits.{HasTrials, IsPastLimits};
ghost use Rattle.dg_rank.specs.Numbering.{trial_count};

use crate::enumeration::Trial;
use dg_chips::Divisor;
use dg_graph::MAX_VERTICES;

/// The largest degree of a rank test.
pub const MAX_DEGREE: u32 = 1_000;

/// The most trials of a rank test.
pub const MAX_TRIALS: u32 = 200_000;

/// How many trials of degree k there are on n vertices: effective divisors of that degree. `None` if n is not 1 to
/// 16, if k is above 1,000, or if there are more than 200,000.
pub fn trials(n: usize, k: u32) -> Option<u32>
    ensures { MatchOption result (IsPastLimits n k) (HasTrials n k) }
{
    if n < 1 || n > MAX_VERTICES || k > MAX_DEGREE {
        return None;
    }
    let count = capped_trial_count(n, k);
    if count > MAX_TRIALS {
        return None;
    }
    Some(count)
}

/// The trial of degree k on n vertices that has exactly i trials before it; one is before another if it holds less
/// at the first vertex at which they differ. The condition is that i is below the number of trials.
pub fn trial(n: usize, k: u32, i: u32) -> Divisor
    requires { (c : ℕ) × HasTrials n k c × (i < c) }
    ensures { IsTrialNumber n k i result }
{
    Trial::nth(n, k, i).to_divisor()
}

/// How many trials of degree k there are on n places, or 200,001 if there are more than 200,000. The conditions are
/// that n is 1 to 16, and that k is at most 1,000.
pub(crate) fn capped_trial_count(n: usize, k: u32) -> u32
    requires some { 0 < n }
    requires few { n ≤ MAX_VERTICES }
    requires small { k ≤ MAX_DEGREE }
    ensures { result ≡ min (MAX_TRIALS + 1) (trial_count n k) }
{
    let mut count = 1;
    for places in 1..n as u64 {
        count = count * (u64::from(k) + places) / places;
        if count > u64::from(MAX_TRIALS) {
            return MAX_TRIALS + 1;
        }
    }
    count as u32
}
