//! Verdicts: whether a divisor is winnable, with what shows it; and the answer to a rank test. No call takes memory.
#![tactic(auto)]

mod checking;
mod rank_verdict;
mod rebasing;
mod verdict;

pub use checking::check;
pub use rank_verdict::RankVerdict;
pub use rebasing::rebase;
pub use verdict::{Verdict, judge, judge_with_inverse};
