//! Rank tests.
ghost use Rattle.std.specs.Prelude.{◌≡◌, ◌<◌, ◌≤◌, ⊤, MatchOption};
ghost use Rattle.std.specs.List.{sum};
ghost use Rattle.dg_theory.specs.Multigraph.{Multigraph};
ghost use Rattle.dg_theory.specs.Firing.{Amounts, AreEquivalent};
ghost use Rattle.dg_chips.specs.Vector.{at};
ghost use Rattle.dg_rank.specs.Boxes.{TrialsWinFrom, IsFirstLossFrom};
ghost use Rattle.dg_verdict.specs.RankTests.{IsRightRank};
ghost use Rattle.dg_rank.specs.Ladders.{AnswersRankTest};
ghost use Rattle.dg_rank.specs.Ranks.{IsTestable};

use crate::counting::trials;
use crate::duals::{passes_unasked, remaining_degree};
use crate::enumeration::Trial;
use crate::first_loss::first_loss;
use crate::rank_fault::RankFault;
use dg_chips::{Divisor, Wide};
use dg_graph::Graph;
use dg_reduce::InverseLaplacian;
use dg_verdict::RankVerdict;

/// Tests whether the rank of a divisor is at least k: whether every effective divisor of degree k can be lost and the
/// rest still won. If not, the answer names the first that can't, in the order of trials. If the residual of the divisor has
/// fewer trials, those may tell that none can't. It takes no memory.
///
/// Refused with `TooMany` alone, if k is above 1,000 or there are more than 200,000 trials.
pub fn rank_at_least(
    graph: &Graph,
    q: usize,
    divisor: &Divisor,
    k: u32,
) -> Result<RankVerdict, RankFault>
    requires size { divisor.now.size ≡ graph.now.size }
    requires vertex { q < graph.now.size }
    ensures { AnswersRankTest graph.now (at divisor.now) k result }
{
    rank_at_least_by(graph, None, divisor, k)
}

/// The rank test as `rank_at_least` makes it. Many tests can share an inverse of the graph's Laplacian: that for its first vertex
/// is the quick one, and the answer is that of any.
///
/// Refused as `rank_at_least`.
pub fn rank_at_least_by(
    graph: &Graph,
    inverse: Option<&InverseLaplacian>,
    divisor: &Divisor,
    k: u32,
) -> Result<RankVerdict, RankFault>
    requires size { divisor.now.size ≡ graph.now.size }
    requires some { 0 < graph.now.size }
    ensures { AnswersRankTest graph.now (at divisor.now) k result }
{
    let size = graph.size();
    let Some(_count) = trials(size, k) else {
        return Err(RankFault::TooMany);
    };
    if let Some(verdict) = rank_by_degree(graph, divisor, k) {
        return Ok(verdict);
    }
    Ok(rank_by_trials(graph, inverse, divisor, k))
}

/// The answer of a rank test that the degree does not settle.
fn rank_by_trials(
    graph: &Graph,
    inverse: Option<&InverseLaplacian>,
    divisor: &Divisor,
    k: u32,
) -> RankVerdict
    requires size { divisor.now.size ≡ graph.now.size }
    requires limits { IsTestable graph.now.size k }
    ensures { IsRightRank graph.now (at divisor.now) k result }
{
    let size = graph.size();
    // The clause of `size` says that the amounts are within their limit.
    let _amounts = divisor.size();
    if let Some(true) = passes_unasked(graph, inverse, divisor, k) {
        return RankVerdict::AtLeast(k);
    }
    let first = Trial::all_at_last(size, k);
    let loss = first_loss(graph, inverse, &Wide::of(divisor), k, first);
    verdict_of_loss(k, loss)
}

/// The answer of a rank test that the degree alone settles. `None` if trials must be made.
pub(crate) fn rank_by_degree(graph: &Graph, divisor: &Divisor, k: u32) -> Option<RankVerdict>
    requires size { divisor.now.size ≡ graph.now.size }
    requires limits { IsTestable graph.now.size k }
    ensures { MatchOption result
        ⊤
        (IsRightRank graph.now (at divisor.now) k) }
{
    let size = graph.size();
    let rest = remaining_degree(divisor, k);
    if rest >= i64::from(graph.genus()) {
        return Some(RankVerdict::AtLeast(k));
    }
    if rest < 0 {
        let first = Trial::all_at_last(size, k).to_divisor();
        return Some(RankVerdict::Below(k, first));
    }
    None
}

/// The answer if this is the first loss of all trials, or if none was found.
pub(crate) fn verdict_of_loss(k: u32, loss: Option<Trial>) -> RankVerdict
    requires { MatchOption loss ⊤ (λ E. sum E ≤ 1000) }
    ensures { (g : Multigraph) (D x : Amounts) → AreEquivalent g D x →
        MatchOption loss (TrialsWinFrom g x k 0) (IsFirstLossFrom g x k 0) → IsRightRank g D k result }
{
    match loss {
        Some(trial) => RankVerdict::Below(k, trial.to_divisor()),
        None => RankVerdict::AtLeast(k),
    }
}
