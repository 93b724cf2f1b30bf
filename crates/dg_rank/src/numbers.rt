//! The rank of a divisor and that of its residual, as numbers. The lesser of the two is told by a least loss, and so, by the
//! theorem of Riemann and Roch, is the other.
ghost use Rattle.std.specs.Prelude.{◌≡◌, ◌<◌, ◌≤◌, ◌≤ℤ◌, ◌⊎◌, ◌+◌, pos, MatchOption};
ghost use Rattle.dg_theory.specs.Multigraph.{genus};
ghost use Rattle.dg_theory.specs.Firing.{IsEffective};
ghost use Rattle.dg_theory.specs.Rank.{HasRankAtLeast};
ghost use Rattle.dg_graph.specs.Graph.{IsGraph};
ghost use Rattle.dg_chips.specs.Vector.{at};
ghost use Rattle.dg_rank.specs.Limits.{IsPastLimits};
ghost use Rattle.dg_rank.specs.Losses.{AreSmallAmounts, HasSmallDegree};
ghost use Rattle.dg_rank.specs.declared.duals.TheConstants.{MAX_DIFFERENCE};
ghost use Rattle.dg_rank.specs.Ranks.{AreBothRanks, IsTestedRank, AreTestedRanks, NeedsTooMany, EitherNeedsMore, FailsFirstAt, IsLesserSide, IsTestable};

use crate::counting::trials;
use crate::duals::{dual_amounts, dual_test_degree, rank_difference};
use crate::enumeration::Trial;
use crate::first_loss::effective_with;
use crate::losses::find_loss_from;
use dg_chips::{Divisor, Wide};
use dg_graph::Graph;
use dg_reduce::{EffectiveDivisor, InverseLaplacian};

/// The rank of a divisor: the greatest k of which its rank is at least k, and -1 if it is not winnable. `None` if a
/// test past the limits would be needed.
pub fn rank(graph: &Graph, divisor: &Divisor) -> Option<i64>
    requires size { divisor.now.size ≡ graph.now.size }
    requires some { 0 < graph.now.size }
    ensures { MatchOption result
        (NeedsTooMany graph.now (at divisor.now))
        (IsTestedRank graph.now (at divisor.now)) }
{
    let _size = graph.size();
    let fails = first_failing_in_limits(graph, divisor)?;
    Some(i64::from(fails) - 1)
}

/// The rank of a divisor and that of its residual, which is the canonical divisor less it. The tests have no limit, and may
/// take long on a graph of many edges. Many calls can share an inverse of the graph's Laplacian: that for its first vertex is
/// the quick one, and the answer is that of any.
pub fn both_ranks(
    graph: &Graph,
    inverse: Option<&InverseLaplacian>,
    divisor: &Divisor,
) -> (i64, i64)
    requires size { divisor.now.size ≡ graph.now.size }
    requires some { 0 < graph.now.size }
    ensures { AreBothRanks graph.now (at divisor.now) result }
{
    let _size = graph.size();
    let Side { amounts, less } = lesser_side(graph, divisor);
    let Some(fails) = first_failing(graph, inverse, &amounts, failing_degree(graph)) else {
        unreachable!()
    };
    let rank = i64::from(fails + less) - 1;
    (rank, rank - rank_difference(graph, divisor))
}

/// The rank of a divisor and that of its residual, as `rank_at_least` tells them for the degrees 0, 1, 2 and so on. `None` if a
/// test past the limits would be needed, of the one or of the other, were each found by tests of its own.
pub fn both_ranks_in_limits(graph: &Graph, divisor: &Divisor) -> Option<(i64, i64)>
    requires size { divisor.now.size ≡ graph.now.size }
    requires some { 0 < graph.now.size }
    ensures { MatchOption result
        (EitherNeedsMore graph.now (at divisor.now))
        (AreTestedRanks graph.now (at divisor.now)) }
{
    let size = graph.size();
    let fails = first_failing_in_limits(graph, divisor)?;
    let dual_fails = dual_test_degree(graph, divisor, fails);
    trials(size, dual_fails)?;
    Some((i64::from(fails) - 1, i64::from(dual_fails) - 1))
}

/// The least degree at which the rank test of a divisor fails, which is within the limits. `None` if all pass before one that is
/// past them.
fn first_failing_in_limits(graph: &Graph, divisor: &Divisor) -> Option<u32>
    requires size { divisor.now.size ≡ graph.now.size }
    requires some { 0 < graph.now.size }
    ensures { MatchOption result
        (NeedsTooMany graph.now (at divisor.now))
        (λ k. FailsFirstAt graph.now (at divisor.now) k × IsTestable graph.now.size k) }
{
    let size = graph.size();
    let Side { amounts, less } = lesser_side(graph, divisor);
    let most = most_in_limits(size, less, failing_degree(graph))?;
    let fails = first_failing(graph, None, &amounts, most)? + less;
    trials(size, fails)?;
    Some(fails)
}

/// A divisor or its residual, whichever has the lesser rank, and by how much that is less than the rank of the divisor.
struct Side {
    amounts: Wide,
    less: u32,
}

/// The side of a divisor with the lesser rank.
fn lesser_side(graph: &Graph, divisor: &Divisor) -> Side
    requires size { divisor.now.size ≡ graph.now.size }
    requires some { 0 < graph.now.size }
    ensures size { result.amounts.size ≡ graph.now.size }
    ensures range { AreSmallAmounts graph.now.size (at result.amounts) }
    ensures few { result.less ≤ MAX_DIFFERENCE }
    ensures side { IsLesserSide graph.now (at divisor.now) (at result.amounts) result.less }
{
    let _size = graph.size();
    // The clause of `size` says that the amounts are within their limit.
    let _amounts = divisor.size();
    let difference = rank_difference(graph, divisor);
    if difference > 0 {
        Side {
            amounts: dual_amounts(graph, divisor),
            less: difference as u32,
        }
    } else {
        Side {
            amounts: Wide::of(divisor),
            less: 0,
        }
    }
}

/// A degree at which the side of the lesser rank fails its test: the genus.
pub(crate) fn failing_degree(graph: &Graph) -> u32
    ensures few { result ≤ 1000 }
    ensures genus { genus graph.now ≤ℤ pos result }
{
    let _size = graph.size();
    graph.genus().max(0) as u32
}

/// The greatest degree up to `most` with a test that is within the limits once `less` dollars more are asked for; `None` if there
/// is none.
fn most_in_limits(size: usize, less: u32, most: u32) -> Option<u32>
    requires few { most ≤ 1000 }
    requires less { less ≤ MAX_DIFFERENCE }
    ensures { MatchOption result
        (IsPastLimits size less)
        (λ k. (k ≤ most) × ((k ≡ most) ⊎ IsPastLimits size (k + less + 1))) }
{
    trials(size, less)?;
    for k in 0..most {
        if trials(size, k + less + 1).is_none() {
            return Some(k);
        }
    }
    Some(most)
}

/// The least degree at which amounts fail a rank test; `None` if they pass that of degree `most`.
fn first_failing(
    graph: &Graph,
    inverse: Option<&InverseLaplacian>,
    amounts: &Wide,
    most: u32,
) -> Option<u32>
    requires graph { IsGraph graph.now }
    requires some { 0 < graph.now.size }
    requires size { amounts.now.size ≡ graph.now.size }
    requires range { AreSmallAmounts graph.now.size (at amounts.now) }
    requires few { most ≤ 1000 }
    ensures { MatchOption result
        (HasRankAtLeast graph.now (at amounts.now) most)
        (λ k. (k ≤ most) × FailsFirstAt graph.now (at amounts.now) k) }
{
    let nothing = Trial::all_at_last(graph.size(), 0);
    match effective_with(graph, inverse, amounts, &nothing) {
        Some(left) => least_loss(graph, &left, most),
        None => Some(0),
    }
}

/// The least degree of a loss of at most so many dollars; `None` if each such loss can be borne. Each loss that is found
/// leaves fewer dollars to ask for, so few searches end with one that finds none.
fn least_loss(graph: &Graph, left: &EffectiveDivisor, most: u32) -> Option<u32>
    requires some { 0 < graph.now.size }
    requires size { left.now.size ≡ graph.now.size }
    requires effective { IsEffective graph.now.size (at left.now) }
    requires small { HasSmallDegree graph.now.size (at left.now) }
    requires few { most ≤ 1000 }
    ensures { MatchOption result
        (HasRankAtLeast graph.now (at left.now) most)
        (λ k. (k ≤ most) × FailsFirstAt graph.now (at left.now) k) }
{
    let mut best = *left;
    let loss = find_loss_from(graph, &mut best, most, 0)?;
    let dollars = loss.to_divisor().degree() as u32;
    match least_loss(graph, left, dollars - 1) {
        Some(fewer) => Some(fewer),
        None => Some(dollars),
    }
}
