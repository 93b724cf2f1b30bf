//! Rank tests by the residual of a divisor, which is the canonical divisor less it. By the theorem of Riemann and Roch a divisor
//! passes a test exactly if its residual passes another, and one of the two may have far fewer trials.
ghost use Rattle.std.specs.Prelude.{◌≡◌, ℕ, ◌+◌, ◌<◌, ◌≤◌, pos, ◌+ℤ◌, ◌-ℤ◌, ◌<ℤ◌, MatchBool, MatchOption};
ghost use Rattle.std.specs.Int.RustNames.{unsigned_abs};
ghost use Rattle.dg_theory.specs.Multigraph.{genus};
ghost use Rattle.dg_theory.specs.Firing.{degree};
ghost use Rattle.dg_theory.specs.Rank.{minus, canonical, HasRankAtLeast};
ghost use Rattle.dg_graph.specs.Graph.{IsGraph};
ghost use Rattle.dg_chips.specs.Vector.{at};
ghost use Rattle.dg_rank.specs.declared.duals.TheConstants.{MAX_DIFFERENCE};
ghost use Rattle.dg_rank.specs.Losses.{AreSmallAmounts};

use crate::enumeration::Trial;
use crate::first_loss::effective_with;
use crate::losses::find_loss_from;
use dg_chips::{Divisor, Wide};
use dg_graph::Graph;
use dg_reduce::InverseLaplacian;

/// The ranks of a divisor and of its residual differ by no more.
pub(crate) const MAX_DIFFERENCE: u32 = 17_000_000;

/// Whether the rank of a divisor is at least k: whether every effective divisor of degree k can be lost and the rest still
/// won. The test is made of the divisor or of its residual, if that has fewer dollars to take. It has no limit, and may take long
/// on a graph of many edges.
pub fn has_rank_at_least(graph: &Graph, divisor: &Divisor, k: u32) -> bool
    requires size { divisor.now.size ≡ graph.now.size }
    requires some { 0 < graph.now.size }
    ensures { MatchBool result
        (HasRankAtLeast graph.now (at divisor.now) k)
        (¬ HasRankAtLeast graph.now (at divisor.now) k) }
{
    let _size = graph.size();
    has_rank_at_least_by(graph, None, divisor, k)
}

/// What `has_rank_at_least` answers, with any inverse or none.
pub(crate) fn has_rank_at_least_by(
    graph: &Graph,
    inverse: Option<&InverseLaplacian>,
    divisor: &Divisor,
    k: u32,
) -> bool
    requires size { divisor.now.size ≡ graph.now.size }
    requires some { 0 < graph.now.size }
    ensures { MatchBool result
        (HasRankAtLeast graph.now (at divisor.now) k)
        (¬ HasRankAtLeast graph.now (at divisor.now) k) }
{
    let _size = graph.size();
    // The clause of `size` says that the amounts are within their limit.
    let _amounts = divisor.size();
    match passes_unasked(graph, inverse, divisor, k) {
        Some(passes) => passes,
        None => all_trials_win(graph, inverse, &Wide::of(divisor), k),
    }
}

/// The degree of what is left of a divisor after a loss of degree k.
pub(crate) fn remaining_degree(divisor: &Divisor, k: u32) -> i64
    ensures { result ≡ degree divisor.now.size (at divisor.now) -ℤ pos k }
{
    let _amounts = divisor.size();
    divisor.degree() - i64::from(k)
}

/// Whether a divisor passes a test, by its degree, or by the test of its residual, if that has fewer dollars to take. `None` if
/// the divisor has to be asked.
pub(crate) fn passes_unasked(
    graph: &Graph,
    inverse: Option<&InverseLaplacian>,
    divisor: &Divisor,
    k: u32,
) -> Option<bool>
    requires size { divisor.now.size ≡ graph.now.size }
    requires some { 0 < graph.now.size }
    ensures { MatchOption result
        (k ≤ 1000)
        (λ passes. MatchBool passes
        (HasRankAtLeast graph.now (at divisor.now) k)
        (¬ HasRankAtLeast graph.now (at divisor.now) k)) }
{
    let _size = graph.size();
    let rest = remaining_degree(divisor, k);
    if rest >= i64::from(graph.genus()) {
        return Some(true);
    }
    if rest < i64::from(k) {
        return Some(false);
    }
    let other = dual_test_degree(graph, divisor, k);
    if k <= other {
        return None;
    }
    Some(all_trials_win(graph, inverse, &dual_amounts(graph, divisor), other))
}

/// The degree at which the residual passes its test exactly if the divisor passes the test of degree k.
pub(crate) fn dual_test_degree(graph: &Graph, divisor: &Divisor, k: u32) -> u32
    requires size { divisor.now.size ≡ graph.now.size }
    requires low { k ≤ unsigned_abs (degree graph.now.size (at divisor.now)) + 1 }
    requires poor { degree graph.now.size (at divisor.now) <ℤ (genus graph.now +ℤ pos k) }
    ensures { pos k -ℤ pos result
        ≡ (degree graph.now.size (at divisor.now) +ℤ pos 1) -ℤ genus graph.now }
{
    let _size = graph.size();
    (i64::from(k) - rank_difference(graph, divisor)) as u32
}

/// By how much the rank of a divisor is above the rank of its residual.
pub(crate) fn rank_difference(graph: &Graph, divisor: &Divisor) -> i64
    requires { divisor.now.size ≡ graph.now.size }
    ensures apart { result ≡ (degree graph.now.size (at divisor.now) +ℤ pos 1) -ℤ genus graph.now }
    ensures small { unsigned_abs result ≤ MAX_DIFFERENCE }
{
    let _size = graph.size();
    let _amounts = divisor.size();
    divisor.degree() + 1 - i64::from(graph.genus())
}

/// The residual of a divisor: the canonical divisor less it.
pub(crate) fn dual_amounts(graph: &Graph, divisor: &Divisor) -> Wide
    requires { divisor.now.size ≡ graph.now.size }
    ensures size { result.size ≡ graph.now.size }
    ensures amounts { (v : ℕ) → v < graph.now.size →
        at result v ≡ minus (canonical graph.now) (at divisor.now) v }
    ensures range { AreSmallAmounts graph.now.size (at result) }
{
    let _size = graph.size();
    let canonical = Divisor::canonical(graph);
    // The clauses of `size` say that the amounts of both are within their limit.
    let _canonical = canonical.size();
    let _amounts = divisor.size();
    Wide::of(&canonical).minus(divisor)
}

/// Whether all trials of degree k win.
fn all_trials_win(graph: &Graph, inverse: Option<&InverseLaplacian>, amounts: &Wide, k: u32) -> bool
    requires graph { IsGraph graph.now }
    requires some { 0 < graph.now.size }
    requires size { amounts.now.size ≡ graph.now.size }
    requires range { AreSmallAmounts graph.now.size (at amounts.now) }
    requires few { k ≤ 1000 }
    ensures { MatchBool result
        (HasRankAtLeast graph.now (at amounts.now) k)
        (¬ HasRankAtLeast graph.now (at amounts.now) k) }
{
    let first = Trial::all_at_last(graph.size(), k);
    match effective_with(graph, inverse, amounts, &first) {
        Some(mut left) => find_loss_from(graph, &mut left, k, 0).is_none(),
        None => false,
    }
}
