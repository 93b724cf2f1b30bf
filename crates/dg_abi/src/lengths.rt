//! Whether the lengths of a call's arrays fit together. `rows` is how many divisors there are.

ghost use Rattle.std.specs.Prelude.{◌*◌, MatchBool};
ghost use Rattle.dg_abi.specs.Calls.{IsAllOrNone, FitJudge, FitRank, FitTest};

use dg_graph::Graph;

/// Whether the lengths of the arrays of `dollar_judge` fit.
pub(crate) fn fit_judge(
    graph: &Graph,
    rows: usize,
    amounts: usize,
    scripts: usize,
    reduced: usize,
    orders: usize,
) -> bool
    ensures { MatchBool result
        (FitJudge (rows * graph.now.size) amounts scripts reduced orders)
        (¬ FitJudge (rows * graph.now.size) amounts scripts reduced orders) }
{
    let Some(all) = rows.checked_mul(graph.size()) else {
        return false;
    };
    amounts == all
        && is_all_or_none(all, scripts)
        && is_all_or_none(all, reduced)
        && is_all_or_none(all, orders)
}

/// Whether the lengths of the arrays of `dollar_rank` fit.
pub(crate) fn fit_rank(
    graph: &Graph,
    rows: usize,
    amounts: usize,
    ranks: usize,
    duals: usize,
) -> bool
    ensures { MatchBool result
        (FitRank (rows * graph.now.size) rows amounts ranks duals)
        (¬ FitRank (rows * graph.now.size) rows amounts ranks duals) }
{
    let Some(all) = rows.checked_mul(graph.size()) else {
        return false;
    };
    amounts == all && ranks == rows && is_all_or_none(rows, duals)
}

/// Whether the lengths of the arrays of `dollar_rank_test` fit.
pub(crate) fn fit_test(graph: &Graph, rows: usize, amounts: usize, losses: usize) -> bool
    ensures { MatchBool result
        (FitTest (rows * graph.now.size) amounts losses)
        (¬ FitTest (rows * graph.now.size) amounts losses) }
{
    let Some(all) = rows.checked_mul(graph.size()) else {
        return false;
    };
    amounts == all && is_all_or_none(all, losses)
}

/// Whether an array has all of its places, or none.
fn is_all_or_none(all: usize, length: usize) -> bool
    ensures { MatchBool result (IsAllOrNone all length) (¬ IsAllOrNone all length) }
{
    length == all || length == 0
}
