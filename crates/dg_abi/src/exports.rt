//! The functions. Each takes as many divisors as `told` has places, and tells of each there how it was answered. A call that is
//! refused answers a number below 0, and writes nothing.

ghost use Rattle.std.specs.Prelude.{◌≡◌, ℕ, ◌≢◌, ◌<◌, ◌*◌, pos, length};
ghost use Rattle.std.specs.List.{slice_index_or};
ghost use Rattle.dg_graph.specs.Graph.{IsGraph};
ghost use Rattle.dg_abi.specs.Calls.{RefusesGraph, RefusesCall, HasGraphWith, FitJudge, FitRank, FitTest};
ghost use Rattle.dg_abi.specs.Rows.{AnswersJudge, AnswersRank, AnswersTest};

use crate::faults::{ABI, LENGTHS, NO_Q};
use crate::graphs::graph_of;
use crate::judging::judge_rows;
use crate::lengths::{fit_judge, fit_rank, fit_test};
use crate::ranking::{rank_rows, rank_test_rows};

/// The version of the functions.
#[unsafe(no_mangle)]
pub extern "C" fn dollar_abi() -> u32
    ensures { result ≡ 1 }
{
    ABI
}

/// 0 if there is a graph of so many vertices with these edges; or the number of what is wrong with them.
#[unsafe(no_mangle)]
pub extern "C" fn dollar_graph(size: usize, edges: &[[u8; 3]]) -> i64
    ensures answered { result ≡ pos 0 → HasGraphWith size edges.now (λ g. IsGraph g) }
    ensures refused { result ≢ pos 0 → RefusesGraph size edges.now result }
{
    match graph_of(size, edges) {
        Ok(_graph) => 0,
        Err(fault) => fault,
    }
}

/// Verdicts, each with its script, its reduced divisor and the order that shows it; of these three what is wanted.
#[unsafe(no_mangle)]
pub extern "C" fn dollar_judge(
    size: usize,
    edges: &[[u8; 3]],
    q: usize,
    amounts: &[i64],
    told: &mut [i8],
    scripts: &mut [i64],
    reduced: &mut [i64],
    orders: &mut [u8],
) -> i64
    ensures answered { result ≡ pos 0 → HasGraphWith size edges.now (λ g. (q < g.size)
        × FitJudge (length told.old * g.size) (length amounts.now) (length scripts.old) (length reduced.old) (length orders.old)
        × ((r : ℕ) → r < length told.old → AnswersJudge g q amounts.now (r * g.size) (slice_index_or told.new r (pos 0))
        scripts.old scripts.new reduced.old reduced.new orders.old orders.new)) }
    ensures refused { result ≢ pos 0 → RefusesCall size edges.now q result (λ g.
        FitJudge (length told.old * g.size) (length amounts.now) (length scripts.old) (length reduced.old) (length orders.old))
        × (told.new ≡ told.old) × (scripts.new ≡ scripts.old) × (reduced.new ≡ reduced.old) × (orders.new ≡ orders.old) }
{
    let graph = match graph_of(size, edges) {
        Ok(graph) => graph,
        Err(fault) => return fault,
    };
    if q >= graph.size() {
        return NO_Q;
    }
    let (rows, all) = (told.len(), amounts.len());
    if !fit_judge(
        &graph,
        rows,
        all,
        scripts.len(),
        reduced.len(),
        orders.len(),
    ) {
        return LENGTHS;
    }
    judge_rows(&graph, q, amounts, told, scripts, reduced, orders);
    0
}

/// The rank of each divisor, and that of its residual, if it is wanted.
#[unsafe(no_mangle)]
pub extern "C" fn dollar_rank(
    size: usize,
    edges: &[[u8; 3]],
    amounts: &[i64],
    told: &mut [i8],
    ranks: &mut [i64],
    duals: &mut [i64],
) -> i64
    ensures answered { result ≡ pos 0 → HasGraphWith size edges.now (λ g.
        FitRank (length told.old * g.size) (length told.old) (length amounts.now) (length ranks.old) (length duals.old)
        × ((r : ℕ) → r < length told.old → AnswersRank g amounts.now (r * g.size) r (slice_index_or told.new r (pos 0))
        ranks.old ranks.new duals.old duals.new)) }
    ensures refused { result ≢ pos 0 → RefusesCall size edges.now 0 result (λ g.
        FitRank (length told.old * g.size) (length told.old) (length amounts.now) (length ranks.old) (length duals.old))
        × (told.new ≡ told.old) × (ranks.new ≡ ranks.old) × (duals.new ≡ duals.old) }
{
    let graph = match graph_of(size, edges) {
        Ok(graph) => graph,
        Err(fault) => return fault,
    };
    if !fit_rank(&graph, told.len(), amounts.len(), ranks.len(), duals.len()) {
        return LENGTHS;
    }
    rank_rows(&graph, amounts, told, ranks, duals);
    0
}

/// Whether the rank of each divisor is at least k; if not, with the first loss that it can't bear, if that is wanted.
#[unsafe(no_mangle)]
pub extern "C" fn dollar_rank_test(
    size: usize,
    edges: &[[u8; 3]],
    k: u32,
    amounts: &[i64],
    told: &mut [i8],
    losses: &mut [i64],
) -> i64
    ensures answered { result ≡ pos 0 → HasGraphWith size edges.now (λ g.
        FitTest (length told.old * g.size) (length amounts.now) (length losses.old)
        × ((r : ℕ) → r < length told.old → AnswersTest g amounts.now k (r * g.size) (slice_index_or told.new r (pos 0))
        losses.old losses.new)) }
    ensures refused { result ≢ pos 0 → RefusesCall size edges.now 0 result (λ g.
        FitTest (length told.old * g.size) (length amounts.now) (length losses.old))
        × (told.new ≡ told.old) × (losses.new ≡ losses.old) }
{
    let graph = match graph_of(size, edges) {
        Ok(graph) => graph,
        Err(fault) => return fault,
    };
    if !fit_test(&graph, told.len(), amounts.len(), losses.len()) {
        return LENGTHS;
    }
    rank_test_rows(&graph, k, amounts, told, losses);
    0
}
