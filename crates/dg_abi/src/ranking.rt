//! Ranks and rank tests, row by row.

ghost use Rattle.std.specs.Prelude.{◌≡◌, ℕ, ◌<◌, ◌≤◌, ◌+◌, ◌*◌, ◌⊎◌, pos, length};
ghost use Rattle.std.specs.List.{slice_index_or};
ghost use Rattle.dg_chips.specs.Vector.{at};
ghost use Rattle.dg_verdict.specs.RankTests.{IsRightRank};
ghost use Rattle.dg_abi.specs.Calls.{IsAllOrNone};
ghost use Rattle.dg_abi.specs.Rows.{AnswersRank, AnswersTest, IsTestTold, KeepsElsewhere};

use crate::faults::NO_LOSS_NAMED;
use crate::rows::{divisor_at, put};
use dg_chips::{Divisor, to_i64s};
use dg_graph::Graph;
use dg_rank::{both_ranks, has_rank_at_least, rank_at_least_by};
use dg_reduce::InverseLaplacian;
use dg_verdict::RankVerdict;

/// The ranks of all rows, and those of their residuals.
pub(crate) fn rank_rows(
    graph: &Graph,
    amounts: &[i64],
    told: &mut [i8],
    ranks: &mut [i64],
    duals: &mut [i64],
)
    requires amounts { length amounts.now ≡ length told.old * graph.now.size }
    requires ranks { length ranks.old ≡ length told.old }
    requires duals { IsAllOrNone (length told.old) (length duals.old) }
    ensures told { length told.new ≡ length told.old }
    ensures answered { (r : ℕ) → r < length told.old → AnswersRank graph.now amounts.now (r * graph.now.size) r
        (slice_index_or told.new r (pos 0)) ranks.old ranks.new duals.old duals.new }
{
    let inverse = InverseLaplacian::new(graph, 0);
    for row in 0..told.len() {
        told[row] = rank_row(
            graph,
            &inverse,
            amounts,
            row * graph.size(),
            row,
            ranks,
            duals,
        );
    }
}

/// The rank of the row that begins here.
fn rank_row(
    graph: &Graph,
    inverse: &InverseLaplacian,
    amounts: &[i64],
    start: usize,
    row: usize,
    ranks: &mut [i64],
    duals: &mut [i64],
) -> i8
    requires amounts { start + graph.now.size ≤ length amounts.now }
    requires ranks { row < length ranks.old }
    requires duals { (row < length duals.old) ⊎ (length duals.old ≡ 0) }
    ensures answered { AnswersRank graph.now amounts.now start row result ranks.old ranks.new duals.old duals.new }
    ensures ranks { length ranks.new ≡ length ranks.old }
    ensures duals { length duals.new ≡ length duals.old }
    ensures ranks_elsewhere { KeepsElsewhere (pos 0) 1 ranks.old ranks.new row }
    ensures duals_elsewhere { KeepsElsewhere (pos 0) 1 duals.old duals.new row }
{
    let divisor = match divisor_at(graph, amounts, start) {
        Ok(divisor) => divisor,
        Err(told) => return told,
    };
    let _size = graph.size();
    let both = both_ranks(graph, Some(inverse), &divisor);
    ranks[row] = both.0;
    if row < duals.len() {
        duals[row] = both.1;
    }
    0
}

/// Whether the rank of each row is at least k.
pub(crate) fn rank_test_rows(
    graph: &Graph,
    k: u32,
    amounts: &[i64],
    told: &mut [i8],
    losses: &mut [i64],
)
    requires amounts { length amounts.now ≡ length told.old * graph.now.size }
    requires losses { IsAllOrNone (length told.old * graph.now.size) (length losses.old) }
    ensures told { length told.new ≡ length told.old }
    ensures answered { (r : ℕ) → r < length told.old → AnswersTest graph.now amounts.now k (r * graph.now.size)
        (slice_index_or told.new r (pos 0)) losses.old losses.new }
{
    let inverse = InverseLaplacian::new(graph, 0);
    for row in 0..told.len() {
        told[row] = rank_test_row(graph, &inverse, k, amounts, row * graph.size(), losses);
    }
}

/// The test of the row that begins here.
fn rank_test_row(
    graph: &Graph,
    inverse: &InverseLaplacian,
    k: u32,
    amounts: &[i64],
    start: usize,
    losses: &mut [i64],
) -> i8
    requires amounts { start + graph.now.size ≤ length amounts.now }
    requires losses { (start + graph.now.size ≤ length losses.old) ⊎ (length losses.old ≡ 0) }
    ensures answered { AnswersTest graph.now amounts.now k start result losses.old losses.new }
    ensures losses { length losses.new ≡ length losses.old }
    ensures elsewhere { KeepsElsewhere (pos 0) graph.now.size losses.old losses.new start }
{
    match divisor_at(graph, amounts, start) {
        Ok(divisor) => tell_test(graph, inverse, k, &divisor, start, losses),
        Err(told) => told,
    }
}

/// Whether the rank of a divisor is at least k: 1 if it is, and 0 if not, with the first loss; or what is wrong.
fn tell_test(
    graph: &Graph,
    inverse: &InverseLaplacian,
    k: u32,
    divisor: &Divisor,
    start: usize,
    losses: &mut [i64],
) -> i8
    requires size { divisor.now.size ≡ graph.now.size }
    requires losses { (start + graph.now.size ≤ length losses.old) ⊎ (length losses.old ≡ 0) }
    ensures right { IsTestTold graph.now (at divisor.now) k start result losses.old losses.new }
    ensures losses { length losses.new ≡ length losses.old }
    ensures elsewhere { KeepsElsewhere (pos 0) graph.now.size losses.old losses.new start }
{
    let _size = graph.size();
    if let Ok(verdict) = rank_at_least_by(graph, Some(inverse), divisor, k) {
        return tell_verdict(graph, divisor, k, &verdict, start, losses);
    }
    if has_rank_at_least(graph, divisor, k) {
        1
    } else {
        NO_LOSS_NAMED
    }
}

/// What a right answer to a test of a divisor tells. Divisor and degree serve the clauses alone.
fn tell_verdict(
    graph: &Graph,
    _divisor: &Divisor,
    _k: u32,
    verdict: &RankVerdict,
    start: usize,
    losses: &mut [i64],
) -> i8
    requires right { IsRightRank graph.now (at _divisor.now) _k verdict.now }
    requires losses { (start + graph.now.size ≤ length losses.old) ⊎ (length losses.old ≡ 0) }
    ensures right { IsTestTold graph.now (at _divisor.now) _k start result losses.old losses.new }
    ensures losses { length losses.new ≡ length losses.old }
    ensures elsewhere { KeepsElsewhere (pos 0) graph.now.size losses.old losses.new start }
{
    match verdict {
        RankVerdict::AtLeast(_) => 1,
        RankVerdict::Below(_, loss) => {
            put(losses, start, graph.size(), &to_i64s(loss.amounts()));
            0
        }
    }
}
