//! Verdicts, row by row.

ghost use Rattle.std.specs.Prelude.{◌≡◌, ℕ, ◌<◌, ◌≤◌, ◌+◌, ◌*◌, ◌⊎◌, pos, length};
ghost use Rattle.std.specs.List.{slice_index_or};
ghost use Rattle.dg_abi.specs.Calls.{IsAllOrNone};
ghost use Rattle.dg_abi.specs.Rows.{AnswersJudge, KeepsElsewhere};

use crate::rows::{divisor_at, in_64_bits, put};
use dg_graph::Graph;
use dg_reduce::InverseLaplacian;
use dg_verdict::judge_with_inverse;

/// Verdicts on all rows.
pub(crate) fn judge_rows(
    graph: &Graph,
    q: usize,
    amounts: &[i64],
    told: &mut [i8],
    scripts: &mut [i64],
    reduced: &mut [i64],
    orders: &mut [u8],
)
    requires vertex { q < graph.now.size }
    requires amounts { length amounts.now ≡ length told.old * graph.now.size }
    requires scripts { IsAllOrNone (length told.old * graph.now.size) (length scripts.old) }
    requires reduced { IsAllOrNone (length told.old * graph.now.size) (length reduced.old) }
    requires orders { IsAllOrNone (length told.old * graph.now.size) (length orders.old) }
    ensures told { length told.new ≡ length told.old }
    ensures answered { (r : ℕ) → r < length told.old → AnswersJudge graph.now q amounts.now (r * graph.now.size)
        (slice_index_or told.new r (pos 0)) scripts.old scripts.new reduced.old reduced.new orders.old orders.new }
{
    let inverse = InverseLaplacian::new(graph, q);
    for row in 0..told.len() {
        told[row] = judge_row(
            graph,
            &inverse,
            q,
            amounts,
            row * graph.size(),
            scripts,
            reduced,
            orders,
        );
    }
}

/// The verdict on the row that begins here: 1 if it is winnable, and 0 if not; or what is wrong with it.
fn judge_row(
    graph: &Graph,
    inverse: &InverseLaplacian,
    q: usize,
    amounts: &[i64],
    start: usize,
    scripts: &mut [i64],
    reduced: &mut [i64],
    orders: &mut [u8],
) -> i8
    requires vertex { q < graph.now.size }
    requires amounts { start + graph.now.size ≤ length amounts.now }
    requires scripts { (start + graph.now.size ≤ length scripts.old) ⊎ (length scripts.old ≡ 0) }
    requires reduced { (start + graph.now.size ≤ length reduced.old) ⊎ (length reduced.old ≡ 0) }
    requires orders { (start + graph.now.size ≤ length orders.old) ⊎ (length orders.old ≡ 0) }
    ensures answered { AnswersJudge graph.now q amounts.now start result
        scripts.old scripts.new reduced.old reduced.new orders.old orders.new }
    ensures scripts { length scripts.new ≡ length scripts.old }
    ensures reduced { length reduced.new ≡ length reduced.old }
    ensures orders { length orders.new ≡ length orders.old }
    ensures scripts_elsewhere { KeepsElsewhere (pos 0) graph.now.size scripts.old scripts.new start }
    ensures reduced_elsewhere { KeepsElsewhere (pos 0) graph.now.size reduced.old reduced.new start }
    ensures orders_elsewhere { KeepsElsewhere 0 graph.now.size orders.old orders.new start }
{
    let divisor = match divisor_at(graph, amounts, start) {
        Ok(divisor) => divisor,
        Err(told) => return told,
    };
    let verdict = judge_with_inverse(graph, Some(inverse), q, &divisor);
    // The clauses of `size` say that the graph, the amounts and the script are within their limits.
    let size = graph.size();
    let _amounts = divisor.size();
    let _script = verdict.script.size();
    put(scripts, start, size, &verdict.script.entries());
    put(reduced, start, size, &in_64_bits(&verdict.reduced));
    put(orders, start, size, &verdict.order);
    i8::from(verdict.winnable)
}
