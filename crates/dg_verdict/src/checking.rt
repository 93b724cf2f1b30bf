//! Whether a verdict is right.

ghost use Rattle.std.specs.Prelude.{◌≡◌, ℕ, ◌<◌, take, MatchBool};
ghost use Rattle.dg_theory.specs.Burning.{MayBurn, IsBurningOrder};
ghost use Rattle.dg_graph.specs.Sets.{in_set};
ghost use Rattle.dg_chips.specs.Vector.{at};
ghost use Rattle.dg_verdict.specs.Right.{IsRightVerdict};

use crate::verdict::Verdict;
use dg_chips::{Divisor, Wide};
use dg_graph::{Graph, contains, with_vertex};
use dg_reduce::is_effective_off;

/// Whether a verdict is right for a divisor and vertex q, whoever made it and whatever it holds. Nothing is reduced
/// anew: firing by the script and burning in the order of the verdict tell. It takes no memory.
pub fn check(graph: &Graph, q: usize, divisor: &Divisor, verdict: &Verdict) -> bool
    requires size { divisor.now.size ≡ graph.now.size }
    requires vertex { q < graph.now.size }
    ensures { MatchBool result
        (IsRightVerdict graph.now q (at divisor.now) verdict.now)
        (¬ IsRightVerdict graph.now q (at divisor.now) verdict.now) }
{
    let size = graph.size();
    if verdict.script.size() != size || verdict.reduced.size() != size {
        return false;
    }
    if verdict.script.get(q) != 0 || !verdict.script.leads(graph, divisor, &verdict.reduced) {
        return false;
    }
    if !is_effective_off(graph, q, &verdict.reduced) {
        return false;
    }
    if !is_burning_order(graph, q, &verdict.reduced, &verdict.order) {
        return false;
    }
    verdict.winnable == (verdict.reduced.get(q) >= 0)
}

/// Whether the first places of the order, as many as there are vertices, name each of them once, q first, and each
/// later one may burn when those before it have.
fn is_burning_order(graph: &Graph, q: usize, chips: &Wide, order: &[u8; 16]) -> bool
    requires size { chips.now.size ≡ graph.now.size }
    requires vertex { q < graph.now.size }
    ensures { MatchBool result
        (IsBurningOrder graph.now q (at chips.now) (take graph.now.size order.now))
        (¬ IsBurningOrder graph.now q (at chips.now) (take graph.now.size order.now)) }
{
    let size = graph.size();
    if usize::from(order[0]) != q {
        return false;
    }
    let mut reached = with_vertex(0, q);
    for i in 1..size {
        let v = usize::from(order[i]);
        if !may_burn(graph, chips, reached, v) {
            return false;
        }
        reached = with_vertex(reached, v);
    }
    true
}

/// Whether a number is a vertex that is not reached, and that more edges join to reached ones than it holds dollars.
fn may_burn(graph: &Graph, chips: &Wide, reached: u16, v: usize) -> bool
    requires { chips.now.size ≡ graph.now.size }
    ensures { MatchBool result
        (MayBurn graph.now (at chips.now) (in_set reached) v)
        (¬ MayBurn graph.now (at chips.now) (in_set reached) v) }
{
    v < graph.size()
        && !contains(reached, v)
        && chips.get(v) < i128::from(graph.edges_into(reached, v))
}
