//! Reductions without a guess: level by level of the distance from a vertex.

ghost use Rattle.std.specs.Prelude.{◌≡◌, ℕ, ◌<◌, ◌≤◌, pos};
ghost use Rattle.std.specs.Bool.{OnTrue, OnFalse};
ghost use Rattle.std.specs.Int.RustNames.{unsigned_abs};
ghost use Rattle.dg_chips.specs.Vector.{at};
ghost use Rattle.dg_reduce.specs.Reductions.{IsReduction};

use crate::burning_down::fire_unburnt_sets;
use crate::clearing::clear_levels;
use crate::levels::levels_from;
use crate::limits::MAX_START;
use crate::reduced::Reduced;
use dg_chips::{Script, Wide};
use dg_graph::Graph;

/// The reduction of amounts within 2,000,000 that begins with a script, any that is 0 at q. What the script leaves is reduced,
/// if it is within the range of a reduction, and the sum of both scripts leads from the amounts to the reduced ones.
///
/// Whether amounts are reduced for q does not depend on what q has, which may leave the range when the others send their
/// dollars there. So q counts as 0 in between, and only the script of the inner reduction is used.
#[cold]
#[inline(never)]
pub fn reduce_from_script(graph: &Graph, q: usize, chips: &Wide, script: &Script) -> Reduced
    requires size { chips.now.size ≡ graph.now.size }
    requires vertex { q < graph.now.size }
    requires script { script.now.size ≡ graph.now.size }
    requires range { (v : ℕ) → v < graph.now.size → unsigned_abs (at chips.now v) ≤ MAX_START }
    requires start { at script.now q ≡ pos 0 }
    ensures { IsReduction graph.now q (at chips.now) 451000000 result }
{
    let _size = graph.size();
    let left = chips.fired_by(graph, script).with_amount(q, 0);
    if !may_reduce(&left) {
        return reduce_by_levels(graph, q, chips);
    }
    let sum = script.plus(&reduce_by_levels(graph, q, &left).script);
    Reduced {
        divisor: chips.fired_by(graph, &sum),
        script: sum,
    }
}

/// Whether a reduction may start from these amounts: all are within 2,000,000.
pub fn may_reduce(chips: &Wide) -> bool
    ensures small { OnTrue result
        ((v : ℕ) → v < chips.now.size → unsigned_abs (at chips.now v) ≤ MAX_START) }
    ensures large { OnFalse result
        ((v : ℕ) × (v < chips.now.size) × (MAX_START < unsigned_abs (at chips.now v))) }
{
    for v in 0..chips.size() {
        if chips.get(v).unsigned_abs() > MAX_START {
            return false;
        }
    }
    true
}

/// The reduction of amounts within 2,000,000 without a guess: first the debts off q are cleared, level by level of the
/// distance from q, then the vertices that do not burn lend until all burn.
pub fn reduce_by_levels(graph: &Graph, q: usize, chips: &Wide) -> Reduced
    requires size { chips.now.size ≡ graph.now.size }
    requires vertex { q < graph.now.size }
    requires range { (v : ℕ) → v < graph.now.size → unsigned_abs (at chips.now v) ≤ MAX_START }
    ensures { IsReduction graph.now q (at chips.now) 451000000 result }
{
    let _size = graph.size();
    let levels = levels_from(graph, q);
    let cleared = clear_levels(graph, &levels, chips);
    let walk = fire_unburnt_sets(graph, q, &cleared);
    Reduced {
        divisor: walk.chips,
        script: Script::relative_to(&walk.script, q),
    }
}
