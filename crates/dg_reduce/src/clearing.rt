//! Clearing the debts of the levels, one after another.

ghost use Rattle.std.specs.Prelude.{◌≡◌, ℕ, ◌+◌, ◌<◌, ◌≤◌, slice_index};
ghost use Rattle.std.specs.Int.RustNames.{unsigned_abs};
ghost use Rattle.dg_theory.specs.Distances.{IsDistance};
ghost use Rattle.dg_graph.specs.Graph.{IsGraph};
ghost use Rattle.dg_chips.specs.Vector.{at};
ghost use Rattle.dg_reduce.specs.declared.limits.TheConstants.{MAX_START};
ghost use Rattle.dg_reduce.specs.States.{IsCleared};

use crate::levels::{largest_debt, nearer_set};
use crate::walk::FiringTrace;
use dg_chips::Wide;
use dg_graph::Graph;

/// Clears the debts off the vertex that the levels are counted from, from the farthest level to the nearest.
pub fn clear_levels(graph: &Graph, levels: &[usize; 16], chips: &Wide) -> FiringTrace
    requires graph { IsGraph graph.now }
    requires size { chips.now.size ≡ graph.now.size }
    requires range { (v : ℕ) → v < graph.now.size → unsigned_abs (at chips.now v) ≤ MAX_START }
    requires distance { (q : ℕ) × IsDistance graph.now q (slice_index levels.now) }
    ensures cleared { IsCleared graph.now (slice_index levels.now) 1 result }
    ensures start { result.start ≡ chips.now }
{
    let mut walk = FiringTrace::new(graph, chips);
    let mut level = graph.size() - 1;
    'levels: while level > 0 {
        walk = clear_level(graph, levels, level, &walk);
        level -= 1;
    }
    walk
}

/// Clears the debts of a level: all nearer vertices lend as often as the largest of these debts has dollars.
fn clear_level(graph: &Graph, levels: &[usize; 16], level: usize, walk: &FiringTrace) -> FiringTrace
    requires some { 0 < level }
    requires few { level ≤ 15 }
    requires distance { (q : ℕ) × IsDistance graph.now q (slice_index levels.now) }
    requires cleared { IsCleared graph.now (slice_index levels.now) (level + 1) walk.now }
    ensures cleared { IsCleared graph.now (slice_index levels.now) level result }
    ensures start { result.start ≡ walk.now.start }
{
    let debt = largest_debt(levels, level, &walk.chips);
    if debt == 0 {
        return *walk;
    }
    let set = nearer_set(graph.size(), levels, level);
    walk.fired(graph, set, debt)
}
