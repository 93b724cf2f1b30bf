//! From amounts without debts off q to reduced ones.

ghost use Rattle.std.specs.Prelude.{◌≡◌, ℕ, ◌<◌, ◌≤◌};
ghost use Rattle.std.specs.Int.RustNames.{unsigned_abs};
ghost use Rattle.dg_theory.specs.Reduced.{IsReduced};
ghost use Rattle.dg_graph.specs.Graph.{IsGraph};
ghost use Rattle.dg_chips.specs.Vector.{at};
ghost use Rattle.dg_reduce.specs.declared.limits.TheConstants.{MAX_START};
ghost use Rattle.dg_reduce.specs.States.{IsFiringTrace, IsClearedOff};

use crate::next_firing::next_firing;
use crate::walk::FiringTrace;
use dg_graph::Graph;

/// Lets the vertices that burning leaves lend, as often at once as they can, until all burn.
pub fn fire_unburnt_sets(graph: &Graph, q: usize, walk: &FiringTrace) -> FiringTrace
    requires graph { IsGraph graph.now }
    requires vertex { q < graph.now.size }
    requires range { (v : ℕ) → v < graph.now.size → unsigned_abs (at walk.now.start v) ≤ MAX_START }
    requires cleared { IsClearedOff graph.now q walk.now }
    ensures reduced { IsReduced graph.now q (at result.chips) }
    ensures tied { IsFiringTrace graph.now result }
    ensures start { result.start ≡ walk.now.start }
{
    let mut now = *walk;
    'burning: while let Some((set, times)) = next_firing(graph, q, &now.chips) {
        now = now.fired(graph, set, times);
    }
    now
}
