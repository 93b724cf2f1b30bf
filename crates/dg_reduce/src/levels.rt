//! The levels of the vertices, which are their distances from q: how they are found, who of a level owes most, and who is
//! nearer.

ghost use Rattle.std.specs.Prelude.{◌≡◌, ℕ, ◌+◌, ◌<◌, ◌≤◌, ◌^◌, nat_lt, slice_index};
ghost use Rattle.std.specs.Int.RustNames.{unsigned_abs};
ghost use Rattle.dg_theory.specs.Distances.{IsDistance};
ghost use Rattle.dg_graph.specs.Sets.{in_set};
ghost use Rattle.dg_chips.specs.Vector.{at};
ghost use Rattle.dg_reduce.specs.Reaching.{AreLevelsReached, spread_level};
ghost use Rattle.dg_reduce.specs.States.{IsLargestDebt};

use dg_chips::Wide;
use dg_graph::{Graph, MAX_VERTICES, with_vertex};

/// How far each vertex is from q: the number of edges on a shortest chain.
pub fn levels_from(graph: &Graph, q: usize) -> [usize; 16]
    requires { q < graph.now.size }
    ensures { IsDistance graph.now q (slice_index result) }
{
    let size = graph.size();
    let mut levels = [size; 16];
    levels[q] = 0;
    for level in 0..size - 1 {
        levels = with_next_level(graph, &levels, level);
    }
    levels
}

/// The levels after the neighbours of each vertex of a level are reached.
fn with_next_level(graph: &Graph, levels: &[usize; 16], level: usize) -> [usize; 16]
    requires { level + 1 < graph.now.size }
    ensures { (q : ℕ) → q < graph.now.size →
        AreLevelsReached graph.now q level 0 (slice_index levels.now) →
        AreLevelsReached graph.now q (level + 1) 0 (slice_index result) }
{
    let mut reached = *levels;
    for v in 0..graph.size() {
        if reached[v] == level {
            reached = with_neighbour_levels(graph, v, &reached, level + 1);
        }
    }
    reached
}

/// The levels after the neighbours of a vertex that were not reached get a level.
fn with_neighbour_levels(graph: &Graph, v: usize, levels: &[usize; 16], level: usize) -> [usize; 16]
    requires { v < graph.now.size }
    ensures { (w : ℕ) → w < graph.now.size →
        slice_index result w ≡ spread_level graph.now v level (slice_index levels.now) w }
{
    let size = graph.size();
    let mut reached = *levels;
    for w in 0..size {
        if levels[w] == size && graph.edges(v, w) > 0 {
            reached[w] = level;
        }
    }
    reached
}

/// The largest debt of a vertex of the level, 0 if there is none.
pub fn largest_debt(levels: &[usize; 16], level: usize, chips: &Wide) -> i128
    requires { (v : ℕ) → v < chips.now.size → unsigned_abs (at chips.now v) ≤ 2 ^ 120 }
    ensures { IsLargestDebt chips.now.size (slice_index levels.now) level (at chips.now) result }
{
    let mut debt = 0;
    for v in 0..chips.size() {
        if levels[v] == level && chips.get(v) < -debt {
            debt = -chips.get(v);
        }
    }
    debt
}

/// The set of the vertices that are nearer than the level.
pub fn nearer_set(size: usize, levels: &[usize; 16], level: usize) -> u16
    requires { size ≤ MAX_VERTICES }
    ensures { (v : ℕ) → v < size → in_set result v ≡ nat_lt (slice_index levels.now v) level }
{
    let mut set = 0;
    for v in 0..size {
        if levels[v] < level {
            set = with_vertex(set, v);
        }
    }
    set
}
