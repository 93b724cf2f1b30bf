//! The search for the vertices that chains of edges join to vertex 0.

ghost use Rattle.std.specs.Prelude.{◌≡◌, ℕ, ◌<◌, ◌≤◌, true, false, MatchOption, MatchBool, slice_index};
ghost use Rattle.dg_theory.specs.Multigraph.{entry};
ghost use Rattle.dg_graph.specs.Search.{is_in, IsAdjacentTo, IsInOrNotAdjacent, IsPairwiseConnected, HasUnreachable};

use crate::graph::MAX_VERTICES;
use crate::table::Table;

/// Whether a chain of edges joins vertex 0 to every other.
pub fn is_connected(size: usize, table: &Table) -> bool
    requires some { 1 ≤ size }
    requires few { size ≤ MAX_VERTICES }
    requires symmetric { (u v : ℕ) → entry table.now u v ≡ entry table.now v u }
    ensures { MatchBool result (IsPairwiseConnected size (entry table.now)) (HasUnreachable size (entry table.now)) }
{
    let mut reached = [false; MAX_VERTICES];
    reached[0] = true;
    'search: while let Some(v) = next_adjacent(size, table, &reached) {
        reached[v] = true;
    }
    all_reached(size, &reached)
}

/// The first vertex that is not reached and that an edge joins to one that is.
#[tactic(auto, unfolding(dg_theory::specs::Multigraph::entry))]
fn next_adjacent(size: usize, table: &Table, reached: &[bool; MAX_VERTICES]) -> Option<usize>
    requires { size ≤ MAX_VERTICES }
    ensures { MatchOption result
        ((u : ℕ) → u < size → IsInOrNotAdjacent size (entry table.now) reached.now u)
        (λ v. (v < size) × (is_in reached.now v ≡ false) ×
        IsAdjacentTo size (entry table.now v) reached.now
        × ((u : ℕ) → u < v → IsInOrNotAdjacent size (entry table.now) reached.now u)) }
{
    for v in 0..size {
        if !reached[v] && is_adjacent(size, &table[v], reached) {
            return Some(v);
        }
    }
    None
}

/// Whether an edge of the row leads to a vertex that is reached.
fn is_adjacent(size: usize, row: &[u8; MAX_VERTICES], reached: &[bool; MAX_VERTICES]) -> bool
    requires { size ≤ MAX_VERTICES }
    ensures { MatchBool result
        (IsAdjacentTo size (slice_index row.now) reached.now)
        (¬ IsAdjacentTo size (slice_index row.now) reached.now) }
{
    for w in 0..size {
        if row[w] > 0 && reached[w] {
            return true;
        }
    }
    false
}

/// Whether every vertex is reached.
fn all_reached(size: usize, reached: &[bool; MAX_VERTICES]) -> bool
    requires { size ≤ MAX_VERTICES }
    ensures { MatchBool result
        ((v : ℕ) → v < size → is_in reached.now v ≡ true)
        ((v : ℕ) × (v < size) × (is_in reached.now v ≡ false)) }
{
    for v in 0..size {
        if !reached[v] {
            return false;
        }
    }
    true
}
