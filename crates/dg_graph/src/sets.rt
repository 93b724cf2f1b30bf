//! Sets of vertices: bit v of a number stands for vertex v.

ghost use Rattle.std.specs.Prelude.{◌≡◌, ℕ, ◌<◌, ◌≤◌, ◌&&◌, not, nat_lt, true, false, MatchOption};
ghost use Rattle.std.specs.Bool.{OnTrue, OnFalse};
ghost use Rattle.dg_graph.specs.Sets.{in_set, IsLeastIn};
ghost use Rattle.dg_theory.specs.Sets.{IsVertexSet, IsSetWith, IsSetWithout, IsEmptySet};

use crate::graph::MAX_VERTICES;

/// Whether a vertex, 0 to 15, is in a set.
pub fn contains(set: u16, v: usize) -> bool
    requires { v < MAX_VERTICES }
    ensures { result ≡ in_set set v }
{
    set >> v & 1 == 1
}

/// The set with a vertex, 0 to 15.
pub fn with_vertex(set: u16, v: usize) -> u16
    requires { v < MAX_VERTICES }
    ensures { IsSetWith (in_set set) v (in_set result) }
{
    set | 1 << v
}

/// The set without one of its vertices.
pub fn without_vertex(set: u16, v: usize) -> u16
    requires few { v < MAX_VERTICES }
    requires member { in_set set v ≡ true }
    ensures { IsSetWithout (in_set set) v (in_set result) }
{
    set ^ 1 << v
}

/// The vertices that are in two sets.
pub fn intersection(set: u16, other: u16) -> u16
    ensures { (v : ℕ) → in_set result v ≡ (in_set set v && in_set other v) }
{
    set & other
}

/// The least vertex of a set.
pub fn least_vertex(set: u16) -> Option<usize>
    ensures { MatchOption result (IsEmptySet (in_set set)) (IsLeastIn (in_set set)) }
{
    if set == 0 {
        return None;
    }
    Some(set.trailing_zeros() as usize)
}

/// The vertices of a graph of 1 to 16 vertices that are not in a set.
pub fn complement(size: usize, set: u16) -> u16
    requires some { 1 ≤ size }
    requires few { size ≤ MAX_VERTICES }
    ensures { (v : ℕ) → in_set result v ≡ (nat_lt v size && not (in_set set v)) }
{
    !set & u16::MAX >> (MAX_VERTICES - size)
}

/// Whether a set holds vertices below the size alone.
pub fn is_vertex_set(size: usize, set: u16) -> bool
    ensures within { OnTrue result (IsVertexSet size (in_set set)) }
    ensures past { OnFalse result ((v : ℕ) × (size ≤ v) × (in_set set v ≡ true)) }
{
    for v in size..MAX_VERTICES {
        if contains(set, v) {
            return false;
        }
    }
    true
}
