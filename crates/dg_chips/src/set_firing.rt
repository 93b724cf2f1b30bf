//! What a vertex lends and gets when the vertices of a set lend together.

ghost use Rattle.std.specs.Prelude.{◌≡◌, ℕ, ◌+◌, ◌<◌, ◌≤◌, ◌*◌, ◌^◌, pos, ◌*ℤ◌, if◌then◌else◌, slice_index};
ghost use Rattle.std.specs.Int.RustNames.{unsigned_abs};
ghost use Rattle.dg_theory.specs.Multigraph.{valence};
ghost use Rattle.dg_theory.specs.Burning.{edges_into};
ghost use Rattle.dg_theory.specs.Firing.{gain, indicator, multiple};
ghost use Rattle.dg_graph.specs.declared.graph.TheConstants.{MAX_VERTICES, MAX_VALENCE};
ghost use Rattle.dg_graph.specs.Sets.{in_set};
ghost use Rattle.dg_theory.specs.Sets.{IsVertexSet};

use dg_graph::{Graph, contains};
use std::simd::prelude::*;

/// How often a vertex lends when each vertex of a set lends `scaled` times.
pub(crate) fn lendings(set: u16, times: i128, v: usize) -> i128
    requires vertex { v < MAX_VERTICES }
    requires times { unsigned_abs times ≤ 2 ^ 120 }
    ensures entry { result ≡ multiple times (indicator (in_set set)) v }
    ensures limit { unsigned_abs result ≤ 2 ^ 120 }
{
    if contains(set, v) {
        return times;
    }
    0
}

/// What a vertex gets when each vertex of a set lends `scaled` times.
pub(crate) fn gain_of_set(graph: &Graph, set: u16, times: i128, v: usize) -> i128
    requires vertex { v < graph.now.size }
    requires times { unsigned_abs times ≤ 2 ^ 120 }
    ensures gain { result ≡ gain graph.now (multiple times (indicator (in_set set))) v }
    ensures limit { unsigned_abs result ≤ MAX_VALENCE * 2 ^ 120 }
{
    let _size = graph.size();
    if contains(set, v) {
        -carried(graph.edges_out(set, v), times)
    } else {
        carried(graph.edges_into(set, v), times)
    }
}

/// What some edges carry together when each of them carries `each`.
fn carried(edges: u32, each: i128) -> i128
    requires few { edges ≤ MAX_VALENCE }
    requires each { unsigned_abs each ≤ 2 ^ 120 }
    ensures product { result ≡ pos edges *ℤ each }
    ensures limit { unsigned_abs result ≤ MAX_VALENCE * 2 ^ 120 }
{
    if edges == 0 {
        return 0;
    }
    i128::from(edges) * each
}

/// What each vertex gets, and what it lends, when each vertex of a set lends once.
pub(crate) fn set_firing_sums(graph: &Graph, set: u16) -> ([u8; 16], [u8; 16])
    requires { IsVertexSet graph.now.size (in_set set) }
    ensures got { (v : ℕ) → v < MAX_VERTICES →
        slice_index result.0 v ≡ edges_into graph.now (in_set set) v }
    ensures lent { (v : ℕ) → v < MAX_VERTICES →
        slice_index result.1 v ≡ (if in_set set v then valence graph.now v else 0) }
{
    let mut got = u8x16::splat(0);
    let mut lent = [0; 16];
    for v in 0..graph.size() {
        if contains(set, v) {
            got = add_row(got, u8x16::from_array(*graph.row(v)));
            lent[v] = graph.valence(v);
        }
    }
    (got.to_array(), lent)
}

/// Adds `row` to `sums`, lane by lane. No lane passes 255.
fn add_row(sums: u8x16, row: u8x16) -> u8x16
    requires { (v : ℕ) → v < MAX_VERTICES → slice_index sums v + slice_index row v ≤ 255 }
    ensures { (v : ℕ) → v < MAX_VERTICES →
        slice_index result v ≡ slice_index sums v + slice_index row v }
{
    sums + row
}
