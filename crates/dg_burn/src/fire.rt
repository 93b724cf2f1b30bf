//! A fire that spreads over a graph, a row of sixteen bytes at a time: one vertex after another takes twice as many instructions.

ghost use Rattle.std.specs.Prelude.{◌≡◌, ℕ, ◌+◌, ◌-◌, ◌<◌, ◌≤◌, true, nat_lt, MatchOption, slice_index};
ghost use Rattle.dg_theory.specs.Multigraph.{edges_between};
ghost use Rattle.dg_graph.specs.declared.graph.TheConstants.{MAX_VERTICES};
ghost use Rattle.dg_graph.specs.Sets.{in_set};
ghost use Rattle.dg_theory.specs.Sets.{IsSetWithout};
ghost use Rattle.dg_burn.specs.Fires.{heat, IsUnlit, IsBurntOut, IsNextBurnt};

use dg_graph::{Graph, complement, intersection, least_vertex, without_vertex};
use std::simd::prelude::*;

/// More dollars than a vertex has edges: who holds more burns as who holds so many.
const ENOUGH: u8 = 127;

/// A fire on a graph, as far as it has come.
#[derive(Clone, Copy)]
pub struct Fire {
    /// The set of the vertices that do not burn.
    pub left: u16,
    /// How many dollars each vertex lacks to enough, and how many edges join it to those that burn: who does not burn and has
    /// more than enough of both burns next.
    pub heat: u8x16,
}

impl Fire {
    /// The fire before any vertex burns.
    pub fn new(graph: &Graph, held: &[u8; 16]) -> Fire
        ensures { IsUnlit graph.now.size held.now result }
    {
        Fire {
            left: complement(graph.size(), 0),
            heat: initial_heat(u8x16::from_array(*held)),
        }
    }

    /// The least vertex that does not burn with more edges to burning ones than it holds dollars.
    pub fn next_vertex(&self) -> Option<usize>
        ensures { MatchOption result (IsBurntOut self.now) (IsNextBurnt self.now) }
    {
        least_vertex(intersection(hot(self.heat), self.left))
    }

    /// Lets a vertex that is left burn: its edges are counted at all vertices.
    pub fn burn_vertex(&mut self, graph: &Graph, v: usize)
        requires vertex { v < graph.now.size }
        requires left { in_set self.old.left v ≡ true }
        requires room { (w : ℕ) → w < MAX_VERTICES →
            heat self.old w + edges_between graph.now v w ≤ 255 }
        ensures left { IsSetWithout (in_set self.old.left) v (in_set self.new.left) }
        ensures heat { (w : ℕ) → w < MAX_VERTICES →
            heat self.new w ≡ heat self.old w + edges_between graph.now v w }
    {
        let _size = graph.size();
        self.left = without_vertex(self.left, v);
        self.heat = with_row(self.heat, u8x16::from_array(*graph.row(v)));
    }
}

/// 127 less what each vertex holds, and no less than 0: its heat before anything burns.
fn initial_heat(held: u8x16) -> u8x16
    ensures { (v : ℕ) → v < MAX_VERTICES → slice_index result v ≡ 127 - slice_index held v }
{
    held.simd_max(u8x16::splat(ENOUGH)) - held
}

/// Adds a row of edges to the heat, lane by lane.
fn with_row(heat: u8x16, row: u8x16) -> u8x16
    requires { (v : ℕ) → v < MAX_VERTICES → slice_index heat v + slice_index row v ≤ 255 }
    ensures { (v : ℕ) → v < MAX_VERTICES →
        slice_index result v ≡ slice_index heat v + slice_index row v }
{
    heat + row
}

/// How much more heat each vertex has than before.
pub fn heat_gain(heat: u8x16, before: u8x16) -> [u8; 16]
    requires { (v : ℕ) → v < MAX_VERTICES → slice_index before v ≤ slice_index heat v }
    ensures gained { (v : ℕ) → v < MAX_VERTICES →
        slice_index result v ≡ slice_index heat v - slice_index before v }
    ensures past { (v : ℕ) → MAX_VERTICES ≤ v → slice_index result v ≡ 0 }
{
    (heat - before).to_array()
}

/// The vertices whose heat is more than enough.
fn hot(heat: u8x16) -> u16
    ensures { (v : ℕ) → in_set result v ≡ nat_lt 127 (slice_index heat v) }
{
    heat.simd_gt(u8x16::splat(ENOUGH)).to_bitmask() as u16
}
