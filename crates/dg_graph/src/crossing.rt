//! How many edges join a vertex to the vertices of a set, and to the others.

ghost use Rattle.std.specs.Prelude.{◌≡◌, ◌<◌, ◌≤◌};
ghost use Rattle.dg_theory.specs.Reduced.{edges_out};
ghost use Rattle.dg_theory.specs.Burning.{edges_into};
ghost use Rattle.dg_graph.specs.declared.graph.TheConstants.{MAX_VALENCE};
ghost use Rattle.dg_graph.specs.Sets.{in_set};

use crate::graph::Graph;
use crate::sets::contains;

impl Graph {
    /// The number of edges that join a vertex to those outside a set, at most 63.
    pub fn edges_out(&self, set: u16, v: usize) -> u32
        requires { v < self.now.size }
        ensures sum { result ≡ edges_out self.now (in_set set) v }
        ensures few { result ≤ MAX_VALENCE }
    {
        let mut sum = 0u32;
        for w in 0..self.size() {
            let edges = u32::from(self.edges(v, w));
            sum += if contains(set, w) { 0 } else { edges };
        }
        sum
    }

    /// The number of edges that join a vertex to those of a set, at most 63.
    pub fn edges_into(&self, set: u16, v: usize) -> u32
        requires { v < self.now.size }
        ensures sum { result ≡ edges_into self.now (in_set set) v }
        ensures few { result ≤ MAX_VALENCE }
    {
        let mut sum = 0u32;
        for w in 0..self.size() {
            let edges = u32::from(self.edges(v, w));
            sum += if contains(set, w) { edges } else { 0 };
        }
        sum
    }
}
