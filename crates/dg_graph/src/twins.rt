//! Vertices that can be exchanged.

ghost use Rattle.std.specs.Prelude.{◌≡◌, ◌≢◌, ℕ, ◌<◌, ◌↔◌, true, MatchBool, slice_index};
ghost use Rattle.dg_theory.specs.Twins.{AreTwins};
ghost use Rattle.dg_graph.specs.Sets.{in_set, AreTwinSets};

use crate::graph::{Graph, MAX_VERTICES};
use crate::sets::with_vertex;

impl Graph {
    /// The other twins of each vertex: those that have as many edges as it to each third vertex.
    pub fn twins(&self) -> [u16; MAX_VERTICES]
        ensures { AreTwinSets self.now result }
    {
        let mut sets = [0; MAX_VERTICES];
        for v in 0..self.size() {
            sets[v] = self.twins_of(v);
        }
        sets
    }

    /// The other twins of a vertex.
    fn twins_of(&self, v: usize) -> u16
        requires { v < self.now.size }
        ensures part { (u : ℕ) → in_set result u ≡ true → (u < self.now.size) × (u ≢ v) × AreTwins self.now v u }
        ensures all { (u : ℕ) → u < self.now.size → u ≢ v → AreTwins self.now v u → in_set result u ≡ true }
    {
        let mut set = 0;
        for u in 0..self.size() {
            if self.is_other_twin(v, u) {
                set = with_vertex(set, u);
            }
        }
        set
    }

    /// Whether a vertex is another than this, and a twin of it.
    fn is_other_twin(&self, v: usize, u: usize) -> bool
        requires v { v < self.now.size }
        requires u { u < self.now.size }
        ensures { MatchBool result ((u ≢ v) × AreTwins self.now v u) (¬ ((u ≢ v) × AreTwins self.now v u)) }
    {
        u != v && self.are_twins(v, u)
    }

    /// Whether two vertices have as many edges to each third one.
    fn are_twins(&self, u: usize, v: usize) -> bool
        requires u { u < self.now.size }
        requires v { v < self.now.size }
        ensures { MatchBool result (AreTwins self.now u v) (¬ AreTwins self.now u v) }
    {
        let row = self.row(u);
        let other = self.row(v);
        for w in 0..self.size() {
            if w != u && w != v && row[w] != other[w] {
                return false;
            }
        }
        true
    }
}
