//! A graph: its size and the numbers of its edges.

ghost use Rattle.std.specs.Prelude.{◌≡◌, ℕ, ◌<◌, ◌≤◌, MatchBool, MatchResult, slice_index};
ghost use Rattle.dg_graph.specs.declared.graph.TheConstants.{MAX_VALENCE};
ghost use Rattle.dg_theory.specs.Multigraph.{edges_between, valence, genus};
ghost use Rattle.dg_theory.specs.Joins.{with_edge};
ghost use Rattle.dg_graph.specs.Graph.{IsGraph};
ghost use Rattle.dg_graph.specs.Items.{IsGraphOf};
ghost use Rattle.dg_graph.specs.Faults.{IsGraphFault};
ghost use Rattle.dg_graph.specs.Joins.{IsJoinable, IsJoinFault};

use crate::build::{edge_table, first_item_fault};
use crate::connected::is_connected;
use crate::fault::{GraphFault, JoinFault};
use crate::table::{Table, first_high_valence, plus_edge, row_sum, valences_of};
use std::marker::Model;

/// The most vertices.
pub const MAX_VERTICES: usize = 16;

/// The most edges at a vertex.
pub const MAX_VALENCE: u32 = 63;

/// A finite connected multigraph without loops: 1 to 16 vertices, numbered from 0, and at most 63 edges at each.
#[derive(Clone, Copy, PartialEq, Eq)]
pub struct Graph {
    size: usize,
    table: Table,
    valences: [u8; MAX_VERTICES],
}

impl Model for Graph {
    ghost use Rattle.dg_theory.specs.Multigraph.{Multigraph};

    ghost Value = { Multigraph };

    ghost use Rattle.std.proofs.Common.{sym};
    ghost use Rattle.dg_graph.specs.Valences.{valences_of, HasValences};

    ghost view = { λ a. record { size = a.size; table = a.table } };

    ghost invariant = { λ a. HasValences (record { size = a.size; table = a.table }) a.valences };

    ghost inverse = { λ g. record { size = g.size; table = g.table; valences = valences_of g } };

    ghost inverse_ok = { λ a h i.
        record { size = a.size; table = a.table; valences = sym h.valences i } };
}

impl Graph {
    /// The graph of `size` vertices whose edges are listed: two vertices and a number of edges in each item. A pair
    /// that is listed twice has the sum of both.
    ///
    /// The first fault is reported: `Size`; then item by item `NoVertex`, `Loop`, `Multiplicity`; then `Valence` for
    /// the least vertex with more than 63 edges; then `NotConnected`.
    pub fn new(size: usize, items: &[(u8, u8, u8)]) -> Result<Graph, GraphFault>
        ensures { MatchResult result (IsGraphOf size items.now) (IsGraphFault size items.now) }
    {
        if size == 0 || size > MAX_VERTICES {
            return Err(GraphFault::Size);
        }
        if let Some(fault) = first_item_fault(size, items) {
            return Err(fault);
        }
        let table = edge_table(size, items);
        if let Some(v) = first_high_valence(size, &table) {
            return Err(GraphFault::Valence(v));
        }
        if !is_connected(size, &table) {
            return Err(GraphFault::NotConnected);
        }
        let valences = valences_of(size, &table);
        Ok(Graph {
            size,
            table,
            valences,
        })
    }

    /// The graph with one more edge between two vertices.
    ///
    /// The first fault is reported: `NoVertex`; then `Loop`, if the two are the same; then `Valence`, if 63 edges
    /// meet at one of them already.
    pub fn join(&self, u: u8, v: u8) -> Result<Graph, JoinFault>
        ensures { MatchResult result
            (λ g. (g ≡ with_edge self.now u v) × IsGraph g × IsJoinable self.now u v)
            (IsJoinFault self.now u v) }
    {
        self.check_join(u, v)?;
        let (u, v) = (usize::from(u), usize::from(v));
        let once = plus_edge(self.table, u, v);
        let table = plus_edge(once, v, u);
        let valences = valences_of(self.size, &table);
        Ok(Graph {
            size: self.size,
            table,
            valences,
        })
    }

    /// Whether one more edge may be put between two vertices, or the fault for which `join` refuses it.
    pub fn check_join(&self, u: u8, v: u8) -> Result<(), JoinFault>
        ensures { MatchResult result
            (λ _. IsJoinable self.now u v)
            (IsJoinFault self.now u v) }
    {
        let (u, v) = (usize::from(u), usize::from(v));
        if u >= self.size || v >= self.size {
            return Err(JoinFault::NoVertex);
        }
        if u == v {
            return Err(JoinFault::Loop);
        }
        if self.has_max_valence(u) || self.has_max_valence(v) {
            return Err(JoinFault::Valence);
        }
        Ok(())
    }

    /// Whether as many edges as may be meet at a vertex.
    fn has_max_valence(&self, v: usize) -> bool
        requires { v < self.now.size }
        ensures { MatchBool result
            (MAX_VALENCE ≤ valence self.now v)
            (valence self.now v < MAX_VALENCE) }
    {
        u32::from(self.valence(v)) >= MAX_VALENCE
    }

    /// The number of vertices, 1 to 16.
    pub fn size(&self) -> usize
        ensures size { result ≡ self.now.size }
        ensures graph { IsGraph self.now }
    {
        self.size
    }

    /// The number of edges between two vertices, at most 63.
    #[tactic(auto, unfolding(dg_theory::specs::Multigraph::entry))]
    pub fn edges(&self, u: usize, v: usize) -> u8
        requires u { u < self.now.size }
        requires v { v < self.now.size }
        ensures { result ≡ edges_between self.now u v }
    {
        let table = &self.table;
        table[u][v]
    }

    /// The numbers of edges between a vertex and each other, 0 past the last vertex.
    #[tactic(auto, unfolding(dg_theory::specs::Multigraph::entry))]
    pub fn row(&self, v: usize) -> &[u8; MAX_VERTICES]
        requires { v < self.now.size }
        ensures { (w : ℕ) → slice_index result.now w ≡ edges_between self.now v w }
    {
        let table = &self.table;
        &table[v]
    }

    /// The number of edges at a vertex, at most 63.
    pub fn valence(&self, v: usize) -> u8
        requires { v < self.now.size }
        ensures { result ≡ valence self.now v }
    {
        let _size = self.size();
        self.valences()[v]
    }

    /// The number of edges at each vertex, 0 past the last vertex.
    pub fn valences(&self) -> &[u8; MAX_VERTICES]
        ensures { (v : ℕ) → slice_index result.now v ≡ valence self.now v }
    {
        &self.valences
    }

    /// The number of edges, less that of vertices, plus 1.
    pub fn genus(&self) -> i32
        ensures { result ≡ genus self.now }
    {
        // Each edge has two ends.
        let ends = row_sum(self.size(), self.valences());
        (ends / 2) as i32 - self.size as i32 + 1
    }
}
