//! From a list of edges to the table of their numbers.

ghost use Rattle.std.specs.Prelude.{◌≡◌, ◌≢◌, ℕ, ◌+◌, ◌<◌, ◌≤◌, MatchOption, min, slice_index};
ghost use Rattle.dg_theory.specs.Multigraph.{entry};
ghost use Rattle.dg_graph.specs.Graph.{HasSixteenRows};
ghost use Rattle.dg_graph.specs.Items.{IsEdgeItem, AreEdgeItems, item_edges, edges_listed};
ghost use Rattle.dg_graph.specs.Faults.{IsGraphFault, IsSize};

use crate::fault::GraphFault;
use crate::graph::MAX_VERTICES;
use crate::table::Table;

/// The first fault of a single item.
pub fn first_item_fault(size: usize, items: &[(u8, u8, u8)]) -> Option<GraphFault>
    requires { IsSize size }
    ensures { MatchOption result (AreEdgeItems size items.now) (IsGraphFault size items.now) }
{
    for (i, &(u, v, edges)) in items.iter().enumerate() {
        let (u, v) = (usize::from(u), usize::from(v));
        if u >= size || v >= size {
            return Some(GraphFault::NoVertex(i));
        }
        if u == v {
            return Some(GraphFault::Loop(i));
        }
        if edges == 0 {
            return Some(GraphFault::Multiplicity(i));
        }
    }
    None
}

/// The sums of the items' edges, each cut off at 255.
pub fn edge_table(size: usize, items: &[(u8, u8, u8)]) -> Table
    requires size { IsSize size }
    requires items { AreEdgeItems size items.now }
    ensures cells { (u v : ℕ) → entry result u v ≡ min 255 (edges_listed items.now u v) }
    ensures square { HasSixteenRows result }
{
    let mut table = [[0; MAX_VERTICES]; MAX_VERTICES];
    'items: for &item in items {
        add_item(&mut table, item);
    }
    table
}

/// Adds the item's edges between its two vertices, in both directions, cut off at 255.
fn add_item(table: &mut Table, item: (u8, u8, u8))
    requires item { IsEdgeItem MAX_VERTICES item }
    requires capped { (a b : ℕ) → entry table.old a b ≤ 255 }
    requires square { HasSixteenRows table.old }
    ensures cells { (a b : ℕ) → entry table.new a b ≡ min 255 (entry table.old a b + item_edges item a b) }
    ensures square { HasSixteenRows table.new }
{
    let (u, v, edges) = item;
    let (u, v) = (usize::from(u), usize::from(v));
    add_edges(table, u, v, edges);
    add_edges(table, v, u, edges);
}

/// Adds edges in row u and column v, cut off at 255.
#[tactic(auto, unfolding(dg_theory::specs::Multigraph::entry))]
fn add_edges(table: &mut Table, u: usize, v: usize, edges: u8)
    requires u { u < MAX_VERTICES }
    requires v { v < MAX_VERTICES }
    requires square { HasSixteenRows table.old }
    ensures at { entry table.new u v ≡ min 255 (entry table.old u v + edges) }
    ensures row { (b : ℕ) → b ≢ v → entry table.new u b ≡ entry table.old u b }
    ensures others { (a b : ℕ) → a ≢ u → entry table.new a b ≡ entry table.old a b }
    ensures square { HasSixteenRows table.new }
{
    table[u] = row_plus_edges(table[u], v, edges);
}

/// The row with some edges more at v, cut off at 255.
fn row_plus_edges(mut row: [u8; MAX_VERTICES], v: usize, edges: u8) -> [u8; MAX_VERTICES]
    requires { v < MAX_VERTICES }
    ensures at { slice_index result v ≡ min 255 (slice_index row v + edges) }
    ensures others { (b : ℕ) → b ≢ v → slice_index result b ≡ slice_index row b }
{
    row[v] = row[v].saturating_add(edges);
    row
}
