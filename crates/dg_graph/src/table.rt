//! The table of the numbers of edges, and its sums.

ghost use Rattle.std.specs.Prelude.{◌≡◌, ℕ, ◌<◌, ◌≤◌, ◌*◌, MatchOption, slice_index};
ghost use Rattle.dg_theory.specs.Sums.{nat_sum_below};
ghost use Rattle.dg_theory.specs.Multigraph.{entry};
ghost use Rattle.dg_theory.specs.Joins.{row_with_edge, table_with_edge};
ghost use Rattle.dg_graph.specs.Graph.{IsGraph};
ghost use Rattle.dg_graph.specs.Valences.{valences_of};

use crate::graph::{MAX_VALENCE, MAX_VERTICES};

/// The numbers of edges, by both vertices.
pub type Table = [[u8; MAX_VERTICES]; MAX_VERTICES];

/// The sum of a row's first `size` numbers.
pub fn row_sum(size: usize, row: &[u8; MAX_VERTICES]) -> u32
    requires { size ≤ MAX_VERTICES }
    ensures sum { result ≡ nat_sum_below size (slice_index row.now) }
    ensures limit { result ≤ 255 * size }
{
    let mut sum = 0u32;
    for v in 0..size {
        sum += u32::from(row[v]);
    }
    sum
}

/// The sums of all rows of the table of a graph, which are its valences.
#[tactic(auto, unfolding(dg_theory::specs::Multigraph::entry))]
pub fn valences_of(size: usize, table: &Table) -> [u8; MAX_VERTICES]
    requires { IsGraph (record { size = size; table = table.now }) }
    ensures { result ≡ valences_of (record { size = size; table = table.now }) }
{
    let mut valences = [0; MAX_VERTICES];
    for v in 0..MAX_VERTICES {
        valences[v] = row_sum(size, &table[v]) as u8;
    }
    valences
}

/// The first vertex with more than 63 edges.
#[tactic(auto, unfolding(dg_theory::specs::Multigraph::entry))]
pub fn first_high_valence(size: usize, table: &Table) -> Option<usize>
    requires { size ≤ MAX_VERTICES }
    ensures { MatchOption result
        ((v : ℕ) → v < size → nat_sum_below size (entry table.now v) ≤ MAX_VALENCE)
        (λ v. (v < size) × (MAX_VALENCE < nat_sum_below size (entry table.now v))
        × ((u : ℕ) → u < v → nat_sum_below size (entry table.now u) ≤ MAX_VALENCE)) }
{
    for v in 0..size {
        if row_sum(size, &table[v]) > MAX_VALENCE {
            return Some(v);
        }
    }
    None
}

/// The table with one more edge in row u and column v, if there are fewer than 255.
#[tactic(auto, unfolding(dg_theory::specs::Multigraph::entry))]
pub fn plus_edge(mut table: Table, u: usize, v: usize) -> Table
    requires u { u < MAX_VERTICES }
    requires v { v < MAX_VERTICES }
    requires few { entry table u v < 255 }
    ensures { result ≡ table_with_edge table u v }
{
    table[u] = row_plus_edge(table[u], v);
    table
}

/// The row with one more edge at v, if there are fewer than 255.
fn row_plus_edge(mut row: [u8; MAX_VERTICES], v: usize) -> [u8; MAX_VERTICES]
    requires v { v < MAX_VERTICES }
    requires few { slice_index row v < 255 }
    ensures { result ≡ row_with_edge row v }
{
    row[v] += 1;
    row
}
