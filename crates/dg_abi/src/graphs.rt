//! The graph of a list of edges.
ghost use Rattle.std.specs.Prelude.{◌≤◌, length, MatchResult};
ghost use Rattle.dg_graph.specs.Items.{IsGraphOf};
ghost use Rattle.dg_abi.specs.Calls.{RefusesGraph, items_of};

use crate::faults::{MAX_ITEMS, TOO_MANY_ITEMS, fault_number};
use dg_graph::Graph;

/// The graph of so many vertices with these edges; or the number of what is wrong with them.
pub(crate) fn graph_of(size: usize, edges: &[[u8; 3]]) -> Result<Graph, i64>
    ensures { MatchResult result
        (λ graph. (length edges.now ≤ 120) × IsGraphOf size (items_of edges.now) graph)
        (RefusesGraph size edges.now) }
{
    if edges.len() > MAX_ITEMS {
        return Err(TOO_MANY_ITEMS);
    }
    let mut items = [(0_u8, 0_u8, 0_u8); MAX_ITEMS];
    for i in 0..edges.len() {
        let [u, v, count] = edges[i];
        items[i] = (u, v, count);
    }
    match Graph::new(size, &items[..edges.len()]) {
        Ok(graph) => Ok(graph),
        Err(fault) => Err(fault_number(&fault)),
    }
}
