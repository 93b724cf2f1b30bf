//! Graphs.

use crate::tables::pair;
use dg_graph::{Graph, GraphFault, JoinFault};
use std::test::Fail;

// Sizes, edges, and why there is no such graph.
static NO_GRAPHS: [(usize, &[(u8, u8, u8)], GraphFault); 8] = [
    (0, &[], GraphFault::Size),
    (17, &[(0, 0, 0)], GraphFault::Size),
    (2, &[(0, 1, 1), (2, 2, 0)], GraphFault::NoVertex(1)),
    (2, &[(0, 1, 1), (1, 1, 0)], GraphFault::Loop(1)),
    (2, &[(0, 1, 0), (0, 2, 1)], GraphFault::Multiplicity(0)),
    (3, &[(0, 1, 63), (1, 2, 64)], GraphFault::Valence(1)),
    (3, &[(0, 1, 64)], GraphFault::Valence(0)),
    (4, &[(0, 1, 1), (2, 3, 1)], GraphFault::NotConnected),
];

#[test]
fn what_is_no_graph(rt: HostRuntime) {
    for (n, edges, fault) in &NO_GRAPHS {
        assert!(rt; Graph::new(*n, edges).err() == Some(*fault), "{fault}");
    }
}

#[test]
fn edges_add_up(rt: HostRuntime) -> Result<(), Fail> {
    let graph = Graph::new(3, &[(0, 1, 1), (1, 2, 61), (1, 0, 1)])?;
    assert!(rt; graph.size() == 3 && graph.genus() == 61);
    assert!(rt; graph.edges(0, 1) == 2 && graph.edges(2, 1) == 61 && graph.edges(0, 2) == 0);
    assert!(rt; graph.valence(0) == 2 && graph.valence(1) == 63 && graph.valence(2) == 61);
    assert!(rt; graph.join(2, 0)? == Graph::new(3, &[(0, 1, 2), (1, 2, 61), (0, 2, 1)])?);
    Ok(())
}

// Two vertices of a pair that has all its edges, and why they are not joined by one more.
static NO_JOINS: [(u8, u8, JoinFault); 6] = [
    (0, 2, JoinFault::NoVertex),
    (16, 0, JoinFault::NoVertex),
    (255, 255, JoinFault::NoVertex),
    (1, 1, JoinFault::Loop),
    (0, 1, JoinFault::Valence),
    (1, 0, JoinFault::Valence),
];

#[test]
fn what_is_not_joined(rt: HostRuntime) -> Result<(), Fail> {
    let full = *pair(63, &[0, 0])?.graph();
    for (u, v, fault) in &NO_JOINS {
        assert!(rt; full.join(*u, *v).err() == Some(*fault), "{u} and {v}");
    }
    Ok(())
}
