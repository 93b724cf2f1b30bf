//! Small tables that the tests play on.
use dg_chips::{Divisor, Start};
use dg_graph::Graph;
use std::test::Fail;

// The triangle with these amounts, seen from its first vertex.
pub(crate) fn triangle(amounts: &[i64]) -> Result<Start, Fail> {
    let graph = Graph::new(3, &[(0, 1, 1), (1, 2, 1), (0, 2, 1)])?;
    Ok(Start::new(graph, Divisor::new(&graph, amounts)?, 0)?)
}

// These amounts on the triangle.
pub(crate) fn amounts(numbers: &[i64]) -> Result<Divisor, Fail> {
    Ok(*triangle(numbers)?.divisor())
}

// The Petersen graph.
pub(crate) fn petersen() -> Result<Graph, Fail> {
    let edges = [
        (0, 1, 1),
        (1, 2, 1),
        (2, 3, 1),
        (3, 4, 1),
        (0, 4, 1),
        (0, 5, 1),
        (1, 6, 1),
        (2, 7, 1),
        (3, 8, 1),
        (4, 9, 1),
        (5, 7, 1),
        (7, 9, 1),
        (6, 9, 1),
        (6, 8, 1),
        (5, 8, 1),
    ];
    Ok(Graph::new(10, &edges)?)
}
