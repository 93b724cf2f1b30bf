//! The tables of the examples, all seen from their first vertex.

use dg_chips::{Divisor, Start};
use dg_graph::Graph;
use std::test::Fail;

// Three vertices, each joined to the others; of the file with 2, -1 and -1 dollars too.
pub(crate) const TRIANGLE: &str =
    r#"{"vertices":["a","b","c"],"edges":[["a","b",1],["b","c",1],["a","c",1]],"amounts":[2,-1,-1],"q":"a"}"#;

pub(crate) fn triangle(amounts: &[i64]) -> Result<Start, Fail> {
    let graph = Graph::new(3, &[(0, 1, 1), (1, 2, 1), (0, 2, 1)])?;
    Ok(Start::new(graph, Divisor::new(&graph, amounts)?, 0)?)
}

// Four vertices in a ring.
pub(crate) fn square(amounts: &[i64]) -> Result<Start, Fail> {
    let graph = Graph::new(4, &[(0, 1, 1), (1, 2, 1), (2, 3, 1), (3, 0, 1)])?;
    Ok(Start::new(graph, Divisor::new(&graph, amounts)?, 0)?)
}

// Two vertices with so many edges.
pub(crate) fn pair(edges: u8, amounts: &[i64]) -> Result<Start, Fail> {
    let graph = Graph::new(2, &[(0, 1, edges)])?;
    Ok(Start::new(graph, Divisor::new(&graph, amounts)?, 0)?)
}
