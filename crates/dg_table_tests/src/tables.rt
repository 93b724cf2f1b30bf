//! The tables of the examples, all seen from their first vertex.

use dg_chips::{Divisor, Start};
use dg_graph::Graph;
use std::test::Fail;

// Three vertices, each joined to the others; of the file with 2, -1 and -1 dollars too.
pub(crate) const TRIANGLE: &str =
    r#"{"vertices":["a","b","c"],"edges":[["a","b",1],["b","c",1],["a","c",1]],"amounts":[2,-1,-1],"q":"a"}"#;

// From each of sixteen vertices to the next.
pub(crate) const PATH: &[(u8, u8, u8)] = &[
    (0, 1, 1),
    (1, 2, 1),
    (2, 3, 1),
    (3, 4, 1),
    (4, 5, 1),
    (5, 6, 1),
    (6, 7, 1),
    (7, 8, 1),
    (8, 9, 1),
    (9, 10, 1),
    (10, 11, 1),
    (11, 12, 1),
    (12, 13, 1),
    (13, 14, 1),
    (14, 15, 1),
];

pub(crate) fn triangle(amounts: &[i64]) -> Result<Start, Fail> {
    let graph = Graph::new(3, &[(0, 1, 1), (1, 2, 1), (0, 2, 1)])?;
    Ok(Start::new(graph, Divisor::new(&graph, amounts)?, 0)?)
}
