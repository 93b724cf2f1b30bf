//! The table that the tests play on.
use dg_chips::{Divisor, Start};
use dg_graph::Graph;
use std::test::Fail;

// The triangle where a has two dollars, and b and c owe one each, seen from a.
pub(crate) const TRIANGLE: &str =
    r#"{"vertices":["a","b","c"],"edges":[["a","b",1],["b","c",1],["a","c",1]],"amounts":[2,-1,-1],"q":"a"}"#;

// The triangle with these amounts, seen from its first vertex.
pub(crate) fn triangle(amounts: &[i64]) -> Result<Start, Fail> {
    let graph = Graph::new(3, &[(0, 1, 1), (1, 2, 1), (0, 2, 1)])?;
    Ok(Start::new(graph, Divisor::new(&graph, amounts)?, 0)?)
}
