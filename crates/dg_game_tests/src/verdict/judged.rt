//! What no row in tests/rows shows of verdicts: the orders in which vertices burn, which show that they are right, and which
//! inverses make their guesses.

use crate::edges::{SQUARE, TRIANGLE};
use dg_chips::Divisor;
use dg_graph::Graph;
use dg_reduce::InverseLaplacian;
use dg_verdict::{judge, judge_with_inverse};
use std::process::Abort;
use std::test::Fail;

/// Edges, q, amounts, and the order.
type Case = (
    &'static [(u8, u8, u8)],
    usize,
    &'static [i64],
    &'static [u8],
);

const PATH: &[(u8, u8, u8)] = &[(0, 1, 1), (1, 2, 1)];

static CASES: [Case; 7] = [
    (TRIANGLE, 0, &[2, -1, -1], &[0, 1, 2]),
    (TRIANGLE, 0, &[-1, 1, 0], &[0, 2, 1]),
    (TRIANGLE, 1, &[1, -1, 0], &[1, 2, 0]),
    (SQUARE, 0, &[-2, 0, 3, 0], &[0, 1, 3, 2]),
    (SQUARE, 2, &[3, 0, -2, 0], &[2, 1, 3, 0]),
    (PATH, 2, &[1, -3, 0], &[2, 1, 0]),
    (&[], 0, &[-1], &[0]),
];

#[test]
fn how_vertices_burn(rt: HostRuntime) -> Result<(), Fail> {
    for case in &CASES {
        has_order(&rt, case)?;
    }
    Ok(())
}

// Whether the verdict has the order, also by an inverse at another vertex.
fn has_order(rt: &impl Abort, case: &Case) -> Result<(), Fail> {
    let (items, q, amounts, order) = case;
    let graph = Graph::new(amounts.len(), items)?;
    let divisor = Divisor::new(&graph, amounts)?;
    assert!(rt; *q < graph.size());
    let verdict = judge(&graph, *q, &divisor);
    assert!(rt; verdict.order.starts_with(order), "{order:?}");
    let inverse = InverseLaplacian::new(&graph, 0);
    assert!(rt; judge_with_inverse(&graph, Some(&inverse), *q, &divisor) == verdict);
    Ok(())
}

#[test]
fn which_inverses_serve(rt: HostRuntime) -> Result<(), Fail> {
    let square = Graph::new(4, SQUARE)?;
    let inverse = InverseLaplacian::new(&square, 0);
    assert!(rt; inverse.serves(&square, 0));
    assert!(rt; !inverse.serves(&square, 1));
    let joined = square.join(0, 2)?;
    assert!(rt; !inverse.serves(&joined, 0));
    Ok(())
}
