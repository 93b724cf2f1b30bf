//! Reduced divisors, as single firings have them.

ghost use Rattle.std.specs.Prelude.{◌≡◌, ◌≤◌};

use crate::edges::{SQUARE, TRIANGLE};
use crate::reduce::reference::{Single, reduce_singly};
use dg_chips::Divisor;
use dg_graph::Graph;
use dg_reduce::{Reduced, reduce};
use std::test::Fail;

/// Whether two reductions of so many vertices are the same.
fn agrees(size: usize, reduced: &Reduced, single: &Single) -> bool
    requires few { size ≤ 16 }
    requires divisor { reduced.now.divisor.size ≡ size }
    requires script { reduced.now.script.size ≡ size }
{
    for v in 0..size {
        if reduced.divisor.get(v) != i128::from(single.chips[v])
            || reduced.script.get(v) != single.script[v]
        {
            return false;
        }
    }
    true
}

/// Whether the reductions for all vertices are those by single firings.
fn is_as_singly(graph: &Graph, divisor: &Divisor) -> bool
    requires { divisor.now.size ≡ graph.now.size }
{
    for q in 0..graph.size() {
        if !agrees(
            graph.size(),
            &reduce(graph, q, divisor),
            &reduce_singly(graph, q, divisor),
        ) {
            return false;
        }
    }
    true
}

#[test]
fn all_small_divisors_of_the_triangle(rt: HostRuntime) -> Result<(), Fail> {
    let triangle = Graph::new(3, TRIANGLE)?;
    let amounts = [-5, -4, -3, -2, -1, 0, 1, 2, 3, 4, 5];
    for code in 0..1331usize {
        let divisor = Divisor::new(
            &triangle,
            &[
                amounts[code % 11],
                amounts[code / 11 % 11],
                amounts[code / 121 % 11],
            ],
        )?;
        assert!(rt; is_as_singly(&triangle, &divisor), "{code}");
    }
    Ok(())
}

#[test]
fn all_small_divisors_of_the_square(rt: HostRuntime) -> Result<(), Fail> {
    let square = Graph::new(4, SQUARE)?;
    let amounts = [-3, -2, -1, 0, 1, 2, 3];
    for code in 0..2401usize {
        let divisor = Divisor::new(
            &square,
            &[
                amounts[code % 7],
                amounts[code / 7 % 7],
                amounts[code / 49 % 7],
                amounts[code / 343 % 7],
            ],
        )?;
        assert!(rt; is_as_singly(&square, &divisor), "{code}");
    }
    Ok(())
}
