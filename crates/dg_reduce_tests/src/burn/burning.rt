//! What burns, by hand and as the reference has it.

ghost use Rattle.std.specs.Prelude.{◌<◌};

use crate::burn::reference::burn_anew;
use crate::edges::{PATH, SQUARE, TRIANGLE};
use dg_burn::{BurnCounts, burn, burn_counted, capped_amounts};
use dg_chips::Wide;
use dg_graph::Graph;
use dg_reduce::is_effective_off;
use std::process::Abort;
use std::test::Fail;

const MULTIPLE: &[(u8, u8, u8)] = &[
    (0, 1, 2),
    (1, 2, 1),
    (2, 3, 3),
    (3, 4, 1),
    (4, 5, 2),
    (5, 0, 1),
    (0, 3, 1),
    (1, 4, 2),
];

/// Edges, q, amounts, the vertices that burn in their order, and the set of the others.
type Case = (
    &'static [(u8, u8, u8)],
    usize,
    &'static [i128],
    &'static [u8],
    u16,
);

// By hand, square from 2 with 0 1 -3 0: 3 burns (1 edge, 0 dollars), then 0 (1 edge, from 3), then 1 (2 edges, 1 dollar).
// With 2 0 -1 1: 1 burns, and 0 has 1 edge for 2 dollars, 3 has 1 edge for 1. With 1 1 0 2 nobody does. Path from 3 with
// 0 1 0 5: 2 burns, and 1 has 1 edge for 1 dollar. From 1, all burn from the least on.
static CASES: [Case; 7] = [
    (TRIANGLE, 2, &[0, 0, -5], &[2, 0, 1], 0),
    (&[], 0, &[-1], &[0], 0),
    (SQUARE, 2, &[0, 1, -3, 0], &[2, 3, 0, 1], 0),
    (SQUARE, 2, &[2, 0, -1, 1], &[2, 1], 9),
    (SQUARE, 2, &[1, 1, 0, 2], &[2], 11),
    (PATH, 3, &[0, 1, 0, 5], &[3, 2], 3),
    (PATH, 1, &[0, -4, 0, 0], &[1, 0, 2, 3], 0),
];

#[test]
fn what_burns(rt: HostRuntime) -> Result<(), Fail> {
    for case in &CASES {
        burns(&rt, case)?;
    }
    Ok(())
}

fn burns(rt: &impl Abort, case: &Case) -> Result<(), Fail> {
    let (items, q, amounts, order, unburnt) = *case;
    let graph = Graph::new(amounts.len(), items)?;
    let chips = Wide::new(&graph, amounts)?;
    assert!(rt; q < graph.size() && is_effective_off(&graph, q, &chips));
    let burnt = burn(&graph, q, &chips);
    assert!(rt; usize::from(burnt.burnt) == order.len());
    assert!(rt; burnt.order.starts_with(order), "{order:?}");
    assert!(rt; burnt.unburnt == unburnt, "{order:?}");
    Ok(())
}

/// The last sixteen digits of a number, the last one first.
fn digits(number: u32, base: u32) -> [i128; 16]
    requires { 0 < base }
{
    let mut digits = [0; 16];
    let mut rest = number;
    for digit in digits.iter_mut() {
        *digit = i128::from(rest % base);
        rest /= base;
    }
    digits
}

// One more than the largest amount, how many lists of amounts are tried, and how far apart they are, read as the digits of
// a number. Of the first two graphs all are tried.
#[test]
fn as_counted_anew(rt: HostRuntime) -> Result<(), Fail> {
    are_as_anew(&rt, &Graph::new(3, TRIANGLE)?, 5, 125, 1)?;
    are_as_anew(&rt, &Graph::new(4, SQUARE)?, 4, 256, 1)?;
    are_as_anew(&rt, &Graph::new(6, MULTIPLE)?, 7, 500, 235)
}

fn are_as_anew(
    rt: &impl Abort,
    graph: &Graph,
    base: u32,
    count: u32,
    apart: u32,
) -> Result<(), Fail> {
    assert!(rt; base > 0);
    for place in 0..count {
        let amounts = digits(apart.wrapping_mul(place), base);
        let chips = Wide::new(graph, &amounts[..graph.size()])?;
        for q in 0..graph.size() {
            is_as_anew(rt, graph, q, &chips);
        }
    }
    Ok(())
}

fn is_as_anew(rt: &impl Abort, graph: &Graph, q: usize, chips: &Wide) {
    assert!(rt; q < graph.size() && chips.size() == graph.size());
    assert!(rt; is_effective_off(graph, q, chips));
    let burnt = burn(graph, q, chips);
    assert!(rt; burnt == burn_anew(graph, q, chips));
    let counted = burn_counted(graph, q, &capped_amounts(chips));
    assert!(rt; counted.burnt == burnt);
    is_joined(rt, graph, &counted);
}

fn is_joined(rt: &impl Abort, graph: &Graph, counted: &BurnCounts) {
    for v in 0..graph.size() {
        let out = graph.edges_out(counted.burnt.unburnt, v);
        assert!(rt; u32::from(counted.joined[v]) == out, "vertex {v}");
    }
}
