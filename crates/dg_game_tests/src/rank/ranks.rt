//! Ranks, and both sides of Riemann-Roch.
ghost use Rattle.std.specs.Prelude.{◌≡◌, ◌<◌};

use crate::edges::{FOUR, PAIR, SQUARE, TRIANGLE};
use crate::rank::references::plainly;
use dg_chips::{Divisor, dual};
use dg_graph::Graph;
use dg_rank::{both_ranks, both_ranks_in_limits, has_rank_at_least, rank};
use dg_verdict::RankVerdict;
use std::process::Abort;
use std::test::Fail;

// The rank, by the plain way: the trials of degree 0, 1 and so on.
fn plain_rank(graph: &Graph, divisor: &Divisor) -> Option<i64>
    requires { divisor.now.size ≡ graph.now.size }
{
    for degree in 0..=40 {
        match plainly(graph, divisor, degree)? {
            RankVerdict::AtLeast(_) => {}
            RankVerdict::Below(..) => return Some(i64::from(degree) - 1),
        }
    }
    None
}

// Whether the ranks of a divisor and of its residual are those of the plain way, and both sides of Riemann-Roch agree, for each
// of `count` divisors: their amounts, less `least`, are the digits of the numbers below it.
fn agree(graph: &Graph, least: i8, digits: u16, count: u16) -> Result<bool, Fail>
    requires digits { 0 < digits }
    requires some { 0 < graph.now.size }
{
    let genus = i64::from(graph.genus());
    for number in 0..count {
        let mut amounts = [0; 16];
        let mut rest = number;
        for v in 0..graph.size() {
            amounts[v] = i64::from(rest % digits) + i64::from(least);
            rest /= digits;
        }
        let divisor = Divisor::new(graph, &amounts[..graph.size()])?;
        let canonical_less = dual(graph, &divisor)?;
        let Some(left) = plain_rank(graph, &divisor) else {
            return Ok(false);
        };
        let Some(dual_rank) = plain_rank(graph, &canonical_less) else {
            return Ok(false);
        };
        let Some(right) = divisor.degree().checked_add(1 - genus) else {
            return Ok(false);
        };
        if left.checked_sub(dual_rank) != Some(right) {
            return Ok(false);
        }
        if rank(graph, &divisor) != Some(left)
            || both_ranks(graph, None, &divisor) != (left, dual_rank)
            || both_ranks_in_limits(graph, &canonical_less) != Some((dual_rank, left))
        {
            return Ok(false);
        }
    }
    Ok(true)
}

#[test]
fn ranks_are_those_of_the_plain_way(rt: HostRuntime) -> Result<(), Fail> {
    assert!(rt; agree(&Graph::new(2, PAIR)?, -3, 7, 49)?);
    assert!(rt; agree(&Graph::new(3, TRIANGLE)?, -2, 5, 125)?);
    Ok(())
}

#[test]
fn ranks_on_four_are_those_of_the_plain_way(rt: HostRuntime) -> Result<(), Fail> {
    assert!(rt; agree(&Graph::new(4, SQUARE)?, -1, 3, 81)?);
    assert!(rt; agree(&Graph::new(4, FOUR)?, -1, 4, 256)?);
    Ok(())
}

// Eight vertices with so many edges between each two.
fn complete(between: u8) -> Result<Graph, Fail> {
    let mut edges = [(0, 0, 1); 28];
    let mut count = 0;
    for v in 0..8 {
        for u in 0..v {
            if count < 28 {
                edges[count] = (u, v, between);
                count += 1;
            }
        }
    }
    Ok(Graph::new(8, &edges)?)
}

// The canonical divisor has the rank g - 1, and a degree above 2g - 2 gives a rank of the degree less g: so it is on the
// complete graph of eight vertices, where g is 21 and K has 5 dollars at each, and with 999,999 dollars on the triangle. No
// tests within the limits of these divisors themselves tell that.
#[test]
fn ranks_past_the_limits(rt: HostRuntime) -> Result<(), Fail> {
    let eight = complete(1)?;
    is_past_the_limits(&rt, &eight, &Divisor::canonical(&eight), 20, 0)?;
    let triangle = Graph::new(3, TRIANGLE)?;
    let rich = Divisor::new(&triangle, &[999_999, 0, 0])?;
    is_past_the_limits(&rt, &triangle, &rich, 999_998, -1)
}

// Whether these are the ranks of the divisor and of its residual, and only the two together tell them.
fn is_past_the_limits(
    rt: &impl Abort,
    graph: &Graph,
    divisor: &Divisor,
    left: u32,
    dual_rank: i64,
) -> Result<(), Fail> {
    assert!(rt; graph.size() > 0 && divisor.size() == graph.size());
    assert!(rt; both_ranks(graph, None, divisor) == (i64::from(left), dual_rank));
    assert!(rt; rank(graph, divisor) == None);
    assert!(rt; both_ranks_in_limits(graph, divisor) == None);
    assert!(rt; has_rank_at_least(graph, divisor, left));
    assert!(rt; !has_rank_at_least(graph, divisor, left.saturating_add(1)));
    Ok(())
}

// Of degree g - 1 both tests have the same degree, and that of 16 dollars has 245,157 trials. By Baker and Norine's formula the
// rank is 15: 1 less than the least degree of the positive part of D - nu_P, over the class and all orders P.
#[test]
fn many_trials_of_both(rt: HostRuntime) -> Result<(), Fail> {
    let eight = complete(2)?;
    let middle = Divisor::new(&eight, &[48, 0, 0, 0, 0, 0, 0, 0])?;
    assert!(rt; has_rank_at_least(&eight, &middle, 15) && !has_rank_at_least(&eight, &middle, 16));
    Ok(())
}
