//! Rank tests beside the plain way, which reduces each divisor less each trial anew.
ghost use Rattle.std.specs.Prelude.{◌≡◌, ◌<◌, ◌^◌, IfOk};

use dg_chips::{ChipFault, Divisor};
use dg_graph::{Graph, GraphFault};
use dg_rank::{has_rank_at_least, rank_at_least, trial, trials};
use dg_reduce::reduce;
use dg_verdict::RankVerdict;
use std::process::Abort;
use std::test::Fail;

// Numbers that look random, each from the one before.
#[derive(Drop)]
struct Numbers {
    state: u64,
}

impl Numbers {
    // The next number, below 2^31.
    fn next(&mut self) -> u32
        ensures { result < 2 ^ 31 }
    {
        self.state = self
            .state
            .wrapping_mul(6_364_136_223_846_793_005)
            .wrapping_add(1_442_695_040_888_963_407);
        (self.state >> 33) as u32
    }
}

// A graph of 1 to 16 vertices: a tree, and some edges more.
fn any_graph(numbers: &mut Numbers) -> Result<Graph, GraphFault>
    ensures { IfOk result (λ g. 0 < g.size) }
{
    let size = numbers.next() % 16 + 1;
    let more = numbers.next() % (size + 1);
    let mut edges = [(0, 0, 0); 33];
    let mut count = 0;
    for v in 1..size {
        if count < 33 {
            edges[count] = (
                (numbers.next() % v) as u8,
                v as u8,
                (numbers.next() % 3) as u8 + 1,
            );
            count += 1;
        }
    }
    for _ in 0..more {
        let u = numbers.next() % size;
        let v = numbers.next() % size;
        if u != v && count < 33 {
            edges[count] = (u as u8, v as u8, (numbers.next() % 2) as u8 + 1);
            count += 1;
        }
    }
    Graph::new(size as usize, &edges[..count.min(33)])
}

// A divisor that is left with a degree from 0 on and below the genus once `degree` dollars are lost, if there is such a degree.
fn any_divisor(numbers: &mut Numbers, graph: &Graph, degree: u32) -> Result<Divisor, ChipFault>
    ensures { IfOk result (λ d. d.size ≡ graph.now.size) }
{
    let size = graph.size();
    let mut amounts = [0; 16];
    let mut rest = i64::from(degree) + i64::from(numbers.next() % graph.genus().max(1) as u32);
    for v in 1..size {
        let amount = i64::from(numbers.next() % 9) - 3;
        amounts[v] = amount;
        rest = rest.wrapping_sub(amount);
    }
    amounts[0] = rest;
    Divisor::new(graph, &amounts[..size])
}

// The answer of the rank test, by the plain way; `None` past the limits and out of range.
pub(crate) fn plainly(graph: &Graph, divisor: &Divisor, degree: u32) -> Option<RankVerdict>
    requires { divisor.now.size ≡ graph.now.size }
{
    let size = graph.size();
    let count = trials(size, degree)?;
    for number in 0..count {
        let lost = trial(size, degree, number);
        let left = divisor.minus(&lost).ok()?;
        let _amounts = left.size();
        if reduce(graph, 0, &left).divisor.get(0) < 0 {
            return Some(RankVerdict::Below(degree, lost));
        }
    }
    Some(RankVerdict::AtLeast(degree))
}

#[test]
fn walks_answer_as_the_plain_way(rt: HostRuntime) -> Result<(), Fail> {
    let mut numbers = Numbers { state: 1 };
    let mut most = 0u32;
    let mut below = 0u32;
    for table in 0..600 {
        if passes(&rt, &mut numbers, table)? {
            most = most.saturating_add(1);
        } else {
            below = below.saturating_add(1);
        }
    }
    assert!(rt; most > 100 && below > 100, "{most} and {below}");
    Ok(())
}

// Whether the next rank test passes, which answers as the plain way.
fn passes(rt: &impl Abort, numbers: &mut Numbers, table: u32) -> Result<bool, Fail> {
    let graph = any_graph(numbers)?;
    let degree = numbers.next() % 4;
    let divisor = any_divisor(numbers, &graph, degree)?;
    let wanted = plainly(&graph, &divisor, degree).ok_or("a test within the limits")?;
    assert!(rt;
        rank_at_least(&graph, 0, &divisor, degree)? == wanted,
        "table {table}"
    );
    let passes = wanted == RankVerdict::AtLeast(degree);
    assert!(rt;
        has_rank_at_least(&graph, &divisor, degree) == passes,
        "table {table}"
    );
    Ok(passes)
}
