//! Reduced divisors.

use crate::tables::pair;
use dg_chips::{Divisor, Script, Wide};
use dg_graph::Graph;
use dg_reduce::{Reduced, reduce, reduce_wide};
use std::test::Fail;

#[test]
fn what_divisors_reduce_to(rt: HostRuntime) -> Result<(), Fail> {
    let path = Graph::new(4, &[(0, 1, 1), (1, 2, 1), (2, 3, 1)])?;
    let divisor = Wide::new(&path, &[30, 0, 0, 0])?;
    let script = Script::new(&path, &[0, 30, 50, 60])?;
    let reduced = reduce(&path, 0, &Divisor::new(&path, &[0, 10, 10, 10])?);
    assert!(rt; reduced == Reduced { divisor, script });
    let three = *pair(3, &[0, 0])?.graph();
    let divisor = Wide::new(&three, &[-2, 2])?;
    let script = Script::new(&three, &[0, 666_666])?;
    let reduced = reduce_wide(&three, 0, &Wide::new(&three, &[-2_000_000, 2_000_000])?);
    assert!(rt; reduced == Reduced { divisor, script });
    Ok(())
}

// Sixteen vertices, each two of them joined by four edges, with a thousand dollars at each: off the first all of them lend 250
// times.
#[test]
fn what_the_complete_graph_reduces_to(rt: HostRuntime) -> Result<(), Fail> {
    let mut edges = [(0, 0, 4); 120];
    let mut count = 0;
    for v in 0..16 {
        for u in 0..v {
            if count < 120 {
                edges[count] = (u, v, 4);
                count += 1;
            }
        }
    }
    let graph = Graph::new(16, &edges)?;
    let (mut amounts, mut entries) = ([0; 16], [250; 16]);
    amounts[0] = 16_000;
    entries[0] = 0;
    let divisor = Wide::new(&graph, &amounts)?;
    let script = Script::new(&graph, &entries)?;
    let reduced = reduce(&graph, 0, &Divisor::new(&graph, &[1_000; 16])?);
    assert!(rt; reduced == Reduced { divisor, script });
    Ok(())
}
