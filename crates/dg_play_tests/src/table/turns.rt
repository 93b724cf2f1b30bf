//! Calls that are chosen at the position which they find.

use crate::tables::amounts;
use dg_chips::{Divisor, Move};
use dg_graph::Graph;
use dg_log::Name;
use dg_rules::Reply;
use dg_table::{Fault, Seat, Table};
use std::alloc::Global;
use std::process::Abort;
use std::sync::Wait;
use std::test::Fail;

// If b and c are in debt the seat lends at a, and claims if they are not; then it lends once more, and the table is full.
pub(crate) fn turns<N: Name, R: Wait + Abort>(
    rt: &R,
    alloc: Global,
    table: &Table<N>,
    seat: &mut Seat<N>,
) -> Result<(), Fail> {
    let owing = *table.start().divisor();
    let mut asks = 0u32;
    let mut settle = |_: &Graph, position: &Divisor| {
        asks = asks.wrapping_add(1);
        if *position == owing || asks > 2 {
            Some(Move::Lend(0))
        } else {
            None
        }
    };
    let lent = table.turn(rt, alloc, seat, &mut settle)?;
    let claimed = table.turn(rt, alloc, seat, &mut settle)?;
    let again = table.turn(rt, alloc, seat, &mut settle)?;
    let refused = table.turn(rt, alloc, seat, &mut settle);
    assert_eq!(rt; asks, 3);
    assert!(rt; table.log().entry(&lent).reply == Reply::Moved(amounts(&[0, 0, 0])?));
    assert!(rt; table.log().entry(&claimed).reply == Reply::Won);
    assert!(rt; table.log().entry(&again).reply == Reply::Moved(amounts(&[-2, 1, 1])?));
    match refused {
        Err(Fault::Full) => Ok(()),
        _ => Err(Fail::from("a fourth entry")),
    }
}
