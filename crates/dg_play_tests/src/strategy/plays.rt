//! Plays of one seat.
ghost use Rattle.std.specs.Prelude.{◌≡◌};

use crate::strategy::choices::richest_lends;
use crate::table_tests::{TableTest, on_a_table};
use crate::tables::{amounts, triangle};
use dg_chips::{Divisor, Move};
use dg_graph::Graph;
use dg_log::{Log, Name};
use dg_rules::Reply;
use dg_strategy::{Ended, Settler, Strategy, greedy_choice, play, settle_out};
use dg_table::{Fault, Seat, Table};
use std::alloc::Global;
use std::cell::Cell;
use std::process::Abort;
use std::sync::Wait;
use std::test::Fail;

#[test]
fn one_seat_plays(rt: HostRuntime) -> Result<(), Fail> {
    let owing = triangle(&[2, -1, -1])?;
    for (cells, test) in [(8, TableTest::Strategies), (3, TableTest::Turns)] {
        on_a_table(&rt, rt.alloc(), cells, &owing, 1, test)?;
    }
    Ok(())
}

// Four turns of lending at the richest vertex, each of which asks once; and none.
pub(crate) fn played<N: Name, R: Wait + Abort>(
    rt: &R,
    alloc: Global,
    table: &Table<N>,
    seat: &mut Seat<N>,
) -> Result<(), Fail> {
    let asks = Cell::new(0u64);
    let lender = Strategy::new(
        |graph: &Graph, position: &Divisor| -> Option<Move>
            requires { position.now.size ≡ graph.now.size }
        {
            asks.set(asks.get().wrapping_add(1));
            richest_lends(graph, position)
        },
    );
    let richest = play(rt, alloc, table, seat, &lender, 4)?;
    assert!(rt; matches!(&richest, Ended::Turns) && seat.calls() == 4 && asks.get() == 4);
    let none = play(rt, alloc, table, seat, &lender, 0)?;
    assert!(rt; matches!(&none, Ended::Turns) && asks.get() == 4);
    are_answered(rt, table.log())?;
    settled(rt, alloc, table, seat)
}

// If nobody is in debt, a settler is asked once, and claims. Then there is room for three entries more, and a turn that is
// refused asks nothing.
fn settled<N: Name, R: Wait + Abort>(
    rt: &R,
    alloc: Global,
    table: &Table<N>,
    seat: &mut Seat<N>,
) -> Result<(), Fail> {
    let asks = Cell::new(0u64);
    let greedy = Settler::new(|_, position| {
        asks.set(asks.get().wrapping_add(1));
        greedy_choice(position)
    });
    let claimed = settle_out(rt, alloc, table, seat, &greedy, 5)?;
    assert!(rt; matches!(&claimed, Ended::Settled(_)) && asks.get() == 1);
    let turns = Cell::new(0u64);
    let lend = Strategy::new(|_, _| {
        turns.set(turns.get().wrapping_add(1));
        Some(Move::Lend(0))
    });
    let ended: Result<Ended<N>, Fault> = play(rt, alloc, table, seat, &lend, 5);
    assert!(rt; matches!(&ended, Err(Fault::Full)) && seat.calls() == 8 && turns.get() == 3);
    Ok(())
}

fn are_answered<N: Name>(rt: &impl Abort, log: &Log<N>) -> Result<(), Fail> {
    let replies = [
        Reply::Moved(amounts(&[0, 0, 0])?),
        Reply::Moved(amounts(&[-2, 1, 1])?),
        Reply::Moved(amounts(&[-1, -1, 2])?),
        Reply::Moved(amounts(&[0, 0, 0])?),
    ];
    for (i, reply) in replies.iter().enumerate() {
        let (_, entry) = log.read(i as u32).ok_or("an entry")?;
        assert!(rt; entry.reply == *reply, "entry {i}");
    }
    Ok(())
}
