//! Strategies.

use dg_chips::{Divisor, Move};
use dg_game::Reply;
use dg_graph::Graph;
use dg_log::Name;
use dg_strategy::{Ended, Settler, Strategy, greedy_choice, play, settle_out};
use dg_table::{Seat, Table};
use std::alloc::Global;
use std::process::Abort;
use std::sync::Wait;
use std::test::Fail;

// Two turns of lending at a, no turn, and a turn that claims.
pub(crate) fn plays<N: Name, R: Wait + Abort>(
    rt: &R,
    alloc: Global,
    table: &Table<N>,
    seat: &mut Seat<N>,
) -> Result<(), Fail> {
    let lend = Strategy::new(|_, _| Some(Move::Lend(0)));
    let ended = play(rt, alloc, table, seat, &lend, 2)?;
    assert!(rt; matches!(ended, Ended::Turns) && seat.calls() == 2);
    let ended: Ended<N> = play(rt, alloc, table, seat, &lend, 0)?;
    assert!(rt; matches!(ended, Ended::Turns) && seat.calls() == 2);
    let claimed = table.turn(rt, alloc, seat, &mut |_: &Graph, _: &Divisor| None)?;
    assert!(rt; claimed.number() == 2);
    let replies = [
        Reply::Moved(Divisor::sized(&[0, 0, 0])),
        Reply::Moved(Divisor::sized(&[-2, 1, 1])),
        Reply::NotWon,
    ];
    for (number, reply) in replies.iter().enumerate() {
        let (_, entry) = table.log().read(number as u32).ok_or("an entry")?;
        assert!(rt; entry.reply == *reply, "entry {number}");
    }
    Ok(())
}

// If nobody is in debt, the settler claims.
pub(crate) fn settles_nothing<N: Name, R: Wait + Abort>(
    rt: &R,
    alloc: Global,
    table: &Table<N>,
    seat: &mut Seat<N>,
) -> Result<(), Fail> {
    let greedy = Settler::new(|_, position| greedy_choice(position));
    match settle_out(rt, alloc, table, seat, &greedy, 5)? {
        Ended::Settled(receipt) => {
            assert!(rt; receipt.number() == 0 && seat.calls() == 1);
            assert!(rt; table.log().entry(&receipt).reply == Reply::Won);
            Ok(())
        }
        Ended::Turns => Err(Fail::from("a claim that does not come")),
    }
}

// What can't be won keeps the settler at it.
pub(crate) fn settles_debts<N: Name, R: Wait + Abort>(
    rt: &R,
    alloc: Global,
    table: &Table<N>,
    seat: &mut Seat<N>,
) -> Result<(), Fail> {
    let greedy = Settler::new(|_, position| greedy_choice(position));
    let ended = settle_out(rt, alloc, table, seat, &greedy, 5)?;
    assert!(rt; matches!(ended, Ended::Turns) && seat.calls() == 5);
    for number in 0..5 {
        let (_, entry) = table.log().read(number).ok_or("an entry")?;
        assert!(rt; matches!(entry.reply, Reply::Moved(_)));
    }
    Ok(())
}
