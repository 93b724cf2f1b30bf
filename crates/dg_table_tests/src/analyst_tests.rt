//! Looks, and what is entered on them.

use crate::gates::Meeting;
use dg_analyst::{Look, Reckoned, Tried, commit, commit_rank, look, reckon, try_rank};
use dg_chips::{Divisor, Move, Script, Wide};
use dg_game::{Plain, Reply};
use dg_log::Name;
use dg_rank::{OpenGate, RankFault, RankVerdict};
use dg_table::{Seat, Table};
use dg_verdict::Verdict;
use std::alloc::Global;
use std::process::Abort;
use std::sync::Wait;
use std::test::Fail;
use std::thread::Threads;
use std::time::Clock;

const LEND: Plain = Plain::Move(Move::Lend(0));

// That nothing is to be done, if these are the amounts that are left.
pub(crate) fn settled(amounts: &Divisor) -> Reply {
    Reply::Verdict(Verdict {
        winnable: true,
        script: Script::sized(&[0, 0, 0]),
        reduced: Wide::of(amounts),
        order: [0, 1, 2, 0, 0, 0, 0, 0, 0, 0, 0, 0, 0, 0, 0, 0],
    })
}

// The first seat looks and reckons, the second calls, and the first commits: first past a move, and then past a gift.
pub(crate) fn commits<N: Name, R: Wait + Abort>(
    rt: &R,
    alloc: Global,
    table: &Table<N>,
    first: &mut Seat<N>,
    second: &mut Seat<N>,
) -> Result<(), Fail> {
    let taken: Look<N> = look(table, rt, alloc, first)?;
    assert!(rt; taken.receipt().number() == 0 && taken.gifts() == 0);
    assert!(rt; *taken.position() == *table.start().divisor());
    assert!(rt; *taken.graph() == *table.start().graph());
    let paid = settled(&Divisor::sized(&[0, 0, 0]));
    assert!(rt; committed(rt, alloc, table, first, second, taken, LEND)? == paid);
    let taken = look(table, rt, alloc, first)?;
    let given = Plain::Gift(1, 1);
    assert!(rt; committed(rt, alloc, table, first, second, taken, given)? == Reply::Stale(1));
    Ok(())
}

// A gift that is refused makes no look stale.
pub(crate) fn commits_past_a_refusal<N: Name, R: Wait + Abort>(
    rt: &R,
    alloc: Global,
    table: &Table<N>,
    first: &mut Seat<N>,
    second: &mut Seat<N>,
) -> Result<(), Fail> {
    let taken = look(table, rt, alloc, first)?;
    let kept = settled(&Divisor::sized(&[1_000_000, 0, 0]));
    let given = Plain::Gift(0, 1);
    assert!(rt; committed(rt, alloc, table, first, second, taken, given)? == kept);
    Ok(())
}

// What the first seat is answered, if the second calls between its look and its commit.
fn committed<N: Name, R: Wait + Abort>(
    rt: &R,
    alloc: Global,
    table: &Table<N>,
    first: &mut Seat<N>,
    second: &mut Seat<N>,
    taken: Look<N>,
    between: Plain,
) -> Result<Reply, Fail> {
    let number = taken.receipt().number();
    let reckoned: Reckoned<N> = reckon(taken);
    table.call(rt, alloc, second, between)?;
    match commit(table, rt, alloc, first, reckoned) {
        Ok(receipt) => {
            assert!(rt; u64::from(receipt.number()) == u64::from(number) + 2);
            Ok(table.log().entry(&receipt).reply)
        }
        Err((_, fault)) => Err(Fail::from(fault)),
    }
}

// The same with a rank test by two workers, who meet at a gate; the move between leaves its answer as it was.
pub(crate) fn tries<N: Name, R: Threads + Wait + Clock + Abort + Sync>(
    rt: &R,
    alloc: Global,
    table: &Table<N>,
    first: &mut Seat<N>,
    second: &mut Seat<N>,
) -> Result<(), Fail> {
    let taken = look(table, rt, alloc, first)?;
    table.call(rt, alloc, second, LEND)?;
    let meeting = Meeting::of_two(rt);
    let tried: Tried<N> = match try_rank(rt, taken, 1, 2, &meeting) {
        Ok(tried) => tried,
        Err((_, fault)) => return Err(Fail::from(fault)),
    };
    assert!(rt; meeting.has_met());
    let below = RankVerdict::Below(1, Divisor::sized(&[0, 0, 1]));
    match commit_rank(table, rt, alloc, first, tried) {
        Ok(receipt) => {
            assert!(rt; receipt.number() == 2);
            assert!(rt; table.log().entry(&receipt).reply == Reply::Rank(below));
            Ok(())
        }
        Err((_, fault)) => Err(Fail::from(fault)),
    }
}

// On sixteen vertices there are 490,314 ways to lose eight dollars: the look comes back, and there is no entry.
pub(crate) fn asks_too_much<N: Name, R: Threads + Wait + Abort>(
    rt: &R,
    alloc: Global,
    table: &Table<N>,
    seat: &mut Seat<N>,
) -> Result<(), Fail> {
    let taken = look(table, rt, alloc, seat)?;
    match try_rank(rt, taken, 8, 1, &OpenGate) {
        Err((taken, RankFault::TooMany)) => {
            assert!(rt; taken.receipt().number() == 0 && seat.calls() == 1);
            assert!(rt; table.log().read(1).is_none());
            Ok(())
        }
        Ok(_) | Err((_, RankFault::Workers | RankFault::OutOfMemory | RankFault::Spawn)) => {
            Err(Fail::from("another answer"))
        }
    }
}
