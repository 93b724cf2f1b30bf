//! A table that is filled to its last cell, and what is refused once it is full.

use crate::observer::watching::{Positions, keep_position};
use crate::table_tests::{TableTest, on_a_table};
use crate::tables::{amounts, triangle};
use dg_analyst::{Reckoned, Tried, commit, commit_rank, look, reckon, try_rank};
use dg_chips::{Divisor, Move};
use dg_graph::Graph;
use dg_log::{Log, Name};
use dg_observer::Observer;
use dg_rank::OpenGate;
use dg_rules::{Entry, Plain};
use dg_strategy::{Strategy, play};
use dg_table::{Audit, Fault, Seat, Table};
use std::alloc::Global;
use std::process::Abort;
use std::sync::Wait;
use std::test::Fail;
use std::thread::Threads;

// As many as a history may have, in equal shares of as many seats as there may be.
const CELLS: u32 = 65_536;

const SEATS: u8 = 64;

const CALLS: u64 = 1_024;

#[test]
fn a_table_is_filled_to_its_last_cell(rt: HostRuntime) -> Result<(), Fail> {
    on_a_table(
        &rt,
        rt.alloc(),
        CELLS,
        &triangle(&[0, 0, 0])?,
        SEATS,
        TableTest::Filled,
    )
}

// The first seat looks twice, and then all claim in turn, until each has made its calls. An observer reads all entries, and the
// table is closed.
pub(crate) fn fills<N: Name, R: Threads + Wait + Abort>(
    rt: &R,
    alloc: Global,
    table: Table<N>,
    seats: Vec<Seat<N>>,
) -> Result<(), Fail> {
    let mut seats = seats;
    is_played(rt, alloc, &table, seats.as_mut_slice())?;
    is_watched(rt, alloc, &table)?;
    let audit = table.close(seats).ok().ok_or("an audit")?;
    is_told(rt, alloc, &audit)
}

fn is_played<N: Name, R: Threads + Wait + Abort>(
    rt: &R,
    alloc: Global,
    table: &Table<N>,
    seats: &mut [Seat<N>],
) -> Result<(), Fail> {
    let first = seats.first_mut().ok_or("a first seat")?;
    let reckoned = reckon(look(table, rt, alloc, first)?);
    let tried = tried(rt, alloc, table, first)?;
    claim_in_turn(rt, alloc, table, seats)?;
    is_full(rt, alloc, table, seats);
    have_found(rt, seats)?;
    refuses_findings(rt, alloc, table, seats, reckoned, tried)?;
    hears_all(rt, table.log(), seats.last_mut().ok_or("a last seat")?)
}

// The seat looks, and tries whether the rank is at least 0.
fn tried<N: Name, R: Threads + Wait>(
    rt: &R,
    alloc: Global,
    table: &Table<N>,
    seat: &mut Seat<N>,
) -> Result<Tried<N>, Fail> {
    let taken = look(table, rt, alloc, seat)?;
    Ok(
        try_rank(rt, taken, 0, 1, &OpenGate)
            .ok()
            .ok_or("a rank test")?,
    )
}

fn claim_in_turn<N: Name>(
    rt: &impl Wait,
    alloc: Global,
    table: &Table<N>,
    seats: &mut [Seat<N>],
) -> Result<(), Fault> {
    for _ in 0..CALLS {
        claim_once(rt, alloc, table, seats)?;
    }
    Ok(())
}

// Each seat claims that has not made all its calls.
fn claim_once<N: Name>(
    rt: &impl Wait,
    alloc: Global,
    table: &Table<N>,
    seats: &mut [Seat<N>],
) -> Result<(), Fault> {
    for seat in seats {
        if seat.calls() < CALLS {
            table.call(rt, alloc, seat, Plain::Claim)?;
        }
    }
    Ok(())
}

// The next call of each seat is refused, and so are a turn, of which nothing is asked, and a strategy.
fn is_full<N: Name, R: Wait + Abort>(
    rt: &R,
    alloc: Global,
    table: &Table<N>,
    seats: &mut [Seat<N>],
) {
    for seat in seats {
        let called = table.call(rt, alloc, seat, Plain::Claim).err();
        assert!(rt; called == Some(Fault::Full));
        refuses_turn(rt, alloc, table, seat);
        let lender = Strategy::new(|_: &Graph, _: &Divisor| Some(Move::Lend(0)));
        let played = play(rt, alloc, table, seat, &lender, 1).err();
        assert!(rt; played == Some(Fault::Full) && seat.calls() == CALLS);
    }
}

fn refuses_turn<N: Name, R: Wait + Abort>(
    rt: &R,
    alloc: Global,
    table: &Table<N>,
    seat: &mut Seat<N>,
) {
    let mut is_asked = false;
    let mut choose = |_: &Graph, _: &Divisor| {
        is_asked = true;
        None
    };
    let turned = table.turn(rt, alloc, seat, &mut choose).err();
    assert!(rt; turned == Some(Fault::Full) && !is_asked);
}

// The history as the first and the last seat found it at their last calls. For two rounds the first, which had looked, did not
// claim.
fn have_found<N: Name>(rt: &impl Abort, seats: &[Seat<N>]) -> Result<(), Fail> {
    let short = seats.first().ok_or("a first seat")?.prefix();
    let long = seats.last().ok_or("a last seat")?.prefix();
    assert!(rt; short.len() == 65_347 && long.len() == CELLS);
    long.compare(short);
    Ok(())
}

// What was found on the first seat's looks comes back, whoever enters it.
fn refuses_findings<N: Name, R: Wait + Abort>(
    rt: &R,
    alloc: Global,
    table: &Table<N>,
    seats: &mut [Seat<N>],
    reckoned: Reckoned<N>,
    tried: Tried<N>,
) -> Result<(), Fail> {
    let first = seats.first_mut().ok_or("a first seat")?;
    let reckoned = refuses_verdict(rt, alloc, table, first, reckoned)?;
    let tried = refuses_rank(rt, alloc, table, first, tried)?;
    let last = seats.last_mut().ok_or("a last seat")?;
    refuses_verdict(rt, alloc, table, last, reckoned)?;
    refuses_rank(rt, alloc, table, last, tried)?;
    Ok(())
}

// The verdict on the first look.
fn refuses_verdict<N: Name, R: Wait + Abort>(
    rt: &R,
    alloc: Global,
    table: &Table<N>,
    seat: &mut Seat<N>,
    reckoned: Reckoned<N>,
) -> Result<Reckoned<N>, Fail> {
    let (reckoned, fault) = commit(table, rt, alloc, seat, reckoned)
        .err()
        .ok_or("a table that is full")?;
    assert!(rt; reckoned.look().receipt().number() == 0 && fault == Fault::Full);
    assert!(rt; seat.calls() == CALLS);
    Ok(reckoned)
}

// The rank test on the second.
fn refuses_rank<N: Name, R: Wait + Abort>(
    rt: &R,
    alloc: Global,
    table: &Table<N>,
    seat: &mut Seat<N>,
    tried: Tried<N>,
) -> Result<Tried<N>, Fail> {
    let (tried, fault) = commit_rank(table, rt, alloc, seat, tried)
        .err()
        .ok_or("a table that is full")?;
    assert!(rt; tried.look().receipt().number() == 1 && fault == Fault::Full);
    assert!(rt; seat.calls() == CALLS);
    Ok(tried)
}

// The seat is told of each entry, up to the last.
fn hears_all<N: Name>(rt: &impl Abort, log: &Log<N>, seat: &mut Seat<N>) -> Result<(), Fail> {
    for number in 0..CELLS {
        hears(rt, log, seat, number)?;
    }
    assert!(rt; log.read(CELLS).is_none());
    Ok(())
}

fn hears<N: Name>(
    rt: &impl Abort,
    log: &Log<N>,
    seat: &mut Seat<N>,
    number: u32,
) -> Result<(), Fail> {
    let (receipt, entry) = log.read(number).ok_or("an entry")?;
    assert!(rt; receipt.number() == number && *log.entry(&receipt) == *entry);
    seat.learn(&receipt)?;
    Ok(())
}

// An observer reads all entries, after which the amounts are as they were.
fn is_watched<N: Name>(rt: &impl Abort, alloc: Global, table: &Table<N>) -> Result<(), Fail> {
    let start = *table.start().divisor();
    let mut observer = Observer::<N, Positions<N>, _>::new(
        alloc,
        start,
        |position: &Divisor, entry: &Entry| keep_position(position, entry),
    );
    let read = observer.catch_up(table.log())?;
    assert!(rt; read == CELLS && observer.count() == CELLS);
    assert!(rt; *observer.state() == start);
    Ok(())
}

fn is_told<N: Name>(rt: &impl Abort, alloc: Global, audit: &Audit<N>) -> Result<(), Fail> {
    assert!(rt; audit.entries == CELLS && audit.gifts == 0);
    assert!(rt; audit.calls == [CALLS; 64]);
    assert!(rt; audit.position == amounts(&[0, 0, 0])?);
    assert!(rt; audit.history(alloc)?.len() == CELLS as usize);
    Ok(())
}
