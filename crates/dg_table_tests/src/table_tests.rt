//! Tables are opened, and a test is played on each.
ghost use Rattle.std.specs.Prelude.{◌≡◌, length};
ghost use Rattle.dg_log.specs.Tables.{table_data_of};

use crate::analyst_tests::{asks_too_much, commits, commits_past_a_refusal, tries};
use crate::log_tests::writes;
use crate::observer_tests::watches;
use crate::session_tests::{meet, serves};
use crate::settle_tests::settles;
use crate::strategy_tests::{plays, settles_debts, settles_nothing};
use crate::tables::{PATH, triangle};
use dg_chips::{Divisor, Move, Start};
use dg_game::{Plain, Reply};
use dg_graph::Graph;
use dg_log::{Name, Row};
use dg_table::{Audit, CloseFault, Fault, Seat, Table, TableFault};
use std::alloc::Global;
use std::marker::Brand;
use std::process::Abort;
use std::sync::Wait;
use std::test::Fail;
use std::thread::Threads;
use std::time::Clock;

// What is done at a table.
#[derive(Clone, Copy)]
pub(crate) enum TableTest {
    // A pen writes the row's log, and no table is opened.
    Pen,
    // No table is opened, since there can't be so many seats.
    NoSeats,
    // One seat makes a call, and the table is closed.
    Lends,
    // One seat fills the row.
    Fills,
    // The table is closed with all seats alone.
    Closes,
    // A seat is told of another's entry, and an observer reads.
    Watches,
    // Verdicts and a rank test are entered on looks.
    Commits,
    CommitsPastARefusal,
    Tries,
    AsksTooMuch,
    // A verdict is entered by hand.
    Settles,
    // Strategies play.
    Plays,
    SettlesNothing,
    SettlesDebts,
    // A session, and two at once.
    RunServes,
    Meet,
}

// Amounts on the triangle, cells, seats, and what is done.
static TESTS: [([i64; 3], u32, u8, TableTest); 17] = [
    ([0, 0, 0], 2, 1, TableTest::Pen),
    ([0, 0, 0], 2, 0, TableTest::NoSeats),
    ([0, 0, 0], 2, 65, TableTest::NoSeats),
    ([2, -1, -1], 1, 1, TableTest::Lends),
    ([0, 0, 0], 2, 1, TableTest::Fills),
    ([0, 0, 0], 1, 2, TableTest::Closes),
    ([0, 0, 0], 1, 3, TableTest::Closes),
    ([0, 0, 0], 2, 2, TableTest::Watches),
    ([2, -1, -1], 6, 2, TableTest::Commits),
    ([1_000_000, 0, 0], 3, 2, TableTest::CommitsPastARefusal),
    ([1, 0, 0], 3, 2, TableTest::Tries),
    ([2, -1, -1], 3, 2, TableTest::Settles),
    ([2, -1, -1], 3, 1, TableTest::Plays),
    ([0, 0, 0], 5, 1, TableTest::SettlesNothing),
    ([-1, 1, 0], 5, 1, TableTest::SettlesDebts),
    ([2, -1, -1], 5, 1, TableTest::RunServes),
    ([2, -1, -1], 2, 2, TableTest::Meet),
];

#[test]
fn what_is_done_at_tables(rt: HostRuntime) -> Result<(), Fail> {
    for (amounts, cells, seats, test) in &TESTS {
        on_a_table(&rt, rt.alloc(), *cells, &triangle(amounts)?, *seats, *test)?;
    }
    let path = Graph::new(16, PATH)?;
    let long = Start::new(path, Divisor::sized(&[0; 16]), 0)?;
    on_a_table(&rt, rt.alloc(), 1, &long, 1, TableTest::AsksTooMuch)
}

// Plays the test on a table whose history has so many cells, with this start and so many seats.
fn on_a_table<R: Threads + Wait + Clock + Abort + Sync>(
    rt: &R,
    alloc: Global,
    cells: u32,
    start: &Start,
    seats: u8,
    test: TableTest,
) -> Result<(), Fail> {
    opened::<Brand, R>(rt, alloc, Row::new(alloc, cells)?, start, seats, test)
}

// The same if N names the row, the start and the number of seats.
fn opened<N: Name + Send + Sync, R: Threads + Wait + Clock + Abort + Sync>(
    rt: &R,
    alloc: Global,
    row: Row,
    start: &Start,
    count: u8,
    test: TableTest,
) -> Result<(), Fail>
    requires row { row ≡ N.names }
    requires table { N.table ≡ table_data_of start.now count (length row.cells) }
{
    if let TableTest::Pen = test {
        return writes::<N>(rt, alloc, row);
    }
    let cells = row.len();
    match Table::<N>::open(alloc, row, start, count) {
        Ok((table, seats)) => shown(rt, alloc, table, seats, test),
        Err((row, TableFault::Seats)) => {
            assert!(rt; matches!(test, TableTest::NoSeats) && row.len() == cells);
            Ok(())
        }
        Err((_, TableFault::OutOfMemory)) => Err(Fail::from("out of memory")),
    }
}

fn shown<N: Name + Send + Sync, R: Threads + Wait + Clock + Abort + Sync>(
    rt: &R,
    alloc: Global,
    table: Table<N>,
    seats: Vec<Seat<N>>,
    test: TableTest,
) -> Result<(), Fail> {
    let mut seats = seats;
    match test {
        TableTest::Closes => closes(rt, alloc, table, seats),
        TableTest::Meet => meet(rt, alloc, &table, seats.as_mut_slice()),
        test => match seats.as_mut_slice() {
            [seat] => shown_to_one(rt, alloc, &table, seat, test),
            [first, second] => shown_to_two(rt, alloc, &table, first, second, test),
            _ => Err(Fail::from("another number of seats")),
        },
    }
}

fn shown_to_one<N: Name, R: Threads + Wait + Abort>(
    rt: &R,
    alloc: Global,
    table: &Table<N>,
    seat: &mut Seat<N>,
    test: TableTest,
) -> Result<(), Fail> {
    match test {
        TableTest::Lends => lends(rt, alloc, table, seat),
        TableTest::Fills => fills(rt, alloc, table, seat),
        TableTest::Plays => plays(rt, alloc, table, seat),
        TableTest::SettlesNothing => settles_nothing(rt, alloc, table, seat),
        TableTest::SettlesDebts => settles_debts(rt, alloc, table, seat),
        TableTest::RunServes => serves(rt, alloc, table, seat),
        TableTest::AsksTooMuch => asks_too_much(rt, alloc, table, seat),
        _ => Err(Fail::from("a test for more seats")),
    }
}

fn shown_to_two<N: Name, R: Threads + Wait + Clock + Abort + Sync>(
    rt: &R,
    alloc: Global,
    table: &Table<N>,
    first: &mut Seat<N>,
    second: &mut Seat<N>,
    test: TableTest,
) -> Result<(), Fail> {
    match test {
        TableTest::Watches => watches(rt, alloc, table, first, second),
        TableTest::Commits => commits(rt, alloc, table, first, second),
        TableTest::CommitsPastARefusal => commits_past_a_refusal(rt, alloc, table, first, second),
        TableTest::Tries => tries(rt, alloc, table, first, second),
        TableTest::Settles => settles(rt, alloc, table, first, second),
        _ => Err(Fail::from("a test for another number of seats")),
    }
}

// With two dollars at a, lending there pays all debts.
fn lends<N: Name, R: Wait + Abort>(
    rt: &R,
    alloc: Global,
    table: &Table<N>,
    seat: &mut Seat<N>,
) -> Result<(), Fail> {
    let receipt = table.call(rt, alloc, seat, Plain::Move(Move::Lend(0)))?;
    let entry = table.log().entry(&receipt);
    assert!(rt; receipt.number() == 0 && entry.seat == 1 && seat.number() == 1);
    assert!(rt; entry.reply == Reply::Moved(Divisor::sized(&[0, 0, 0])));
    assert!(rt; table.start().q() == 0 && *table.start().divisor() == Divisor::sized(&[2, -1, -1]));
    Ok(())
}

// The row has two cells, and the seat makes three calls.
fn fills<N: Name, R: Wait + Abort>(
    rt: &R,
    alloc: Global,
    table: &Table<N>,
    seat: &mut Seat<N>,
) -> Result<(), Fail> {
    let log = table.log();
    let lent = table.call(rt, alloc, seat, Plain::Move(Move::Lend(0)))?;
    assert!(rt; log.entry(&lent).reply == Reply::Moved(Divisor::sized(&[-2, 1, 1])));
    let borrowed = table.call(rt, alloc, seat, Plain::Move(Move::Borrow(0)))?;
    assert!(rt; log.entry(&borrowed).reply == Reply::Moved(Divisor::sized(&[0, 0, 0])));
    match table.call(rt, alloc, seat, Plain::Claim) {
        Err(Fault::Full) => {}
        Ok(_) | Err(Fault::OutOfMemory | Fault::Log) => return Err(Fail::from("another end")),
    }
    assert!(rt; seat.calls() == 2 && log.read(1).is_some() && log.read(2).is_none());
    Ok(())
}

// The table has a row of one cell. It is not closed without its second seat, and goes on; then it is closed with all seats, in
// another order.
fn closes<N: Name, R: Wait + Abort>(
    rt: &R,
    alloc: Global,
    table: Table<N>,
    seats: Vec<Seat<N>>,
) -> Result<(), Fail> {
    let mut seats = seats;
    assert!(rt; seats.len() > 1);
    let second = seats.remove(1);
    let fault = table.close(seats).err().ok_or("a seat that is missing")?;
    let CloseFault {
        missing,
        table,
        seats,
    } = fault;
    assert!(rt; missing == 2);
    let fault = table.close(Vec::new(alloc)).err().ok_or("no seats")?;
    assert!(rt; fault.missing == 1 && fault.seats.is_empty());
    let (table, mut seats, mut second) = (fault.table, seats, second);
    table.call(rt, alloc, &mut second, Plain::Claim)?;
    let graph = *table.start().graph();
    seats.push(second)?;
    let audit = table.close(seats).ok().ok_or("an audit")?;
    is_told(rt, &audit, &graph);
    Ok(())
}

fn is_told<N: Name>(rt: &impl Abort, audit: &Audit<N>, graph: &Graph) {
    assert!(rt; audit.entries == 1 && audit.gifts == 0 && audit.graph == *graph);
    assert!(rt; audit.position == Divisor::sized(&[0, 0, 0]));
    assert!(rt; audit.calls.starts_with(&[0, 1, 0]) && audit.log.read(0).is_some());
}
