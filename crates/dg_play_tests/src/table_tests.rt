//! Tables are opened, and a test is played on each.
ghost use Rattle.std.specs.Prelude.{◌≡◌, length};
ghost use Rattle.dg_log.specs.Tables.{table_data_of};

use crate::analyst::looks::enters_in_less_time;
use crate::observer::watching::watched;
use crate::strategy::plays::played;
use crate::table::filled::fills;
use crate::table::meetings::{Meeting, meet};
use crate::table::turns::turns;
use dg_chips::Start;
use dg_log::{Name, Row};
use dg_table::{Seat, Table};
use std::alloc::Global;
use std::marker::Brand;
use std::process::Abort;
use std::sync::Wait;
use std::test::Fail;
use std::thread::Threads;

// What is done at a table.
#[derive(Drop)]
pub(crate) enum TableTest<'a> {
    // As many seats as there may be fill the longest history that there may be.
    Filled,
    // Calls are chosen at the position that they find.
    Turns,
    // Findings are entered by calls that save time.
    Looks,
    // Observers read what two seats have entered.
    Watched,
    // Strategies are played.
    Strategies,
    // Seats play in threads. In a box: if no test owns anything, the toolchain finds no proof.
    Meeting(Box<Meeting<'a>>),
}

// Plays the test on a table whose history has so many cells, with this start and so many seats.
pub(crate) fn on_a_table<R: Threads + Wait + Abort + Sync>(
    rt: &R,
    alloc: Global,
    cells: u32,
    start: &Start,
    seats: u8,
    test: TableTest<'_>,
) -> Result<(), Fail> {
    opened::<Brand, R>(rt, alloc, Row::new(alloc, cells)?, start, seats, test)
}

// The same if N names the row, the start and the number of seats.
fn opened<N: Name + Send + Sync, R: Threads + Wait + Abort + Sync>(
    rt: &R,
    alloc: Global,
    row: Row,
    start: &Start,
    count: u8,
    test: TableTest<'_>,
) -> Result<(), Fail>
    requires row { row ≡ N.names }
    requires table { N.table ≡ table_data_of start.now count (length row.cells) }
{
    let (table, seats) = Table::<N>::open(alloc, row, start, count)
        .ok()
        .ok_or("a table")?;
    shown(rt, alloc, table, seats, test)
}

fn shown<N: Name + Send + Sync, R: Threads + Wait + Abort + Sync>(
    rt: &R,
    alloc: Global,
    table: Table<N>,
    seats: Vec<Seat<N>>,
    test: TableTest<'_>,
) -> Result<(), Fail> {
    let mut seats = seats;
    match test {
        TableTest::Filled => fills(rt, alloc, table, seats),
        TableTest::Meeting(meeting) => meet(rt, alloc, table, seats, &*meeting),
        test => match seats.as_mut_slice() {
            [seat] => shown_to_one(rt, alloc, &table, seat, test),
            [first, second] => shown_to_two(rt, alloc, &table, first, second, test),
            _ => Err(Fail::from("another number of seats")),
        },
    }
}

fn shown_to_one<N: Name, R: Threads + Wait + Abort>(
    rt: &R,
    alloc: Global,
    table: &Table<N>,
    seat: &mut Seat<N>,
    test: TableTest<'_>,
) -> Result<(), Fail> {
    match test {
        TableTest::Turns => turns(rt, alloc, table, seat),
        TableTest::Strategies => played(rt, alloc, table, seat),
        _ => Err(Fail::from("a test for more seats")),
    }
}

fn shown_to_two<N: Name, R: Threads + Wait + Abort>(
    rt: &R,
    alloc: Global,
    table: &Table<N>,
    first: &mut Seat<N>,
    second: &mut Seat<N>,
    test: TableTest<'_>,
) -> Result<(), Fail> {
    match &test {
        TableTest::Looks => enters_in_less_time(rt, alloc, table, first, second),
        TableTest::Watched => watched(rt, alloc, table, first, second),
        _ => Err(Fail::from("a test for one seat")),
    }
}
