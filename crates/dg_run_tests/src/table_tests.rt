//! Tables are opened, and a test is played on each.
ghost use Rattle.std.specs.Prelude.{◌≡◌, length};
ghost use Rattle.dg_log.specs.Tables.{table_data_of};

use crate::party::gates::enter_first;
use crate::session::streams::{Flow, Sip, serves};
use dg_chips::Start;
use dg_log::{Name, Row};
use dg_session::SessionEnd;
use dg_table::{Seat, Table};
use std::alloc::Global;
use std::marker::Brand;
use std::process::Abort;
use std::sync::Wait;
use std::test::Fail;
use std::thread::Threads;

// What is done at a table.
#[derive(Drop)]
pub(crate) enum TableTest<'a> {
    // Sessions enter a gate before their first lines.
    Gate,
    // A session over the stream leaves the writer with this answer, and ends so.
    Session(Flow<'a>, Sip<'a>, &'a [u8], Result<u32, SessionEnd>),
}

// Plays the test on a table whose history has so many cells, with this start and so many seats.
pub(crate) fn on_a_table<R: Threads + Wait + Abort + Sync>(
    rt: &R,
    alloc: Global,
    cells: u32,
    start: &Start,
    seats: u8,
    test: TableTest<'_>,
) -> Result<(), Fail> {
    opened::<Brand, R>(rt, alloc, Row::new(alloc, cells)?, start, seats, test)
}

// The same if N names the row, the start and the number of seats.
fn opened<N: Name + Send + Sync, R: Threads + Wait + Abort + Sync>(
    rt: &R,
    alloc: Global,
    row: Row,
    start: &Start,
    count: u8,
    test: TableTest<'_>,
) -> Result<(), Fail>
    requires row { row ≡ N.names }
    requires table { N.table ≡ table_data_of start.now count (length row.cells) }
{
    let (table, mut seats) = Table::<N>::open(alloc, row, start, count)
        .ok()
        .ok_or("a table")?;
    shown(rt, alloc, &table, seats.as_mut_slice(), test)
}

fn shown<N: Name + Send + Sync, R: Threads + Wait + Abort + Sync>(
    rt: &R,
    alloc: Global,
    table: &Table<N>,
    seats: &mut [Seat<N>],
    test: TableTest<'_>,
) -> Result<(), Fail> {
    match test {
        TableTest::Gate => enter_first(rt, alloc, table, seats),
        TableTest::Session(reader, writer, answer, end) => match seats {
            [seat] => serves(rt, alloc, table, seat, reader, writer, answer, end),
            _ => Err(Fail::from("another number of seats")),
        },
    }
}
