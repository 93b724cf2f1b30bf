//! Sessions over the input of the program.
ghost use Rattle.std.specs.Prelude.{◌≡◌, ℕ, length, Ok, true, IfErr, OnOk};
ghost use Rattle.dg_invocation.specs.Invocation.{seat_count};
ghost use Rattle.dg_log.specs.Tables.{table_data_of};
ghost use Rattle.dg_session.specs.Commands.{setup_of};
ghost use Rattle.dg_session.specs.Streams.{passage};
ghost use Rattle.dg_rank.specs.Ranks.{IsWorkerCount};
ghost use Rattle.dg_table.specs.Opened.{IsSeatCount};
ghost use Rattle.dg_run.specs.Sessions.{line_format, session_of, Serves, EndsEarly, IsServed, RefusesServing};
ghost use Rattle.dg_run.specs.Streams.{IsInputFault, IsOutputFault, TellsOfRead};

use crate::fault::Fault;
use crate::table_source::load_table;
use dg_file::TableFile;
use dg_invocation::ServeTask;
use dg_log::{LogFault, Name, Row};
use dg_session::{LineFormat, serve_seats};
use dg_system::{Input, Output, Shortage, Sources};
use dg_table::Table;
use std::io::{Read, Write};
use std::marker::Brand;
use std::mem::forget;
use std::rt::Files;
use std::sync::Wait;
use std::thread::Threads;

/// Answers the lines of the input, on the table of the file that is named.
pub(crate) fn serve_input<R, S, I, O>(
    rt: &R,
    task: &ServeTask<'_>,
    sources: &S,
    input: &mut Input<I>,
    output: &mut Output<O>,
) -> Result<(), Fault>
where
    R: Files + AllocGlobal + Threads + Wait,
    S: Sources,
    I: Read,
    O: Write,
    ensures done { OnOk result
        (Serves (S.held sources.now) (passage input.old.remaining input.new.remaining) task.now
        output.old.contents output.new.contents) }
    ensures read { IfErr result (λ fault. IsInputFault fault → input.new.has_failed ≡ true) }
    ensures whole { OnOk result (input.new.has_failed ≡ input.old.has_failed) }
    ensures noted { IfErr result (λ fault. TellsOfRead fault input.old input.new) }
    ensures write { IfErr result (λ fault. IsOutputFault fault → output.new.has_failed ≡ true) }
    ensures refused { IfErr result
        (λ fault. RefusesServing (S.held sources.now)
        (passage input.old.remaining input.new.remaining) task.now fault output.old.contents
        output.new.contents) }
{
    let table = match load_table(rt, sources, task.file) {
        Ok(table) => table,
        Err(fault) => return Err(Fault::Task(fault)),
    };
    serve_table(rt, task, &table, input, output)
}

/// Answers the lines of the input, on this table.
fn serve_table<R, I, O>(
    rt: &R,
    task: &ServeTask<'_>,
    table: &TableFile,
    input: &mut Input<I>,
    output: &mut Output<O>,
) -> Result<(), Fault>
where
    R: AllocGlobal + Threads + Wait,
    I: Read,
    O: Write,
    ensures done { OnOk result ((count : ℕ)
        × IsServed (session_of task.now table.now.start table.now.names)
        (passage input.old.remaining input.new.remaining) (passage output.old.contents output.new.contents) (Ok count)) }
    ensures read { IfErr result (λ fault. IsInputFault fault → input.new.has_failed ≡ true) }
    ensures whole { OnOk result (input.new.has_failed ≡ input.old.has_failed) }
    ensures noted { IfErr result (λ fault. TellsOfRead fault input.old input.new) }
    ensures write { IfErr result (λ fault. IsOutputFault fault → output.new.has_failed ≡ true) }
    ensures early { IfErr result (λ fault. EndsEarly (session_of task.now table.now.start table.now.names)
        (passage input.old.remaining input.new.remaining) fault (passage output.old.contents output.new.contents)) }
{
    let row = match Row::new(rt.alloc(), task.capacity) {
        Ok(row) => row,
        Err(LogFault::Capacity) => unreachable!(),
        Err(LogFault::OutOfMemory) => return Err(Fault::Shortage(Shortage::OutOfMemory)),
    };
    let (seats, how) = seats_and_format(task.seats);
    serve_stream::<Brand, R, I, O>(rt, row, table, seats, how, task.workers, input, output)
}

/// How many seats there are, and how lines name them.
fn seats_and_format(seats: Option<u8>) -> (u8, LineFormat)
    ensures count { result.0 ≡ seat_count seats }
    ensures how { result.1 ≡ line_format seats }
{
    match seats {
        Some(count) => (count, LineFormat::BySeat),
        None => (1, LineFormat::OneSeat),
    }
}

/// Answers the lines of the input on a new table with so many seats, which is closed at the end: there is one history of all.
fn serve_stream<N, R, I, O>(
    rt: &R,
    row: Row,
    table: &TableFile,
    seats: u8,
    how: LineFormat,
    workers: u32,
    input: &mut Input<I>,
    output: &mut Output<O>,
) -> Result<(), Fault>
where
    N: Name,
    R: AllocGlobal + Threads + Wait,
    I: Read,
    O: Write,
    requires row { row ≡ N.names }
    requires table { N.table ≡ table_data_of table.now.start seats (length row.cells) }
    requires some { IsSeatCount seats }
    requires workers { IsWorkerCount workers }
    ensures done { OnOk result ((count : ℕ)
        × IsServed (setup_of how (table_data_of table.now.start seats (length row.cells)) table.now.names workers)
        (passage input.old.remaining input.new.remaining) (passage output.old.contents output.new.contents) (Ok count)) }
    ensures read { IfErr result (λ fault. IsInputFault fault → input.new.has_failed ≡ true) }
    ensures whole { OnOk result (input.new.has_failed ≡ input.old.has_failed) }
    ensures noted { IfErr result (λ fault. TellsOfRead fault input.old input.new) }
    ensures write { IfErr result (λ fault. IsOutputFault fault → output.new.has_failed ≡ true) }
    ensures early { IfErr result (λ fault.
        EndsEarly (setup_of how (table_data_of table.now.start seats (length row.cells)) table.now.names workers)
        (passage input.old.remaining input.new.remaining) fault (passage output.old.contents output.new.contents)) }
{
    let alloc = rt.alloc();
    let (opened, mut all) = match Table::<N>::open(alloc, row, table.start(), seats) {
        Ok(opened) => opened,
        Err(_) => return Err(Fault::Shortage(Shortage::OutOfMemory)),
    };
    let names = table.names();
    let ended = serve_seats(
        rt, alloc, &opened, &mut all, names, input, output, workers, how,
    );
    match opened.close(all) {
        Ok(history) => {
            // The program ends here, and its memory with it: to free each entry first would only take time.
            forget(history);
            match ended {
                Ok(_) => Ok(()),
                Err(end) => Err(Fault::Session(end)),
            }
        }
        Err(_) => Err(Fault::History),
    }
}
