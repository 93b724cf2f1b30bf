//! Serving a stream of lines. Answers are gathered, and written before more is read, so that many lines take few system calls.
ghost use Rattle.std.specs.Prelude.{◌≡◌, ◌≢◌, ◌≤◌, List, ℕ, [], ◌∷◌, length, Option, None, Some, Err, OnOk, All, true};
ghost use Rattle.dg_rank.specs.Ranks.{IsWorkerCount};
ghost use Rattle.dg_table.specs.Histories.{HasPrefix};
ghost use Rattle.dg_session.specs.Ends.{IsOver, IsSession};
ghost use Rattle.dg_session.specs.Commands.{setup_of};
ghost use Rattle.dg_session.specs.Streams.{passage};
ghost use Rattle.dg_session.specs.declared.ends.TheConstants.{READ_SIZE};
ghost use Rattle.dg_session.specs.declared.line_format.LineFormat.TheVariants.{OneSeat};
ghost use Rattle.dg_session.specs.SoFar.{IsWritten, beginning, heard, so_far};

use crate::answering::{AnswerBuffer, Shared};
use crate::ends::{READ_SIZE, SessionEnd};
use crate::line_format::LineFormat;
use crate::taking::{SessionProgress, take};
use dg_log::Name;
use dg_system::{Input, Output};
use dg_table::{Seat, Table};
use dg_tokens::Names;
use std::alloc::Global;
use std::io::{Read, Write};
use std::slice;
use std::sync::Wait;
use std::thread::Threads;

/// Answers the lines that the reader gives, one after another, by the calls that they make for the seat, until there are no
/// more; and returns how many there were. The answers are written and flushed before more is read. The reader and the writer are
/// used up, so no clause says what becomes of them; one of `serve_seats` does. The conditions are one name per vertex, and 1 to
/// 16 workers.
///
/// It waits for the table's lock. It ends before the input does with `Turns` if a byte follows the millionth line, `LongLine`
/// if a line has more than 1,024 bytes, `Read` if the reader fails, `Write` if the writer fails or takes no byte, `Table` if
/// the table refuses a call, `Memory` if memory is refused, and `Spawn` if a thread of a rank test could not be started, which
/// one worker never asks for. What was entered before stays.
pub fn serve<N: Name, R: Threads + Wait, I: Read + Drop, O: Write + Drop>(
    rt: &R,
    alloc: Global,
    table: &Table<N>,
    seat: &mut Seat<N>,
    names: &Names,
    reader: I,
    writer: O,
    workers: u32,
) -> Result<u32, SessionEnd>
    requires names { length names.now ≡ N.table.start.graph.size }
    requires workers { IsWorkerCount workers }
    ensures session { (left said : Option (List ℕ)) × IsSession (setup_of OneSeat N.table names.now workers)
        (passage (I.remaining reader) left) (passage (O.contents writer) said)
        (seat.old ∷ []) (seat.new ∷ []) result }
{
    let mut reader = Input::new(reader);
    let mut writer = Output::new(writer);
    serve_seats(
        rt,
        alloc,
        table,
        slice::from_mut(seat),
        names,
        &mut reader,
        &mut writer,
        workers,
        LineFormat::OneSeat,
    )
}

/// Answers the lines of one or more seats as `serve` answers those of one, over streams that the caller keeps. If the lines name
/// seats, by their places from 1, each line is a command of the seat that it names. Each seat keeps a look of its own. A line
/// for no seat is answered with `bad seat`. The conditions are those of `serve`, and at least one seat.
///
/// Once it has ended the looks are gone, and after a refusal of memory the seats may have met longer histories.
pub fn serve_seats<N: Name, R: Threads + Wait, I: Read, O: Write>(
    rt: &R,
    alloc: Global,
    table: &Table<N>,
    seats: &mut [Seat<N>],
    names: &Names,
    reader: &mut Input<I>,
    writer: &mut Output<O>,
    workers: u32,
    how: LineFormat,
) -> Result<u32, SessionEnd>
    requires names { length names.now ≡ N.table.start.graph.size }
    requires workers { IsWorkerCount workers }
    requires some { 1 ≤ length seats.old }
    ensures session { IsSession (setup_of how N.table names.now workers)
        (passage reader.old.remaining reader.new.remaining)
        (passage writer.old.contents writer.new.contents) seats.old seats.new result }
    ensures read { result ≡ Err SessionEnd.Read → reader.new.has_failed ≡ true }
    ensures noted { result ≢ Err SessionEnd.Read → reader.new.has_failed ≡ reader.old.has_failed }
    ensures write { result ≡ Err SessionEnd.Write → writer.new.has_failed ≡ true }
{
    let shared = Shared {
        rt,
        alloc,
        table,
        names,
        workers,
        how,
    };
    let ended = serve_lines(&shared, seats, reader, writer);
    seats_have_prefixes(seats);
    ended
}

/// Answers the lines of a script for one seat, in the same way, if nobody hears the answers: no text is made of them. It ends
/// neither with `Read` nor with `Write`. The conditions are the same.
pub(crate) fn serve_unheard<N: Name, R: Threads + Wait>(
    rt: &R,
    alloc: Global,
    table: &Table<N>,
    seat: &mut Seat<N>,
    names: &Names,
    script: &[u8],
    workers: u32,
) -> Result<u32, SessionEnd>
    requires names { length names.now ≡ N.table.start.graph.size }
    requires workers { IsWorkerCount workers }
    ensures session { IsSession (setup_of OneSeat N.table names.now workers)
        (passage (Some script.now) (Some [])) (passage None None)
        (seat.old ∷ []) (seat.new ∷ []) result }
    ensures read { result ≢ Err SessionEnd.Read }
    ensures write { result ≢ Err SessionEnd.Write }
{
    let shared = Shared {
        rt,
        alloc,
        table,
        names,
        workers,
        how: LineFormat::OneSeat,
    };
    let seats = slice::from_mut(seat);
    let Some(mut progress) = SessionProgress::new(alloc, seats, None, table.inverse()) else {
        seats_have_prefixes(seats);
        return Err(SessionEnd::Memory);
    };
    let taken = take(&shared, &mut progress, seats, script, true);
    seats_have_prefixes(seats);
    match taken {
        Ok(()) => Ok(progress.count),
        Err(end) => Err(end),
    }
}

/// For the prover: brings in each seat's invariant, by which it has found a history of its table.
fn seats_have_prefixes<N: Name>(seats: &[Seat<N>])
    ensures { All (HasPrefix N.table) seats.now }
{
    for seat in seats {
        let _prefix = seat.prefix();
    }
}

/// Answers the lines. Its clauses do not say that the histories which the seats find are those of the table.
fn serve_lines<N: Name, R: Threads + Wait, I: Read, O: Write>(
    shared: &Shared<N, R>,
    seats: &mut [Seat<N>],
    reader: &mut Input<I>,
    writer: &mut Output<O>,
) -> Result<u32, SessionEnd>
    requires some { 1 ≤ length seats.old }
    ensures session { IsOver (setup_of shared.now.how N.table shared.now.names.now shared.now.workers)
        (passage reader.old.remaining reader.new.remaining)
        (passage writer.old.contents writer.new.contents) seats.old seats.new result }
    ensures read { result ≡ Err SessionEnd.Read → reader.new.has_failed ≡ true }
    ensures noted { result ≢ Err SessionEnd.Read → reader.new.has_failed ≡ reader.old.has_failed }
    ensures write { result ≡ Err SessionEnd.Write → writer.new.has_failed ≡ true }
{
    let Ok(mut buffer) = vec![in shared.alloc; 0u8; READ_SIZE] else {
        return Err(SessionEnd::Memory);
    };
    let text = Some(Vec::new(shared.alloc));
    let Some(mut progress) = SessionProgress::new(shared.alloc, seats, text, shared.table.inverse())
    else {
        return Err(SessionEnd::Memory);
    };
    serve_reads(shared, &mut progress, seats, reader, writer, &mut buffer)
}

/// Answers the lines of a session that has read nothing, read by read.
fn serve_reads<N: Name, R: Threads + Wait, I: Read, O: Write>(
    shared: &Shared<N, R>,
    progress: &mut SessionProgress<N>,
    seats: &mut [Seat<N>],
    reader: &mut Input<I>,
    writer: &mut Output<O>,
    buffer: &mut Vec<u8>,
) -> Result<u32, SessionEnd>
    requires some { 1 ≤ length seats.old }
    requires begins { so_far progress.old seats.old ≡ beginning seats.old }
    requires heard { heard progress.old.said.text ≡ Some [] }
    requires buffer { length buffer.old.items ≡ READ_SIZE }
    ensures session { IsOver (setup_of shared.now.how N.table shared.now.names.now shared.now.workers)
        (passage reader.old.remaining reader.new.remaining)
        (passage writer.old.contents writer.new.contents) seats.old seats.new result }
    ensures read { result ≡ Err SessionEnd.Read → reader.new.has_failed ≡ true }
    ensures noted { result ≢ Err SessionEnd.Read → reader.new.has_failed ≡ reader.old.has_failed }
    ensures write { result ≡ Err SessionEnd.Write → writer.new.has_failed ≡ true }
{
    'reads: loop {
        let Some(size) = reader.read_some(buffer) else {
            return Err(SessionEnd::Read);
        };
        let taken = take(shared, progress, seats, &buffer[..size], size == 0);
        match write_said(writer, &mut progress.said, taken) {
            Ok(()) => {}
            Err(end) => return Err(end),
        }
        if size == 0 {
            return Ok(progress.count);
        }
    }
}

/// Writes the answers and clears them. Then it returns `taken`, which ended by no read and no write, or `Write`.
fn write_said<O: Write>(
    writer: &mut Output<O>,
    said: &mut AnswerBuffer,
    taken: Result<(), SessionEnd>,
) -> Result<(), SessionEnd>
    requires heard { heard said.old.text ≢ None }
    requires not_read { taken ≢ Err SessionEnd.Read }
    requires not_written { taken ≢ Err SessionEnd.Write }
    ensures written { (text : List ℕ) → heard said.old.text ≡ Some text →
        IsWritten taken text writer.old writer.new result }
    ensures cleared { OnOk result (heard said.new.text ≡ Some []) }
    ensures read { result ≢ Err SessionEnd.Read }
    ensures write { result ≡ Err SessionEnd.Write → writer.new.has_failed ≡ true }
{
    let Some(text) = &mut said.text else {
        unreachable!()
    };
    match writer.write_whole(text) {
        Ok(()) => {
            text.clear();
            match taken {
                Ok(()) => Ok(()),
                Err(end) => Err(end),
            }
        }
        Err(_) => Err(SessionEnd::Write),
    }
}
