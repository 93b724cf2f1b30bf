//! Tables that are opened, played on and closed, if memory may be refused.
ghost use Rattle.std.specs.Prelude.{◌≡◌, length};
ghost use Rattle.dg_log.specs.Tables.{table_data_of};

use crate::acts::act_in_turn;
use crate::outcomes::{Outcome, done_if, refused, tell, tell_spared};
use dg_chips::{Divisor, Move, Script, Wide};
use dg_file::{FileFault, Names, TableFile, read_table};
use dg_graph::Graph;
use dg_log::{Log, LogFault, Name, Row};
use dg_observer::{Observer, ObserverFault, Watch};
use dg_rules::{Entry, Reply, Request};
use dg_session::{SessionEnd, serve};
use dg_strategy::{Settler, Strategy, greedy_choice, play, settle_out};
use dg_table::{Audit, Seat, Table, TableFault};
use dg_verdict::{RankVerdict, Verdict};
use std::alloc::Global;
use std::marker::Brand;
use std::process::Abort;
use std::sync::Wait;
use std::test::Fail;
use std::thread::Threads;

// The triangle where a has two dollars, and b and c owe one each, seen from a.
pub(crate) const TRIANGLE: &str =
    r#"{"vertices":["a","b","c"],"edges":[["a","b",1],["b","c",1],["a","c",1]],"amounts":[2,-1,-1],"q":"a"}"#;

pub(crate) const TEXT: &[u8] = b"look\nlend a\ncommit\ncommit\nlend z\ngift a 0\nclaim\n";

pub(crate) const ANSWER: &[u8] =
    b"0 looked 0 a=2 b=-1 c=-1\n1 moved a=0 b=0 c=0\n2 winnable by a=0 b=0 c=0 to a=0 b=0 c=0\nbad look\nbad name\n3 refused gift\n4 won\n";

// What is done at a table.
#[derive(Clone, Copy)]
enum TableTest {
    // Two seats act, an observer reads, and the table is closed.
    Acts,
    // A strategy has two turns.
    Play,
    // The greedy settler plays until it claims.
    SettleOut,
    // A session answers the lines.
    Serve,
    // A pen writes the row's log, and no table is opened.
    Pen,
}

// A test that goes on from what stands is played on a new table once it was refused.
#[test]
fn tables_answer_or_refuse(rt: HostRuntime) -> Result<(), Fail> {
    let alloc = rt.alloc();
    let file = triangle(&rt, alloc)?;
    for test in [
        TableTest::Acts,
        TableTest::Play,
        TableTest::SettleOut,
        TableTest::Serve,
        TableTest::Pen,
    ] {
        if on_a_table(&rt, alloc, &file, test)? != Outcome::Done {
            assert!(&rt; on_a_table(&rt, alloc, &file, test)? == Outcome::Done);
        }
    }
    Ok(())
}

// The table of the triangle, which is read once more if memory was refused.
pub(crate) fn triangle<R: Abort + Print>(rt: &R, alloc: Global) -> Result<TableFile, Fail> {
    match read_table(alloc, TRIANGLE.as_bytes()) {
        Ok(file) => {
            tell(rt, "read_table", Outcome::Done)?;
            Ok(file)
        }
        Err(fault) => {
            assert_eq!(rt; fault, FileFault::OutOfMemory);
            tell(rt, "read_table", Outcome::Memory)?;
            Ok(read_table(alloc, TRIANGLE.as_bytes())?)
        }
    }
}

// Plays the test on a row of ten cells.
fn on_a_table<R: Threads + Wait + Abort + Print>(
    rt: &R,
    alloc: Global,
    file: &TableFile,
    test: TableTest,
) -> Result<Outcome, Fail> {
    let row = match Row::new(alloc, 10) {
        Err(LogFault::OutOfMemory) => {
            tell(rt, "Row::new", Outcome::Memory)?;
            Row::new(alloc, 10)?
        }
        made => {
            tell(rt, "Row::new", Outcome::Done)?;
            made?
        }
    };
    opened::<Brand, R>(rt, alloc, row, file, 2, test)
}

// The same if N names the row, the start and the number of seats. A row that comes back is used again.
fn opened<N: Name, R: Threads + Wait + Abort + Print>(
    rt: &R,
    alloc: Global,
    row: Row,
    file: &TableFile,
    count: u8,
    test: TableTest,
) -> Result<Outcome, Fail>
    requires row { row ≡ N.names }
    requires table { N.table ≡ table_data_of file.now.start count (length row.cells) }
{
    if let TableTest::Pen = test {
        return writes::<N, R>(rt, alloc, row);
    }
    let (table, seats) = match Table::<N>::open(alloc, row, file.start(), count) {
        Ok(opened) => {
            tell(rt, "Table::open", Outcome::Done)?;
            opened
        }
        Err((row, fault)) => {
            assert_eq!(rt; fault, TableFault::OutOfMemory);
            tell(rt, "Table::open", Outcome::Memory)?;
            Table::<N>::open(alloc, row, file.start(), count)
                .ok()
                .ok_or("a table")?
        }
    };
    shown(rt, alloc, table, seats, file.names(), test)
}

fn shown<N: Name, R: Threads + Wait + Abort + Print>(
    rt: &R,
    alloc: Global,
    table: Table<N>,
    seats: Vec<Seat<N>>,
    names: &Names,
    test: TableTest,
) -> Result<Outcome, Fail>
    requires { length names.now ≡ N.table.start.graph.size }
{
    let mut seats = seats;
    if let TableTest::Acts = test {
        act_in_turn(rt, alloc, &table, seats.as_mut_slice())?;
        watches(rt, alloc, &table)?;
        return closes(rt, alloc, table, seats);
    }
    let seat = seats.first_mut().ok_or("a seat")?;
    let (name, outcome) = match test {
        TableTest::Play => ("play", plays(rt, alloc, &table, seat)),
        TableTest::SettleOut => ("settle_out", settles(rt, alloc, &table, seat)),
        _ => ("serve", serves(rt, alloc, &table, seat, names)),
    };
    tell(rt, name, outcome)?;
    Ok(outcome)
}

// A pen writes a claim that is won into the first cell of the row.
fn writes<N: Name, R: Abort + Print>(rt: &R, alloc: Global, row: Row) -> Result<Outcome, Fail>
    requires row { row ≡ N.names }
    requires capacity { length row.cells ≡ N.table.capacity }
{
    let (log, mut pen) = Log::<N>::new(row);
    let claim = Entry {
        seat: 1,
        request: Request::Claim,
        reply: Reply::Won,
    };
    let Ok(slot) = Box::new(alloc, claim) else {
        tell(rt, "Box::new", Outcome::Memory)?;
        return Ok(Outcome::Memory);
    };
    tell(rt, "Box::new", Outcome::Done)?;
    if pen.len() == log.len() {
        return Ok(Outcome::Wrong);
    }
    let receipt = pen.put(&log, slot).ok().ok_or("an entry")?;
    tell_spared(rt, "Pen::put")?;
    assert!(rt; *log.entry(&receipt) == claim);
    tell_spared(rt, "Log::entry")?;
    assert!(rt; log.read(0).is_some() && log.read(1).is_none());
    tell_spared(rt, "Log::read")?;
    Ok(Outcome::Done)
}

// Counts entries, as far as 64 bits go.
struct Entries;

impl Watch for Entries {
    ghost use Rattle.std.specs.Prelude.{◌≡◌, ◌+◌, ◌-◌, ◌^◌, min};

    type State = u64;

    ghost begins = { λ n. n ≡ 0 };

    ghost goes_on = { λ n e m. m ≡ min (n + 1) (2 ^ 64 - 1) };
}

// An observer reads the seven entries. If memory was refused, it goes on from what it has read.
fn watches<N: Name, R: Abort + Print>(rt: &R, alloc: Global, table: &Table<N>) -> Result<(), Fail> {
    let mut observer = Observer::<N, Entries, _>::new(alloc, 0, |count: &u64, _: &Entry| {
        Ok(count.saturating_add(1))
    });
    match observer.catch_up(table.log()) {
        Ok(_) => tell(rt, "Observer::catch_up", Outcome::Done)?,
        Err(ObserverFault::OutOfMemory) => {
            tell(rt, "Observer::catch_up", Outcome::Memory)?;
            let read = observer.count();
            assert!(rt; observer.catch_up(table.log())?.saturating_add(read) == 7);
        }
    }
    assert!(rt; observer.count() == 7 && *observer.state() == 7);
    Ok(())
}

// The table is closed, and its history read.
fn closes<N: Name, R: Abort + Print>(
    rt: &R,
    alloc: Global,
    table: Table<N>,
    seats: Vec<Seat<N>>,
) -> Result<Outcome, Fail> {
    let graph = *table.start().graph();
    let audit = table.close(seats).ok().ok_or("an audit")?;
    is_audited(rt, alloc, &audit, &graph)
}

fn is_audited<N: Name, R: Abort + Print>(
    rt: &R,
    alloc: Global,
    audit: &Audit<N>,
    graph: &Graph,
) -> Result<Outcome, Fail> {
    tell_spared(rt, "Table::close")?;
    assert!(rt; audit.entries == 7 && audit.gifts == 1);
    let wanted = replies(graph)?;
    let history = read(rt, alloc, audit)?;
    are_answered(rt, history.as_slice(), &wanted);
    Ok(Outcome::Done)
}

// The history, which is read once more if memory was refused.
fn read<N: Name, R: Abort + Print>(
    rt: &R,
    alloc: Global,
    audit: &Audit<N>,
) -> Result<Vec<Entry>, Fail> {
    let Ok(history) = audit.history(alloc) else {
        tell(rt, "Audit::history", Outcome::Memory)?;
        return Ok(audit.history(alloc)?);
    };
    tell(rt, "Audit::history", Outcome::Done)?;
    Ok(history)
}

fn are_answered(rt: &impl Abort, history: &[Entry], wanted: &[Reply]) {
    assert!(rt; history.len() == wanted.len());
    for (entry, reply) in history.iter().zip(wanted.iter()) {
        assert!(rt; entry.reply == *reply);
    }
}

// What is answered to what the seats do: after the look a lends, by which all debts are cleared and the verdict on the look
// has no script any more; one dollar can't be lost then, at c; and b is given one.
fn replies(graph: &Graph) -> Result<[Reply; 7], Fail> {
    let even = Divisor::new(graph, &[0, 0, 0])?;
    let verdict = nothing_to_do(graph)?;
    Ok([
        Reply::Looked(0, Divisor::new(graph, &[2, -1, -1])?, *graph),
        Reply::Moved(even),
        Reply::Verdict(verdict),
        Reply::Looked(0, even, *graph),
        Reply::Rank(RankVerdict::Below(1, Divisor::new(graph, &[0, 0, 1])?)),
        Reply::Won,
        Reply::Given(1, Divisor::new(graph, &[0, 1, 0])?),
    ])
}

// The verdict on a triangle where nobody has or owes a dollar.
pub(crate) fn nothing_to_do(graph: &Graph) -> Result<Verdict, Fail> {
    Ok(Verdict {
        winnable: true,
        script: Script::new(graph, &[0, 0, 0])?,
        reduced: Wide::new(graph, &[0, 0, 0])?,
        order: [0, 1, 2, 0, 0, 0, 0, 0, 0, 0, 0, 0, 0, 0, 0, 0],
    })
}

// Two turns in which a lends. Entries that were made before a refusal stay.
fn plays<N: Name>(rt: &impl Wait, alloc: Global, table: &Table<N>, seat: &mut Seat<N>) -> Outcome {
    let lender = Strategy::new(|_: &Graph, _: &Divisor| Some(Move::Lend(0)));
    match play(rt, alloc, table, seat, &lender, 2) {
        Ok(ended) => done_if(!ended.is_settled() && seat.calls() == 2),
        Err(fault) if seat.calls() < 2 => refused(fault),
        Err(_) => Outcome::Wrong,
    }
}

// The vertices b and c borrow, and then nobody is in debt.
fn settles<N: Name>(
    rt: &impl Wait,
    alloc: Global,
    table: &Table<N>,
    seat: &mut Seat<N>,
) -> Outcome {
    let settler = Settler::new(|_: &Graph, position: &Divisor| greedy_choice(position));
    match settle_out(rt, alloc, table, seat, &settler, 5) {
        Ok(ended) => done_if(ended.is_settled() && seat.calls() == 3),
        Err(fault) if seat.calls() < 3 => refused(fault),
        Err(_) => Outcome::Wrong,
    }
}

// A session, which writes whole lines.
fn serves<N: Name, R: Threads + Wait>(
    rt: &R,
    alloc: Global,
    table: &Table<N>,
    seat: &mut Seat<N>,
    names: &Names,
) -> Outcome
    requires { length names.now ≡ N.table.start.graph.size }
{
    let Ok(mut written) = Vec::with_capacity(alloc, 1_000) else {
        return Outcome::Memory;
    };
    let ended = serve(rt, alloc, table, seat, names, TEXT, &mut written, 1);
    match ended {
        Ok(count) => done_if(count == 7 && written.as_slice() == ANSWER),
        Err(_) if !are_lines(written.as_slice()) => Outcome::Wrong,
        Err(SessionEnd::Table(fault)) => refused(fault),
        Err(SessionEnd::Memory) => Outcome::Memory,
        Err(SessionEnd::Spawn) => Outcome::Thread,
        Err(_) => Outcome::Wrong,
    }
}

// Whether these are the first lines of the answer.
fn are_lines(written: &[u8]) -> bool {
    ANSWER.starts_with(written) && (written.is_empty() || written.ends_with(b"\n"))
}
