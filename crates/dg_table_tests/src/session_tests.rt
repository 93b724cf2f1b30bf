//! Lines, replies and sessions.

use crate::gates::Meeting;
use crate::tables::TRIANGLE;
use dg_chips::{Divisor, Move, Script};
use dg_file::{Names, read_table};
use dg_game::{Command, Plain, Refusal, Reply, Step};
use dg_log::Name;
use dg_rank::Gate;
use dg_server::{PartyFault, sessions};
use dg_session::{LineFault, SessionEnd, parse_line, parse_step, reply_text, serve};
use dg_table::{Fault, Seat, Table};
use std::alloc::Global;
use std::process::Abort;
use std::sync::Wait;
use std::test::Fail;
use std::thread::Threads;
use std::time::Clock;

#[test]
fn what_lines_say(rt: HostRuntime) -> Result<(), Fail> {
    let file = read_table(rt.alloc(), TRIANGLE.as_bytes())?;
    let script = Script::sized(&[1, 0, -2]);
    for (line, command) in [
        ("lend a", Ok(Command::Call(Plain::Move(Move::Lend(0))))),
        ("borrow c", Ok(Command::Call(Plain::Move(Move::Borrow(2))))),
        ("fire a,b", Ok(Command::Call(Plain::Move(Move::Fire(3))))),
        (
            "script a=1,c=-2",
            Ok(Command::Call(Plain::Move(Move::Script(script)))),
        ),
        ("gift a -5", Ok(Command::Call(Plain::Gift(0, -5)))),
        ("join a b", Ok(Command::Call(Plain::Join(0, 1)))),
        ("join a a", Ok(Command::Call(Plain::Join(0, 0)))),
        ("look", Ok(Command::Call(Plain::Look))),
        ("claim", Ok(Command::Call(Plain::Claim))),
        ("commit", Ok(Command::Commit)),
        ("rank 4294967295", Ok(Command::Rank(4_294_967_295))),
        ("Lend a", Err(LineFault::Word)),
        ("fire ", Err(LineFault::Form)),
        ("fire a,a", Err(LineFault::Name)),
        ("script a", Err(LineFault::Number)),
    ] {
        assert!(rt;
            parse_line(line.as_bytes(), file.names()) == command,
            "{line}"
        );
    }
    let command = Command::Commit;
    assert!(rt; parse_step(b"64 commit", file.names()) == Ok(Step { seat: 64, command }));
    assert!(rt; parse_step(b"65 commit", file.names()) == Err(LineFault::Seat));
    assert!(rt; parse_step(b"1 commit ", file.names()) == Err(LineFault::Form));
    Ok(())
}

// Refusals of calls that no line spells.
#[test]
fn how_replies_are_written(rt: HostRuntime) -> Result<(), Fail> {
    let file = read_table(rt.alloc(), TRIANGLE.as_bytes())?;
    let said = reply_text(rt.alloc(), &Reply::Refused(Refusal::Empty), file.names())?;
    assert!(rt; said.as_slice() == b"refused empty".as_slice());
    let said = reply_text(rt.alloc(), &Reply::Refused(Refusal::Script), file.names())?;
    assert!(rt; said.as_slice() == b"refused script".as_slice());
    Ok(())
}

// Inputs of sessions that go on one after another, and how each ends. There are five cells.
static SESSIONS: [(&str, Result<u32, SessionEnd>); 4] = [
    (
        "look\nlend a\ncommit\ncommit\nlend z\ngift a 0\nclaim",
        Ok(7),
    ),
    ("", Ok(0)),
    ("claim\nclaim\n", Err(SessionEnd::Table(Fault::Full))),
    ("x\n", Ok(1)),
];

const ANSWERS: &str = "0 looked 0 a=2 b=-1 c=-1
1 moved a=0 b=0 c=0
2 winnable by a=0 b=0 c=0 to a=0 b=0 c=0
bad look
bad name
3 refused gift
4 won
bad word
";

pub(crate) fn serves<N: Name, R: Threads + Wait + Abort>(
    rt: &R,
    alloc: Global,
    table: &Table<N>,
    seat: &mut Seat<N>,
) -> Result<(), Fail> {
    let file = read_table(alloc, TRIANGLE.as_bytes())?;
    let mut answers = Vec::new(alloc);
    for (text, end) in &SESSIONS {
        is_served(
            rt,
            alloc,
            table,
            seat,
            file.names(),
            text,
            &mut answers,
            *end,
        );
    }
    assert!(rt; answers.as_slice() == ANSWERS.as_bytes());
    Ok(())
}

// That the session ends so.
fn is_served<N: Name, R: Threads + Wait + Abort>(
    rt: &R,
    alloc: Global,
    table: &Table<N>,
    seat: &mut Seat<N>,
    names: &Names,
    text: &str,
    answers: &mut Vec<u8>,
    end: Result<u32, SessionEnd>,
) {
    assert!(rt; names.len() == table.start().graph().size());
    let ended = serve(rt, alloc, table, seat, names, text.as_bytes(), answers, 1);
    assert!(rt; ended == end, "{text}");
}

// Two sessions, each of which enters a gate that holds it until the other has entered.
pub(crate) fn meet<N: Name + Send + Sync, R: Threads + Wait + Clock + Abort + Sync>(
    rt: &R,
    alloc: Global,
    table: &Table<N>,
    seats: &mut [Seat<N>],
) -> Result<(), Fail> {
    let file = read_table(alloc, TRIANGLE.as_bytes())?;
    let mut scripts = Vec::new(alloc);
    scripts.push(Vec::from_slice(alloc, b"lend a\n")?)?;
    scripts.push(Vec::from_slice(alloc, b"x\ny\nborrow a")?)?;
    let meeting = Meeting::of_two(rt);
    go_on(rt, alloc, table, seats, file.names(), &scripts, &meeting)?;
    assert!(rt; meeting.has_met() && table.log().read(1).is_some());
    Ok(())
}

fn go_on<N: Name + Send + Sync, R: Threads + Wait + Abort + Sync, G: Gate>(
    rt: &R,
    alloc: Global,
    table: &Table<N>,
    seats: &mut [Seat<N>],
    names: &Names,
    scripts: &[Vec<u8>],
    gate: &G,
) -> Result<(), Fail> {
    assert!(rt; names.len() == table.start().graph().size() && scripts.len() == seats.len());
    match sessions(rt, alloc, table, seats, names, scripts, gate) {
        Ok(ends) => {
            assert!(rt; ends.as_slice() == [Ok(1), Ok(3)].as_slice());
            Ok(())
        }
        Err(PartyFault::OutOfMemory | PartyFault::Spawn) => Err(Fail::from("no session")),
    }
}
