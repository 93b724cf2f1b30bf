//! What is said of faults: of those that no run prints, and where a proved text stands beside a derived one.

use dg_chips::{MoveFault, ScriptFault, StartFault};
use dg_file::read_table;
use dg_game::RehearseFault;
use dg_graph::JoinFault;
use dg_invocation::{Question, VerdictForm};
use dg_lines::{LineFault, StepsFault};
use dg_log::LogFault;
use dg_observer::ObserverFault;
use dg_rank::RankFault;
use dg_session::PartyRefusal;
use dg_sweep::{LineKind, SweepEnd, answer_line};
use dg_system::{Shortage, SourceFault, WriteFailed};
use dg_table::TableFault;
use std::alloc::Global;
use std::fmt::Display;
use std::process::Abort;
use std::test::Fail;

static JOINS: [(JoinFault, &str); 3] = [
    (JoinFault::NoVertex, "the edge has no vertex"),
    (JoinFault::Loop, "the edge is a loop"),
    (JoinFault::Valence, "valence of a vertex of the edge"),
];

static MOVES: [(MoveFault, &str); 4] = [
    (MoveFault::NoVertex, "the move has no vertex"),
    (MoveFault::Empty, "the set is empty"),
    (MoveFault::Script, "size of the script"),
    (MoveFault::Range, "an amount is out of range"),
];

static SCRIPTS: [(ScriptFault, &str); 2] = [
    (ScriptFault::Length, "number of script entries"),
    (ScriptFault::Limit(3), "script entry of vertex 3"),
];

static STARTS: [(StartFault, &str); 2] = [
    (StartFault::Length, "size of the divisor"),
    (StartFault::Vertex, "q is not a vertex"),
];

#[test]
fn faults_of_the_game_have_texts(rt: HostRuntime) -> Result<(), Fail> {
    let alloc = rt.alloc();
    all_say(&rt, alloc, &JOINS)?;
    all_say(&rt, alloc, &MOVES)?;
    all_say(&rt, alloc, &SCRIPTS)?;
    all_say(&rt, alloc, &STARTS)
}

static RANKS: [(RankFault, &str); 4] = [
    (RankFault::TooMany, "too many trials"),
    (RankFault::Workers, "number of workers"),
    (RankFault::OutOfMemory, "out of memory"),
    (RankFault::Spawn, "no thread"),
];

static REHEARSALS: [(RehearseFault, &str); 5] = [
    (RehearseFault::Seat(0), "step 1: seat"),
    (RehearseFault::Full(65_536), "step 65537: full"),
    (RehearseFault::NoLook(0), "step 1: no look"),
    (RehearseFault::TooMany(1), "step 2: too many trials"),
    (RehearseFault::OutOfMemory, "out of memory"),
];

static STEPS: [(StepsFault, &str); 2] = [
    (
        StepsFault::Line {
            line: 7,
            fault: LineFault::Name,
        },
        "line 7: bad name",
    ),
    (StepsFault::OutOfMemory, "out of memory"),
];

#[test]
fn faults_of_tests_and_steps_have_texts(rt: HostRuntime) -> Result<(), Fail> {
    let alloc = rt.alloc();
    all_say(&rt, alloc, &RANKS)?;
    all_say(&rt, alloc, &REHEARSALS)?;
    all_say(&rt, alloc, &STEPS)
}

static ROWS: [(LogFault, &str); 2] = [
    (LogFault::Capacity, "number of cells"),
    (LogFault::OutOfMemory, "out of memory"),
];

static TABLES: [(TableFault, &str); 2] = [
    (TableFault::Seats, "number of seats"),
    (TableFault::OutOfMemory, "out of memory"),
];

static OBSERVERS: [(ObserverFault, &str); 1] = [(ObserverFault::OutOfMemory, "out of memory")];

static PARTIES: [(PartyRefusal, &str); 2] = [
    (PartyRefusal::Shortage(Shortage::Spawn), "no thread"),
    (PartyRefusal::Log, "history cell refused"),
];

static SWEEPS: [(SweepEnd, &str); 3] = [
    (SweepEnd::Read, "read fault"),
    (SweepEnd::Write, "write fault"),
    (SweepEnd::Shortage(Shortage::OutOfMemory), "out of memory"),
];

static WRITES: [(WriteFailed, &str); 1] = [(WriteFailed, "write fault")];

#[test]
fn faults_of_tables_and_streams_have_texts(rt: HostRuntime) -> Result<(), Fail> {
    let alloc = rt.alloc();
    all_say(&rt, alloc, &ROWS)?;
    all_say(&rt, alloc, &TABLES)?;
    all_say(&rt, alloc, &OBSERVERS)?;
    all_say(&rt, alloc, &PARTIES)?;
    all_say(&rt, alloc, &SWEEPS)?;
    all_say(&rt, alloc, &WRITES)
}

// That each fault says the text beside it.
fn all_say<T: Display>(rt: &impl Abort, alloc: Global, rows: &[(T, &str)]) -> Result<(), Fail> {
    for (fault, want) in rows {
        let text = format!(in alloc; "{fault}")?;
        assert!(rt; text.as_str() == *want, "at {want}");
    }
    Ok(())
}

// Lines that spell no step, and why.
static LINE_FAULTS: [LineFault; 5] = [
    LineFault::Seat,
    LineFault::Word,
    LineFault::Form,
    LineFault::Name,
    LineFault::Number,
];

// What a session answers such a line is what is said of its fault.
#[test]
fn a_session_answers_what_is_said_of_a_line(rt: HostRuntime) -> Result<(), Fail> {
    for fault in &LINE_FAULTS {
        let said = format!(in rt.alloc(); "{fault}\n")?;
        assert!(&rt; said.as_str() == fault.answer_line(), "at {said}");
    }
    Ok(())
}

// Texts that are no table, each for a fault of its own.
static NO_TABLES: [&str; 19] = [
    "{",
    "[]",
    r#"{"vertices":0,"edges":[],"amounts":[0],"q":"a"}"#,
    r#"{"vertices":["a"],"edges":0,"amounts":[0],"q":"a"}"#,
    r#"{"vertices":["a","b"],"edges":[["a","b",1],0],"amounts":[0],"q":"a"}"#,
    r#"{"vertices":["a"],"edges":[],"amounts":0,"q":"a"}"#,
    r#"{"vertices":["a"],"edges":[],"amounts":[0],"q":0}"#,
    r#"{"vertices":[],"edges":[],"amounts":[],"q":"a"}"#,
    r#"{"vertices":["a","-"],"edges":[],"amounts":[0],"q":"a"}"#,
    r#"{"vertices":["a","a"],"edges":[],"amounts":[0],"q":"a"}"#,
    r#"{"vertices":["a","b"],"edges":[["a","b",1],["a","c",1]],"amounts":[0,0],"q":"a"}"#,
    r#"{"vertices":["a","b"],"edges":[["a","b",1],["a","a",1]],"amounts":[0,0],"q":"a"}"#,
    r#"{"vertices":["a","b"],"edges":[["a","b",1],["a","b",0]],"amounts":[0,0],"q":"a"}"#,
    r#"{"vertices":["a","b"],"edges":[["a","b",64]],"amounts":[0,0],"q":"a"}"#,
    r#"{"vertices":["a","b"],"edges":[],"amounts":[0,0],"q":"a"}"#,
    r#"{"vertices":["a"],"edges":[],"amounts":[0,0],"q":"a"}"#,
    r#"{"vertices":["a"],"edges":[],"amounts":[1000001],"q":"a"}"#,
    r#"{"vertices":["a"],"edges":[],"amounts":[0],"q":"b"}"#,
    r#"{"vertices":["a"],"edges":[],"amounts":[0],"q":"a","p":0}"#,
];

// What a sweep answers such a line is what is said of it as a file.
#[test]
fn a_sweep_answers_what_is_said_of_a_file(rt: HostRuntime) -> Result<(), Fail> {
    let mut answer = Vec::new(rt.alloc());
    for text in &NO_TABLES {
        let said = match read_table(rt.alloc(), text.as_bytes()) {
            Ok(_) => format!(in rt.alloc(); "a table")?,
            Err(fault) => format!(in rt.alloc(); "refused {fault}\n")?,
        };
        answer_line(
            rt.alloc(),
            &LineKind::Tables(Question::Judge(VerdictForm::Words { ordered: false })),
            text.as_bytes(),
            &mut answer,
        )?;
        assert!(&rt; answer.as_slice() == said.as_bytes(), "at {text}");
    }
    Ok(())
}

// A line that is longer than a file may be.
#[test]
fn a_sweep_answers_what_is_said_of_a_long_file(rt: HostRuntime) -> Result<(), Fail> {
    let said = format!(in rt.alloc(); "refused {}\n", SourceFault::TooLong)?;
    let line = vec![in rt.alloc(); b' '; 1_048_577]?;
    let mut answer = Vec::new(rt.alloc());
    answer_line(
        rt.alloc(),
        &LineKind::Tables(Question::Judge(VerdictForm::Words { ordered: false })),
        line.as_slice(),
        &mut answer,
    )?;
    assert!(&rt; answer.as_slice() == said.as_bytes());
    Ok(())
}
