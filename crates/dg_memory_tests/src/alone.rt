//! Calls that need no table to be opened, if memory may be refused.

use crate::acts::of_rank;
use crate::outcomes::{Outcome, done_if, tell};
use crate::tables::{nothing_to_do, triangle};
use dg_chips::{Divisor, Move};
use dg_file::{Names, TableFile};
use dg_game::{RehearseFault, rehearse};
use dg_graph::Graph;
use dg_lines::{StepsFault, parse_steps, reply_text};
use dg_rank::{OpenGate, rank_with};
use dg_rules::{Command, Entry, Plain, Reply, Step};
use dg_verdict::RankVerdict;
use std::alloc::Global;
use std::process::Abort;
use std::sync::Wait;
use std::test::Fail;
use std::thread::Threads;

#[derive(Clone, Copy)]
enum Call {
    ParseSteps,
    Rehearse,
    ReplyText,
    RankWith,
}

// A look, a move after which nobody is in debt, and a commit of the verdict on the look.
const STEPS: [Step; 3] = [
    Step {
        seat: 1,
        command: Command::Call(Plain::Look),
    },
    Step {
        seat: 2,
        command: Command::Call(Plain::Move(Move::Lend(0))),
    },
    Step {
        seat: 1,
        command: Command::Commit,
    },
];

const TEXT: &[u8] = b"1 look\n2 lend a\n1 commit\n";

static CALLS: [(&str, Call); 4] = [
    ("parse_steps", Call::ParseSteps),
    ("rehearse", Call::Rehearse),
    ("reply_text", Call::ReplyText),
    ("rank_with", Call::RankWith),
];

#[test]
fn calls_answer_or_refuse(rt: HostRuntime) -> Result<(), Fail> {
    let alloc = rt.alloc();
    let file = triangle(&rt, alloc)?;
    all_answer_or_refuse(&rt, alloc, &file)
}

fn all_answer_or_refuse<R: Threads + Wait + Abort + Print>(
    rt: &R,
    alloc: Global,
    file: &TableFile,
) -> Result<(), Fail> {
    for (name, call) in &CALLS {
        answers_or_refuses(rt, alloc, file, name, *call)?;
    }
    Ok(())
}

fn answers_or_refuses<R: Threads + Wait + Abort + Print>(
    rt: &R,
    alloc: Global,
    file: &TableFile,
    name: &str,
    call: Call,
) -> Result<(), Fail> {
    let outcome = called(rt, alloc, file, call)?;
    tell(rt, name, outcome)?;
    if outcome != Outcome::Done {
        assert!(rt; called(rt, alloc, file, call)? == Outcome::Done, "{name}");
    }
    Ok(())
}

// What comes of a call.
fn called<R: Threads + Wait>(
    rt: &R,
    alloc: Global,
    file: &TableFile,
    call: Call,
) -> Result<Outcome, Fail> {
    match call {
        Call::ParseSteps => Ok(parsed(alloc, file.names())),
        Call::Rehearse => rehearsed(alloc, file),
        Call::ReplyText => Ok(written(alloc, file)),
        Call::RankWith => ranked(rt, file.start().graph()),
    }
}

fn parsed(alloc: Global, names: &Names) -> Outcome {
    match parse_steps(alloc, TEXT, names) {
        Ok(steps) => done_if(steps.as_slice() == STEPS.as_slice()),
        Err(StepsFault::OutOfMemory) => Outcome::Memory,
        Err(_) => Outcome::Wrong,
    }
}

fn rehearsed(alloc: Global, file: &TableFile) -> Result<Outcome, Fail> {
    match rehearse(alloc, file.start(), &STEPS) {
        Ok(history) => Ok(done_if(is_paid(history.as_slice(), file)?)),
        Err(RehearseFault::OutOfMemory) => Ok(Outcome::Memory),
        Err(_) => Ok(Outcome::Wrong),
    }
}

fn written(alloc: Global, file: &TableFile) -> Outcome {
    let _graph = file.start().graph();
    match reply_text(alloc, &Reply::Moved(*file.start().divisor()), file.names()) {
        Ok(text) => done_if(text.as_slice() == b"moved a=2 b=-1 c=-1".as_slice()),
        Err(_) => Outcome::Memory,
    }
}

// On the triangle with a dollar at a, one can be lost at b or at c only by going into debt.
fn ranked<R: Threads + Wait>(rt: &R, graph: &Graph) -> Result<Outcome, Fail> {
    let one = Divisor::new(graph, &[1, 0, 0])?;
    let loss = Divisor::new(graph, &[0, 0, 1])?;
    match rank_with(rt, graph, 0, &one, 1, 3, &OpenGate) {
        Ok(verdict) => Ok(done_if(verdict == RankVerdict::Below(1, loss))),
        Err(fault) => Ok(of_rank(fault)),
    }
}

// Whether the history is that of the steps: after the move nobody is in debt, and there is nothing left to do.
fn is_paid(history: &[Entry], file: &TableFile) -> Result<bool, Fail> {
    let graph = file.start().graph();
    let even = Divisor::new(graph, &[0, 0, 0])?;
    let verdict = nothing_to_do(graph)?;
    Ok(match history {
        [_, lent, committed] => {
            lent.reply == Reply::Moved(even) && committed.reply == Reply::Verdict(verdict)
        }
        _ => false,
    })
}
