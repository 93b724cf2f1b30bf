//! Faults that no row in tests/rows meets: the line of each, and the exit status.

use dg_file::FileFault;
use dg_invocation::ArgsFault;
use dg_run::{Fault, report, status_of};
use dg_session::SessionEnd;
use dg_system::{Shortage, SourceFault};
use dg_table::Fault as TableFault;
use dg_tasks::TaskFault;
use std::alloc::Global;
use std::process::Abort;
use std::test::Fail;

// A fault, what is said of it after `dollar: `, and the status.
const FAULTS: [(Fault, &str, u8); 10] = [
    (
        Fault::Words(ArgsFault::NotText),
        "a word of the command line is not UTF-8",
        2,
    ),
    (Fault::Words(ArgsFault::OutOfMemory), "out of memory", 4),
    (
        Fault::Task(TaskFault::Source(SourceFault::OutOfMemory)),
        "out of memory",
        4,
    ),
    (
        Fault::Task(TaskFault::File(FileFault::OutOfMemory)),
        "out of memory",
        4,
    ),
    (
        Fault::Task(TaskFault::Shortage(Shortage::OutOfMemory)),
        "out of memory",
        4,
    ),
    (
        Fault::Task(TaskFault::Shortage(Shortage::Spawn)),
        "no thread",
        4,
    ),
    (Fault::Shortage(Shortage::OutOfMemory), "out of memory", 4),
    (Fault::Shortage(Shortage::Spawn), "no thread", 4),
    (Fault::History, "history cell refused", 4),
    (Fault::Write, "write fault", 5),
];

#[test]
fn faults_are_told(rt: HostRuntime) -> Result<(), Fail> {
    for (fault, text, status) in FAULTS {
        is_a_line(&rt, rt.alloc(), fault, text, status)?;
    }
    Ok(())
}

// How sessions end early, what is said of it, and the status.
static ENDS: [(SessionEnd, &str, u8); 6] = [
    (
        SessionEnd::Table(TableFault::OutOfMemory),
        "out of memory",
        4,
    ),
    (
        SessionEnd::Table(TableFault::Log),
        "history cell refused",
        4,
    ),
    (SessionEnd::Memory, "out of memory", 4),
    (SessionEnd::Spawn, "no thread", 4),
    (SessionEnd::Read, "read fault", 5),
    (SessionEnd::Write, "write fault", 5),
];

// A session alone, and the third and the last of a party.
#[test]
fn ends_of_sessions_are_told(rt: HostRuntime) -> Result<(), Fail> {
    for (end, text, status) in &ENDS {
        is_a_line(&rt, rt.alloc(), Fault::Session(*end), text, *status)?;
        is_told_beside(&rt, rt.alloc(), *end, text, *status)?;
    }
    Ok(())
}

// The 64th session ends if it can't read.
fn is_told_beside(
    rt: &impl Abort,
    alloc: Global,
    end: SessionEnd,
    text: &str,
    status: u8,
) -> Result<(), Fail> {
    let lines = format!(in alloc; "dollar: seat 3: {text}\ndollar: seat 64: read fault\n")?;
    let mut all = Vec::new(alloc);
    all.push((3, end))?;
    all.push((64, SessionEnd::Read))?;
    let fault = Fault::Sessions { least: end, all };
    is_told(rt, alloc, &fault, lines.as_str(), status);
    Ok(())
}

// Whether the text is told of the fault, on one line after the program's name.
fn is_a_line(
    rt: &impl Abort,
    alloc: Global,
    fault: Fault,
    text: &str,
    status: u8,
) -> Result<(), Fail> {
    let line = format!(in alloc; "dollar: {text}\n")?;
    is_told(rt, alloc, &fault, line.as_str(), status);
    Ok(())
}

// Whether the text is told of the fault, and the status given.
fn is_told(rt: &impl Abort, alloc: Global, fault: &Fault, text: &str, status: u8) {
    let mut told = Vec::new(alloc);
    let given = report(fault, &mut told);
    assert!(rt; told.as_slice() == text.as_bytes(), "{text}");
    assert!(rt; given == status && status_of(fault) == status, "{text}");
}
