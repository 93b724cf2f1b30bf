//! The faults that end a run, what is said of each, and the exit statuses.
ghost use Rattle.std.specs.Prelude.{◌≡◌};
ghost use Rattle.dg_run.specs.Status.{status};

use dg_file::FileFault;
use dg_invocation::ArgsFault;
use dg_session::SessionEnd;
use dg_sweep::SweepEnd;
use dg_system::{Shortage, SourceFault, WriteFailed};
use dg_tasks::TaskFault;
use std::io::{self, Write};
use thiserror::Error;

/// What ends a run before its work is done. Its text is what the fault line says.
#[derive(Debug, Drop, Error)]
pub enum Fault {
    /// The words of the command line ask for nothing.
    #[error(transparent)]
    Words(ArgsFault),
    /// A file is not read, a table file is refused, or a task is not done.
    #[error(transparent)]
    Task(TaskFault),
    /// There is not enough memory, or a thread could not be started.
    #[error(transparent)]
    Shortage(Shortage),
    /// The session ended before its input did.
    #[error(transparent)]
    Session(SessionEnd),
    /// Sessions of a party ended before their scripts did, of the seats that are named, in order.
    #[error("{least}")]
    Sessions {
        /// How that of the least such seat ended.
        least: SessionEnd,
        /// Each such seat, and how its session ended.
        all: Vec<(usize, SessionEnd)>,
    },
    /// A sweep ended before its input did.
    #[error(transparent)]
    Sweep(SweepEnd),
    /// A party has more than 64 scripts.
    #[error("too many seats")]
    Seats,
    /// The table was not closed; no clause says why.
    #[error("{}", dg_table::Fault::Log)]
    History,
    /// The output takes no more bytes.
    #[error("{}", WriteFailed)]
    Write,
}

impl From<WriteFailed> for Fault {
    ghost use Rattle.dg_run.specs.declared.fault.Fault.TheVariants.{Write};
    ghost use Rattle.std.specs.Prelude.{◌≡◌};

    ghost from_gives = { λ _ fault. fault ≡ Write };

    fn from(_error: WriteFailed) -> Fault {
        Fault::Write
    }
}

/// The exit status of a run that ends with the fault: 2 for a refused command line, 3 for refused input, 4 for want of
/// memory, 5 for reading and writing.
pub fn status_of(fault: &Fault) -> u8
    ensures { result ≡ status fault.now }
{
    match fault {
        Fault::Words(ArgsFault::OutOfMemory) => 4,
        Fault::Words(_) => 2,
        Fault::Task(fault) => status_of_task(fault),
        Fault::Session(end) | Fault::Sessions { least: end, .. } => status_of_end(*end),
        Fault::Sweep(end) => status_of_sweep(*end),
        Fault::Seats => 3,
        Fault::Shortage(_) | Fault::History => 4,
        Fault::Write => 5,
    }
}

/// The exit status if a task is not done so.
fn status_of_task(fault: &TaskFault) -> u8
    ensures { result ≡ Rattle.dg_run.specs.Status.status_of_task fault.now }
{
    match fault {
        TaskFault::Source(SourceFault::TooLong) => 3,
        TaskFault::Source(SourceFault::OutOfMemory) => 4,
        TaskFault::Source(SourceFault::Unreadable) => 5,
        TaskFault::File(FileFault::OutOfMemory) => 4,
        TaskFault::File(_) => 3,
        TaskFault::Line { .. }
        | TaskFault::Full(_)
        | TaskFault::NoLook(_)
        | TaskFault::StepTrials(_) => 3,
        TaskFault::TooMany | TaskFault::Chip(_) => 3,
        TaskFault::Shortage(_) => 4,
    }
}

/// The exit status if a session ends so.
fn status_of_end(end: SessionEnd) -> u8
    ensures { result ≡ Rattle.dg_run.specs.Status.status_of_end end }
{
    match end {
        SessionEnd::LongLine | SessionEnd::Turns => 3,
        SessionEnd::Table(fault) => status_of_table(fault),
        SessionEnd::Memory | SessionEnd::Spawn => 4,
        SessionEnd::Read | SessionEnd::Write => 5,
    }
}

/// The exit status if a sweep ends so.
fn status_of_sweep(end: SweepEnd) -> u8
    ensures { result ≡ Rattle.dg_run.specs.Status.status_of_sweep end }
{
    match end {
        SweepEnd::Shortage(_) => 4,
        SweepEnd::Read | SweepEnd::Write => 5,
    }
}

/// The exit status if a call of a table is refused so.
fn status_of_table(fault: dg_table::Fault) -> u8
    ensures { result ≡ Rattle.dg_run.specs.Status.status_of_table fault }
{
    match fault {
        dg_table::Fault::Full => 3,
        dg_table::Fault::OutOfMemory | dg_table::Fault::Log => 4,
    }
}

/// Writes what is said of a fault, and gives the exit status. That is one line, but after a refused command line as many
/// as it takes, and for sessions of a party one for each. If they cannot be written the status is the same.
pub fn report<F: Write>(fault: &Fault, faults: &mut F) -> u8
    ensures { result ≡ status fault.now }
{
    let _ = match fault {
        Fault::Words(ArgsFault::CommandLine(text)) => faults.write_all(text.as_bytes()),
        Fault::Sessions { all, .. } => report_seats(all.as_slice(), faults),
        _ => writeln!(faults, "dollar: {fault}"),
    };
    let _ = faults.flush();
    status_of(fault)
}

/// Writes a line for each session, with its seat and how it ended.
fn report_seats<F: Write>(all: &[(usize, SessionEnd)], faults: &mut F) -> io::Result<()> {
    for (seat, end) in all {
        writeln!(faults, "dollar: seat {seat}: {end}")?;
    }
    Ok(())
}
