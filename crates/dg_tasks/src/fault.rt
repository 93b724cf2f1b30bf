//! Why a task is not done.

use dg_chips::ChipFault;
use dg_file::FileFault;
use dg_game::RehearseFault;
use dg_lines::{LineFault, StepsFault};
use dg_rank::RankFault;
use dg_system::{Shortage, SourceFault};
use std::alloc::AllocError;
use thiserror::Error;

/// Why a task is not done, or a file or a table that it needs is not there. Its text is what the fault line says.
#[derive(Debug, Drop, Error)]
pub enum TaskFault {
    /// A file is not read.
    #[error(transparent)]
    Source(SourceFault),
    /// The table file is refused.
    #[error(transparent)]
    File(FileFault),
    /// A line of the steps, counted from 1, is refused.
    #[error("{}", StepsFault::Line {line: *.line, fault: *.fault})]
    Line {
        /// The line, counted from 1.
        line: usize,
        /// Why it is refused.
        fault: LineFault,
    },
    /// A step, counted from 0, finds the history full. The text counts from 1.
    #[error("{}", RehearseFault::Full(*.0))]
    Full(usize),
    /// A step, counted from 0, commits while its seat keeps no look. The text counts from 1.
    #[error("{}", RehearseFault::NoLook(*.0))]
    NoLook(usize),
    /// A step, counted from 0, asks for a rank test past the limits. The text counts from 1.
    #[error("{}", RehearseFault::TooMany(*.0))]
    StepTrials(usize),
    /// A rank test is past the limits.
    #[error("{}", RankFault::TooMany)]
    TooMany,
    /// The canonical divisor less that of the table is none.
    #[error(transparent)]
    Chip(ChipFault),
    /// There is not enough memory, or a thread could not be started.
    #[error(transparent)]
    Shortage(Shortage),
}

impl From<AllocError> for TaskFault {
    ghost use Rattle.std.specs.Prelude.{◌≡◌};
    ghost use Rattle.dg_system.specs.declared.shortage.Shortage.TheVariants.{OutOfMemory};
    ghost use Rattle.dg_tasks.specs.declared.fault.TaskFault.TheVariants.{Shortage};

    ghost from_gives = { λ _ fault. fault ≡ Shortage OutOfMemory };

    fn from(_error: AllocError) -> TaskFault {
        TaskFault::Shortage(Shortage::OutOfMemory)
    }
}
