//! The limits of sessions, and how they end.

use dg_system::{Shortage, SourceFault, WriteFailed};
use dg_table::Fault;
use thiserror::Error;

/// The most bytes that a line may have before its newline.
pub const MAX_LINE: usize = 1024;

/// The most lines that a session answers.
pub const MAX_LINES: u32 = 1_000_000;

/// The most bytes that are read at once.
pub const READ_SIZE: usize = 32_768;

/// Why a session ends before its input does.
#[derive(Clone, Copy, Debug, PartialEq, Eq, Error)]
pub enum SessionEnd {
    /// The reader failed.
    #[error("{}", SourceFault::Unreadable)]
    Read,
    /// The writer failed, or took no byte.
    #[error("{}", WriteFailed)]
    Write,
    /// A line has more than 1,024 bytes.
    #[error("long line")]
    LongLine,
    /// A byte follows the newline of the millionth line.
    #[error("too many lines")]
    Turns,
    /// The table refused a call.
    #[error(transparent)]
    Table(Fault),
    /// Memory was refused, but not to a call of the table: that is `Table`.
    #[error("{}", Shortage::OutOfMemory)]
    Memory,
    /// A thread of a rank test by two workers or more could not be started.
    #[error("{}", Shortage::Spawn)]
    Spawn,
}
