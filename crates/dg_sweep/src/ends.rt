//! The limits of sweeps, and how they end early.

use dg_system::{Shortage, SourceFault, WriteFailed};
use thiserror::Error;

/// The most bytes that the line of a table may have before its newline, as many as a table file may have.
pub const MAX_LINE: usize = 1_048_576;

/// The most bytes that are read at once.
pub const READ_SIZE: usize = 262_144;

/// Why a sweep ends before its input does.
#[derive(Clone, Copy, Debug, PartialEq, Eq, Error)]
pub enum SweepEnd {
    /// The reader failed.
    #[error("{}", SourceFault::Unreadable)]
    Read,
    /// The writer failed, or took no byte.
    #[error("{}", WriteFailed)]
    Write,
    /// Memory was refused, or a thread could not be started.
    #[error(transparent)]
    Shortage(Shortage),
}
