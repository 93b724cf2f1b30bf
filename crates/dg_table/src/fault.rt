//! Why a call is no entry, and why there is no table.

use thiserror::Error;

/// Why a call of a seat is refused; it is then no entry, and the seat knows what it knew.
#[derive(Clone, Copy, Debug, PartialEq, Eq, Error)]
pub enum Fault {
    /// There is not enough memory.
    #[error("out of memory")]
    OutOfMemory,
    /// The history has as many entries as it may have.
    #[error("the history is full")]
    Full,
    /// The seat keeps more than the history holds, or less of its own; or the history has not reached the look; or the cell
    /// refused the entry.
    #[error("history cell refused")]
    Log,
}

/// Why a table is not opened.
#[derive(Clone, Copy, Debug, PartialEq, Eq, Error)]
pub enum TableFault {
    /// It would have no seat, or more than 64.
    #[error("number of seats")]
    Seats,
    /// There is not enough memory.
    #[error("{}", Fault::OutOfMemory)]
    OutOfMemory,
}
