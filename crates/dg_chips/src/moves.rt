//! Moves.

use crate::script::Script;
use thiserror::Error;

/// A move of the dollar game. Vertices are numbered from 0.
#[derive(Clone, Copy, PartialEq, Eq)]
pub enum Move {
    /// The vertex lends: one dollar goes along each of its edges.
    Lend(u8),
    /// The vertex borrows: one dollar comes along each of its edges.
    Borrow(u8),
    /// Each vertex of a set lends once; bit v of the number stands for vertex v.
    Fire(u16),
    /// Each vertex lends as often as the script says.
    Script(Script),
}

/// Why a move is refused.
#[derive(Clone, Copy, Debug, PartialEq, Eq, Error)]
pub enum MoveFault {
    /// It names a vertex that is not there.
    #[error("the move has no vertex")]
    NoVertex,
    /// It fires the empty set.
    #[error("the set is empty")]
    Empty,
    /// Its script has another number of vertices than the graph.
    #[error("size of the script")]
    Script,
    /// It leaves an amount that is not within 1,000,000.
    #[error("an amount is out of range")]
    Range,
}
