//! Why a list of edges is refused, and why one more edge is.

use thiserror::Error;

/// Why a list of edges is refused as a graph. Items and vertices are numbered from 0.
#[derive(Clone, Copy, Debug, PartialEq, Eq, Error)]
pub enum GraphFault {
    /// The number of vertices is not 1 to 16.
    #[error("number of vertices")]
    Size,
    /// The item names a vertex that is not there.
    #[error("edge {0} has no vertex")]
    NoVertex(usize),
    /// The item joins a vertex to itself.
    #[error("edge {0} is a loop")]
    Loop(usize),
    /// The item puts no edge.
    #[error("edge {0} is empty")]
    Multiplicity(usize),
    /// More than 63 edges meet at the vertex.
    #[error("valence of vertex {0}")]
    Valence(usize),
    /// Some two vertices are joined by no chain of edges.
    #[error("not connected")]
    NotConnected,
}

/// Why one more edge between two vertices is refused.
#[derive(Clone, Copy, Debug, PartialEq, Eq, Error)]
pub enum JoinFault {
    /// One of the two is not there.
    #[error("the edge has no vertex")]
    NoVertex,
    /// The two are the same vertex.
    #[error("the edge is a loop")]
    Loop,
    /// 63 edges meet at one of the two already.
    #[error("valence of a vertex of the edge")]
    Valence,
}
