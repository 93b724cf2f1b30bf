//! The start of a game: a graph, a divisor and the vertex q.

ghost use Rattle.std.specs.Prelude.{◌≡◌, ◌≢◌, ℕ, ◌<◌, ◌≤◌, MatchResult};
ghost use Rattle.dg_chips.specs.Starts.{IsStart, IsStartFault};

use crate::divisor::Divisor;
use dg_graph::Graph;
use std::marker::Model;
use thiserror::Error;

/// Why a start is refused.
#[derive(Clone, Copy, Debug, PartialEq, Eq, Error)]
pub enum StartFault {
    /// The divisor has another number of vertices than the graph.
    #[error("size of the divisor")]
    Length,
    /// The vertex q is not there.
    #[error("q is not a vertex")]
    Vertex,
}

/// The start of a game: a graph, a divisor on it, and the vertex q from which verdicts are computed.
#[derive(Clone, Copy, PartialEq, Eq)]
pub struct Start {
    graph: Graph,
    divisor: Divisor,
    q: u8,
}

impl Model for Start {
    ghost use Rattle.dg_chips.specs.Starts.{StartData, IsStart};

    ghost Value = { StartData };

    ghost view = { λ a. record { graph = a.graph; divisor = a.divisor; q = a.q } };

    ghost invariant = { λ a. IsStart (record { graph = a.graph; divisor = a.divisor; q = a.q }) };

    ghost inverse = { λ o. record { graph = o.graph; divisor = o.divisor; q = o.q } };
}

impl Start {
    /// The start with these three parts.
    ///
    /// Refused with `Length` if the divisor has another number of vertices than the graph, then with `Vertex` if
    /// q is none of the graph's.
    pub fn new(graph: Graph, divisor: Divisor, q: u8) -> Result<Start, StartFault>
        ensures { MatchResult result
            (λ s. (s ≡ record { graph = graph; divisor = divisor; q = q }) × IsStart s)
            (IsStartFault graph divisor q) }
    {
        let size = graph.size();
        if divisor.size() != size {
            return Err(StartFault::Length);
        }
        if usize::from(q) >= size {
            return Err(StartFault::Vertex);
        }
        Ok(Start { graph, divisor, q })
    }

    /// The graph.
    pub fn graph(&self) -> &Graph
        ensures graph { result.now ≡ self.now.graph }
        ensures start { IsStart self.now }
    {
        &self.graph
    }

    /// The amounts at the start.
    pub fn divisor(&self) -> &Divisor
        ensures { result.now ≡ self.now.divisor }
    {
        &self.divisor
    }

    /// The vertex from which verdicts are computed.
    pub fn q(&self) -> usize
        ensures { result ≡ self.now.q }
    {
        usize::from(self.q)
    }
}
