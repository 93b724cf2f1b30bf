//! Why bytes are refused as a table file.

use dg_chips::ChipFault;
use dg_graph::GraphFault;
use std::alloc::AllocError;
use thiserror::Error;

/// The part of a table file that has another shape than it should. Edges are numbered from 0.
#[derive(Clone, Copy, Debug, PartialEq, Eq, Error)]
pub enum Shape {
    /// The file is no object with just the four members.
    #[error("shape of top")]
    Top,
    /// The vertices are no array of texts.
    #[error("shape of vertices")]
    Vertices,
    /// The edges are no array.
    #[error("shape of edges")]
    Edges,
    /// The edge is no array of two texts and a whole number from 0 to 255.
    #[error("shape of edge {0}")]
    Edge(usize),
    /// The amounts are no array of whole numbers.
    #[error("shape of amounts")]
    Amounts,
    /// The vertex q is no text.
    #[error("shape of q")]
    Q,
}

/// Why bytes are refused as a table file. Vertices and edges are numbered from 0.
#[derive(Clone, Copy, Debug, PartialEq, Eq, Error)]
pub enum FileFault {
    /// The bytes are no JSON text in UTF-8 that can be read.
    #[error("not JSON")]
    Json,
    /// A part of the file has another shape than it should.
    #[error(transparent)]
    Shape(Shape),
    /// The vertices and edges are no graph within the limits.
    #[error(transparent)]
    Graph(GraphFault),
    /// The vertex's name is not 1 to 16 letters, digits or `_`.
    #[error("name of vertex {0}")]
    Name(usize),
    /// The vertex has the name of an earlier one.
    #[error("vertex {0} named twice")]
    Twice(usize),
    /// The amounts are no divisor on the graph.
    #[error(transparent)]
    Chip(ChipFault),
    /// No vertex has the name q.
    #[error("no vertex q")]
    NoQ,
    /// There is not enough memory.
    #[error("out of memory")]
    OutOfMemory,
}

impl From<AllocError> for FileFault {
    ghost use Rattle.dg_file.specs.declared.fault.FileFault.TheVariants.{OutOfMemory};
    ghost use Rattle.std.specs.Prelude.{◌≡◌};

    ghost from_gives = { λ _ fault. fault ≡ OutOfMemory };

    fn from(_error: AllocError) -> FileFault {
        FileFault::OutOfMemory
    }
}

impl From<GraphFault> for FileFault {
    ghost use Rattle.dg_file.specs.declared.fault.FileFault.TheVariants.{Graph};
    ghost use Rattle.std.specs.Prelude.{◌≡◌};

    ghost from_gives = { λ graph fault. fault ≡ Graph graph };

    fn from(fault: GraphFault) -> FileFault {
        FileFault::Graph(fault)
    }
}

impl From<ChipFault> for FileFault {
    ghost use Rattle.dg_file.specs.declared.fault.FileFault.TheVariants.{Chip};
    ghost use Rattle.std.specs.Prelude.{◌≡◌};

    ghost from_gives = { λ chip fault. fault ≡ Chip chip };

    fn from(fault: ChipFault) -> FileFault {
        FileFault::Chip(fault)
    }
}
