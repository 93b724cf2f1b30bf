//! Finite connected multigraphs without loops, of at most 16 vertices, and sets of their vertices. No call takes memory.
#![tactic(auto)]

mod build;
mod connected;
mod crossing;
mod fault;
mod graph;
mod sets;
mod table;
mod twins;

pub use fault::{GraphFault, JoinFault};
pub use graph::{Graph, MAX_VALENCE, MAX_VERTICES};
pub use sets::{
    complement, contains, intersection, is_vertex_set, least_vertex, with_vertex, without_vertex,
};
