//! Burning a graph from a vertex: the order in which the vertices burn, and those that do not. No call takes memory.
#![tactic(auto)]

mod burning;
mod fire;

pub use burning::{BurnCounts, Burnt, burn, burn_counted, capped_amounts};
