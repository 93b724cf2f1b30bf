//! Rank tests: whether every effective divisor of a degree can be lost and the rest still won. Nothing takes memory but the
//! threads of `rank_with`.
#![tactic(auto)]

mod beginnings;
mod boxes;
mod counting;
mod duals;
mod enumeration;
mod first_loss;
mod folding;
mod laws;
mod losses;
mod numbers;
mod pieces;
mod prices;
mod rank_fault;
mod ranks;
mod workers;

pub use counting::{MAX_DEGREE, MAX_TRIALS, trial, trials};
pub use dg_verdict::RankVerdict;
pub use duals::has_rank_at_least;
pub use laws::tests_tell_ranks;
pub use numbers::{both_ranks, both_ranks_in_limits, rank};
pub use rank_fault::RankFault;
pub use ranks::{rank_at_least, rank_at_least_by};
pub use workers::{Gate, MAX_WORKERS, OpenGate, rank_with};
