//! An analyst looks at a table, computes without its lock while others play, and enters what it found.
#![tactic(auto)]

mod commits;
mod laws;
mod looking;
mod looks;
mod reckoning;

pub use commits::{commit, commit_look, commit_rank, commit_stale};
pub use laws::stale_is_committed;
pub use looking::look;
pub use looks::Look;
pub use reckoning::{Reckoned, Tried, reckon, try_rank, try_rank_ungated};
