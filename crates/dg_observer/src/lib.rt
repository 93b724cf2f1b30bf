//! Observers read a table's history without its lock, and keep a state that is the fold of the entries that they read.
#![tactic(auto)]

mod observer;
mod watch;

pub use observer::{Observer, ObserverFault};
/// Memory was refused: how a step says that it has none.
pub use std::alloc::AllocError as OutOfMemory;
pub use watch::Watch;
