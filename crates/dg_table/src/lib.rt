//! The locked table: seats call it from many threads, and each call is an entry of one history.
#![tactic(auto)]

mod audit;
mod fault;
mod held;
pub mod laws;
mod seat;
mod table;

pub use audit::Audit;
pub use fault::{Fault, TableFault};
pub use seat::Seat;
/// Memory was refused: the one fault of some calls.
pub use std::alloc::AllocError as OutOfMemory;
pub use table::{CloseFault, Table};
