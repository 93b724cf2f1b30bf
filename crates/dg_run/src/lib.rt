//! What the commands of the program `dollar` do: sessions, parties, sweeps and tasks, their faults, and a run of the program.
#![tactic(auto)]

mod fault;
mod parties;
mod program;
mod running;
mod serve;
mod sweeps;
mod table_source;

pub use fault::{Fault, report, status_of};
pub use program::perform;
pub use running::{run, run_streams};
