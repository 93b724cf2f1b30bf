//! What the words of a command line may ask for.
#![tactic(auto)]

mod args_fault;
mod invocation;
mod limits;
mod numbered;
mod question;

pub use args_fault::ArgsFault;
pub use invocation::{Invocation, PartyTask, ServeTask, Task};
pub use limits::{MAX_CAPACITY, MAX_SEATS, MAX_TURNS, MAX_WORKERS};
pub use numbered::{GreedyTask, RankTask};
pub use question::{Form, Question, SweepTask, VerdictForm};
