//! What the program `dollar` offers to other Rust code: a run of it, and sessions side by side. It stands apart from the crate
//! that does the work: one whose public functions speak of names of vertices takes long to be built on.
#![tactic(auto)]

pub use dg_run::run;
pub use dg_session::{PartyFault, sessions};
pub use dg_system::{SourceFault, Sources, Stream};
