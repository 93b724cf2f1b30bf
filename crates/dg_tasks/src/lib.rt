//! The tasks whose answer is a text: what each prints, and when it is refused.
#![tactic(auto)]

mod fault;
mod games;
mod laws;
mod printed;
mod ranks;
mod rehearsing;
mod table_source;
mod tasks;

pub use fault::TaskFault;
pub use laws::rehearsal_text_is_unique;
pub use tasks::{answer, answer_alone};
