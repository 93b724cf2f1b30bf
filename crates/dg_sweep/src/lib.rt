//! Sweeps: tables, or amounts for one table, come in on a stream, one on each line, and each line is answered.
#![tactic(auto)]

mod answering;
mod divisors;
mod ends;
mod fault_words;
mod kinds;
mod laws;
mod ranking;
mod sweeping;
mod taking;
mod workers;

pub use answering::answer_line;
pub use ends::{MAX_LINE, READ_SIZE, SweepEnd};
pub use kinds::LineKind;
pub use laws::{
    amounts_answer_is_unique, amounts_meaning_is_unique, lines_stand_for_tables,
    table_answer_is_unique,
};
pub use sweeping::sweep;
