//! Lines: what a line spells, and how replies and histories are written.
#![tactic(auto)]

mod amounts;
mod columns;
mod command;
mod cuts;
mod digits;
mod judgement;
mod laws;
mod line;
mod lines;
mod number;
mod steps_file;
mod text;
mod word;

pub use columns::{push_marks, push_rank_row, push_verdict_row};
pub use cuts::cut;
pub use judgement::push_judgement;
pub use laws::{line_meaning_is_unique, numerals_are_decimals, step_meaning_is_unique};
pub use line::{LineFault, parse_line, parse_step, split_seat};
pub use lines::Lines;
/// Memory was refused: the one fault of `reply_text`.
pub use std::alloc::AllocError as OutOfMemory;
pub use steps_file::{StepsFault, parse_steps};
pub use text::{push_amounts, push_entry, push_reply, reply_text};
