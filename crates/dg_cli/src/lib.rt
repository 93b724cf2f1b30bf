//! The command line of the program: what its words ask for, and what the program says of them.
#![tactic(auto)]

mod arguments;
mod command_line;
mod commands;
mod help_texts;
mod reading;

pub use command_line::{invocation_of, words_of};
