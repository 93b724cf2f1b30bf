//! The names and numbers that files and lines spell.
#![tactic(auto)]

mod decimals;
mod label;
mod names;

pub use decimals::{leading_integer, parse_integer, parse_natural};
pub use label::MAX_LABEL;
pub use names::{MAX_NAME, Names, is_name};
