//! The law of command lines: each means one thing.
#![tactic(auto)]

mod laws;

pub use laws::meaning_is_unique;
