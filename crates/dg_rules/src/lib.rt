//! The dollar game of one table, played by one hand: requests, replies and the history that they make. No call takes memory.
#![tactic(auto)]

mod entry;
mod finding;
mod game;
mod laws;
mod look;
mod step;

pub use entry::{BLANK, Entry, MAX_GIFT, MAX_SEATS, Plain, Refusal, Reply, Request};
pub use finding::{Finding, Question, judge_look, renew_inverse};
pub use game::{Game, MAX_ENTRIES};
pub use laws::{law_of_legal_histories, law_of_positions};
pub use look::LookData;
pub use step::{Command, Step};
