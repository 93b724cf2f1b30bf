//! Strategies and settlers: closures that choose a seat's calls, turn by turn.
#![tactic(auto)]

mod games;
mod laws;
mod least_debtor;
mod playing;
mod settler;
mod strategy;

pub use games::greedy_turn;
pub use laws::settler_is_greedy;
pub use least_debtor::greedy_choice;
pub use playing::{Ended, play, settle_out};
pub use settler::Settler;
pub use strategy::Strategy;
