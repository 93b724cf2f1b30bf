//! Divisors, scripts and moves of the dollar game, and what a move does. No call takes memory.
#![tactic(auto)]

mod divisor;
mod drift;
mod duals;
mod firing;
mod light;
mod moves;
mod script;
mod set_firing;
mod start;
mod vector;
mod wide;

pub use divisor::{ChipFault, Divisor, MAX_AMOUNT};
pub use drift::{Drift, MAX_DRIFT};
pub use duals::dual;
pub use firing::apply;
pub use moves::{Move, MoveFault};
pub use script::{MAX_ENTRY, Script, ScriptFault};
pub use start::{Start, StartFault};
pub use vector::to_i64s;
pub use wide::Wide;
