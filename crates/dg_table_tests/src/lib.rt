//! The calls of the project's outline at a table, and those of sessions and of the program, in the form that they were
//! planned in.
#![tactic(auto)]

#[cfg(test)]
mod analyst_tests;
#[cfg(test)]
mod gates;
#[cfg(test)]
pub mod held_tests;
#[cfg(test)]
mod log_tests;
#[cfg(test)]
mod observer_tests;
#[cfg(test)]
mod server_tests;
#[cfg(test)]
mod session_tests;
#[cfg(test)]
mod settle_tests;
#[cfg(test)]
mod strategy_tests;
#[cfg(test)]
mod table_tests;
#[cfg(test)]
mod tables;
