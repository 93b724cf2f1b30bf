//! The calls of the project's outline that need no table, each by the path, the name and the parameters that it was planned
//! with, on examples that only a call shows. Nothing of the libraries' own is between: what is called here is what a user calls.
#![tactic(auto)]

#[cfg(test)]
mod burn_tests;
#[cfg(test)]
mod chips_tests;
#[cfg(test)]
mod file_tests;
#[cfg(test)]
mod game_tests;
#[cfg(test)]
mod gates;
#[cfg(test)]
mod graph_tests;
#[cfg(test)]
mod rank_tests;
#[cfg(test)]
mod reduce_tests;
#[cfg(test)]
mod tables;
#[cfg(test)]
mod verdict_tests;
