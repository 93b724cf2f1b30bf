//! The tests of `dg_system`, `dg_file`, `dg_lines`, `dg_sweep`, `dg_session` and `dg_run`: what no row in
//! tests/rows shows. They call only what those crates make public.
#![tactic(auto)]

#[cfg(test)]
mod faults;
#[cfg(test)]
mod files;
#[cfg(test)]
mod gates;
#[cfg(test)]
mod names;
#[cfg(test)]
mod party;
#[cfg(test)]
mod session;
#[cfg(test)]
mod sources;
#[cfg(test)]
mod streams;
#[cfg(test)]
mod sweeps;
#[cfg(test)]
mod table_tests;
#[cfg(test)]
mod tables;
#[cfg(test)]
mod texts;
#[cfg(test)]
mod written;
