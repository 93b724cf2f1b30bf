//! The tests of the locked table, and of who plays on it or watches it. They call only what the libraries make public.
#![tactic(auto)]

#[cfg(test)]
mod analyst;
#[cfg(test)]
mod observer;
#[cfg(test)]
mod strategy;
#[cfg(test)]
mod table;
#[cfg(test)]
mod table_tests;
#[cfg(test)]
mod tables;
