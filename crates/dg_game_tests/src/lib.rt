//! The tests of verdicts and of ranks, which call only what those crates make public.
#![tactic(auto)]

#[cfg(test)]
mod edges;
#[cfg(test)]
mod rank;
#[cfg(test)]
mod verdict;
