//! The tests of burning and of reductions, which call only what those crates make public.
#![tactic(auto)]

#[cfg(test)]
mod burn;
#[cfg(test)]
mod edges;
#[cfg(test)]
mod reduce;
