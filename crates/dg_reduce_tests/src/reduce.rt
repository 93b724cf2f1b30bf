//! Reductions, guesses, and what the guesses leave.
mod extreme;
mod guesses;
mod random;
mod reductions;
mod reference;
