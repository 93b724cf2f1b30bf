//! Verdicts.
mod judged;
