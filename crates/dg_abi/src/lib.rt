//! The library for C: verdicts, ranks and rank tests on many divisors of one graph, from arrays of the caller into arrays of
//! the caller. No call takes memory, starts a thread or keeps anything, so any number of threads may call at once.
#![tactic(auto)]

mod exports;
mod faults;
mod graphs;
mod judging;
mod lengths;
mod ranking;
mod rows;
