//! The dollar game of one table, and schedules that are played on it: their steps one after another, on one game and the looks
//! that its seats keep. No call takes memory but `rehearse`.
#![tactic(auto)]

mod ranking;
mod schedule;

pub use dg_rules::{Command, Entry, Finding, Game, LookData, Plain, Refusal, Reply, Request, Step};
pub use schedule::{Rehearsal, RehearseFault, rehearse};
