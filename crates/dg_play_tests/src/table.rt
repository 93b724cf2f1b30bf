//! A full table, turns, and many threads on one table.
pub(crate) mod filled;
pub(crate) mod meetings;
pub(crate) mod turns;
