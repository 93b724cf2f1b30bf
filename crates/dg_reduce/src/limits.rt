//! The limit of the amounts that a reduction starts from.

/// The largest amount, debt or not, that a reduction starts from: twice the largest amount of a divisor.
pub const MAX_START: u128 = 2_000_000;
