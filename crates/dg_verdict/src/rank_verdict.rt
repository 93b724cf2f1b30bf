//! What a rank test answers.
use dg_chips::Divisor;

/// The answer of a rank test of degree k.
#[derive(Clone, Copy, PartialEq, Eq)]
pub enum RankVerdict {
    /// Every effective divisor of degree k can be lost and the rest still won: the rank is at least k.
    AtLeast(u32),
    /// The rank is less than k, and the divisor is the first of degree k whose loss can't be borne.
    Below(u32, Divisor),
}
