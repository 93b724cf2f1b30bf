//! The divisor that is reduced for a vertex q and can be reached by firing, and the script that leads to it; and amounts
//! without debts, kept so while dollars are taken. A guess comes first, which burning certifies. The fallback, which few
//! guesses need, works without one, by the distances from q. No call takes memory.
#![tactic(auto)]

mod burning_down;
mod by_levels;
mod certificate;
mod clearing;
mod effective_divisor;
mod guessing;
mod inverse_laplacian;
mod levels;
mod limits;
mod max_firings;
mod next_firing;
mod reduced;
mod reducing;
mod walk;

pub use by_levels::{may_reduce, reduce_by_levels, reduce_from_script};
pub use certificate::{Burning, burning_order, is_effective_off};
pub use effective_divisor::EffectiveDivisor;
pub use guessing::guess;
pub use inverse_laplacian::InverseLaplacian;
pub use limits::MAX_START;
pub use reduced::Reduced;
pub use reducing::{CertifiedReduction, certified_by, reduce, reduce_certified, reduce_wide};
