//! Why a rank test is refused.

use dg_system::Shortage;
use thiserror::Error;

/// Why a rank test is refused.
#[derive(Clone, Copy, Debug, PartialEq, Eq, Error)]
pub enum RankFault {
    /// The degree is above 1,000, or there are more than 200,000 trials.
    #[error("too many trials")]
    TooMany,
    /// The number of workers is not 1 to 16.
    #[error("number of workers")]
    Workers,
    /// There is not enough memory. No call of this crate is refused so.
    #[error("{}", Shortage::OutOfMemory)]
    OutOfMemory,
    /// A thread could not be started.
    #[error("{}", Shortage::Spawn)]
    Spawn,
}
