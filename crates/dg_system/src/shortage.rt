//! What the system may lack.

use std::alloc::AllocError;
use thiserror::Error;

/// What the system lacked: memory, or a thread.
#[derive(Clone, Copy, Debug, PartialEq, Eq, Error)]
pub enum Shortage {
    /// There is not enough memory.
    #[error("out of memory")]
    OutOfMemory,
    /// A thread could not be started.
    #[error("no thread")]
    Spawn,
}

impl From<AllocError> for Shortage {
    ghost use Rattle.std.specs.Prelude.{◌≡◌};
    ghost use Rattle.dg_system.specs.declared.shortage.Shortage.TheVariants.{OutOfMemory};

    ghost from_gives = { λ _ shortage. shortage ≡ OutOfMemory };

    fn from(_error: AllocError) -> Shortage {
        Shortage::OutOfMemory
    }
}
