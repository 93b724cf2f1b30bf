//! What a party comes to, and why there is none.
use crate::ends::SessionEnd;
use dg_system::Shortage;
use dg_table::Fault;
use thiserror::Error;

/// What a party came to.
#[derive(Drop)]
pub struct PartyOutcome {
    /// What each session came to, in the order of the scripts.
    pub ends: Vec<Result<u32, SessionEnd>>,
    /// The lines of the history's entries, each with its number and its seat, and then its totals.
    pub text: Vec<u8>,
}

/// Why there is no party.
#[derive(Clone, Copy, Debug, PartialEq, Eq, Error)]
pub enum PartyRefusal {
    /// There is not enough memory, or a thread could not be started.
    #[error(transparent)]
    Shortage(Shortage),
    /// The table was not closed; no clause says why.
    #[error("{}", Fault::Log)]
    Log,
}
