//! The steps of a schedule.
use crate::entry::Plain;

/// What a step of a schedule does.
#[derive(Clone, Copy, PartialEq, Eq)]
pub enum Command {
    /// A call of the game itself.
    Call(Plain),
    /// Enter the verdict that was computed on the seat's last look, and use the look up.
    Commit,
    /// Enter the rank test of this degree that was computed on the seat's last look, and use the look up.
    Rank(u32),
}

/// One step of a schedule: a seat and what it does.
#[derive(Clone, Copy, PartialEq, Eq)]
pub struct Step {
    /// The seat, 1 to 64.
    pub seat: u8,
    /// What it does.
    pub command: Command,
}
