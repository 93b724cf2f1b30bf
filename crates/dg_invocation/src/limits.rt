//! How much may be asked for, by the limits of the game and of rank tests.

/// The most entries that may be asked for: as many as a game may have.
pub const MAX_CAPACITY: u32 = dg_rules::MAX_ENTRIES as u32;
/// The most turns that may be asked for, each of which makes an entry.
pub const MAX_TURNS: u32 = dg_rules::MAX_ENTRIES as u32;
/// The most workers that may be asked for.
pub const MAX_WORKERS: u32 = dg_rank::MAX_WORKERS;
/// The most seats that may be asked for.
pub const MAX_SEATS: u8 = dg_rules::MAX_SEATS;
