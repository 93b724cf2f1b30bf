//! Rank tests, computed by hand.
mod ranks;
mod references;
mod workers;
