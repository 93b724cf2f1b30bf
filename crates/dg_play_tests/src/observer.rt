//! Observers of small tables.
pub(crate) mod watching;
