//! Analysts on small tables, computed by hand.
pub(crate) mod looks;
