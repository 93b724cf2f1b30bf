//! Strategies on small tables, computed by hand.
pub(crate) mod choices;
pub(crate) mod plays;
