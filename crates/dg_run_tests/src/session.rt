//! Sessions over streams.
pub(crate) mod streams;
