//! Parties on the triangle.
pub(crate) mod gates;
mod meetings;
