//! The edges of small graphs.

/// Of three vertices, each joined to the others.
pub(crate) const TRIANGLE: &[(u8, u8, u8)] = &[(0, 1, 1), (1, 2, 1), (0, 2, 1)];

/// Of four vertices in a ring.
pub(crate) const SQUARE: &[(u8, u8, u8)] = &[(0, 1, 1), (1, 2, 1), (2, 3, 1), (3, 0, 1)];

/// Of four vertices in a row.
pub(crate) const PATH: &[(u8, u8, u8)] = &[(0, 1, 1), (1, 2, 1), (2, 3, 1)];
