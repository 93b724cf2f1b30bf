//! The edges of small graphs.

/// Of three vertices, each joined to the others.
pub(crate) const TRIANGLE: &[(u8, u8, u8)] = &[(0, 1, 1), (1, 2, 1), (0, 2, 1)];

/// Of four vertices in a ring.
pub(crate) const SQUARE: &[(u8, u8, u8)] = &[(0, 1, 1), (1, 2, 1), (2, 3, 1), (3, 0, 1)];

/// Of two vertices with three edges between them.
pub(crate) const PAIR: &[(u8, u8, u8)] = &[(0, 1, 3)];

/// Of four vertices, each joined to the others.
pub(crate) const FOUR: &[(u8, u8, u8)] = &[
    (0, 1, 1),
    (0, 2, 1),
    (0, 3, 1),
    (1, 2, 1),
    (1, 3, 1),
    (2, 3, 1),
];
