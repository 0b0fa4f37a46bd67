//! The limits of a store.

/// How much a store may hold: responses, and bytes.
#[derive(Clone, Copy, Debug, PartialEq, Eq)]
pub struct Limits {
    /// The greatest number of responses under one target.
    pub variants: usize,
    /// The greatest number of responses in all.
    pub responses: usize,
    /// The greatest number of bytes in all. A response counts as the bytes of its target, its content and
    /// the field lines of its request and of itself, and 256 more for each of these lines, and 1,024.
    pub bytes: usize,
}
