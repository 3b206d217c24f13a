//! How many cells the rings of a run have, where that is known only when the program runs.

/// How many cells each ring has: 2, 4 or 8.
#[derive(Clone, Copy, Debug, PartialEq, Eq)]
pub enum Ring {
    /// 2 cells.
    Two,
    /// 4 cells.
    Four,
    /// 8 cells.
    Eight,
}
