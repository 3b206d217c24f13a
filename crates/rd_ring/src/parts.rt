//! The words of a segment, as a caller gives them.

ghost use Rattle.std.specs.Prelude.{◌≡◌, ◌≤◌, length};
ghost use Rattle.rd_ring.specs.Prelude.{MOST_CELLS};

use rd_cell::{Cell, SegName};

/// The words of a segment of `R` cells, at most 64, that is to be put together; they need not fit a
/// well-formed world. In such a world the counters are at most 2^62, the cells' indexes at most
/// 2^62 + `R`, and the next, if any, names a segment that is there.
#[derive(Clone, Copy, Debug)]
pub struct SegmentParts<const R: usize> {
    /// The head counter.
    pub head: u64,
    /// The tail counter.
    pub tail: u64,
    /// Whether the ring is closed for enqueues.
    pub closed: bool,
    /// The name of the segment that follows, or none.
    pub next: Option<SegName>,
    /// The cells in their order: cell 0 first.
    pub cells: [Cell; R],
    ghost small: { R ≤ MOST_CELLS },
    ghost sized: { length cells ≡ R },
}
