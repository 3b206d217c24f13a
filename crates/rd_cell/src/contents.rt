//! The content of a place.

ghost use Rattle.std.specs.Prelude.{◌≡◌, ◌↔◌, IsTrue};

use super::cells::Cell;
use super::places::SegName;

/// A slot of the array queue.
#[derive(Clone, Copy, Debug, PartialEq, Eq)]
pub enum ArrSlot {
    /// No call has swapped anything in yet.
    Empty,
    /// A dequeue was here, so an enqueue that comes later goes on to another slot.
    Top,
    /// A value that an enqueue swapped in.
    Value(u64),
}

impl ArrSlot {
    /// Whether the slot is empty.
    pub fn is_empty(self) -> bool
        ensures { IsTrue result ↔ (self ≡ ArrSlot.Empty) }
    {
        self == ArrSlot::Empty
    }
}

/// The content of one place. Each kind of place has one kind of content.
#[derive(Clone, Copy, Debug, PartialEq, Eq)]
pub enum Content {
    /// The queue's head or tail: the name of a segment.
    Name(SegName),
    /// A counter by itself: a segment's head, or one of the array's.
    Number(u64),
    /// A segment's tail: its closed bit and its counter.
    Tail {
        /// Whether the ring is closed for enqueues.
        closed: bool,
        /// The counter, at most 2^62.
        count: u64,
    },
    /// The segment that follows, or none.
    Next(Option<SegName>),
    /// A cell of a ring: its two halves together.
    Cell(Cell),
    /// The value of a cell, or none.
    Val(Option<u64>),
    /// The safe bit and the index of a cell.
    Idx {
        /// The safe bit.
        safe: bool,
        /// The index.
        idx: u64,
    },
    /// What a query shows at the whole of a segment that is there.
    Whole,
    /// A slot of the array.
    Slot(ArrSlot),
}
