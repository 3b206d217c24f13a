//! The operations that a step may do on one content, and what an access answers.

ghost use Rattle.std.specs.Prelude.{◌≡◌};
ghost use Rattle.rd_cell.specs.Operations.{read_answer};

use super::cells::Cell;
use super::contents::{ArrSlot, Content};
use super::places::SegName;

/// What one access does to the content of its place.
#[derive(Clone, Copy, Debug, PartialEq, Eq)]
pub enum Operation {
    /// Reads a name, a number, a tail or a next.
    Read,
    /// Reads the value of a cell, at its value half.
    ReadValue,
    /// Reads the safe bit and the index of a cell, at its index half.
    ReadSafeAndIndex,
    /// Fetch-and-add of 1 on a segment's counter, which ends at 2^62.
    Add,
    /// Fetch-and-add of 1 on a counter of the array, which ends at 64.
    AddArray,
    /// Sets the closed bit of a tail (test-and-set).
    Close,
    /// Compare-and-swap of a name.
    CasName {
        /// The name that has to be there.
        old: SegName,
        /// The name that is put there.
        new: SegName,
    },
    /// Compare-and-swap of a next, from none to this name.
    CasNext(SegName),
    /// Compare-and-swap of a tail, from open at one count to open at another.
    CasTail {
        /// The count that has to be there.
        old: u64,
        /// The count that is put there.
        new: u64,
    },
    /// Compare-and-swap of a whole cell.
    Cas2 {
        /// The cell that has to be there.
        old: Cell,
        /// The cell that is put there.
        new: Cell,
    },
    /// Swap of a slot of the array: puts this in, and answers what was there.
    Swap(ArrSlot),
}

/// What an access answers to its actor.
#[derive(Clone, Copy, Debug, PartialEq, Eq)]
pub enum Answer {
    /// Nothing: there was no access.
    Nothing,
    /// The content that a read, a fetch-and-add or a swap found: a name, a number, a tail, a next
    /// or a slot.
    Found(Content),
    /// The value of a cell.
    Value(Option<u64>),
    /// The safe bit and the index of a cell.
    SafeAndIndex {
        /// The safe bit.
        safe: bool,
        /// The index.
        idx: u64,
    },
    /// Whether a test-and-set found the ring closed.
    WasClosed(bool),
    /// A compare-and-swap won.
    Won,
    /// A compare-and-swap lost.
    Lost,
    /// The segment that was made.
    Made(SegName),
}

impl Operation {
    /// Returns the answer of this operation if it only reads, and reads contents of this kind; else
    /// none.
    pub fn read_answer(self, content: Content) -> Option<Answer>
        ensures { result ≡ read_answer self content }
    {
        match (self, content) {
            (
                Operation::Read,
                Content::Name(_) | Content::Number(_) | Content::Tail { .. } | Content::Next(_),
            ) => Some(Answer::Found(content)),
            (Operation::ReadValue, Content::Val(val)) => Some(Answer::Value(val)),
            (Operation::ReadSafeAndIndex, Content::Idx { safe, idx }) => Some(Answer::SafeAndIndex {
                safe,
                idx,
            }),
            _ => None,
        }
    }
}
