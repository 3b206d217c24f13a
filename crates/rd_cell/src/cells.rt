//! One cell of a ring, and its double-word compare-and-swap.

ghost use Rattle.std.specs.Prelude.{◌≡◌, ◌↔◌, None, IsTrue};
ghost use Rattle.std.specs.Bool.{OnTrue, OnFalse};
ghost use Rattle.rd_cell.specs.Cells.{fresh_cell};
ghost use Rattle.rd_cell.specs.Operations.{wrote_cell};

use super::places::Wrote;

/// One cell of a ring (Morrison and Afek 2013). "No value" is the absent option.
#[derive(Clone, Copy, Debug, PartialEq, Eq)]
pub struct Cell {
    /// Whether an enqueue may use the cell without looking at the ring's head.
    pub safe: bool,
    /// The cell's index: the position for which it stands, at most 2^62 plus the ring's size.
    pub idx: u64,
    /// The value that waits here, or none.
    pub val: Option<u64>,
}

impl Cell {
    /// Returns the cell with this index in a fresh segment: it is safe and empty.
    pub fn fresh(index: u64) -> Cell
        ensures { result ≡ fresh_cell index }
    {
        Cell {
            safe: true,
            idx: index,
            val: None,
        }
    }

    /// Returns which part of the cell is written when `new` replaces it: the index half alone if
    /// the values are equal, else the whole cell.
    pub fn cas2_wrote(self, new: Cell) -> Wrote
        ensures { result ≡ wrote_cell self new }
    {
        if self.val == new.val {
            Wrote::Index
        } else {
            Wrote::Place
        }
    }

    /// Performs a compare-and-swap of the whole cell (CAS2), and returns whether it won. If the
    /// cell equals `old`, it becomes `new` and the swap has won, even if `old` and `new` are equal.
    /// Otherwise the cell stays as it was.
    pub fn cas2(&mut self, old: Cell, new: Cell) -> bool
        ensures won { IsTrue result ↔ (self.old ≡ old) }
        ensures swapped { OnTrue result (self.new ≡ new) }
        ensures unchanged { OnFalse result (self.new ≡ self.old) }
    {
        if *self == old {
            *self = new;
            true
        } else {
            false
        }
    }
}
