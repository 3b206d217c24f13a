//! What a run begins in, what a view writes behind its report and leaves, and what was done at the
//! end.

ghost use Rattle.std.specs.Prelude.{◌≤◌};
ghost use Rattle.rd_cell.specs.declared.limits.TheConstants.{MOST_ACTORS};

use rd_desk::History;
use rd_marks::{AnyBook, Ring};
use rd_view::ViewerEnd;

/// The fresh world that a run begins in, by its size.
#[derive(Clone, Copy, Debug, PartialEq, Eq)]
pub struct Setup {
    /// The number of actors of the world, 1 to 16.
    pub actors: u8,
    /// The size of its rings: 2, 4 or 8 cells.
    pub ring: Ring,
    ghost some: { 1 ≤ actors },
    ghost few: { actors ≤ MOST_ACTORS },
}

/// What a view writes behind the number of its calls.
#[derive(Clone, Copy, Debug, PartialEq, Eq)]
pub struct ViewExtras {
    /// The recorded calls, a line each.
    pub history: bool,
    /// The trace of the session, as the last line.
    pub trace: bool,
}

/// What the viewers of one book left.
#[derive(Drop)]
pub struct Left {
    /// The calls of all viewers.
    pub history: History,
    /// The book that these calls left.
    pub book: AnyBook,
}

/// What was done, where nothing stopped the program.
#[derive(Drop)]
pub enum Done {
    /// This many lines of a script were answered, or this many calls of viewers recorded.
    Counted(u64),
    /// Viewers were there at once; how each ended, in order.
    Lived(Vec<ViewerEnd>),
}
