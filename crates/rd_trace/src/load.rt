//! Loading a trace: the whole text is read as a JSON value, and the value as a session. The value
//! is dropped, and then the session's events happen.

ghost use Rattle.std.specs.Prelude.{◌≡◌, ◌≤◌, Some, codes};
ghost use Rattle.serde_json.specs.View.{view};
ghost use Rattle.rd_step.specs.Prelude.{MOST_CELLS};
ghost use Rattle.rd_marks.specs.BookState.{BookState};
ghost use Rattle.rd_trace.specs.Numbers.{number_at};
ghost use Rattle.rd_trace.specs.Traces.{IsTraceRing};
ghost use Rattle.rd_trace.specs.Loading.{LoadsTrace, LoadsAgain};
ghost use Rattle.rd_trace.specs.Steps.{LoadsValue};
ghost use Rattle.rd_trace.specs.Writing.{IsTextOf};

use super::faults::TraceFault;
use super::members::number_at;
use super::replay::{go_to, set_marks, step_all, world_of};
use super::saved::{SavedBook, parse_book};
use rd_journal::Session;
use rd_marks::{AnyBook, Book};
use serde_json::Value;
use std::alloc::Global;

/// Loads a trace of version 1 or 2, and returns the book with the start, live events, undone events
/// and bookmarks that the text spells. A trace of version 1 has a fresh start, no undone event and
/// no bookmark. White space and the order of the keys don't matter.
///
/// # Errors
///
/// In this order: `BadTrace` if the text is no trace, or not one over rings of 2, 4 or 8 cells;
/// `Flawed` if its start is no well-formed world, with the first condition that fails; `TraceMark`
/// if an event of a bookmark is refused, with the numbers of the first such bookmark and of its
/// first such event, and why; `TraceStep` if a live event or an undone one is refused, with the
/// number of the first and why. `NoMemory` if memory was refused, at any point.
///
/// The undone events are numbered after the live ones. The event after the `MOST_STEPS`-th of a
/// list is refused with the cause `TooLong`.
pub fn load_trace(alloc: Global, text: &[u8]) -> Result<AnyBook, TraceFault>
    ensures loads { LoadsTrace text.now result }
    ensures again { (b : BookState) → IsTraceRing b.session.start.ring → IsTextOf b text.now
        → LoadsAgain b result }
{
    let value = match Value::from_slice(alloc, text) {
        Ok(value) => value,
        Err(error) if error.is_memory() => return Err(TraceFault::NoMemory),
        Err(_) => return Err(TraceFault::BadTrace),
    };
    match number_at(&value, "ring") {
        Some(2) => book_of(alloc, value).map(AnyBook::Two),
        Some(4) => book_of(alloc, value).map(AnyBook::Four),
        Some(8) => book_of(alloc, value).map(AnyBook::Eight),
        _ => Err(TraceFault::BadTrace),
    }
}

/// Returns the book that a JSON value spells. The value must have the number `R`,
/// from 1 to 64, at the key `ring`. It is dropped before the first event happens.
///
/// # Errors
///
/// Those of `load_trace`.
fn book_of<const R: usize>(alloc: Global, value: Value) -> Result<Book<R>, TraceFault>
    requires positive { 1 ≤ R }
    requires small { R ≤ MOST_CELLS }
    requires ring { number_at (codes "ring") (view value) ≡ Some R }
    ensures { LoadsValue (view value) result }
{
    let saved: SavedBook<R> = parse_book(alloc, &value)?;
    drop(value);
    let world = world_of(alloc, saved.start)?;
    let mut book = Book::open(alloc, Session::open(alloc, world));
    set_marks(&mut book, &saved.marks)?;
    go_to(&mut book, &saved.events)?;
    step_all(&mut book, &saved.undone)?;
    book.undo_last(saved.undone.len() as u64);
    Ok(book)
}
