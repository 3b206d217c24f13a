//! Writing a trace: the whole text is made in memory, and then written to the sink.

ghost use Rattle.std.specs.Prelude.{◌≡◌, false};
ghost use Rattle.rd_marks.specs.Book.{book_state};
ghost use Rattle.rd_marks.specs.AnyBook.{any_state};
ghost use Rattle.rd_devices.specs.Streams.{sink_stream};
ghost use Rattle.rd_trace.specs.Writing.{WritesTrace};

use super::faults::TraceFault;
use super::saved::trace_text;
use rd_devices::{Sink, write_all};
use rd_marks::{AnyBook, Book};
use std::alloc::Global;

/// Writes a book as a trace of version 2, with a line feed after it: its start, live events, undone
/// events and bookmarks, and the number of cells of its rings. With rings of 2, 4 or 8 cells,
/// loading the text gives the same book, unless memory is refused; `load_trace` rejects a trace
/// over any other rings. The writer must not have failed before.
///
/// # Errors
///
/// `NoMemory` if memory was refused; nothing was written. `Write` if the writer failed or took
/// nothing; it has then taken a beginning of the text.
#[tactic(auto, using(crate::proofs::SpellLemmas::passed_up))]
pub fn write_trace<K: Sink, const R: usize>(
    alloc: Global,
    writer: &mut K,
    book: &Book<R>,
) -> Result<(), TraceFault>
    requires { K.has_failed writer.old ≡ false }
    ensures writes { WritesTrace (book_state book.now)
        (sink_stream K.Sink writer.old writer.new) result }
{
    let Ok(text) = trace_text(alloc, book) else {
        return Err(TraceFault::NoMemory);
    };
    match write_all(writer, text.as_str().as_bytes()) {
        Ok(()) => Ok(()),
        Err(_) => Err(TraceFault::Write),
    }
}

/// Writes a book over rings of 2, 4 or 8 cells as a trace, as `write_trace` does. The writer must
/// not have failed before.
///
/// # Errors
///
/// Those of `write_trace`.
pub fn write_any_trace<K: Sink>(
    alloc: Global,
    writer: &mut K,
    book: &AnyBook,
) -> Result<(), TraceFault>
    requires { K.has_failed writer.old ≡ false }
    ensures writes { WritesTrace (any_state book.now)
        (sink_stream K.Sink writer.old writer.new) result }
{
    match book {
        AnyBook::Two(book) => write_trace(alloc, writer, book),
        AnyBook::Four(book) => write_trace(alloc, writer, book),
        AnyBook::Eight(book) => write_trace(alloc, writer, book),
    }
}
