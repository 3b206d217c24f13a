//! What `run` and `load` do over the devices that they are given: they run a script over a book, and
//! write the session's trace after the report if it is asked for. `fresh_book` and `load_book` open
//! the book; `read_whole_text` reads a trace for `load_book`, or a script for `view_book`.

ghost use Rattle.std.specs.Prelude.{◌≡◌, ℕ, false, IfOk, IfErr, IfSome};
ghost use Rattle.rd_devices.specs.Streams.{devices, sink_stream};
ghost use Rattle.rd_marks.specs.Ring.{ring_length};
ghost use Rattle.rd_marks.specs.AnyBook.{any_journal, any_state, fresh_state, IsBookIn};
ghost use Rattle.rd_program.specs.Program.{IsReadOrNoMemory, LoadsBook, PlaysOver, WritesTraceIfAsked};

use super::faults::ProgramFault;
use super::setups::Setup;
use rd_devices::{Sink, Source};
use rd_marks::AnyBook;
use rd_script::run_any_book;
use rd_trace::{TraceFault, load_trace, write_any_trace};
use std::alloc::Global;
use std::io::{ErrorKind, Read};

/// Returns a book over the fresh world of this setup, with no step and no bookmark.
///
/// # Errors
///
/// `NoMemory` if memory for the world was refused.
pub fn fresh_book(alloc: Global, setup: Setup) -> Result<AnyBook, ProgramFault>
    ensures ok { IfOk result (IsBookIn (fresh_state (ring_length setup.ring) setup.actors)) }
    ensures err { IfErr result (λ fault. fault ≡ ProgramFault.NoMemory) }
{
    Ok(AnyBook::fresh(alloc, setup.ring, setup.actors)?)
}

/// Loads a text as a trace, and returns its book.
///
/// # Errors
///
/// `Trace` with the fault of `load_trace`, if the text was not loaded.
pub fn load_book(alloc: Global, text: &[u8]) -> Result<AnyBook, ProgramFault>
    ensures { LoadsBook text.now result }
{
    Ok(load_trace(alloc, text)?)
}

/// Runs a script over a book and writes its report. If the trace is asked for, it follows the
/// report of a run that came to its end. Returns the number of the script's lines. Neither the
/// reader nor the writer may have failed before.
///
/// # Errors
///
/// `Script` if the run of the script stopped, with the fault of `rd_script::run`; no trace follows.
/// `Trace` if the trace was not written whole: either memory was refused, and nothing follows the
/// report, or the writer failed, and took a beginning of the trace. The book has what was done.
pub fn play<S: Source, K: Sink>(
    alloc: Global,
    reader: &mut S,
    writer: &mut K,
    book: &mut AnyBook,
    trace: bool,
) -> Result<u64, ProgramFault>
    requires reader_works { S.has_failed reader.old ≡ false }
    requires writer_works { K.has_failed writer.old ≡ false }
    ensures plays { PlaysOver (any_state book.old) (any_state book.new) (any_journal book.new) trace
        (devices S.Source K.Sink reader.old reader.new writer.old writer.new) result }
{
    let lines = run_any_book(reader, writer, book)?;
    write_trace_if_asked(alloc, writer, book, trace)?;
    Ok(lines)
}

/// Writes the trace of a book if `trace` is set, else nothing. Fails as `write_any_trace` does, and
/// never if `trace` is not set. The writer must not have failed before.
fn write_trace_if_asked<K: Sink>(
    alloc: Global,
    writer: &mut K,
    book: &AnyBook,
    trace: bool,
) -> Result<(), TraceFault>
    requires { K.has_failed writer.old ≡ false }
    ensures { WritesTraceIfAsked trace (any_state book.now)
        (sink_stream K.Sink writer.old writer.new) result }
{
    if trace {
        return write_any_trace(alloc, writer, book);
    }
    Ok(())
}

/// Reads a reader to its end, and returns all bytes that it still had.
///
/// # Errors
///
/// `NoMemory` if memory was refused; `Read` if the reader failed. The bytes that were read are then
/// lost.
pub fn read_whole_text<R: Read>(alloc: Global, reader: &mut R) -> Result<Vec<u8>, ProgramFault>
    ensures ok { IfOk result (λ text. IfSome (R.remaining reader.old)
        (λ bytes. text.items ≡ bytes)) }
    ensures err { IfErr result IsReadOrNoMemory }
{
    let mut text = Vec::new(alloc);
    match reader.read_to_end(&mut text) {
        Ok(_) => Ok(text),
        Err(error) if error.kind() == ErrorKind::OutOfMemory => Err(ProgramFault::NoMemory),
        Err(_) => Err(ProgramFault::Read),
    }
}
