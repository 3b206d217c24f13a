//! Several scripts over one book, each by a viewer in its own thread.

ghost use Rattle.std.specs.Prelude.{◌≡◌, ◌≤◌, ◌++◌, ℕ, List, false, length, string_bytes, IfOk, IfErr, IsUtf8, OnOk};
ghost use Rattle.rd_desk.specs.declared.desks.TheConstants.{MOST_VIEWERS};
ghost use Rattle.rd_desk.specs.Histories.{entries};
ghost use Rattle.rd_devices.specs.Streams.{sink_stream};
ghost use Rattle.rd_marks.specs.AnyBook.{any_state};
ghost use Rattle.rd_view.specs.declared.faults.ViewFault.TheVariants.{NoMemory};
ghost use Rattle.rd_view.specs.Viewing.{IsBusyOrNoMemory};
ghost use Rattle.rd_trace.specs.Writing.{IsTextOf};
ghost use Rattle.rd_program.specs.Viewers.{HasExtras, IsHistoryIfAsked, IsReport, IsTraceIfAsked, ViewsOver};

use super::faults::ProgramFault;
use super::setups::{Left, ViewExtras};
use rd_desk::History;
use rd_devices::{Sink, write_all};
use rd_marks::AnyBook;
use rd_trace::trace_text;
use rd_view::{ViewFault, put_history, run_scripts};
use std::alloc::{AllocError, Global};
use std::sync::Wait;
use std::thread::Threads;

/// Runs 1 to 64 scripts over a book, each by a viewer in its own thread, and waits for all of them.
/// Then writes for each viewer a heading and the answers to its lines, and the number of recorded
/// calls; behind that the lines of these calls and the trace of the book that they left, as far as
/// `extras` asks for them. Returns these calls and that book. If a thread can't be started, its
/// viewer gets the line `refused 20 NoMemory` in place of answers. The writer must not have failed
/// before.
///
/// # Errors
///
/// `View` if not all was written, with the reason: `NoMemory` if memory was refused, and `Busy` if
/// the desk could not be closed; nothing was then written. `Write` if the writer failed or took
/// nothing; a beginning was then written. The book is then lost.
pub fn view_book<R: Threads + Wait + Sync, K: Sink>(
    rt: &R,
    alloc: Global,
    scripts: &[Vec<u8>],
    writer: &mut K,
    book: AnyBook,
    extras: ViewExtras,
) -> Result<Left, ProgramFault>
    requires some_scripts { 1 ≤ length scripts.now }
    requires few_scripts { length scripts.now ≤ MOST_VIEWERS }
    requires writer_works { K.has_failed writer.old ≡ false }
    ensures views { ViewsOver (any_state book) scripts.now extras
        (sink_stream K.Sink writer.old writer.new) result }
{
    let (mut text, left) = run_scripts_any_book(rt, alloc, scripts, book)?;
    put_extras(alloc, &mut text, &left, extras)?;
    match write_all(writer, text.as_slice()) {
        Ok(()) => Ok(left),
        Err(_) => Err(ProgramFault::View(ViewFault::Write)),
    }
}

/// Runs 1 to 64 scripts over a book, as `view_book` does. Returns the text up to the number of
/// calls, and what the viewers left. Fails with `NoMemory` if memory is refused, and with `Busy` if
/// the desk can't be closed; the book is then lost.
fn run_scripts_any_book<R: Threads + Wait + Sync>(
    rt: &R,
    alloc: Global,
    scripts: &[Vec<u8>],
    book: AnyBook,
) -> Result<(Vec<u8>, Left), ViewFault>
    requires some { 1 ≤ length scripts.now }
    requires few { length scripts.now ≤ MOST_VIEWERS }
    ensures ok { IfOk result (λ done. IsReport (any_state book) scripts.now done.1 done.0.items) }
    ensures err { IfErr result IsBusyOrNoMemory }
{
    match book {
        AnyBook::Two(book) => {
            let viewed = run_scripts(rt, alloc, scripts, book)?;
            let (history, book) = (viewed.history, AnyBook::Two(viewed.book));
            Ok((viewed.text, Left { history, book }))
        }
        AnyBook::Four(book) => {
            let viewed = run_scripts(rt, alloc, scripts, book)?;
            let (history, book) = (viewed.history, AnyBook::Four(viewed.book));
            Ok((viewed.text, Left { history, book }))
        }
        AnyBook::Eight(book) => {
            let viewed = run_scripts(rt, alloc, scripts, book)?;
            let (history, book) = (viewed.history, AnyBook::Eight(viewed.book));
            Ok((viewed.text, Left { history, book }))
        }
    }
}

/// Appends to the text what `extras` asks for: the lines of the history, and the trace of the book.
/// Fails with `NoMemory` if memory is refused; a part may then have been appended.
pub(crate) fn put_extras(
    alloc: Global,
    text: &mut Vec<u8>,
    left: &Left,
    extras: ViewExtras,
) -> Result<(), ViewFault>
    ensures ok { OnOk result (HasExtras extras left.now text.old.items text.new.items) }
    ensures err { IfErr result (λ fault. fault ≡ NoMemory) }
{
    put_history_if_asked(text, &left.history, extras.history)?;
    put_trace_if_asked(alloc, text, &left.book, extras.trace)?;
    Ok(())
}

/// Appends the lines of a history to the text if `asked` is set. Fails only if memory is refused;
/// some lines may then have been appended.
fn put_history_if_asked(
    text: &mut Vec<u8>,
    history: &History,
    asked: bool,
) -> Result<(), AllocError>
    ensures { OnOk result ((calls : List ℕ) × (text.new.items ≡ text.old.items ++ calls)
        × IsHistoryIfAsked asked (entries history.now) calls) }
{
    if !asked {
        return Ok(());
    }
    put_history(text, history)?;
    Ok(())
}

/// Appends the trace of a book to the text if `asked` is set. Fails only if memory is refused; the
/// text is then as before.
fn put_trace_if_asked(
    alloc: Global,
    text: &mut Vec<u8>,
    book: &AnyBook,
    asked: bool,
) -> Result<(), AllocError>
    ensures { OnOk result ((trace : List ℕ) × (text.new.items ≡ text.old.items ++ trace)
        × IsTraceIfAsked asked (any_state book.now) trace) }
{
    if !asked {
        return Ok(());
    }
    let trace = any_trace_text(alloc, book)?;
    text.extend_from_slice(trace.as_str().as_bytes())?;
    Ok(())
}

/// Returns the trace of a book, as `trace_text` does. Fails only if memory is refused.
fn any_trace_text(alloc: Global, book: &AnyBook) -> Result<String, AllocError>
    ensures { IfOk result (λ text. IsUtf8 (string_bytes text)
        → IsTextOf (any_state book.now) (string_bytes text)) }
{
    match book {
        AnyBook::Two(book) => trace_text(alloc, book),
        AnyBook::Four(book) => trace_text(alloc, book),
        AnyBook::Eight(book) => trace_text(alloc, book),
    }
}
