//! Viewers that are there at once, each at its own terminal, over one book.

ghost use Rattle.std.specs.Prelude.{◌≡◌, ◌≤◌, false, length, IfOk, IfErr};
ghost use Rattle.rd_desk.specs.declared.desks.TheConstants.{MOST_VIEWERS};
ghost use Rattle.rd_marks.specs.AnyBook.{any_state};
ghost use Rattle.rd_devices.specs.Streams.{sink_stream};
ghost use Rattle.rd_view.specs.declared.faults.ViewFault.TheVariants.{NoMemory};
ghost use Rattle.rd_view.specs.Viewing.{IsBusyOrNoMemory};
ghost use Rattle.rd_program.specs.Live.{EndedLive, IsLiveText, ViewsLive};

use super::faults::ProgramFault;
use super::setups::{Left, ViewExtras};
use super::viewers::put_extras;
use rd_devices::{Sink, write_all};
use rd_marks::AnyBook;
use rd_text::{Heading, Text, set_heading};
use rd_view::{Terminal, ViewFault, ViewerEnd, run_live};
use std::alloc::Global;
use std::sync::Wait;
use std::thread::Threads;

/// Lets 1 to 64 viewers work on a book at once, each at its own terminal and in its own thread, and
/// waits for all of them, as `run_live` does. Then writes the number of recorded calls and, as far
/// as `extras` asks for them, the lines of these calls and the trace of the book that they left.
/// Returns how each viewer ended, these calls and that book. The writer must not have failed
/// before.
///
/// # Errors
///
/// `View` if not all was written, with the reason: `NoMemory` if memory was refused, and `Busy` if
/// the desk could not be closed; nothing was then written. `Write` if the writer failed or took
/// nothing; a beginning was then written. How the viewers ended is then lost, as is the book; what
/// they were answered is at their terminals.
pub fn view_live<R: Threads + Wait + Sync, T: Terminal + Send + Drop, K: Sink>(
    rt: &R,
    alloc: Global,
    terminals: Vec<T>,
    writer: &mut K,
    book: AnyBook,
    extras: ViewExtras,
) -> Result<(Vec<ViewerEnd>, Left), ProgramFault>
    requires some { 1 ≤ length terminals.items }
    requires few { length terminals.items ≤ MOST_VIEWERS }
    requires writer_works { K.has_failed writer.old ≡ false }
    ensures views { ViewsLive T.opens T.Reader.Source T.Writer.Sink (any_state book)
        terminals.items extras (sink_stream K.Sink writer.old writer.new) result }
{
    let (ends, left) = run_live_any_book(rt, alloc, terminals, book)?;
    let text = live_text(alloc, &left, extras)?;
    match write_all(writer, text.as_slice()) {
        Ok(()) => Ok((ends, left)),
        Err(_) => Err(ProgramFault::View(ViewFault::Write)),
    }
}

/// Lets viewers work on a book, as `view_live` does. Returns how each viewer ended, and what they
/// left. Fails with `NoMemory` if memory is refused, and with `Busy` if the desk can't be closed;
/// the book is then lost.
fn run_live_any_book<R: Threads + Wait + Sync, T: Terminal + Send + Drop>(
    rt: &R,
    alloc: Global,
    terminals: Vec<T>,
    book: AnyBook,
) -> Result<(Vec<ViewerEnd>, Left), ViewFault>
    requires some { 1 ≤ length terminals.items }
    requires few { length terminals.items ≤ MOST_VIEWERS }
    ensures ok { IfOk result (λ done. EndedLive T.opens T.Reader.Source T.Writer.Sink
        (any_state book) terminals.items done.0.items done.1) }
    ensures err { IfErr result IsBusyOrNoMemory }
{
    match book {
        AnyBook::Two(book) => {
            let live = run_live(rt, alloc, terminals, book)?;
            let (history, book) = (live.history, AnyBook::Two(live.book));
            Ok((live.ends, Left { history, book }))
        }
        AnyBook::Four(book) => {
            let live = run_live(rt, alloc, terminals, book)?;
            let (history, book) = (live.history, AnyBook::Four(live.book));
            Ok((live.ends, Left { history, book }))
        }
        AnyBook::Eight(book) => {
            let live = run_live(rt, alloc, terminals, book)?;
            let (history, book) = (live.history, AnyBook::Eight(live.book));
            Ok((live.ends, Left { history, book }))
        }
    }
}

/// Returns the text on what viewers left: the number of recorded calls and, as far as `extras` asks
/// for them, the lines of these calls and the trace of the book. Fails with `NoMemory` if memory is
/// refused.
fn live_text(alloc: Global, left: &Left, extras: ViewExtras) -> Result<Vec<u8>, ViewFault>
    ensures ok { IfOk result (λ text. IsLiveText extras left.now text.items) }
    ensures err { IfErr result (λ fault. fault ≡ NoMemory) }
{
    let mut line = Text::new();
    set_heading(&mut line, Heading::History(left.history.len()));
    let mut text = Vec::from_slice(alloc, line.as_slice())?;
    put_extras(alloc, &mut text, left, extras)?;
    Ok(text)
}
