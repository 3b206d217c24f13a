//! A view: several scripts run over one desk, each by a viewer in its own thread, and the answers
//! are written as one text.
//!
//! All scripts are read before the first command is asked, and nothing is written before the desk
//! is closed. Then the whole text is made, and handed over in as few calls as the writer needs.

ghost use Rattle.std.specs.Prelude.{◌≡◌, ◌≤◌, false, length, map, IfOk, IfErr};
ghost use Rattle.rd_marks.specs.Book.{book_state};
ghost use Rattle.rd_desk.specs.declared.desks.TheConstants.{MOST_VIEWERS};
ghost use Rattle.rd_desk.specs.Histories.{entries, IsLeftBy};
ghost use Rattle.rd_text.specs.Lines.{commands_of};
ghost use Rattle.rd_devices.specs.Streams.{sink_stream};
ghost use Rattle.rd_view.specs.Viewing.{AreParsed, IsBusyOrNoMemory, IsMadeBy, IsViewed, ViewsScripts};

use super::faults::ViewFault;
use super::reports::text_of_view;
use rd_desk::{Answer, Desk, DeskPass, History, ask_viewers};
use rd_devices::{Sink, write_all};
use rd_marks::{Book, Command};
use rd_text::{ParsedLine, lines, spelled_commands};
use std::alloc::{AllocError, Global};
use std::sync::Wait;
use std::thread::Threads;

/// For each viewer the answers to its commands, or none if its thread was not started.
type ViewerAnswers = Vec<Option<Vec<Answer>>>;

/// What the viewers left when the desk was closed.
#[derive(Drop)]
pub struct Viewed<const N: usize> {
    /// The text of the view, as `text_of_view` returns it.
    pub text: Vec<u8>,
    /// The calls of all viewers.
    pub history: History,
    /// The book that these calls left.
    pub book: Book<N>,
}

/// Runs 1 to 64 scripts over the book, each by a viewer in its own thread, and waits for all of
/// them. Then writes the text of `text_of_view`: the answers to each script's lines, and the number
/// of recorded calls. Returns the history of these calls. If a thread can't be started, its viewer
/// gets the line `refused 20 NoMemory` in place of answers, and that is no error. The book is lost.
/// The writer must not have failed before.
///
/// # Errors
///
/// `NoMemory` if memory was refused, `Busy` if the desk could not be closed: nothing was written.
/// `Write` if the writer failed or took nothing: a beginning of the text was written.
pub fn view_scripts<R: Threads + Wait + Sync, K: Sink, const N: usize>(
    rt: &R,
    alloc: Global,
    scripts: &[Vec<u8>],
    writer: &mut K,
    book: Book<N>,
) -> Result<History, ViewFault>
    requires some { 1 ≤ length scripts.now }
    requires few { length scripts.now ≤ MOST_VIEWERS }
    requires works { K.has_failed writer.old ≡ false }
    ensures views { ViewsScripts (book_state book.entry) scripts.now
        (sink_stream K.Sink writer.old writer.new) result }
{
    let Viewed { text, history, .. } = run_scripts(rt, alloc, scripts, book)?;
    match write_all(writer, text.as_slice()) {
        Ok(()) => Ok(history),
        Err(_) => Err(ViewFault::Write),
    }
}

/// Runs 1 to 64 scripts over the book, each by a viewer in its own thread, and waits for all of
/// them. Returns the text of the view, the history and the book that the calls left. If a thread
/// can't be started, its viewer gets the line `refused 20 NoMemory` in place of answers, and that
/// is no error.
///
/// # Errors
///
/// `NoMemory` if memory was refused, `Busy` if the desk could not be closed. The book is then lost.
pub fn run_scripts<R: Threads + Wait + Sync, const N: usize>(
    rt: &R,
    alloc: Global,
    scripts: &[Vec<u8>],
    book: Book<N>,
) -> Result<Viewed<N>, ViewFault>
    requires some { 1 ≤ length scripts.now }
    requires few { length scripts.now ≤ MOST_VIEWERS }
    ensures ok { IfOk result (IsMadeBy (book_state book.entry) scripts.now) }
    ensures err { IfErr result IsBusyOrNoMemory }
{
    let said = parse_scripts(alloc, scripts)?;
    let (answered, history, book) = run_over_desk(rt, alloc, said.as_slice(), book)?;
    let text = text_of_view(alloc, said.as_slice(), answered.as_slice(), history.len())?;
    Ok(Viewed {
        text,
        history,
        book,
    })
}

/// Returns for each script what its lines spell, commands and faults, in order. Fails only if
/// memory is refused.
fn parse_scripts(alloc: Global, scripts: &[Vec<u8>]) -> Result<Vec<Vec<ParsedLine>>, AllocError>
    ensures { IfOk result (λ said. AreParsed scripts.now said.items) }
{
    let mut said = Vec::new(alloc);
    for script in scripts {
        let Ok(lines) = lines(alloc, script.as_slice()) else {
            return Err(AllocError);
        };
        said.push(lines)?;
    }
    Ok(said)
}

/// Opens a desk over the book for 1 to 64 viewers, lets each ask the commands of its lines in its
/// own thread, and closes the desk when all are done. Returns for each viewer the answers, or none
/// if its thread was not started, the history, and the book that it left. Fails with `NoMemory` if
/// memory is refused, and with `Busy` if the desk can't be closed; the book is then lost.
fn run_over_desk<R: Threads + Wait + Sync, const N: usize>(
    rt: &R,
    alloc: Global,
    said: &[Vec<ParsedLine>],
    book: Book<N>,
) -> Result<(ViewerAnswers, History, Book<N>), ViewFault>
    requires some { 1 ≤ length said.now }
    requires few { length said.now ≤ MOST_VIEWERS }
    ensures ok { IfOk result (λ done. IsViewed (book_state book.entry) said.now done.0.items
        (entries done.1)) }
    ensures left { IfOk result (λ done. IsLeftBy (book_state book.entry)
        (entries done.1) done.2) }
    ensures err { IfErr result IsBusyOrNoMemory }
{
    let Ok((desk, passes)) = Desk::open(alloc, book, said.len() as u64) else {
        return Err(ViewFault::NoMemory);
    };
    let work = passes_with_commands(alloc, passes, said)?;
    let Ok(dones) = ask_viewers(rt, alloc, &desk, work) else {
        return Err(ViewFault::NoMemory);
    };
    let (passes, answered) = passes_and_answers(alloc, dones)?;
    match desk.close(passes) {
        Ok((book, history)) => Ok((answered, history, book)),
        Err(words) => Err(ViewFault::Busy(words)),
    }
}

/// Returns each viewer's pass with the commands of its lines, in order. There must be as many
/// passes as lists of lines. Fails only if memory is refused; the passes are then lost.
fn passes_with_commands<const N: usize>(
    alloc: Global,
    passes: Vec<DeskPass<N>>,
    said: &[Vec<ParsedLine>],
) -> Result<Vec<(DeskPass<N>, Vec<Command>)>, AllocError>
    requires { length passes.items ≡ length said.now }
    ensures passes { IfOk result (λ work. map (λ viewer. viewer.0) work.items
        ≡ passes.entry.items) }
    ensures commands { IfOk result (λ work. map (λ viewer. viewer.1.items) work.items
        ≡ map (λ lines. commands_of lines.items) said.now) }
{
    let mut work = Vec::new(alloc);
    for pass in passes {
        let commands = spelled_commands(alloc, said[work.len()].as_slice())?;
        work.push((pass, commands))?;
    }
    Ok(work)
}

/// Separates the viewers' passes from their answers, and returns both in order. Fails only if
/// memory is refused; passes and answers are then lost.
fn passes_and_answers<const N: usize>(
    alloc: Global,
    dones: Vec<(DeskPass<N>, Option<Vec<Answer>>)>,
) -> Result<(Vec<DeskPass<N>>, ViewerAnswers), AllocError>
    ensures passes { IfOk result (λ apart. apart.0.items ≡ map (λ done. done.0) dones.entry.items) }
    ensures answered { IfOk result (λ apart. apart.1.items
        ≡ map (λ done. done.1) dones.entry.items) }
{
    let mut passes = Vec::new(alloc);
    let mut answered = Vec::new(alloc);
    for (pass, answers) in dones {
        passes.push(pass)?;
        answered.push(answers)?;
    }
    Ok((passes, answered))
}
