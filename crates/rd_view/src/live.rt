//! Viewers that are there at once, over one desk: each reads its lines in a thread of its own, asks
//! the desk, and writes the reply to a line before it reads the next one.
//!
//! A reply has the number of its call in the history before it. A viewer waits for the desk's lock
//! only inside a call of the desk, so no thread holds it while it reads or writes.

ghost use Rattle.std.specs.Prelude.{◌≡◌, ◌≤◌, false, length, map, IfOk, IfErr};
ghost use Rattle.std.specs.List.{AllByRecursion};
ghost use Rattle.rd_marks.specs.Book.{book_state};
ghost use Rattle.rd_desk.specs.declared.desks.TheConstants.{MOST_VIEWERS};
ghost use Rattle.rd_desk.specs.Desks.{opened_state, IsViewerOf};
ghost use Rattle.rd_text.specs.Calls.{numbered_text};
ghost use Rattle.rd_view.specs.Viewing.{IsBusyOrNoMemory};
ghost use Rattle.rd_view.specs.Live.{AnswersLine, IsLive, RunsLive, numbered_line, pass_of, viewer_end};

use super::faults::ViewFault;
use super::reports::desk_line_answer;
use super::tasks::{Task, run_tasks};
use rd_desk::{Desk, DeskPass, History, NumberedAnswer};
use rd_devices::{ScriptFault, Sink, Source};
use rd_marks::Book;
use rd_script::{Answerer, Line, converse};
use rd_text::{AnyRefusal, LineAnswer, Text, set_numbered_answer};
use std::alloc::{AllocError, Global};
use std::sync::Wait;
use std::thread::Threads;

/// What a viewer reads its lines from and writes its replies to, before either is open.
pub trait Terminal {
    /// What gives the lines.
    type Reader: Source + Send + Drop;

    /// What takes the replies.
    type Writer: Sink + Send + Drop;

    /// What the contract states of opening: the terminal, and the source and the sink that it gave.
    ghost opens: { Self → Self.Reader → Self.Writer → Type 0 };

    /// Opens the source, then the sink; neither has failed. It may block. Fails with `Read` if the
    /// source can't be opened, with `Write` if the sink can't be.
    fn open(self) -> Result<(Self::Reader, Self::Writer), ScriptFault>
        ensures opens { IfOk result (λ ends. opens self ends.0 ends.1) }
        ensures works { IfOk result (λ ends. (Self.Reader.has_failed ends.0 ≡ false)
            × (Self.Writer.has_failed ends.1 ≡ false)) };
}

/// How a viewer that was there ended.
#[derive(Clone, Copy, Debug, PartialEq, Eq)]
pub enum ViewerEnd {
    /// Its source came to the end; with the number of lines. Each was answered.
    Ended(u64),
    /// Its terminal could not be opened, or its source or its sink failed.
    Stopped(ScriptFault),
    /// Its thread was refused, so that it asked nothing.
    NotStarted,
}

/// What the viewers left when the desk was closed.
#[derive(Drop)]
pub struct LiveEnd<const N: usize> {
    /// How each viewer ended, in order.
    pub ends: Vec<ViewerEnd>,
    /// The calls of all viewers.
    pub history: History,
    /// The book that these calls left.
    pub book: Book<N>,
}

/// Lets 1 to 64 viewers work on the book at once, each at its own terminal and in its own thread,
/// and waits for all of them. A viewer opens its terminal, asks the command of each line, and
/// writes the reply before it reads the next line: the number of the call in the history, or a
/// hyphen if the line was no call, and the answer. Returns how each viewer ended, the history and
/// the book that it left.
///
/// # Errors
///
/// `NoMemory` if memory was refused, `Busy` if the desk could not be closed. The book is then lost.
pub fn run_live<R: Threads + Wait + Sync, T: Terminal + Send + Drop, const N: usize>(
    rt: &R,
    alloc: Global,
    terminals: Vec<T>,
    book: Book<N>,
) -> Result<LiveEnd<N>, ViewFault>
    requires some { 1 ≤ length terminals.items }
    requires few { length terminals.items ≤ MOST_VIEWERS }
    ensures ok { IfOk result (IsLive T.opens T.Reader.Source T.Writer.Sink
        (book_state book.entry) terminals.items) }
    ensures err { IfErr result IsBusyOrNoMemory }
{
    let Ok((desk, passes)) = Desk::open(alloc, book, terminals.len() as u64) else {
        return Err(ViewFault::NoMemory);
    };
    let tasks = live_tasks(alloc, &desk, passes, terminals)?;
    let Ok(dones) = run_tasks(rt, alloc, tasks) else {
        return Err(ViewFault::NoMemory);
    };
    let (passes, ends) = passes_and_ends(alloc, dones)?;
    match desk.close(passes) {
        Ok((book, history)) => Ok(LiveEnd {
            ends,
            history,
            book,
        }),
        Err(words) => Err(ViewFault::Busy(words)),
    }
}

/// What a viewer does in its thread: all that it needs for it. `P` is the type of its pass.
#[derive(Drop)]
struct LiveTask<'a, P, T, const N: usize> {
    /// The desk that it asks.
    desk: &'a Desk<N>,
    /// Its pass.
    pass: P,
    /// Its terminal, which isn't open; in a box, so that a task is no larger for a larger terminal.
    terminal: Box<T>,
}

/// What a viewer's thread gives back: its pass, and the number of lines or the fault that stopped
/// it.
type LiveDone<const N: usize> = (DeskPass<N>, Result<u64, ScriptFault>);

impl<'a, T: Terminal, const N: usize> Task for LiveTask<'a, DeskPass<N>, T, N> {
    type Done = LiveDone<N>;

    ghost can_run = { λ task. IsViewerOf task.desk.now task.pass };

    ghost runs = { λ task done. RunsLive T.opens T.Reader.Source T.Writer.Sink task.desk.now task.pass task.terminal.value done };

    /// Opens the terminal and answers its lines. What the terminal opened is dropped at the end.
    fn run<R: Wait>(self, rt: &R) -> LiveDone<N> {
        let LiveTask {
            desk,
            pass,
            terminal,
        } = self;
        let (mut reader, mut writer) = match Box::into_inner(terminal).open() {
            Ok(ends) => ends,
            Err(fault) => return (pass, Err(fault)),
        };
        let mut viewer = Viewer { rt, desk, pass };
        let ended = converse(&mut reader, &mut writer, &mut viewer);
        let Viewer { pass, .. } = viewer;
        (pass, ended)
    }
}

/// A viewer that answers lines: it asks the desk. `P` is the type of its pass.
#[derive(Drop)]
struct Viewer<'a, W: Wait, P, const N: usize> {
    /// What lets it wait for the desk's lock.
    rt: &'a W,
    /// The desk that it asks.
    desk: &'a Desk<N>,
    /// Its pass.
    pass: P,
}

impl<'a, W: Wait, const N: usize> Answerer for Viewer<'a, W, DeskPass<N>, N> {
    type Answer = (Option<u64>, LineAnswer);

    ghost can_answer = { λ viewer. IsViewerOf viewer.desk.now viewer.pass };

    ghost text_of = { λ answer. numbered_text answer.0 answer.1 };

    ghost answers = { λ old line answer new. (new.desk ≡ old.desk) × AnswersLine (opened_state old.desk.now) old.pass line answer new.pass };

    /// Asks the command that a line spells, and replaces the text by the line of its answer, after
    /// the number of the call, or a hyphen if the desk refused it. If the line spells no command,
    /// the answer is the refusal of its fault, after a hyphen, and nothing is asked.
    fn answer(&mut self, line: &Line, text: &mut Text) {
        match line.command() {
            Err(fault) => set_numbered_answer(text, None, &Err(AnyRefusal::Unread(fault))),
            Ok(command) => {
                let numbered = self.desk.ask_numbered(self.rt, &mut self.pass, command);
                set_desk_answer(text, &numbered);
            }
        }
    }
}

/// Replaces the text by the line of the desk's answer to a command: the number of the call, or a
/// hyphen at a refusal of the desk, and the answer.
fn set_desk_answer(text: &mut Text, numbered: &NumberedAnswer)
    ensures { text.new.items ≡ numbered_text (numbered_line numbered.now).0
        (numbered_line numbered.now).1 }
{
    match *numbered {
        Ok((call, answer)) => set_numbered_answer(text, Some(call), &desk_line_answer(&Ok(answer))),
        Err(refusal) => set_numbered_answer(text, None, &desk_line_answer(&Err(refusal))),
    }
}

/// Returns what each viewer does in its thread: it has the desk, its pass and its terminal, in
/// order. There must be as many passes as terminals. Fails only if memory is refused; passes and
/// terminals are then lost.
fn live_tasks<'a, T: Drop, const N: usize>(
    alloc: Global,
    desk: &'a Desk<N>,
    passes: Vec<DeskPass<N>>,
    terminals: Vec<T>,
) -> Result<Vec<LiveTask<'a, DeskPass<N>, T, N>>, AllocError>
    requires { length passes.items ≡ length terminals.items }
    ensures desks { IfOk result (λ tasks. AllByRecursion
        (λ task. task.desk.now ≡ desk.now) tasks.items) }
    ensures passes { IfOk result (λ tasks. map (λ task. task.pass) tasks.items
        ≡ passes.entry.items) }
    ensures terminals { IfOk result (λ tasks. map (λ task. task.terminal.value) tasks.items
        ≡ terminals.items) }
{
    let mut tasks = Vec::new(alloc);
    for (pass, terminal) in passes.into_iter().zip(terminals) {
        let Ok(terminal) = Box::new(alloc, terminal) else {
            return Err(AllocError);
        };
        let task = LiveTask {
            desk,
            pass,
            terminal,
        };
        tasks.push(task)?;
    }
    Ok(tasks)
}

/// Separates the viewers' passes from how they ended, and returns both in order. Fails only if
/// memory is refused; both are then lost.
fn passes_and_ends<'a, T: Drop, const N: usize>(
    alloc: Global,
    dones: Vec<Result<LiveDone<N>, LiveTask<'a, DeskPass<N>, T, N>>>,
) -> Result<(Vec<DeskPass<N>>, Vec<ViewerEnd>), AllocError>
    ensures passes { IfOk result (λ apart. apart.0.items ≡ map (pass_of (λ task. task.pass))
        dones.entry.items) }
    ensures ends { IfOk result (λ apart. apart.1.items ≡ map viewer_end dones.entry.items) }
{
    let mut passes = Vec::new(alloc);
    let mut ends = Vec::new(alloc);
    for done in dones {
        let (pass, end) = pass_and_end(done);
        passes.push(pass)?;
        ends.push(end)?;
    }
    Ok((passes, ends))
}

/// Returns the pass of a viewer and how it ended, from what came of its task.
fn pass_and_end<'a, T: Drop, const N: usize>(
    done: Result<LiveDone<N>, LiveTask<'a, DeskPass<N>, T, N>>,
) -> (DeskPass<N>, ViewerEnd)
    ensures pass { result.0 ≡ pass_of (λ task. task.pass) done.entry }
    ensures end { result.1 ≡ viewer_end done.entry }
{
    match done {
        Ok((pass, ended)) => match ended {
            Ok(lines) => (pass, ViewerEnd::Ended(lines)),
            Err(fault) => (pass, ViewerEnd::Stopped(fault)),
        },
        Err(task) => {
            let LiveTask { pass, .. } = task;
            (pass, ViewerEnd::NotStarted)
        }
    }
}
