//! A desk that is refused memory: when it is opened, and at a call.

ghost use Rattle.std.specs.List.{AllByRecursion};
ghost use Rattle.rd_desk.specs.Desks.{IsNewViewer, IsViewerOf};

use super::lists::answer;
use super::trials::{Trial, look, on_trial};
use rd_cell::Refusal;
use rd_desk::{Answer, Desk, DeskPass, DeskRefusal, History};
use rd_marks::{Book, Command};
use rd_text::parse_command;
use std::alloc::Global;
use std::process::Abort;
use std::sync::Wait;

/// A desk for one viewer over a fresh book, which comes back as it was where memory is refused, and
/// is opened again.
fn opened(rt: &impl Abort, alloc: Global, twin: &mut Trial) -> (Desk<2>, Vec<DeskPass<2>>)
    ensures each { AllByRecursion (IsNewViewer result.0) result.1.items }
{
    let Trial { book, .. } = on_trial(rt, alloc);
    match Desk::open(alloc, book, 1) {
        Ok(opened) => opened,
        Err((_, mut book)) => {
            assert!(rt; is_as(&mut book, twin));
            match Desk::open(alloc, book, 1) {
                Ok(opened) => opened,
                Err(_) => panic!(rt; "refused memory twice"),
            }
        }
    }
}

/// Whether a book is as that of a trial.
fn is_as(book: &mut Book<2>, twin: &mut Trial) -> bool {
    let records = look(book, &mut twin.report);
    let others = look(&mut twin.book, &mut twin.seen);
    twin.report.as_slice() == twin.seen.as_slice() && records == others && records.is_some()
}

/// Commands of each kind that may take memory, undos and queries.
const LINES: &str = "\
    enq 1 7\ngo 1\ngo 1\nmark a\ngo 1\nundo 4\nmark b\nsame a b\ngo 1\ngo 1\ndeq 2\ngo 2\nmark c\n\
    same a c\nsame b c\ngoto a\nback 2\ngoto c\nredo\nlen\nmarkat 2";

/// Whether a call has to be asked again: it was not recorded, or it was recorded that memory was
/// refused to its command.
fn is_refused(answer: Answer) -> bool {
    answer == Ok(Err(Refusal::NoMemory)) || answer == Err(DeskRefusal::NotRecorded)
}

/// Asks a command, and again if memory was refused. Returns whether it was obeyed or refused for
/// another reason.
fn asks<R: Wait>(rt: &R, desk: &Desk<2>, pass: &mut DeskPass<2>, command: &Command) -> bool
    requires own { IsViewerOf desk.now pass.old }
    ensures own { IsViewerOf desk.now pass.new }
{
    let mut given = desk.ask(rt, pass, *command);
    if is_refused(given) {
        given = desk.ask(rt, pass, *command);
    }
    matches!(given, Ok(answer) if answer != Err(Refusal::NoMemory))
}

/// Asks what each line spells.
fn asks_all<R: Wait>(rt: &R, desk: &Desk<2>, pass: &mut DeskPass<2>) -> bool
    requires own { IsViewerOf desk.now pass.old }
    ensures own { IsViewerOf desk.now pass.new }
{
    for line in LINES.lines() {
        let Ok(command) = parse_command(line.as_bytes()) else {
            return false;
        };
        if !asks(rt, desk, pass, &command) {
            return false;
        }
    }
    true
}

/// The last of the passes.
fn last_pass(rt: &impl Abort, desk: &Desk<2>, mut passes: Vec<DeskPass<2>>) -> DeskPass<2>
    requires each { AllByRecursion (IsNewViewer desk.now) passes.items }
    ensures own { IsViewerOf desk.now result }
{
    let _ = desk;
    passes.pop().expect(rt, "no pass")
}

/// Whether a history has a call for what each line spells, in order, answered as the book answers
/// it. Before one of them there may be another call of the same command, which was refused memory.
fn has_calls_in_order(history: &History, book: &mut Book<2>) -> bool {
    let mut lines = LINES.lines();
    let mut next = lines.next();
    for number in 1..history.len() + 1 {
        let (Some((_, call)), Some(line)) = (history.call(number), next) else {
            return false;
        };
        if parse_command(line.as_bytes()) != Ok(call.command) {
            return false;
        }
        if call.answer != Err(Refusal::NoMemory) {
            if answer(book, &call.command) != call.answer {
                return false;
            }
            next = lines.next();
        }
    }
    next.is_none()
}

#[test]
fn a_call_that_is_not_recorded_is_not_obeyed_and_one_that_was_refused_memory_is_recorded(
    rt: HostRuntime,
) {
    let mut twin = on_trial(&rt, rt.alloc());
    let (desk, passes) = opened(&rt, rt.alloc(), &mut twin);
    let mut pass = last_pass(&rt, &desk, passes);
    assert!(&rt; asks_all(&rt, &desk, &mut pass));
    let Ok((mut book, history)) = desk.close(Vec::new(rt.alloc())) else {
        panic!(&rt; "busy")
    };
    assert!(&rt; has_calls_in_order(&history, &mut twin.book));
    assert!(&rt; is_as(&mut book, &mut twin));
}
