//! Lists of commands, and texts whose lines are read as a list, that are refused memory.

use super::trials::{Trial, on_trial};
use rd_cell::Refusal;
use rd_marks::{Book, Command, Reply};
use rd_text::{LineFault, lines, parse_command};
use std::alloc::Global;
use std::process::Abort;

/// Nine steps, for whose entries the room is made anew more than once, with an undo and a query.
const COMMANDS: [Command; 11] = [
    Command::Enq(1, 7),
    Command::Go(1),
    Command::Go(1),
    Command::Undo,
    Command::Go(1),
    Command::Go(1),
    Command::Go(1),
    Command::Len,
    Command::Deq(2),
    Command::Go(2),
    Command::Go(2),
];

/// What a book answers to a command, asked again if memory is refused.
pub(super) fn answer(book: &mut Book<2>, command: &Command) -> Result<Reply, Refusal> {
    match book.obey(*command) {
        Err(Refusal::NoMemory) => book.obey(*command),
        answer => answer,
    }
}

/// Whether a book answers the commands as this list has it, but for one that was refused memory,
/// which it does not obey.
fn follows(book: &mut Book<2>, answers: &[Result<Reply, Refusal>]) -> bool {
    let mut refused = false;
    for i in 0..COMMANDS.len().min(answers.len()) {
        let obeyed = answers[i] != Err(Refusal::NoMemory);
        if obeyed && answer(book, &COMMANDS[i]) != answers[i] || !obeyed && refused {
            return false;
        }
        refused = refused || !obeyed;
    }
    answers.len() == COMMANDS.len()
}

/// Whether a book was asked the list and its twin follows. If not, the room for the answers was
/// refused, and the book is as its twin.
fn is_asked(rt: &impl Abort, alloc: Global, first: &mut Trial, second: &mut Trial) -> bool {
    let asked = match first.book.apply_all(alloc, &COMMANDS) {
        Ok(answers) => {
            assert!(rt; follows(&mut second.book, answers.as_slice()));
            true
        }
        Err(refusal) => {
            assert!(rt; refusal == Refusal::NoMemory);
            false
        }
    };
    assert!(rt; first.is_as(second));
    asked
}

#[test]
fn a_list_of_commands_is_obeyed_but_for_the_one_that_is_refused_memory(rt: HostRuntime) {
    let mut first = on_trial(&rt, rt.alloc());
    let mut second = on_trial(&rt, rt.alloc());
    let asked = is_asked(&rt, rt.alloc(), &mut first, &mut second);
    assert!(&rt; asked || is_asked(&rt, rt.alloc(), &mut first, &mut second));
}

/// A text whose lines are commands and faults.
const TEXT: &str = "enq 1 7\nhello\ngo 1\nmark A\nsame a b\nlen";

/// Whether these are what the lines of the text say.
fn are_said(said: &[Result<Command, LineFault>]) -> bool {
    let mut number = 0;
    for line in TEXT.lines() {
        if said.get(number) != Some(&parse_command(line.as_bytes())) {
            return false;
        }
        number += 1;
    }
    said.len() == number
}

/// Whether the lines of the text are read as they should be. If not, memory was refused.
fn are_read(rt: &impl Abort, alloc: Global) -> bool {
    match lines(alloc, TEXT.as_bytes()) {
        Ok(said) => {
            assert!(rt; are_said(said.as_slice()));
            true
        }
        Err(refusal) => {
            assert!(rt; refusal == Refusal::NoMemory);
            false
        }
    }
}

#[test]
fn a_text_whose_lines_were_refused_memory_is_read_as_ever_the_next_time(rt: HostRuntime) {
    assert!(&rt; are_read(&rt, rt.alloc()) || are_read(&rt, rt.alloc()));
}
