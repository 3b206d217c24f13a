//! Each kind of command asked of a desk, spelled as in a script.

ghost use Rattle.rd_desk.specs.Desks.{IsViewerOf};

use super::calls::{fresh, last_pass};
use rd_desk::{Answer, Desk, DeskPass};
use rd_marks::Command;
use rd_text::{AnyRefusal, Text, parse_command, set_answer, set_call};
use std::process::Abort;
use std::sync::Wait;
use test_kit::ASKED;

/// Whether the book gave the answer that this reply spells.
fn is_spelled(answer: &Answer, reply: &str) -> bool {
    let said = match *answer {
        Ok(Ok(given)) => Ok(given),
        Ok(Err(refusal)) => Err(AnyRefusal::Refused(refusal)),
        Err(_) => return false,
    };
    let mut text = Text::new();
    set_answer(&mut text, &said);
    text.as_slice() == reply.as_bytes()
}

/// Whether this line spells the command, as a history has it.
fn is_line(command: &Command, line: &str) -> bool {
    let mut text = Text::new();
    set_call(&mut text, 64, command);
    let rest = text.as_slice().strip_prefix(b"64 ");
    rest.and_then(|rest| rest.strip_suffix(b"\n")) == Some(line.as_bytes())
}

/// Asks a command, which gives this reply.
fn asks<R: Abort + Wait>(
    rt: &R,
    desk: &Desk<4>,
    pass: &mut DeskPass<4>,
    command: &Command,
    reply: &str,
)
    requires own { IsViewerOf desk.now pass.old }
    ensures own { IsViewerOf desk.now pass.new }
{
    let answer = desk.ask(rt, pass, *command);
    assert!(rt; is_spelled(&answer, reply), "wanted {reply}");
}

/// Tries a command, which gives this reply.
fn tries(rt: &impl Abort, desk: &Desk<4>, pass: &mut DeskPass<4>, command: &Command, reply: &str)
    requires own { IsViewerOf desk.now pass.old }
    ensures own { IsViewerOf desk.now pass.new }
{
    let answer = desk.try_ask(pass, *command);
    assert!(rt; is_spelled(&answer, reply), "wanted {reply}");
}

#[test]
fn each_kind_of_command_is_answered_as_the_manual_says(rt: HostRuntime) {
    let Ok((asked, mut passes)) = Desk::open(rt.alloc(), fresh(&rt, rt.alloc()), 1) else {
        panic!(&rt; "out of memory")
    };
    let mut asking = last_pass(&rt, &asked, &mut passes);
    let Ok((tried, mut passes)) = Desk::open(rt.alloc(), fresh(&rt, rt.alloc()), 1) else {
        panic!(&rt; "out of memory")
    };
    let mut trying = last_pass(&rt, &tried, &mut passes);
    for (line, reply) in ASKED {
        let Ok(command) = parse_command(line.as_bytes()) else {
            panic!(&rt; "no command: {line}")
        };
        assert!(&rt; is_line(&command, *line), "wanted {line}");
        asks(&rt, &asked, &mut asking, &command, *reply);
        tries(&rt, &tried, &mut trying, &command, *reply);
    }
    let Ok((_, history)) = asked.close(Vec::new(rt.alloc())) else {
        panic!(&rt; "busy")
    };
    assert_eq!(&rt; history.len(), ASKED.len() as u64);
}

/// Asks a command, which gets this number in the history.
fn is_call<R: Abort + Wait>(
    rt: &R,
    desk: &Desk<4>,
    pass: &mut DeskPass<4>,
    command: Command,
    number: u64,
)
    requires own { IsViewerOf desk.now pass.old }
    ensures own { IsViewerOf desk.now pass.new }
{
    let call = desk.ask_numbered(rt, pass, command);
    assert!(rt; matches!(call, Ok((n, _)) if n == number), "call {number}");
}

#[test]
fn each_call_has_its_number_whoever_asks_and_whatever_is_answered(rt: HostRuntime) {
    let Ok((desk, mut passes)) = Desk::open(rt.alloc(), fresh(&rt, rt.alloc()), 2) else {
        panic!(&rt; "out of memory")
    };
    let mut second = last_pass(&rt, &desk, &mut passes);
    let mut first = last_pass(&rt, &desk, &mut passes);
    is_call(&rt, &desk, &mut second, Command::Deq(1), 1);
    is_call(&rt, &desk, &mut first, Command::Deq(1), 2);
    is_call(&rt, &desk, &mut second, Command::Len, 3);
}
