//! Long runs of all commands, chosen at random, none of which is refused memory that is there; and
//! lists of commands of several lengths.

ghost use Rattle.std.specs.Prelude.{◌≤◌};
ghost use Rattle.rd_step.specs.Prelude.{MOST_CELLS};

use rd_cell::{Place, Refusal};
use rd_journal::Session;
use rd_marks::{Book, Command, MarkName, Reply};
use rd_step::World;
use std::alloc::Global;
use std::test::Fail;
use test_kit::{drawn_event, next_random};

/// How many commands a run has.
const COMMANDS: u64 = 300;

/// A command on one of four bookmarks, as the number has it.
fn on_bookmarks(number: u64) -> Result<Command, Refusal> {
    let name = MarkName::new(&[b'a' + ((number >> 30) % 4) as u8])?;
    let other = MarkName::new(&[b'a' + ((number >> 34) % 4) as u8])?;
    Ok(match (number >> 44) % 5 {
        0 | 1 => Command::Mark(name),
        2 => Command::DropMark(name),
        3 => Command::GotoMark(name),
        _ => Command::Same(name, other),
    })
}

/// An undo, a redo or a query, as the number has it.
fn on_steps(live: u64, number: u64) -> Command {
    let step = (number >> 20) % (live % 1_000 + 1);
    match (number >> 44) % 10 {
        0 => Command::Undo,
        1 => Command::UndoAt(step),
        2 => Command::Roll(step),
        3 => Command::Back(step % 4),
        4 => Command::Redo,
        5 => Command::Forward(step % 3),
        6 => Command::Origin(step),
        7 => Command::Writer(Place::QTail),
        8 => Command::MarkAt(step),
        _ => Command::Step(step),
    }
}

/// Has the book do what the number chooses, mostly an event. Returns whether memory was refused.
fn lacks_memory<const R: usize>(
    book: &mut Book<R>,
    actors: u8,
    number: u64,
) -> Result<bool, Refusal>
    requires some { 1 ≤ actors }
{
    let command = match (number >> 56) % 18 {
        0 | 1 | 2 => on_bookmarks(number)?,
        3 | 4 | 5 | 6 => on_steps(book.session().len(), number),
        _ => {
            let event = drawn_event(book.session().world(), actors, number);
            return Ok(book.apply(event) == Err(Refusal::NoMemory));
        }
    };
    Ok(book.obey(command) == Err(Refusal::NoMemory))
}

/// Whether a run of commands over a fresh world of this many actors is refused memory anywhere.
fn is_refused_memory<const R: usize>(alloc: Global, actors: u8) -> Result<bool, Refusal>
    requires some { 1 ≤ actors }
    requires few { actors ≤ 16 }
    requires positive { 1 ≤ R }
    requires small { R ≤ MOST_CELLS }
{
    let session = Session::open(alloc, World::<R>::fresh(alloc, actors)?);
    let mut book = Book::open(alloc, session);
    let mut number = actors as u64;
    let mut is_refused = false;
    for _ in 0..COMMANDS {
        number = next_random(number);
        if lacks_memory(&mut book, actors, number)? {
            is_refused = true;
        }
    }
    Ok(is_refused)
}

#[test]
fn no_command_is_refused_memory_that_is_there(rt: HostRuntime) -> Result<(), Fail> {
    for actors in 1..17u8 {
        assert!(rt;
            !is_refused_memory::<2>(rt.alloc(), actors)?,
            "{actors} actors, rings of 2"
        );
        assert!(rt;
            !is_refused_memory::<4>(rt.alloc(), actors)?,
            "{actors} actors, rings of 4"
        );
        assert!(rt;
            !is_refused_memory::<8>(rt.alloc(), actors)?,
            "{actors} actors, rings of 8"
        );
    }
    Ok(())
}

/// Whether a list of this many calls of a dequeue is answered call by call: the first happens, and
/// the actor is not idle for the others.
fn are_answered(alloc: Global, calls: usize) -> Result<bool, Refusal> {
    let session = Session::open(alloc, World::<2>::fresh(alloc, 2)?);
    let mut book = Book::open(alloc, session);
    let mut commands = Vec::new(alloc);
    commands.resize(calls, Command::Deq(2))?;
    let answers = book.apply_all(alloc, &commands)?;
    let first = Ok(Reply::Applied {
        step: 1,
        reply: None,
    });
    let are_refused = answers
        .iter()
        .skip(1)
        .all(|answer| *answer == Err(Refusal::NotIdle));
    Ok(answers.len() == calls && (calls == 0 || answers[0] == first) && are_refused)
}

#[test]
fn each_command_of_a_list_is_answered(rt: HostRuntime) -> Result<(), Fail> {
    for calls in [0, 1, 3, 40] {
        assert!(rt; are_answered(rt.alloc(), calls)?, "{calls} calls");
    }
    Ok(())
}
