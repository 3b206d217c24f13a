//! The events of bookmarks by their numbers and all at once, going to the start, and events as
//! commands.

use rd_actor::Act;
use rd_cell::Refusal;
use rd_journal::Session;
use rd_marks::{Book, Command, MarkName, Reply};
use rd_step::{Event, World};
use std::alloc::Global;
use std::process::Abort;
use std::test::Fail;

/// The steps of the first bookmark, and what leads from it to the steps of the second, which shares
/// two of them.
const FIRST: [Command; 4] = [
    Command::Enq(1, 7),
    Command::Deq(2),
    Command::Go(1),
    Command::Go(2),
];

const SECOND: [Command; 2] = [Command::Back(2), Command::Go(2)];

/// An enqueue by the first actor.
const ENQUEUE: Event = Event {
    actor: 1,
    act: Act::Enq(7),
};

/// A dequeue by the second actor.
const DEQUEUE: Event = Event {
    actor: 2,
    act: Act::Deq,
};

/// A step of the first actor.
const FIRST_STEPS: Event = Event {
    actor: 1,
    act: Act::Go,
};

/// A step of the second actor.
const SECOND_STEPS: Event = Event {
    actor: 2,
    act: Act::Go,
};

/// The number of a bookmark, that of an event, and what is there.
const EVENTS: &[(u64, u64, Option<Event>)] = &[
    (0, 1, None),
    (1, 0, None),
    (1, 1, None),
    (2, 0, None),
    (2, 1, Some(ENQUEUE)),
    (2, 2, Some(DEQUEUE)),
    (2, 3, Some(FIRST_STEPS)),
    (2, 4, Some(SECOND_STEPS)),
    (2, 5, None),
    (3, 2, Some(DEQUEUE)),
    (3, 3, Some(SECOND_STEPS)),
    (3, 4, None),
    (4, 1, None),
    (u64::MAX, u64::MAX, None),
];

/// Has the book obey commands that it does not refuse.
fn obey_all(book: &mut Book<4>, commands: &[Command]) -> Result<(), Refusal> {
    for command in commands {
        book.obey(*command)?;
    }
    Ok(())
}

/// A book with two bookmarks that share two steps after one at no step, and one undone step.
fn marked_book(alloc: Global) -> Result<Book<4>, Refusal> {
    let session = Session::open(alloc, World::<4>::fresh(alloc, 4)?);
    let mut book = Book::open(alloc, session);
    book.mark(MarkName::new(b"n")?)?;
    obey_all(&mut book, &FIRST)?;
    book.mark(MarkName::new(b"a")?)?;
    obey_all(&mut book, &SECOND)?;
    book.mark(MarkName::new(b"b")?)?;
    book.obey(Command::Undo)?;
    Ok(book)
}

/// Compares the event of each row with the wanted one.
fn compare(rt: &impl Abort, book: &Book<4>, rows: &[(u64, u64, Option<Event>)]) {
    for (i, n, wanted) in rows {
        assert_eq!(rt;
            book.mark_event(*i, *n),
            *wanted,
            "event {n} of bookmark {i}"
        );
    }
}

#[test]
fn events_of_bookmarks_are_numbered_from_their_first(rt: HostRuntime) -> Result<(), Fail> {
    let book = marked_book(rt.alloc())?;
    compare(&rt, &book, EVENTS);
    Ok(())
}

/// How many events the bookmark of each number has.
const LENGTHS: &[(u64, Result<usize, Refusal>)] = &[
    (0, Err(Refusal::NoMark)),
    (1, Ok(0)),
    (2, Ok(4)),
    (3, Ok(3)),
    (4, Err(Refusal::NoMark)),
];

/// How many events a bookmark has, each of them the one of its number.
fn count_events(rt: &impl Abort, alloc: Global, book: &Book<4>, i: u64) -> Result<usize, Refusal> {
    let events = book.mark_events(alloc, i)?;
    for k in 0..events.len() {
        let event = book.mark_event(i, k as u64 + 1);
        assert_eq!(rt; event, Some(events[k]), "event {k} of bookmark {i}");
    }
    Ok(events.len())
}

#[test]
fn all_events_of_a_bookmark_are_those_by_their_numbers(rt: HostRuntime) -> Result<(), Fail> {
    let book = marked_book(rt.alloc())?;
    for (i, wanted) in LENGTHS {
        assert_eq!(rt;
            count_events(&rt, rt.alloc(), &book, *i),
            *wanted,
            "bookmark {i}"
        );
    }
    Ok(())
}

/// Has a book obey each command, and compares its answer and then the number of nodes.
fn follow(rt: &impl Abort, book: &mut Book<4>, rows: &[(Command, Result<Reply, Refusal>, u64)]) {
    for (command, wanted, nodes) in rows {
        assert_eq!(rt; book.obey(*command), *wanted, "{command:?}");
        assert_eq!(rt; book.nodes(), *nodes, "{command:?}");
    }
}

/// A step by the second actor, the first live one.
const FIRST_STEP: Reply = Reply::Applied {
    step: 1,
    reply: None,
};

#[test]
fn a_bookmark_at_no_step_is_one_as_any_other(rt: HostRuntime) -> Result<(), Fail> {
    let alloc = rt.alloc();
    let mut book = Book::open(alloc, Session::open(alloc, World::<4>::fresh(alloc, 4)?));
    let (none, one) = (MarkName::new(b"none")?, MarkName::new(b"one")?);
    let start = Reply::At { live: 0, undone: 0 };
    let rows = [
        (Command::Mark(none), Ok(Reply::Marked(0)), 0),
        (
            Command::MarkAt(1),
            Ok(Reply::Mark { name: none, len: 0 }),
            0,
        ),
        (Command::GotoMark(none), Ok(start), 0),
        (Command::Deq(2), Ok(FIRST_STEP), 0),
        (Command::Mark(one), Ok(Reply::Marked(1)), 1),
        (Command::Same(none, none), Ok(Reply::Same(true)), 1),
        (Command::Same(none, one), Ok(Reply::Same(false)), 1),
        (Command::Same(one, none), Ok(Reply::Same(false)), 1),
        (Command::GotoMark(none), Ok(start), 1),
        (Command::Redo, Err(Refusal::NothingToRedo), 1),
        (Command::DropMark(one), Ok(Reply::Dropped), 0),
        (Command::Marks, Ok(Reply::Marks(1)), 0),
        (Command::DropMark(none), Ok(Reply::Dropped), 0),
        (Command::GotoMark(none), Err(Refusal::NoMark), 0),
    ];
    follow(&rt, &mut book, &rows);
    Ok(())
}

/// At the start nothing is left to undo or to redo, and a step can be made.
const AT_THE_START: [(Command, Result<Reply, Refusal>); 5] = [
    (Command::Len, Ok(Reply::At { live: 0, undone: 0 })),
    (Command::Redo, Err(Refusal::NothingToRedo)),
    (Command::Undo, Err(Refusal::NothingToUndo(0))),
    (Command::Marks, Ok(Reply::Marks(3))),
    (
        Command::Deq(2),
        Ok(Reply::Applied {
            step: 1,
            reply: None,
        }),
    ),
];

#[test]
fn at_the_start_the_bookmarks_stay(rt: HostRuntime) -> Result<(), Fail> {
    let mut book = marked_book(rt.alloc())?;
    book.to_start();
    compare(&rt, &book, EVENTS);
    for (command, wanted) in AT_THE_START {
        assert_eq!(rt; book.obey(command), wanted, "{command:?}");
    }
    let there = Reply::At { live: 4, undone: 0 };
    assert_eq!(rt;
        book.obey(Command::GotoMark(MarkName::new(b"a")?)),
        Ok(there)
    );
    Ok(())
}

#[test]
fn going_back_leaves_the_bookmarks(rt: HostRuntime) -> Result<(), Fail> {
    let mut book = marked_book(rt.alloc())?;
    let len = book.session().len();
    book.undo_last(len);
    compare(&rt, &book, EVENTS);
    assert_eq!(rt; book.session().len(), 0);
    Ok(())
}

/// An act, and the command that it is if the first actor does it.
const COMMANDS: [(Act, Command); 7] = [
    (Act::Enq(7), Command::Enq(1, 7)),
    (Act::Deq, Command::Deq(1)),
    (Act::AEnq(7), Command::ArrayEnq(1, 7)),
    (Act::ADeq, Command::ArrayDeq(1)),
    (Act::Go, Command::Go(1)),
    (Act::Starve(true), Command::Starve(1, true)),
    (Act::Starve(false), Command::Starve(1, false)),
];

#[test]
fn each_kind_of_event_is_a_command(rt: HostRuntime) {
    for (act, command) in COMMANDS {
        let event = Event { actor: 1, act };
        assert!(rt; command.as_event() == Some(event), "{act:?}");
    }
    assert!(rt; Command::Len.as_event().is_none());
}
