//! Bookmarks whose steps begin alike: what is kept of them as others are set and dropped.

use rd_cell::Refusal;
use rd_journal::Session;
use rd_marks::{Book, Command, MarkName};
use rd_step::World;
use std::alloc::Global;
use std::process::Abort;
use std::test::Fail;

/// How many bookmarks a chain has.
const LINKS: u8 = 60;

/// A book over a fresh world.
fn fresh(alloc: Global) -> Result<Book<4>, Refusal> {
    let session = Session::open(alloc, World::<4>::fresh(alloc, 4)?);
    Ok(Book::open(alloc, session))
}

/// Has an actor make its next step: of its call, or of a new one if it is in none.
fn step(book: &mut Book<4>, actor: u8) -> Result<(), Refusal> {
    if book.obey(Command::Go(actor)).is_err() {
        book.obey(Command::Enq(actor, 7))?;
    }
    Ok(())
}

/// The name of one letter.
fn letter(i: u8) -> Result<MarkName, Refusal> {
    MarkName::new(&[b'a' + i % 26])
}

/// The name of two digits.
fn digits(i: u8) -> Result<MarkName, Refusal> {
    MarkName::new(&[b'0' + i / 10 % 10, b'0' + i % 10])
}

/// Sets a bookmark that branches off inside the steps of the one before, which it drops then.
fn link(book: &mut Book<4>, i: u8) -> Result<(), Refusal> {
    let actor = 1 + i % 2;
    if i > 0 {
        book.obey(Command::Back(2))?;
    }
    for _ in 0..3 {
        step(book, actor)?;
    }
    book.mark(letter(i)?)?;
    if i > 0 {
        book.drop_mark(letter(i - 1)?)?;
    }
    Ok(())
}

/// Whether the events of the only bookmark are those of the live steps.
fn is_at_mark(book: &Book<4>, alloc: Global) -> Result<bool, Refusal> {
    let events = book.mark_events(alloc, 1)?;
    let len = events.len() as u64;
    for number in 0..len {
        if book.session().entry(number + 1)?.event != events[number as usize] {
            return Ok(false);
        }
    }
    Ok(len == book.session().len())
}

#[test]
fn a_chain_of_bookmarks_keeps_the_steps_of_the_last(rt: HostRuntime) -> Result<(), Fail> {
    let mut book = fresh(rt.alloc())?;
    for i in 0..LINKS {
        link(&mut book, i)?;
        assert_eq!(rt; book.marks(), 1, "link {i}");
        assert_eq!(rt; book.nodes(), book.session().len(), "link {i}");
    }
    assert!(rt; is_at_mark(&book, rt.alloc())?);
    book.to_start();
    book.goto_mark(letter(LINKS - 1)?)?;
    assert!(rt; is_at_mark(&book, rt.alloc())?);
    book.drop_mark(letter(LINKS - 1)?)?;
    assert_eq!(rt; book.nodes(), 0);
    Ok(())
}

/// How many steps each branch has.
const STEPS: u64 = 100;

/// Sets 64 bookmarks that have two steps in common, and other ones after those.
fn branch(rt: &impl Abort, book: &mut Book<4>) -> Result<(), Refusal> {
    step(book, 1)?;
    step(book, 1)?;
    for i in 0..64u8 {
        book.obey(Command::Enq(2, i as u64))?;
        for _ in 1..STEPS {
            step(book, 3)?;
        }
        book.mark(digits(i)?)?;
        book.obey(Command::Back(STEPS))?;
        assert_eq!(rt; book.nodes(), 2 + STEPS * (i as u64 + 1), "mark {i}");
    }
    Ok(())
}

#[test]
fn of_64_branches_one_is_left(rt: HostRuntime) -> Result<(), Fail> {
    let mut book = fresh(rt.alloc())?;
    branch(&rt, &mut book)?;
    for i in 0..64u8 {
        if i != 33 {
            book.drop_mark(digits(i)?)?;
        }
    }
    assert_eq!(rt; book.nodes(), 2 + STEPS);
    book.goto_mark(digits(33)?)?;
    assert_eq!(rt; book.session().len(), 2 + STEPS);
    assert!(rt; is_at_mark(&book, rt.alloc())?);
    Ok(())
}
