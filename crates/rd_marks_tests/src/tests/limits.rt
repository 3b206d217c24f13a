//! Names, the number of bookmarks, and lists of commands.

use rd_actor::Act;
use rd_cell::Refusal;
use rd_cell::limits::MOST_MARKS;
use rd_journal::Session;
use rd_marks::{Book, Command, MarkName, Reply};
use rd_step::World;
use std::test::Fail;

/// Bytes, and whether they are a name.
const NAMES: [(&'static [u8], bool); 10] = [
    (b"a", true),
    (b"z09-", true),
    (b"-", true),
    (b"abcdefghijklmnop", true),
    (b"abcdefghijklmnopq", false),
    (b"", false),
    (b"A", false),
    (b"a b", false),
    (b"a_b", false),
    (b"\xc3\xa9", false),
];

#[test]
fn a_name_is_1_to_16_bytes_of_three_kinds(rt: HostRuntime) {
    for (text, good) in NAMES {
        match MarkName::new(text) {
            Ok(name) => {
                assert_eq!(rt; name.as_str().as_bytes(), text);
                assert!(rt; good);
            }
            Err(refusal) => {
                assert_eq!(rt; refusal, Refusal::BadName);
                assert!(rt; !good, "{text:?}");
            }
        }
    }
}

/// The name `n` and this number, below 100.
fn numbered(i: u8) -> Result<MarkName, Refusal> {
    if i >= 100 {
        return Err(Refusal::BadName);
    }
    let text = [b'n', b'0' + i / 10, b'0' + i % 10];
    if i < 10 {
        return MarkName::new(&[b'n', text[2]]);
    }
    MarkName::new(&text)
}

#[test]
fn a_65th_bookmark_is_refused(rt: HostRuntime) -> Result<(), Fail> {
    let session = Session::open(rt.alloc(), World::<4>::fresh(rt.alloc(), 4)?);
    let mut book = Book::open(rt.alloc(), session);
    for i in 1..65 {
        assert_eq!(rt; book.mark(numbered(i)?), Ok(()), "mark {i}");
    }
    assert_eq!(rt; book.marks(), MOST_MARKS as u64);
    assert_eq!(rt; book.mark(numbered(65)?), Err(Refusal::TooManyMarks));
    assert_eq!(rt; book.mark(numbered(64)?), Err(Refusal::MarkTaken));
    assert_eq!(rt; book.mark_at(64), Ok((numbered(64)?, 0)));
    Ok(())
}

#[test]
fn bookmarks_may_have_64_branches(rt: HostRuntime) -> Result<(), Fail> {
    let session = Session::open(rt.alloc(), World::<4>::fresh(rt.alloc(), 4)?);
    let mut book = Book::open(rt.alloc(), session);
    for i in 1..65u8 {
        book.obey(Command::Enq(1, i as u64))?;
        book.mark(numbered(i)?)?;
        book.obey(Command::Undo)?;
        assert_eq!(rt; book.nodes(), i as u64, "mark {i}");
    }
    for i in 1..33u8 {
        book.drop_mark(numbered(2 * i)?)?;
        assert_eq!(rt; book.nodes(), 64 - i as u64, "drop {i}");
    }
    for i in 1..33u8 {
        book.goto_mark(numbered(2 * i - 1)?)?;
        assert_eq!(rt;
            book.session().entry(1)?.event.act,
            Act::Enq(2 * i as u64 - 1),
            "goto {i}"
        );
    }
    Ok(())
}

#[test]
fn a_list_goes_on_after_a_refusal(rt: HostRuntime) -> Result<(), Fail> {
    let session = Session::open(rt.alloc(), World::<4>::fresh(rt.alloc(), 4)?);
    let mut book = Book::open(rt.alloc(), session);
    let answers = book.apply_all(
        rt.alloc(),
        &[Command::Enq(1, 7), Command::Enq(1, 8), Command::Len],
    )?;
    let wanted = [
        Ok(Reply::Applied {
            step: 1,
            reply: None,
        }),
        Err(Refusal::NotIdle),
        Ok(Reply::At { live: 1, undone: 0 }),
    ];
    assert_eq!(rt; answers.as_slice(), wanted.as_slice());
    Ok(())
}

#[test]
fn a_copy_is_equal(rt: HostRuntime) -> Result<(), Fail> {
    let command = Command::Mark(MarkName::new(b"here")?);
    let copy = command;
    assert!(rt; copy == command);
    let reply = Reply::Mark {
        name: MarkName::new(b"here")?,
        len: 3,
    };
    let copy = reply;
    assert!(rt; copy == reply);
    let refusal = Refusal::Depended(3);
    let copy = refusal;
    assert!(rt; copy == refusal);
    Ok(())
}
