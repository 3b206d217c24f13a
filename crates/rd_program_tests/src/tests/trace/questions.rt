//! What a book answers to each line that asks, the book that what was written of it is loaded as
//! answers too.

ghost use Rattle.std.specs.Prelude.{◌≤◌};

use super::{Lines, again, played, report, written};
use rd_devices::{ReadSource, WriteSink};
use rd_script::run_any_book;
use rd_trace::{AnyBook, load_trace};
use std::alloc::{AllocError, Global};
use std::process::Abort;

/// Places that a world may have.
const PLACES: &[&str] = &[
    "qhead",
    "qtail",
    "head 0.0",
    "tail 0.0",
    "next 0.0",
    "cell 0.0 0",
    "cell 0.0 1",
    "cell 0.0 2",
    "cell 0.0 3",
    "whole 0.0",
    "head 1.0",
    "tail 1.0",
    "next 1.0",
    "cell 1.0 0",
    "cell 1.0 1",
    "whole 1.0",
    "head 2.0",
    "tail 2.0",
    "next 2.0",
    "cell 2.0 0",
    "cell 2.0 1",
    "whole 2.0",
    "ahead",
    "atail",
    "acell 0",
    "acell 1",
    "acell 2",
    "acell 63",
];

/// Lines that ask, and then some that go on.
fn questions(alloc: Global) -> Result<String, AllocError> {
    let mut script = String::new(alloc);
    for place in PLACES {
        script.push_str(&format!(in alloc; "show {place}\nwriter {place}\n")?)?;
    }
    for k in 0..46 {
        script.push_str(&format!(in alloc; "step {k}\norigin {k}\n")?)?;
    }
    for number in 0..6 {
        script.push_str(&format!(in alloc; "actor {number}\nmarkat {number}\n")?)?;
    }
    script.push_str(
        "len\nmarks\nsame a b\nsame b a\nsame a a\nredo\nstep 1\nforward 6\nstep 7\nundo 3\ngoto b\nlen\ngoto a\nlen\n",
    )?;
    Ok(script)
}

/// The report of a script over the book that a text is loaded as.
pub(super) fn loaded_report(rt: &impl Abort, alloc: Global, script: &str, text: &[u8]) -> Vec<u8> {
    let mut book: AnyBook = load_trace(alloc, text).expect(rt, "no trace");
    let mut report = Vec::new(alloc);
    let script = &mut ReadSource::new(script.as_bytes());
    run_any_book(script, &mut WriteSink::new(&mut report), &mut book).expect(rt, "not played");
    report
}

/// The book of these lines, and the one that it is loaded as, answer alike.
fn answer_alike<const R: usize>(rt: &impl Abort, alloc: Global, script: &str, lines: Lines)
    requires positive { 1 ≤ R }
    requires small { R ≤ 64 }
{
    let mut book = played::<R>(rt, alloc, lines);
    let text = written(rt, alloc, &book);
    let wanted = report(rt, alloc, script, &mut book);
    let given = loaded_report(rt, alloc, script, &text);
    assert!(rt; given.as_slice() == wanted.as_slice());
}

/// Further lines over rings of four cells.
const OVER_FOUR: &[Lines] = &[
    // a dequeue of an empty queue
    &[
        ("deq 1\n", 1),
        ("go 1\n", 11),
        ("back 12\n", 1),
        ("forward 12\n", 1),
    ],
    // two bookmarks and an undone step
    &[(
        "enq 1 7\ndeq 2\ngo 1\ngo 2\nmark a\nback 2\ngo 2\ngo 1\nmark b\nback 1\n",
        1,
    )],
    // two bookmarks and a goto
    &[(
        "enq 1 7\ndeq 2\ngo 1\ngo 2\nmark a\nback 2\ngo 2\ngo 1\nmark b\nback 1\ngoto a\n",
        1,
    )],
    // steps that were undone alone
    &[(
        "enq 1 7\ndeq 2\ngo 1\ngo 2\nmark a\nundo 3\nundo 3\nmark b\n",
        1,
    )],
];

/// Lines over rings of two cells.
const OVER_TWO: &[Lines] = &[
    again::RACE,
    // a dequeue across two rings
    &[
        ("deq 2\n", 1),
        ("go 2\n", 10),
        ("enq 1 7\n", 1),
        ("go 1\n", 6),
        ("enq 1 8\n", 1),
        ("go 1\n", 6),
        ("enq 1 9\n", 1),
        ("go 1\n", 10),
        ("go 2\n", 5),
    ],
    // a cell that is marked unsafe
    &[
        ("enq 1 7\n", 1),
        ("go 1\n", 6),
        ("deq 2\n", 1),
        ("go 2\n", 2),
        ("deq 3\n", 1),
        ("go 3\n", 11),
        ("deq 3\n", 1),
        ("go 3\n", 5),
        ("go 2\n", 3),
    ],
];

/// The books of each of these lines, and those that they are loaded as, answer alike.
fn all_answer_alike<const R: usize>(rt: &impl Abort, alloc: Global, script: &str, rows: &[Lines])
    requires positive { 1 ≤ R }
    requires small { R ≤ 64 }
{
    for lines in rows {
        answer_alike::<R>(rt, alloc, script, *lines);
    }
}

/// One run as traces of both versions.
const BOTH: [&str; 2] = [
    "{\"actors\":4,\"events\":[[\"enq\",1,7],[\"go\",1]],\"ring\":4,\"version\":1}\n",
    "{\"events\":[[\"enq\",1,7],[\"go\",1]],\"marks\":[],\"ring\":4,\"start\":{\"fresh\":4},\"undone\":[],\"version\":2}\n",
];

#[test]
fn a_loaded_book_answers_as_the_book_that_was_written(rt: HostRuntime) {
    let script = questions(rt.alloc()).expect(&rt, "out of memory");
    all_answer_alike::<4>(&rt, rt.alloc(), &script, again::OVER_FOUR);
    all_answer_alike::<4>(&rt, rt.alloc(), &script, OVER_FOUR);
    all_answer_alike::<2>(&rt, rt.alloc(), &script, OVER_TWO);
    let [first, second] = BOTH;
    let given = loaded_report(&rt, rt.alloc(), &script, first.as_bytes());
    let wanted = loaded_report(&rt, rt.alloc(), &script, second.as_bytes());
    assert!(&rt; given.as_slice() == wanted.as_slice());
}
