//! The line of each kind of answer, and of the longest ones: rows of an answer and its text. And
//! scripts beside their reports.
//!
//! Rows are borrowed, and one helper walks those of a kind, with one assertion: so their proof is
//! cheap. A function costs far more than a row, and a test that returns a result is two functions:
//! so many rows share a test, which returns nothing.

mod conversations;
mod devices;
mod going;
mod halves;
mod hostile;
mod lone_faults;
mod long_runs;
mod origins;
mod queues;
mod refusals;
mod runs;
mod sharing;
mod steps;
mod texts;
mod undoing;

use rd_actor::{Actor, Op, OpReply, Pc};
use rd_cell::{ArrSlot, Cell, Content, SegName};
use rd_marks::{MarkName, Reply};
use rd_text::{LineAnswer, Text, set_answer};
use std::process::Abort;

/// The longest name of a segment.
const LONGEST: SegName = SegName {
    maker: u8::MAX,
    n: u32::MAX,
};

/// Compares the line of an answer with its text.
fn line_is(rt: &impl Abort, answer: &LineAnswer, line: &str) {
    let mut text = Text::new();
    set_answer(&mut text, answer);
    assert!(rt; text.as_slice() == line.as_bytes(), "line {line}");
}

/// Compares the line of a reply with its text.
fn reply_is(rt: &impl Abort, reply: Reply, line: &str) {
    line_is(rt, &Ok(reply), line);
}

/// Compares the line that shows each content with its text.
fn contents_are(rt: &impl Abort, rows: &[(Content, &str)]) {
    for (content, line) in rows {
        reply_is(rt, Reply::Content(*content), *line);
    }
}

/// Compares the line of each actor with its text.
fn actors_are(rt: &impl Abort, rows: &[(Actor, &str)]) {
    for (actor, line) in rows {
        reply_is(rt, Reply::Actor(*actor), *line);
    }
}

/// Compares the line of the ninth step, which ended a call with each reply, with its text.
fn endings_are(rt: &impl Abort, rows: &[(Option<OpReply>, &str)]) {
    for (reply, line) in rows {
        let reply = Reply::Applied {
            step: 9,
            reply: *reply,
        };
        reply_is(rt, reply, *line);
    }
}

/// Compares the line of a bookmark of each name and length with its text.
fn marks_are(rt: &impl Abort, rows: &[(&str, u64, &str)]) {
    for (name, len, line) in rows {
        let name = MarkName::new(name.as_bytes()).expect(rt, "no name");
        reply_is(rt, Reply::Mark { name, len: *len }, *line);
    }
}

#[test]
fn a_reply_of_a_call_stands_behind_the_steps_number(rt: HostRuntime) {
    endings_are(
        &rt,
        &[
            (None, "ok 9\n"),
            (Some(OpReply::Enqueued), "ok 9 enqueued\n"),
            (Some(OpReply::Value(7)), "ok 9 value 7\n"),
            (Some(OpReply::Empty), "ok 9 empty\n"),
        ],
    );
}

#[test]
fn each_reply_has_its_line(rt: HostRuntime) {
    let moved = Reply::At {
        live: 3,
        undone: 10,
    };
    reply_is(&rt, moved, "at 3 10\n");
    reply_is(&rt, Reply::Marked(12), "marked 12\n");
    reply_is(&rt, Reply::Dropped, "dropped\n");
    reply_is(&rt, Reply::Marks(0), "marks 0\n");
    reply_is(&rt, Reply::Same(true), "same yes\n");
    reply_is(&rt, Reply::Same(false), "same no\n");
}

#[test]
fn a_mark_shows_its_name_and_its_length(rt: HostRuntime) {
    marks_are(
        &rt,
        &[
            ("a", 0, "mark a 0\n"),
            ("before-e12", 31, "mark before-e12 31\n"),
            (
                "0123456789abcdef",
                u64::MAX,
                "mark 0123456789abcdef 18446744073709551615\n",
            ),
        ],
    )
}

/// The words of an actor that is in no call and has been in none.
const IDLE: Actor = Actor {
    pc: Pc::Idle,
    op: None,
    crq: SegName::ROOT,
    new: SegName::ROOT,
    next: SegName::ROOT,
    t: 0,
    h: 0,
    closed: false,
    val: None,
    safe: false,
    idx: 0,
    pass: 0,
};

/// The line that shows each content.
const CONTENTS: &[(Content, &str)] = &[
    // Each content has its words.
    (Content::Name(SegName { maker: 0, n: 0 }), "is 0.0\n"),
    (Content::Name(SegName { maker: 2, n: 41 }), "is 2.41\n"),
    (Content::Number(10), "is 10\n"),
    (
        Content::Tail {
            closed: false,
            count: 4,
        },
        "is open 4\n",
    ),
    (
        Content::Tail {
            closed: true,
            count: 5,
        },
        "is closed 5\n",
    ),
    (Content::Next(None), "is none\n"),
    (
        Content::Next(Some(SegName { maker: 2, n: 41 })),
        "is 2.41\n",
    ),
    (Content::Whole, "is exists\n"),
    (Content::Slot(ArrSlot::Empty), "is empty\n"),
    (Content::Slot(ArrSlot::Top), "is top\n"),
    (Content::Slot(ArrSlot::Value(0)), "is value 0\n"),
    // A cell is its safe bit, its index and its value.
    (
        Content::Cell(Cell {
            safe: true,
            idx: 4,
            val: None,
        }),
        "is 1 4 none\n",
    ),
    (
        Content::Cell(Cell {
            safe: false,
            idx: 0,
            val: Some(7),
        }),
        "is 0 0 7\n",
    ),
    (
        Content::Cell(Cell {
            safe: true,
            idx: u64::MAX,
            val: Some(u64::MAX),
        }),
        "is 1 18446744073709551615 18446744073709551615\n",
    ),
    (Content::Val(None), "is none\n"),
    (Content::Val(Some(u64::MAX)), "is 18446744073709551615\n"),
    (
        Content::Idx {
            safe: true,
            idx: u64::MAX,
        },
        "is 1 18446744073709551615\n",
    ),
];

#[test]
fn each_content_has_its_words(rt: HostRuntime) {
    contents_are(&rt, CONTENTS);
}

/// The line that shows each actor.
const ACTORS: &[(Actor, &str)] = &[
    // Each call of an actor has its words.
    (
        IDLE,
        "actor Idle none crq 0.0 new 0.0 next 0.0 t 0 h 0 closed 0 val none safe 0 idx 0 pass 0\n",
    ),
    (
        Actor {
            pc: Pc::E10,
            op: Some(Op::Enq(5)),
            ..IDLE
        },
        "actor E10 enq 5 crq 0.0 new 0.0 next 0.0 t 0 h 0 closed 0 val none safe 0 idx 0 pass 0\n",
    ),
    (
        Actor {
            pc: Pc::Q8,
            op: Some(Op::Deq),
            ..IDLE
        },
        "actor Q8 deq crq 0.0 new 0.0 next 0.0 t 0 h 0 closed 0 val none safe 0 idx 0 pass 0\n",
    ),
    (
        Actor {
            pc: Pc::A2,
            op: Some(Op::AEnq(0)),
            ..IDLE
        },
        "actor A2 aenq 0 crq 0.0 new 0.0 next 0.0 t 0 h 0 closed 0 val none safe 0 idx 0 pass 0\n",
    ),
    (
        Actor {
            pc: Pc::B1,
            op: Some(Op::ADeq),
            ..IDLE
        },
        "actor B1 adeq crq 0.0 new 0.0 next 0.0 t 0 h 0 closed 0 val none safe 0 idx 0 pass 0\n",
    ),
    // Each word of an actor stands behind its name.
    (
        Actor {
            pc: Pc::Q12,
            op: Some(Op::Deq),
            crq: SegName { maker: 1, n: 2 },
            new: SegName { maker: 3, n: 4 },
            next: SegName { maker: 5, n: 6 },
            t: 7,
            h: 8,
            closed: true,
            val: Some(9),
            safe: true,
            idx: 10,
            pass: 2,
        },
        "actor Q12 deq crq 1.2 new 3.4 next 5.6 t 7 h 8 closed 1 val 9 safe 1 idx 10 pass 2\n",
    ),
    (
        Actor {
            pc: Pc::Idle,
            op: Some(Op::AEnq(u64::MAX)),
            crq: LONGEST,
            new: LONGEST,
            next: LONGEST,
            t: u64::MAX,
            h: u64::MAX,
            closed: true,
            val: Some(u64::MAX),
            safe: true,
            idx: u64::MAX,
            pass: u8::MAX,
        },
        "actor Idle aenq 18446744073709551615 crq 255.4294967295 new 255.4294967295 next 255.4294967295 t 18446744073709551615 h 18446744073709551615 closed 1 val 18446744073709551615 safe 1 idx 18446744073709551615 pass 255\n",
    ),
];

#[test]
fn each_word_of_an_actor_stands_behind_its_name(rt: HostRuntime) {
    actors_are(&rt, ACTORS);
}
