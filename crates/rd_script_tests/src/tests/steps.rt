//! The line of a step: its event, its place, its access, its answer and its reply.

use super::{IDLE, LONGEST, reply_is};
use rd_actor::{Act, Actor, Op, OpReply, Pc};
use rd_cell::{Answer, ArrSlot, Content, Place, SegName, Wrote};
use rd_marks::Reply;
use rd_step::{Entry, Event};
use std::process::Abort;

/// A read of the tail of the queue, by the first actor.
const READ: Entry = Entry {
    event: Event {
        actor: 1,
        act: Act::Go,
    },
    place: Some(Place::QTail),
    wrote: Wrote::Nothing,
    answer: Answer::Found(Content::Name(SegName::ROOT)),
    reply: None,
    old_actor: Actor {
        pc: Pc::E1,
        op: Some(Op::Enq(7)),
        ..IDLE
    },
    old_content: Some(Content::Name(SegName::ROOT)),
};

/// A step that has no place.
const WITHOUT_PLACE: Entry = Entry {
    place: None,
    answer: Answer::Nothing,
    old_content: None,
    ..READ
};

/// Compares the line of each step with its text.
fn steps_are(rt: &impl Abort, rows: &[(u64, Entry, &str)]) {
    for (number, entry, line) in rows {
        let reply = Reply::Step {
            number: *number,
            entry: *entry,
        };
        reply_is(rt, reply, *line);
    }
}

/// The number of a step, the step, and its line.
const STEPS: &[(u64, Entry, &str)] = &[
    // Each event without a place has its line.
    (
        1,
        Entry {
            event: Event {
                actor: 1,
                act: Act::Enq(7),
            },
            ..WITHOUT_PLACE
        },
        "step 1; enq 1 7; -; none; -; -\n",
    ),
    (
        2,
        Entry {
            event: Event {
                actor: 16,
                act: Act::Deq,
            },
            ..WITHOUT_PLACE
        },
        "step 2; deq 16; -; none; -; -\n",
    ),
    (
        3,
        Entry {
            event: Event {
                actor: 2,
                act: Act::AEnq(0),
            },
            ..WITHOUT_PLACE
        },
        "step 3; aenq 2 0; -; none; -; -\n",
    ),
    (
        10,
        Entry {
            event: Event {
                actor: 3,
                act: Act::ADeq,
            },
            ..WITHOUT_PLACE
        },
        "step 10; adeq 3; -; none; -; -\n",
    ),
    (
        26,
        Entry {
            event: Event {
                actor: 1,
                act: Act::Starve(true),
            },
            ..WITHOUT_PLACE
        },
        "step 26; starve 1 yes; -; none; -; -\n",
    ),
    (
        65_535,
        Entry {
            event: Event {
                actor: 255,
                act: Act::Starve(false),
            },
            ..WITHOUT_PLACE
        },
        "step 65535; starve 255 no; -; none; -; -\n",
    ),
    // Each place has its words.
    (
        4,
        Entry {
            place: Some(Place::QHead),
            ..READ
        },
        "step 4; go 1; qhead; read; 0.0; -\n",
    ),
    (
        4,
        Entry {
            place: Some(Place::QTail),
            ..READ
        },
        "step 4; go 1; qtail; read; 0.0; -\n",
    ),
    (
        4,
        Entry {
            place: Some(Place::Head(SegName { maker: 1, n: 20 })),
            ..READ
        },
        "step 4; go 1; head 1.20; read; 0.0; -\n",
    ),
    (
        4,
        Entry {
            place: Some(Place::Tail(SegName { maker: 1, n: 20 })),
            ..READ
        },
        "step 4; go 1; tail 1.20; read; 0.0; -\n",
    ),
    (
        4,
        Entry {
            place: Some(Place::Next(SegName { maker: 1, n: 20 })),
            ..READ
        },
        "step 4; go 1; next 1.20; read; 0.0; -\n",
    ),
    (
        4,
        Entry {
            place: Some(Place::Cell(SegName { maker: 1, n: 20 }, 3)),
            ..READ
        },
        "step 4; go 1; cell 1.20 3; read; 0.0; -\n",
    ),
    (
        4,
        Entry {
            place: Some(Place::Val(SegName { maker: 1, n: 20 }, 3)),
            ..READ
        },
        "step 4; go 1; value 1.20 3; read; 0.0; -\n",
    ),
    (
        4,
        Entry {
            place: Some(Place::Idx(SegName { maker: 1, n: 20 }, 3)),
            ..READ
        },
        "step 4; go 1; index 1.20 3; read; 0.0; -\n",
    ),
    (
        4,
        Entry {
            place: Some(Place::Whole(SegName { maker: 1, n: 20 })),
            ..READ
        },
        "step 4; go 1; whole 1.20; read; 0.0; -\n",
    ),
    (
        4,
        Entry {
            place: Some(Place::ArrHead),
            ..READ
        },
        "step 4; go 1; ahead; read; 0.0; -\n",
    ),
    (
        4,
        Entry {
            place: Some(Place::ArrTail),
            ..READ
        },
        "step 4; go 1; atail; read; 0.0; -\n",
    ),
    (
        4,
        Entry {
            place: Some(Place::ArrCell(63)),
            ..READ
        },
        "step 4; go 1; acell 63; read; 0.0; -\n",
    ),
    // Each answer has its words.
    (
        5,
        Entry {
            wrote: Wrote::Place,
            answer: Answer::Found(Content::Tail {
                closed: false,
                count: 3,
            }),
            ..READ
        },
        "step 5; go 1; qtail; wrote; open 3; -\n",
    ),
    (
        5,
        Entry {
            wrote: Wrote::Nothing,
            answer: Answer::Found(Content::Next(None)),
            ..READ
        },
        "step 5; go 1; qtail; read; none; -\n",
    ),
    (
        5,
        Entry {
            wrote: Wrote::Place,
            answer: Answer::Found(Content::Slot(ArrSlot::Top)),
            ..READ
        },
        "step 5; go 1; qtail; wrote; top; -\n",
    ),
    (
        5,
        Entry {
            wrote: Wrote::Nothing,
            answer: Answer::Value(None),
            ..READ
        },
        "step 5; go 1; qtail; read; none; -\n",
    ),
    (
        5,
        Entry {
            wrote: Wrote::Nothing,
            answer: Answer::Value(Some(7)),
            ..READ
        },
        "step 5; go 1; qtail; read; 7; -\n",
    ),
    (
        5,
        Entry {
            wrote: Wrote::Nothing,
            answer: Answer::SafeAndIndex { safe: true, idx: 6 },
            ..READ
        },
        "step 5; go 1; qtail; read; 1 6; -\n",
    ),
    (
        5,
        Entry {
            wrote: Wrote::Place,
            answer: Answer::WasClosed(false),
            ..READ
        },
        "step 5; go 1; qtail; wrote; was open; -\n",
    ),
    (
        5,
        Entry {
            wrote: Wrote::Place,
            answer: Answer::WasClosed(true),
            ..READ
        },
        "step 5; go 1; qtail; wrote; was closed; -\n",
    ),
    (
        5,
        Entry {
            wrote: Wrote::Place,
            answer: Answer::Won,
            ..READ
        },
        "step 5; go 1; qtail; wrote; won; -\n",
    ),
    (
        5,
        Entry {
            wrote: Wrote::Nothing,
            answer: Answer::Lost,
            ..READ
        },
        "step 5; go 1; qtail; read; lost; -\n",
    ),
    // A making shows the whole of the new segment.
    (
        27,
        Entry {
            place: Some(Place::Whole(SegName { maker: 1, n: 0 })),
            wrote: Wrote::Place,
            answer: Answer::Made(SegName { maker: 1, n: 0 }),
            old_content: None,
            ..READ
        },
        "step 27; go 1; whole 1.0; wrote; made 1.0; -\n",
    ),
    // Each reply of a call ends the line.
    (
        9,
        Entry {
            reply: Some(OpReply::Enqueued),
            ..READ
        },
        "step 9; go 1; qtail; read; 0.0; enqueued\n",
    ),
    (
        9,
        Entry {
            reply: Some(OpReply::Value(7)),
            ..READ
        },
        "step 9; go 1; qtail; read; 0.0; value 7\n",
    ),
    (
        9,
        Entry {
            reply: Some(OpReply::Empty),
            ..READ
        },
        "step 9; go 1; qtail; read; 0.0; empty\n",
    ),
    // The longest step fits.
    (
        u64::MAX,
        Entry {
            event: Event {
                actor: u8::MAX,
                act: Act::AEnq(u64::MAX),
            },
            place: Some(Place::Val(LONGEST, u8::MAX)),
            wrote: Wrote::Index,
            answer: Answer::SafeAndIndex {
                safe: true,
                idx: u64::MAX,
            },
            reply: Some(OpReply::Value(u64::MAX)),
            ..READ
        },
        "step 18446744073709551615; aenq 255 18446744073709551615; value 255.4294967295 255; wrote index; 1 18446744073709551615; value 18446744073709551615\n",
    ),
];

#[test]
fn each_step_has_its_line(rt: HostRuntime) {
    steps_are(&rt, STEPS);
}
