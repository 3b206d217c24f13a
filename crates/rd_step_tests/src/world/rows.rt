//! Rows of the table, each stepped once from a world that is put together for it: for each branch
//! of a row that a run seldom takes, the words before, what is at the place, and what the table
//! says of the step.

use super::Word::{Closed, H, Idx, Next, Pass, Safe, T, Val};
use super::*;
use rd_actor::OpReply;
use test_kit::access_entry;

/// One step, and what the table says of it.
struct Row {
    /// The control point at which the actor is.
    at: Pc,
    /// Its call.
    op: Option<Op>,
    /// Its words before the step; the others are as in the idle record.
    words: &'static [Word],
    /// The place of the step's access.
    place: Place,
    /// What is there before the step.
    found: Content,
    /// What the access answers.
    answer: Answer,
    /// What is there after the step, if it writes.
    writes: Option<Content>,
    /// How the actor goes on.
    then: Then,
}

/// How an actor goes on.
#[derive(Clone, Copy)]
enum Then {
    /// To this control point, with these words changed.
    Goes(Pc, &'static [Word]),
    /// It replies this, and is idle.
    Replies(OpReply),
}

#[test]
fn each_row_takes_each_branch(rt: HostRuntime) -> Result<(), Fail> {
    for i in 0..ROWS.len() {
        step_row(&rt, rt.alloc(), i, &ROWS[i])?;
    }
    Ok(())
}

/// Steps the row of this index, and looks at the entry, the actor and the place.
fn step_row(rt: &impl Abort, alloc: Global, i: usize, row: &Row) -> Result<(), Fail> {
    let actor = actor_at(row.at, row.op, row.words);
    let (next, reply) = goes_on(actor, row.then);
    let mut world = world_of(alloc, actor, &[(row.place, row.found)])?;
    same_at(rt, world.step(GO), Ok(entry(row, actor, reply)), &i);
    same_at(rt, world.actor(1), Some(next), &i);
    let left = row.writes.unwrap_or(row.found);
    same_at(rt, world.content(row.place), Some(left), &i);
    Ok(())
}

/// The record of an actor that goes on so, and its reply.
fn goes_on(actor: Actor, then: Then) -> (Actor, Option<OpReply>) {
    match then {
        Then::Goes(pc, words) => (with_words(Actor { pc, ..actor }, words), None),
        Then::Replies(reply) => (Actor::idle(), Some(reply)),
    }
}

/// The entry of a row's step.
fn entry(row: &Row, actor: Actor, reply: Option<OpReply>) -> Entry {
    Entry {
        event: GO,
        place: Some(row.place),
        wrote: wrote(row),
        answer: row.answer,
        reply,
        old_actor: actor,
        old_content: Some(row.found),
    }
}

/// What the row's access writes of its place: a double-word compare-and-swap that wins at Q6 or Q7
/// leaves the value as it was.
fn wrote(row: &Row) -> Wrote {
    match (row.writes, row.at) {
        (None, _) => Wrote::Nothing,
        (Some(_), Pc::Q6 | Pc::Q7) => Wrote::Index,
        (Some(_), _) => Wrote::Place,
    }
}

/// The cell of the positions 1, 5 and 9 in a ring of four, and its index half.
const CELL: Place = Place::Cell(ROOT, 1);

const INDEX: Place = Place::Idx(ROOT, 1);

const HEAD: Place = Place::Head(ROOT);

const OPEN_5: Content = Content::Tail {
    closed: false,
    count: 5,
};

const OPEN_6: Content = Content::Tail {
    closed: false,
    count: 6,
};

const OPEN_7: Content = Content::Tail {
    closed: false,
    count: 7,
};

const CLOSED_3: Content = Content::Tail {
    closed: true,
    count: 3,
};

/// This safe bit and index of a cell.
const INDEX_SAFE_9: Content = Content::Idx { safe: true, idx: 9 };

const INDEX_UNSAFE_9: Content = Content::Idx {
    safe: false,
    idx: 9,
};

/// A cell of this safe bit and index, without a value and with 7.
const SAFE_1: Content = Content::Cell(Cell {
    safe: true,
    idx: 1,
    val: None,
});

const UNSAFE_1: Content = Content::Cell(Cell {
    safe: false,
    idx: 1,
    val: None,
});

const SAFE_9: Content = Content::Cell(Cell {
    safe: true,
    idx: 9,
    val: None,
});

const UNSAFE_9: Content = Content::Cell(Cell {
    safe: false,
    idx: 9,
    val: None,
});

const SAFE_1_OF_7: Content = Content::Cell(Cell {
    safe: true,
    idx: 1,
    val: Some(7),
});

const UNSAFE_1_OF_7: Content = Content::Cell(Cell {
    safe: false,
    idx: 1,
    val: Some(7),
});

const SAFE_5_OF_7: Content = Content::Cell(Cell {
    safe: true,
    idx: 5,
    val: Some(7),
});

const UNSAFE_5_OF_7: Content = Content::Cell(Cell {
    safe: false,
    idx: 5,
    val: Some(7),
});

/// The rows, in the table's order.
const ROWS: &[Row] = &[
    Row {
        at: Pc::E3,
        op: ENQ,
        words: &[Next(FIRST)],
        place: Place::QTail,
        found: Content::Name(ROOT),
        answer: Answer::Won,
        writes: Some(Content::Name(FIRST)),
        then: Then::Goes(Pc::E1, &[]),
    },
    Row {
        at: Pc::E3,
        op: ENQ,
        words: &[Next(FIRST)],
        place: Place::QTail,
        found: Content::Name(FIRST),
        answer: Answer::Lost,
        writes: None,
        then: Then::Goes(Pc::E1, &[]),
    },
    Row {
        at: Pc::E3,
        op: ENQ,
        words: &[],
        place: Place::QTail,
        found: Content::Name(ROOT),
        answer: Answer::Won,
        writes: Some(Content::Name(ROOT)),
        then: Then::Goes(Pc::E1, &[]),
    },
    Row {
        at: Pc::E6,
        op: ENQ,
        words: &[T(5)],
        place: INDEX,
        found: INDEX_SAFE_9,
        answer: Answer::SafeAndIndex { safe: true, idx: 9 },
        writes: None,
        then: Then::Goes(Pc::E9, &[Safe(true), Idx(9)]),
    },
    Row {
        at: Pc::E6,
        op: ENQ,
        words: &[T(9)],
        place: INDEX,
        found: INDEX_UNSAFE_9,
        answer: Answer::SafeAndIndex {
            safe: false,
            idx: 9,
        },
        writes: None,
        then: Then::Goes(Pc::E7, &[Idx(9)]),
    },
    Row {
        at: Pc::E7,
        op: ENQ,
        words: &[T(5), Idx(1)],
        place: HEAD,
        found: Content::Number(5),
        answer: Answer::Found(Content::Number(5)),
        writes: None,
        then: Then::Goes(Pc::E8, &[]),
    },
    Row {
        at: Pc::E7,
        op: ENQ,
        words: &[T(5), Idx(1)],
        place: HEAD,
        found: Content::Number(6),
        answer: Answer::Found(Content::Number(6)),
        writes: None,
        then: Then::Goes(Pc::E9, &[]),
    },
    Row {
        at: Pc::E8,
        op: ENQ,
        words: &[T(5), Idx(1)],
        place: CELL,
        found: UNSAFE_1,
        answer: Answer::Won,
        writes: Some(SAFE_5_OF_7),
        then: Then::Replies(OpReply::Enqueued),
    },
    Row {
        at: Pc::E8,
        op: ENQ,
        words: &[T(5), Idx(1)],
        place: CELL,
        found: SAFE_1,
        answer: Answer::Lost,
        writes: None,
        then: Then::Goes(Pc::E9, &[]),
    },
    Row {
        at: Pc::E8,
        op: ENQ,
        words: &[T(5), Safe(true), Idx(1)],
        place: CELL,
        found: SAFE_1_OF_7,
        answer: Answer::Lost,
        writes: None,
        then: Then::Goes(Pc::E9, &[]),
    },
    Row {
        at: Pc::E9,
        op: ENQ,
        words: &[T(9)],
        place: HEAD,
        found: Content::Number(5),
        answer: Answer::Found(Content::Number(5)),
        writes: None,
        then: Then::Goes(Pc::E11, &[H(5)]),
    },
    Row {
        at: Pc::E9,
        op: ENQ,
        words: &[T(9)],
        place: HEAD,
        found: Content::Number(6),
        answer: Answer::Found(Content::Number(6)),
        writes: None,
        then: Then::Goes(Pc::E10, &[H(6)]),
    },
    Row {
        at: Pc::E11,
        op: ENQ,
        words: &[],
        place: TAIL,
        found: CLOSED_3,
        answer: Answer::WasClosed(true),
        writes: Some(CLOSED_3),
        then: Then::Goes(Pc::E12, &[]),
    },
    Row {
        at: Pc::Q4,
        op: DEQ,
        words: &[Pass(1), H(5), Val(7)],
        place: INDEX,
        found: INDEX_SAFE_9,
        answer: Answer::SafeAndIndex { safe: true, idx: 9 },
        writes: None,
        then: Then::Goes(Pc::Q8, &[Safe(true), Idx(9)]),
    },
    Row {
        at: Pc::Q5,
        op: DEQ,
        words: &[Pass(1), H(5), Val(7), Idx(5)],
        place: CELL,
        found: UNSAFE_5_OF_7,
        answer: Answer::Won,
        writes: Some(UNSAFE_9),
        then: Then::Replies(OpReply::Value(7)),
    },
    Row {
        at: Pc::Q5,
        op: DEQ,
        words: &[Pass(1), H(5), Val(7), Safe(true), Idx(5)],
        place: CELL,
        found: UNSAFE_5_OF_7,
        answer: Answer::Lost,
        writes: None,
        then: Then::Goes(Pc::Q3, &[]),
    },
    Row {
        at: Pc::Q6,
        op: DEQ,
        words: &[Pass(1), H(5), Val(7), Safe(true), Idx(1)],
        place: CELL,
        found: SAFE_1_OF_7,
        answer: Answer::Won,
        writes: Some(UNSAFE_1_OF_7),
        then: Then::Goes(Pc::Q8, &[]),
    },
    Row {
        at: Pc::Q6,
        op: DEQ,
        words: &[Pass(1), H(5), Val(7), Idx(1)],
        place: CELL,
        found: UNSAFE_1_OF_7,
        answer: Answer::Won,
        writes: Some(UNSAFE_1_OF_7),
        then: Then::Goes(Pc::Q8, &[]),
    },
    Row {
        at: Pc::Q6,
        op: DEQ,
        words: &[Pass(1), H(5), Val(7), Safe(true), Idx(1)],
        place: CELL,
        found: SAFE_5_OF_7,
        answer: Answer::Lost,
        writes: None,
        then: Then::Goes(Pc::Q3, &[]),
    },
    Row {
        at: Pc::Q7,
        op: DEQ,
        words: &[Pass(1), H(5), Safe(true), Idx(1)],
        place: CELL,
        found: SAFE_1,
        answer: Answer::Won,
        writes: Some(SAFE_9),
        then: Then::Goes(Pc::Q8, &[]),
    },
    Row {
        at: Pc::Q7,
        op: DEQ,
        words: &[Pass(1), H(5), Safe(true), Idx(1)],
        place: CELL,
        found: SAFE_5_OF_7,
        answer: Answer::Lost,
        writes: None,
        then: Then::Goes(Pc::Q3, &[]),
    },
    Row {
        at: Pc::Q8,
        op: DEQ,
        words: &[Pass(1), H(5)],
        place: TAIL,
        found: OPEN_6,
        answer: Answer::Found(OPEN_6),
        writes: None,
        then: Then::Goes(Pc::Q9, &[T(6)]),
    },
    Row {
        at: Pc::Q8,
        op: DEQ,
        words: &[Pass(1), H(5)],
        place: TAIL,
        found: OPEN_7,
        answer: Answer::Found(OPEN_7),
        writes: None,
        then: Then::Goes(Pc::Q2, &[T(7)]),
    },
    Row {
        at: Pc::Q9,
        op: DEQ,
        words: &[Pass(1), H(5)],
        place: TAIL,
        found: CLOSED_3,
        answer: Answer::Found(CLOSED_3),
        writes: None,
        then: Then::Goes(Pc::Q10, &[Closed(true), T(3)]),
    },
    Row {
        at: Pc::Q11,
        op: DEQ,
        words: &[Pass(1), H(5), T(3)],
        place: TAIL,
        found: CLOSED_3,
        answer: Answer::Found(CLOSED_3),
        writes: None,
        then: Then::Goes(Pc::Q9, &[]),
    },
    Row {
        at: Pc::Q11,
        op: DEQ,
        words: &[Pass(1), H(5), T(3)],
        place: TAIL,
        found: OPEN_4,
        answer: Answer::Found(OPEN_4),
        writes: None,
        then: Then::Goes(Pc::Q9, &[]),
    },
    Row {
        at: Pc::Q11,
        op: DEQ,
        words: &[Pass(1), H(5), T(3)],
        place: TAIL,
        found: OPEN_3,
        answer: Answer::Found(OPEN_3),
        writes: None,
        then: Then::Goes(Pc::Q12, &[]),
    },
    Row {
        at: Pc::Q11,
        op: DEQ,
        words: &[Pass(1), H(3), T(3)],
        place: TAIL,
        found: OPEN_3,
        answer: Answer::Found(OPEN_3),
        writes: None,
        then: Then::Goes(Pc::Q13, &[]),
    },
    Row {
        at: Pc::Q11,
        op: DEQ,
        words: &[Pass(2), H(5), Closed(true), T(3)],
        place: TAIL,
        found: CLOSED_3,
        answer: Answer::Found(CLOSED_3),
        writes: None,
        then: Then::Goes(Pc::Q14, &[]),
    },
    Row {
        at: Pc::Q12,
        op: DEQ,
        words: &[Pass(2), H(5), T(3)],
        place: TAIL,
        found: OPEN_3,
        answer: Answer::Won,
        writes: Some(OPEN_5),
        then: Then::Goes(Pc::Q14, &[]),
    },
    Row {
        at: Pc::Q12,
        op: DEQ,
        words: &[Pass(1), H(5), T(3)],
        place: TAIL,
        found: OPEN_4,
        answer: Answer::Lost,
        writes: None,
        then: Then::Goes(Pc::Q9, &[]),
    },
    Row {
        at: Pc::Q12,
        op: DEQ,
        words: &[Pass(1), H(5), T(3)],
        place: TAIL,
        found: CLOSED_3,
        answer: Answer::Lost,
        writes: None,
        then: Then::Goes(Pc::Q9, &[]),
    },
    Row {
        at: Pc::Q14,
        op: DEQ,
        words: &[Pass(2), Next(FIRST)],
        place: Place::QHead,
        found: Content::Name(ROOT),
        answer: Answer::Won,
        writes: Some(Content::Name(FIRST)),
        then: Then::Goes(Pc::Q1, &[]),
    },
    Row {
        at: Pc::Q14,
        op: DEQ,
        words: &[Pass(2), Next(FIRST)],
        place: Place::QHead,
        found: Content::Name(FIRST),
        answer: Answer::Lost,
        writes: None,
        then: Then::Goes(Pc::Q1, &[]),
    },
    Row {
        at: Pc::Q2,
        op: DEQ,
        words: &[Pass(1)],
        place: HEAD,
        found: Content::Number(END - 1),
        answer: Answer::Found(Content::Number(END - 1)),
        writes: Some(Content::Number(END)),
        then: Then::Goes(Pc::Q3, &[H(END - 1)]),
    },
    Row {
        at: Pc::A1,
        op: AENQ,
        words: &[],
        place: Place::ArrTail,
        found: Content::Number(63),
        answer: Answer::Found(Content::Number(63)),
        writes: Some(Content::Number(64)),
        then: Then::Goes(Pc::A2, &[T(63)]),
    },
    Row {
        at: Pc::B1,
        op: ADEQ,
        words: &[],
        place: Place::ArrHead,
        found: Content::Number(63),
        answer: Answer::Found(Content::Number(63)),
        writes: Some(Content::Number(64)),
        then: Then::Goes(Pc::B2, &[H(63)]),
    },
    Row {
        at: Pc::A2,
        op: AENQ,
        words: &[T(63)],
        place: Place::ArrCell(63),
        found: Content::Slot(ArrSlot::Top),
        answer: Answer::Found(Content::Slot(ArrSlot::Top)),
        writes: Some(Content::Slot(ArrSlot::Value(7))),
        then: Then::Goes(Pc::A1, &[]),
    },
    Row {
        at: Pc::B3,
        op: ADEQ,
        words: &[H(5)],
        place: Place::ArrTail,
        found: Content::Number(7),
        answer: Answer::Found(Content::Number(7)),
        writes: None,
        then: Then::Goes(Pc::B1, &[]),
    },
];

#[test]
fn a_choice_leads_to_the_closing_or_to_the_next_position(rt: HostRuntime) -> Result<(), Fail> {
    choice_leads(&rt, rt.alloc(), true, Pc::E11)?;
    choice_leads(&rt, rt.alloc(), false, Pc::E4)
}

/// Makes a choice, which leads to this control point.
fn choice_leads(rt: &impl Abort, alloc: Global, starves: bool, pc: Pc) -> Result<(), Fail> {
    let actor = actor_at(Pc::E10, ENQ, &[T(9), H(6)]);
    let mut world = world_of(alloc, actor, &[])?;
    let event = Event {
        actor: 1,
        act: Act::Starve(starves),
    };
    let entry = Entry {
        event,
        old_actor: actor,
        ..access_entry((1, None, Wrote::Nothing))
    };
    same(rt, world.step(event), Ok(entry));
    same(rt, world.actor(1), Some(Actor { pc, ..actor }));
    Ok(())
}

/// A step that is refused at its place: the control point, the actor's call and words, what is
/// there, and the refusal.
type AtAnEnd = (Pc, Option<Op>, &'static [Word], Place, Content, Refusal);

/// The counters at their ends.
const ENDS: &[AtAnEnd] = &[
    (
        Pc::Q2,
        DEQ,
        &[Pass(1)],
        HEAD,
        Content::Number(END),
        Refusal::CounterEnd,
    ),
    (Pc::E4, ENQ, &[], TAIL, OPEN_END, Refusal::CounterEnd),
    (Pc::E4, ENQ, &[], TAIL, CLOSED_END, Refusal::CounterEnd),
    (
        Pc::A1,
        AENQ,
        &[],
        Place::ArrTail,
        Content::Number(64),
        Refusal::ArrayEnd,
    ),
    (
        Pc::B1,
        ADEQ,
        &[],
        Place::ArrHead,
        Content::Number(64),
        Refusal::ArrayEnd,
    ),
];

const CLOSED_END: Content = Content::Tail {
    closed: true,
    count: END,
};

#[test]
fn a_counter_goes_up_to_its_end_and_no_further(rt: HostRuntime) -> Result<(), Fail> {
    for row in ENDS {
        ends(&rt, rt.alloc(), row)?;
    }
    Ok(())
}

/// Makes the step of a row, which is refused and changes nothing.
fn ends(rt: &impl Abort, alloc: Global, row: &AtAnEnd) -> Result<(), Fail> {
    let (pc, op, words, place, found, refusal) = *row;
    let actor = actor_at(pc, op, words);
    let mut world = world_of(alloc, actor, &[(place, found)])?;
    same_at(rt, world.step(GO), Err(refusal), &pc);
    same_at(rt, world.actor(1), Some(actor), &pc);
    same_at(rt, world.content(place), Some(found), &pc);
    Ok(())
}
