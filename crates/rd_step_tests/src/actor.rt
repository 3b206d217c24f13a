//! The tests of the table of control points: what each row asks for, which acts are refused, and
//! how rows go on, as the table of docs/MODEL.md says it.

use super::equal::{same, same_at};
use rd_actor::{Act, Actor, Op, OpReply, Pc, after, need};
use rd_cell::{Access, Answer, ArrSlot, Cell, Content, Operation, Place, Refusal, SegName};
use std::process::Abort;

/// The segments that the actor of these tests names: its own, the one that it made, and the next
/// one.
const CRQ: SegName = SegName { maker: 2, n: 1 };

const NEW: SegName = SegName { maker: 1, n: 3 };

const NEXT: SegName = SegName { maker: 3, n: 0 };

/// An actor whose words all differ, in an enqueue of 7.
const ACTOR: Actor = Actor {
    pc: Pc::Idle,
    op: Some(Op::Enq(7)),
    crq: CRQ,
    new: NEW,
    next: NEXT,
    t: 5,
    h: 6,
    closed: false,
    val: Some(8),
    safe: true,
    idx: 3,
    pass: 1,
};

/// The actor at this control point.
fn at(pc: Pc) -> Actor {
    Actor { pc, ..ACTOR }
}

/// What it read from a cell, with the value and without it, and what it would put there. The cells
/// of its positions 5 and 6 in a ring of four are 1 and 2.
const READ: Cell = Cell {
    safe: true,
    idx: 3,
    val: Some(8),
};

const READ_EMPTY: Cell = Cell { val: None, ..READ };

const MARKED: Cell = Cell {
    safe: false,
    ..READ
};

const ENQUEUED: Cell = Cell {
    safe: true,
    idx: 5,
    val: Some(7),
};

const NEXT_ROUND: Cell = Cell {
    safe: true,
    idx: 10,
    val: None,
};

/// Its compare-and-swaps.
const TO_NEXT: Operation = Operation::CasName {
    old: CRQ,
    new: NEXT,
};

const TO_NEW: Operation = Operation::CasName { old: CRQ, new: NEW };

const ENQUEUE: Operation = Operation::Cas2 {
    old: READ_EMPTY,
    new: ENQUEUED,
};

const DEQUEUE: Operation = Operation::Cas2 {
    old: READ,
    new: NEXT_ROUND,
};

const MARK: Operation = Operation::Cas2 {
    old: READ,
    new: MARKED,
};

const PASS: Operation = Operation::Cas2 {
    old: READ_EMPTY,
    new: NEXT_ROUND,
};

/// The place that it asks for at each control point but E12, and the operation there, over rings of
/// four cells.
const NEEDS: &[(Pc, Place, Operation)] = &[
    (Pc::E1, Place::QTail, Operation::Read),
    (Pc::E2, Place::Next(CRQ), Operation::Read),
    (Pc::E3, Place::QTail, TO_NEXT),
    (Pc::E4, Place::Tail(CRQ), Operation::Add),
    (Pc::E5, Place::Val(CRQ, 1), Operation::ReadValue),
    (Pc::E6, Place::Idx(CRQ, 1), Operation::ReadSafeAndIndex),
    (Pc::E7, Place::Head(CRQ), Operation::Read),
    (Pc::E8, Place::Cell(CRQ, 1), ENQUEUE),
    (Pc::E9, Place::Head(CRQ), Operation::Read),
    (Pc::E11, Place::Tail(CRQ), Operation::Close),
    (Pc::E13, Place::Next(CRQ), Operation::CasNext(NEW)),
    (Pc::E14, Place::QTail, TO_NEW),
    (Pc::Q1, Place::QHead, Operation::Read),
    (Pc::Q2, Place::Head(CRQ), Operation::Add),
    (Pc::Q3, Place::Val(CRQ, 2), Operation::ReadValue),
    (Pc::Q4, Place::Idx(CRQ, 2), Operation::ReadSafeAndIndex),
    (Pc::Q5, Place::Cell(CRQ, 2), DEQUEUE),
    (Pc::Q6, Place::Cell(CRQ, 2), MARK),
    (Pc::Q7, Place::Cell(CRQ, 2), PASS),
    (Pc::Q8, Place::Tail(CRQ), Operation::Read),
    (Pc::Q9, Place::Tail(CRQ), Operation::Read),
    (Pc::Q10, Place::Head(CRQ), Operation::Read),
    (Pc::Q11, Place::Tail(CRQ), Operation::Read),
    (
        Pc::Q12,
        Place::Tail(CRQ),
        Operation::CasTail { old: 5, new: 6 },
    ),
    (Pc::Q13, Place::Next(CRQ), Operation::Read),
    (Pc::Q14, Place::QHead, TO_NEXT),
    (Pc::A1, Place::ArrTail, Operation::AddArray),
    (
        Pc::A2,
        Place::ArrCell(5),
        Operation::Swap(ArrSlot::Value(7)),
    ),
    (Pc::B1, Place::ArrHead, Operation::AddArray),
    (Pc::B2, Place::ArrCell(6), Operation::Swap(ArrSlot::Top)),
    (Pc::B3, Place::ArrTail, Operation::Read),
];

/// What is refused to an actor that is neither idle nor to choose.
const REFUSED: &[(Act, Refusal)] = &[
    (Act::Starve(true), Refusal::NoChoice),
    (Act::Enq(9), Refusal::NotIdle),
    (Act::Deq, Refusal::NotIdle),
    (Act::AEnq(9), Refusal::NotIdle),
    (Act::ADeq, Refusal::NotIdle),
];

/// Has the actor asked for each act of a table, which is refused so.
fn refuses(rt: &impl Abort, actor: &Actor, rows: &[(Act, Refusal)]) {
    for row in rows {
        same_at(rt, need::<4>(actor, row.0), Err(row.1), &(actor.pc, row.0));
    }
}

#[test]
fn each_row_asks_for_its_access(rt: HostRuntime) {
    asks(&rt, Pc::E12, Access::Make(7));
    for row in NEEDS {
        asks(&rt, row.0, Access::At(row.1, row.2));
    }
}

/// Has the actor go on from a control point, where all other acts are refused.
fn asks(rt: &impl Abort, pc: Pc, access: Access) {
    let actor = at(pc);
    same_at(rt, need::<4>(&actor, Act::Go), Ok(access), &pc);
    refuses(rt, &actor, REFUSED);
}

/// The first row of each call.
const BEGINS: &[(Act, Pc, Op)] = &[
    (Act::Enq(9), Pc::E1, Op::Enq(9)),
    (Act::Deq, Pc::Q1, Op::Deq),
    (Act::AEnq(9), Pc::A1, Op::AEnq(9)),
    (Act::ADeq, Pc::B1, Op::ADeq),
];

/// What is refused to an idle actor.
const IDLE: &[(Act, Refusal)] = &[
    (Act::Go, Refusal::Idle),
    (Act::Starve(false), Refusal::Idle),
];

/// Has the actor do an act that asks for no place and leads to this record.
fn takes(rt: &impl Abort, actor: &Actor, act: Act, next: Actor) {
    same_at(rt, need::<4>(actor, act), Ok(Access::NoPlace), &act);
    let done = after::<4>(actor, act, Answer::Nothing);
    same_at(rt, done, (next, None), &act);
}

#[test]
fn an_idle_actor_takes_calls_alone(rt: HostRuntime) {
    let idle = Actor::idle();
    same(&rt, (idle.pc, idle.op, idle.val), (Pc::Idle, None, None));
    same(&rt, (idle.t, idle.h, idle.idx, idle.pass), (0, 0, 0, 0));
    same(&rt, (idle.words_fit(), idle.is_idle()), (true, true));
    same(&rt, ACTOR.is_idle(), false);
    refuses(&rt, &idle, IDLE);
    for row in BEGINS {
        begins(&rt, row);
    }
}

/// Has an idle actor take the call of a row, which begins at its control point.
fn begins(rt: &impl Abort, row: &(Act, Pc, Op)) {
    let idle = Actor::idle();
    let (call, pc, op) = *row;
    let begun = Actor {
        pc,
        op: Some(op),
        ..idle
    };
    same_at(rt, Actor::calling(pc, op), begun, row);
    takes(rt, &idle, call, begun);
}

#[test]
fn an_actor_that_is_to_choose_takes_choices_alone(rt: HostRuntime) {
    let chooses = at(Pc::E10);
    same(&rt, chooses.words_fit(), false);
    refuses(&rt, &chooses, TO_CHOOSE);
    takes(&rt, &chooses, Act::Starve(true), at(Pc::E11));
    takes(&rt, &chooses, Act::Starve(false), at(Pc::E4));
}

/// What is refused to an actor that is to choose.
const TO_CHOOSE: &[(Act, Refusal)] = &[
    (Act::Go, Refusal::NeedsChoice),
    (Act::Deq, Refusal::NotIdle),
];

/// The closed bit that an add found beside the count 9, and where the enqueue goes on.
const ADDS: &[(bool, Pc)] = &[(false, Pc::E5), (true, Pc::E12)];

#[test]
fn an_add_leads_to_the_cell_or_from_a_closed_ring_to_a_making(rt: HostRuntime) {
    let actor = Actor::poised(7);
    same(&rt, actor, enqueues(Pc::E4, 0));
    for &(closed, pc) in ADDS {
        let found = Answer::Found(Content::Tail { closed, count: 9 });
        let next = (enqueues(pc, 9), None);
        same_at(&rt, after::<4>(&actor, Act::Go, found), next, &closed);
    }
}

/// An actor that enqueues 7, at this control point with this t.
fn enqueues(pc: Pc, t: u64) -> Actor {
    let op = Some(Op::Enq(7));
    Actor {
        pc,
        op,
        t,
        ..Actor::idle()
    }
}

/// How a call on the array goes on from a control point, by what was found there: to another, or
/// over with a reply.
const ARRAY: &[(Pc, Content, Result<Pc, OpReply>)] = &[
    (Pc::A2, EMPTY, Err(OpReply::Enqueued)),
    (Pc::A2, TOP, Ok(Pc::A1)),
    (Pc::A2, THREE, Ok(Pc::A1)),
    (Pc::B2, THREE, Err(OpReply::Value(3))),
    (Pc::B2, EMPTY, Ok(Pc::B3)),
    (Pc::B2, TOP, Ok(Pc::B3)),
    (Pc::B3, Content::Number(0), Err(OpReply::Empty)),
    (Pc::B3, Content::Number(6), Err(OpReply::Empty)),
    (Pc::B3, Content::Number(7), Err(OpReply::Empty)),
    (Pc::B3, Content::Number(8), Ok(Pc::B1)),
    (Pc::B3, Content::Number(64), Ok(Pc::B1)),
];

const EMPTY: Content = Content::Slot(ArrSlot::Empty);

const TOP: Content = Content::Slot(ArrSlot::Top);

const THREE: Content = Content::Slot(ArrSlot::Value(3));

#[test]
fn a_call_on_the_array_goes_on_by_what_it_found(rt: HostRuntime) {
    for row in ARRAY {
        let next = match row.2 {
            Ok(pc) => (at(pc), None),
            Err(reply) => (Actor::idle(), Some(reply)),
        };
        let found = Answer::Found(row.1);
        same_at(&rt, after::<4>(&at(row.0), Act::Go, found), next, row);
    }
}

/// The labels of the table's rows, in its order.
const LABELS: [&str; 34] = [
    "Idle", "E1", "E2", "E3", "E4", "E5", "E6", "E7", "E8", "E9", "E10", "E11", "E12", "E13",
    "E14", "Q1", "Q2", "Q3", "Q4", "Q5", "Q6", "Q7", "Q8", "Q9", "Q10", "Q11", "Q12", "Q13", "Q14",
    "A1", "A2", "B1", "B2", "B3",
];

#[test]
fn the_control_points_are_in_the_order_of_the_table(rt: HostRuntime) {
    for i in 0..34 {
        same(&rt, Pc::ALL[i].label(), LABELS[i]);
    }
}

/// Words that are no labels.
const NO_LABELS: &[&str] = &["", "E", "E0", "E15", "e1", "E1 ", "Q15", "A3"];

#[test]
fn each_control_point_has_a_label_of_its_own(rt: HostRuntime) {
    for pc in &Pc::ALL {
        same(&rt, Pc::of_label(pc.label()), Some(*pc));
    }
    for word in NO_LABELS {
        same_at(&rt, Pc::of_label(word), None, word);
    }
}
