//! Whole runs of both queues from the fresh world of four actors, control point by control point
//! and reply by reply.

ghost use Rattle.std.specs.Prelude.{◌≤◌};

use super::{Line, Move, applied, play, stands};
use rd_actor::{Act, Actor, OpReply, Pc};
use rd_cell::{Answer, ArrSlot, Cell, Content, Place, Refusal, SegName, Wrote};
use rd_journal::Session;
use rd_step::World;
use std::alloc::Global;
use std::process::Abort;
use std::test::Fail;

/// A run from the fresh world, in parts that other runs may begin with too.
#[derive(Clone, Copy)]
struct Run {
    says: &'static str,
    parts: &'static [&'static [Line]],
}

/// Plays each run from its own fresh world, with four actors and rings of `R` cells.
fn play_all<const R: usize>(rt: &impl Abort, alloc: Global, runs: &[Run]) -> Result<(), Fail>
    requires positive { 1 ≤ R }
    requires small { R ≤ 64 }
{
    for run in runs {
        let mut session = Session::open(alloc, World::<R>::fresh(alloc, 4)?);
        for lines in run.parts {
            play(rt, &mut session, run.says, lines);
        }
    }
    Ok(())
}

#[test]
fn runs_over_rings_of_four_cells(rt: HostRuntime) -> Result<(), Fail> {
    play_all::<4>(&rt, rt.alloc(), OVER_FOUR)
}

/// The runs over rings of four cells.
const OVER_FOUR: &[Run] = &[
    Run {
        says: "an enqueue is done and undone",
        parts: &[ENQUEUES_7, UNDOES_7],
    },
    Run {
        says: "a dequeue takes what was enqueued",
        parts: &[ENQUEUES_7, DEQUEUES_7],
    },
    Run {
        says: "an empty dequeue repairs the tail and is undone and redone",
        parts: &[FINDS_NOTHING],
    },
    Run {
        says: "a starving enqueue closes the ring and links its own",
        parts: &[IS_TO_CHOOSE, STARVES],
    },
    Run {
        says: "an enqueue that does not starve draws again",
        parts: &[IS_TO_CHOOSE, DRAWS_AGAIN],
    },
    Run {
        says: "two empty passes move the queues head",
        parts: &[IS_TO_CHOOSE, STARVES, PASSES_TWICE],
    },
    Run {
        says: "an array enqueue draws again if a dequeue was first",
        parts: &[FINDS_TOP],
    },
    Run {
        says: "a run on the array is undone and redone",
        parts: &[UP_AND_DOWN_THE_ARRAY],
    },
    Run {
        says: "a walk that is too long moves nothing",
        parts: &[TOO_FAR],
    },
];

#[test]
fn runs_over_rings_of_two_cells(rt: HostRuntime) -> Result<(), Fail> {
    play_all::<2>(&rt, rt.alloc(), OVER_TWO)
}

/// The runs over rings of two cells.
const OVER_TWO: &[Run] = &[
    Run {
        says: "a second pass takes what came late",
        parts: &[TAKES_LATE],
    },
    Run {
        says: "of two makings one is linked and both stay",
        parts: &[BOTH_MAKE, LOSER_HELPS],
    },
    Run {
        says: "a dequeue marks an older value unsafe which is taken all the same",
        parts: &[ENQUEUES_7, MARKS_UNSAFE, MEETS_UNSAFE],
    },
];

#[test]
fn runs_over_rings_of_one_cell(rt: HostRuntime) -> Result<(), Fail> {
    play_all::<1>(&rt, rt.alloc(), OVER_ONE)
}

/// The runs over rings of one cell.
const OVER_ONE: &[Run] = &[Run {
    says: "a making goes and comes with its step",
    parts: &[ENQUEUES_7, MAKES_8],
}];

const ROOT: SegName = SegName::ROOT;

/// The first segments that the first two actors make.
const FIRST: SegName = SegName { maker: 1, n: 0 };

const SECOND: SegName = SegName { maker: 2, n: 0 };

/// The record of an actor in no call.
const IDLE: Actor = Actor {
    pc: Pc::Idle,
    op: None,
    crq: ROOT,
    new: ROOT,
    next: ROOT,
    t: 0,
    h: 0,
    closed: false,
    val: None,
    safe: false,
    idx: 0,
    pass: 0,
};

const ENQUEUED: Option<OpReply> = Some(OpReply::Enqueued);

const EMPTY: Option<OpReply> = Some(OpReply::Empty);

const SEVEN: Option<OpReply> = Some(OpReply::Value(7));

const NINE: Option<OpReply> = Some(OpReply::Value(9));

/// An enqueue that meets nobody and finds room.
const PUTS: &[Pc] = &[Pc::E1, Pc::E2, Pc::E4, Pc::E5, Pc::E6, Pc::E8];

/// An enqueue from its read of the queue's tail to its fetch-and-add.
const DRAWS: &[Pc] = &[Pc::E1, Pc::E2, Pc::E4];

/// An enqueue that closed the ring makes a segment, links it and moves the queue's tail.
const LINKS: &[Pc] = &[Pc::E11, Pc::E12, Pc::E13, Pc::E14];

/// A dequeue that finds its value at once.
const TAKES: &[Pc] = &[Pc::Q1, Pc::Q2, Pc::Q3, Pc::Q4, Pc::Q5];

/// A pass of a dequeue that finds its segment empty, up to the look at the tail, and the repair's
/// reads.
const PASSES: &[Pc] = &[Pc::Q2, Pc::Q3, Pc::Q4, Pc::Q7, Pc::Q8];

const REPAIRS: &[Pc] = &[Pc::Q9, Pc::Q10, Pc::Q11];

const OPEN_0: Content = Content::Tail {
    closed: false,
    count: 0,
};

const OPEN_1: Content = Content::Tail {
    closed: false,
    count: 1,
};

const OPEN_2: Content = Content::Tail {
    closed: false,
    count: 2,
};

const CLOSED_1: Content = Content::Tail {
    closed: true,
    count: 1,
};

const CLOSED_2: Content = Content::Tail {
    closed: true,
    count: 2,
};

const CLOSED_4: Content = Content::Tail {
    closed: true,
    count: 4,
};

const EMPTY_4: Content = Content::Cell(Cell {
    safe: true,
    idx: 4,
    val: None,
});

/// A cell at index 2 that was marked unsafe.
const UNSAFE_2: Content = Content::Cell(Cell {
    safe: false,
    idx: 2,
    val: None,
});

/// Cell 0 of a new segment, with its value, and cell 1 of the root with 7.
const HOLDS_7: Content = Content::Cell(Cell {
    safe: true,
    idx: 0,
    val: Some(7),
});

const HOLDS_8: Content = Content::Cell(Cell {
    safe: true,
    idx: 0,
    val: Some(8),
});

const HOLDS_10: Content = Content::Cell(Cell {
    safe: true,
    idx: 0,
    val: Some(10),
});

const SEVEN_AT_1: Content = Content::Cell(Cell {
    safe: true,
    idx: 1,
    val: Some(7),
});

const ENQUEUES_7: &[Line] = &[
    Line::Act(1, Act::Enq(7)),
    Line::Walk(1, PUTS, ENQUEUED),
    Line::At(7, 0),
];

const UNDOES_7: &[Line] = &[
    Line::Moves(Move::Back(7)),
    Line::At(0, 7),
    Line::Is(Place::Tail(ROOT), OPEN_0),
    Line::Actor(1, IDLE),
];

const DEQUEUES_7: &[Line] = &[
    Line::Act(2, Act::Deq),
    Line::Walk(2, TAKES, SEVEN),
    Line::At(13, 0),
    Line::Is(Place::Head(ROOT), Content::Number(1)),
    Line::Is(Place::Cell(ROOT, 0), EMPTY_4),
];

const FINDS_NOTHING: &[Line] = &[
    Line::Act(1, Act::Deq),
    Line::Walk(1, &[Pc::Q1], None),
    Line::Walk(1, PASSES, None),
    Line::Walk(1, REPAIRS, None),
    Line::Walk(1, &[Pc::Q12, Pc::Q13], EMPTY),
    Line::At(12, 0),
    Line::Is(Place::Tail(ROOT), OPEN_1),
    Line::Moves(Move::Back(12)),
    Line::At(0, 12),
    Line::Is(Place::Tail(ROOT), OPEN_0),
    Line::Moves(Move::Forward(12)),
    Line::At(12, 0),
    Line::Is(Place::Tail(ROOT), OPEN_1),
];

const IS_TO_CHOOSE: &[Line] = &[
    Line::Act(1, Act::Enq(7)),
    Line::Walk(1, DRAWS, None),
    Line::Act(2, Act::Deq),
    Line::Walk(2, &[Pc::Q1, Pc::Q2, Pc::Q3, Pc::Q4, Pc::Q7], None),
    Line::At(10, 0),
    Line::Is(Place::Cell(ROOT, 0), EMPTY_4),
    Line::Walk(1, &[Pc::E5, Pc::E6, Pc::E9], None),
    Line::Refused(1, Act::Go, Refusal::NeedsChoice),
    Line::Refused(2, Act::Starve(true), Refusal::NoChoice),
    Line::Refused(3, Act::Starve(true), Refusal::Idle),
    Line::At(13, 0),
];

const STARVES: &[Line] = &[
    Line::Act(1, Act::Starve(true)),
    Line::Walk(1, LINKS, ENQUEUED),
    Line::At(18, 0),
    Line::Is(Place::Tail(ROOT), CLOSED_1),
    Line::Is(Place::Next(ROOT), Content::Next(Some(FIRST))),
    Line::Is(Place::QTail, Content::Name(FIRST)),
    Line::Is(Place::Cell(FIRST, 0), HOLDS_7),
];

const DRAWS_AGAIN: &[Line] = &[
    Line::Act(1, Act::Starve(false)),
    Line::Walk(1, &[Pc::E4, Pc::E5, Pc::E6, Pc::E8], ENQUEUED),
    Line::At(18, 0),
    Line::Is(Place::Tail(ROOT), OPEN_2),
    Line::Is(Place::Cell(ROOT, 1), SEVEN_AT_1),
];

const PASSES_TWICE: &[Line] = &[
    Line::Act(3, Act::Deq),
    Line::Walk(3, &[Pc::Q1], None),
    Line::Walk(3, PASSES, None),
    Line::Walk(3, REPAIRS, None),
    Line::Walk(3, &[Pc::Q13], None),
    Line::Walk(3, PASSES, None),
    Line::Walk(3, REPAIRS, None),
    Line::Is(Place::QHead, Content::Name(ROOT)),
    Line::Walk(3, &[Pc::Q14], None),
    Line::Is(Place::QHead, Content::Name(FIRST)),
    Line::Walk(3, TAKES, SEVEN),
];

const TAKES_LATE: &[Line] = &[
    Line::Act(2, Act::Deq),
    Line::Walk(2, &[Pc::Q1], None),
    Line::Walk(2, PASSES, None),
    Line::Walk(2, REPAIRS, None),
    Line::Walk(2, &[Pc::Q12], None),
    Line::At(11, 0),
    Line::Stands(2, Pc::Q13),
    Line::Is(Place::Tail(ROOT), OPEN_1),
    Line::Act(1, Act::Enq(7)),
    Line::Walk(1, PUTS, ENQUEUED),
    Line::At(18, 0),
    Line::Act(1, Act::Enq(8)),
    Line::Walk(1, PUTS, ENQUEUED),
    Line::At(25, 0),
    Line::Act(1, Act::Enq(9)),
    Line::Walk(1, DRAWS, None),
    Line::Walk(1, &[Pc::E5, Pc::E6, Pc::E9], None),
    Line::Walk(1, LINKS, ENQUEUED),
    Line::At(36, 0),
    Line::Walk(2, &[Pc::Q13], None),
    Line::Walk(2, &[Pc::Q2, Pc::Q3, Pc::Q4, Pc::Q5], SEVEN),
    Line::At(41, 0),
    Line::Is(Place::QHead, Content::Name(ROOT)),
];

const BOTH_MAKE: &[Line] = &[
    Line::Act(1, Act::Enq(7)),
    Line::Walk(1, PUTS, ENQUEUED),
    Line::Act(1, Act::Enq(8)),
    Line::Walk(1, PUTS, ENQUEUED),
    Line::Act(1, Act::Enq(9)),
    Line::Walk(1, &[Pc::E1, Pc::E2], None),
    Line::Act(2, Act::Enq(10)),
    Line::Walk(2, &[Pc::E1, Pc::E2], None),
    Line::At(20, 0),
    Line::Walk(1, &[Pc::E4, Pc::E5, Pc::E6, Pc::E9, Pc::E11], None),
    Line::Walk(2, &[Pc::E4], None),
    Line::Walk(1, &[Pc::E12], None),
    Line::Walk(2, &[Pc::E12], None),
    Line::At(28, 0),
    Line::Is(Place::Tail(ROOT), CLOSED_4),
    Line::Is(Place::Cell(SECOND, 0), HOLDS_10),
    Line::Walk(2, &[Pc::E13], None),
    Line::Walk(1, &[Pc::E13], None),
    Line::Step(30, 1, Place::Next(ROOT), Wrote::Nothing, Answer::Lost, None),
    Line::Is(Place::Next(ROOT), Content::Next(Some(SECOND))),
    Line::Is(Place::Whole(FIRST), Content::Whole),
];

/// The enqueue that lost helps the queue's tail on, so that the other's own try loses and it is
/// over all the same.
const LOSER_HELPS: &[Line] = &[
    Line::Walk(1, &[Pc::E1, Pc::E2, Pc::E3], None),
    Line::Step(33, 1, Place::QTail, Wrote::Place, Answer::Won, None),
    Line::Is(Place::QTail, Content::Name(SECOND)),
    Line::Walk(2, &[Pc::E14], ENQUEUED),
    Line::Step(34, 2, Place::QTail, Wrote::Nothing, Answer::Lost, ENQUEUED),
    Line::Stands(1, Pc::E1),
];

const MARKS_UNSAFE: &[Line] = &[
    Line::Act(2, Act::Deq),
    Line::Walk(2, &[Pc::Q1, Pc::Q2], None),
    Line::Act(3, Act::Deq),
    Line::Walk(3, &[Pc::Q1], None),
    Line::Walk(3, PASSES, None),
    Line::Walk(3, REPAIRS, None),
    Line::Walk(3, &[Pc::Q12, Pc::Q13], EMPTY),
    Line::At(22, 0),
    Line::Act(3, Act::Deq),
    Line::Walk(3, &[Pc::Q1, Pc::Q2, Pc::Q3, Pc::Q4, Pc::Q6], None),
    Line::At(28, 0),
    Line::Walk(2, &[Pc::Q3, Pc::Q4, Pc::Q5], SEVEN),
    Line::At(31, 0),
    Line::Is(Place::Cell(ROOT, 0), UNSAFE_2),
];

/// An enqueue whose position is after the head finds the unsafe cell, and leaves it.
const MEETS_UNSAFE: &[Line] = &[
    Line::Act(4, Act::Enq(8)),
    Line::Walk(4, &[Pc::E1, Pc::E2, Pc::E4, Pc::E5, Pc::E6, Pc::E7], None),
    Line::Stands(4, Pc::E9),
    Line::Is(Place::Cell(ROOT, 0), UNSAFE_2),
];

const MAKES_8: &[Line] = &[
    Line::Act(2, Act::Enq(8)),
    Line::Walk(2, DRAWS, None),
    Line::Walk(2, &[Pc::E5, Pc::E6, Pc::E9, Pc::E11, Pc::E12], None),
    Line::At(16, 0),
    Line::Is(Place::Cell(SECOND, 0), HOLDS_8),
    Line::Moves(Move::Undo),
    Line::Gone(Place::Whole(SECOND)),
    Line::Gone(Place::Cell(SECOND, 0)),
    Line::Moves(Move::Undo),
    Line::Is(Place::Tail(ROOT), OPEN_2),
    Line::Moves(Move::Forward(2)),
    Line::Is(Place::Tail(ROOT), CLOSED_2),
    Line::Is(Place::Cell(SECOND, 0), HOLDS_8),
    Line::At(16, 0),
];

const FINDS_TOP: &[Line] = &[
    Line::Act(1, Act::AEnq(7)),
    Line::Walk(1, &[Pc::A1], None),
    Line::Act(2, Act::ADeq),
    Line::Walk(2, &[Pc::B1, Pc::B2], None),
    Line::Is(Place::ArrCell(0), Content::Slot(ArrSlot::Top)),
    Line::Walk(1, &[Pc::A2], None),
    Line::Walk(2, &[Pc::B3], EMPTY),
    Line::At(7, 0),
    Line::Walk(1, &[Pc::A1, Pc::A2], ENQUEUED),
    Line::At(9, 0),
    Line::Is(Place::ArrCell(0), Content::Slot(ArrSlot::Value(7))),
    Line::Is(Place::ArrCell(1), Content::Slot(ArrSlot::Value(7))),
    Line::Is(Place::ArrTail, Content::Number(2)),
];

const UP_AND_DOWN_THE_ARRAY: &[Line] = &[
    Line::Act(3, Act::AEnq(9)),
    Line::Walk(3, &[Pc::A1, Pc::A2], ENQUEUED),
    Line::Act(4, Act::ADeq),
    Line::Walk(4, &[Pc::B1, Pc::B2], NINE),
    Line::At(6, 0),
    Line::Is(Place::ArrCell(0), Content::Slot(ArrSlot::Top)),
    Line::Moves(Move::Undo),
    Line::Is(Place::ArrCell(0), Content::Slot(ArrSlot::Value(9))),
    Line::Stands(4, Pc::B2),
    Line::Moves(Move::Back(5)),
    Line::Is(Place::ArrCell(0), Content::Slot(ArrSlot::Empty)),
    Line::Is(Place::ArrTail, Content::Number(0)),
    Line::Is(Place::ArrHead, Content::Number(0)),
    Line::Moves(Move::Forward(6)),
    Line::Is(Place::ArrCell(0), Content::Slot(ArrSlot::Top)),
    Line::Stands(4, Pc::Idle),
];

const TOO_FAR: &[Line] = &[
    Line::Stays(Move::Undo, Refusal::NothingToUndo(0)),
    Line::Act(1, Act::Enq(7)),
    Line::Act(2, Act::Deq),
    Line::Stays(Move::Back(3), Refusal::NothingToUndo(2)),
    Line::Moves(Move::Back(0)),
    Line::At(2, 0),
    Line::Moves(Move::Undo),
    Line::At(1, 1),
    Line::Stands(2, Pc::Idle),
    Line::Refused(1, Act::Enq(8), Refusal::NotIdle),
    Line::At(1, 1),
    Line::Act(3, Act::Deq),
    Line::At(2, 0),
    Line::Stays(Move::Redo, Refusal::NothingToRedo),
];

/// Lets the first actor dequeue from an empty queue over and over, for this many steps.
fn dequeue_for(session: &mut Session<4>, steps: u64) -> Result<(), Refusal> {
    for _ in 0..steps {
        let next = match stands(session, 1) {
            Some(Pc::Idle) => Act::Deq,
            _ => Act::Go,
        };
        applied(session, 1, next)?;
    }
    Ok(())
}

#[test]
fn a_session_is_full_at_65535_steps(rt: HostRuntime) -> Result<(), Fail> {
    let mut session = Session::open(rt.alloc(), World::<4>::fresh(rt.alloc(), 4)?);
    dequeue_for(&mut session, 65_535)?;
    play(&rt, &mut session, "a session is full", FULL);
    Ok(())
}

/// 65,535 steps are 5,461 whole dequeues of twelve steps, and the first three steps of another.
const FULL: &[Line] = &[
    Line::At(65_535, 0),
    Line::Stands(1, Pc::Q3),
    Line::Refused(1, Act::Go, Refusal::TooLong),
    Line::Refused(9, Act::Deq, Refusal::TooLong),
    Line::At(65_535, 0),
    Line::Moves(Move::Undo),
    Line::Refused(9, Act::Deq, Refusal::NoActor),
    Line::Act(1, Act::Go),
    Line::At(65_535, 0),
];
