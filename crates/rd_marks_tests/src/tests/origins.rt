//! Runs of both queues, with the origins of what they take and the last writers of places: data,
//! and the small helper that plays them.

ghost use Rattle.std.specs.Prelude.{◌≤◌};

use rd_actor::{Act, Actor, OpReply};
use rd_cell::{Cell, Place, Refusal, SegName};
use rd_journal::Session;
use rd_origin::{Origin, last_writer, origin};
use rd_step::{Event, Parts, SegmentParts, World};
use std::alloc::{AllocError, Global};
use std::process::Abort;
use std::test::Fail;
use test_kit::one_actor_parts;

/// One line of a run.
#[derive(Clone, Copy)]
enum Line {
    /// This actor does this act.
    Act(u8, Act),
    /// This actor goes on for this many steps, and the last one replies this.
    Goes(u8, u64, Option<OpReply>),
    /// This many steps are live.
    Len(u64),
    /// The step of this number took a value that this call put, by this step.
    Taken(u64, u64, u64),
    /// The origin of the step of this number is this.
    Origin(u64, Result<Origin, Refusal>),
    /// The last writer of the place is this.
    Writer(Place, Result<Option<u64>, Refusal>),
}

/// Plays a run, line by line. A line that is not so ends the test, with the run's name and the
/// line's index.
fn play<const R: usize>(rt: &impl Abort, session: &mut Session<R>, run: &str, lines: &[Line]) {
    for i in 0..lines.len() {
        match lines[i] {
            Line::Act(actor, act) => {
                assert_eq!(rt; replied(session, actor, act), Ok(None), "{run}, line {i}")
            }
            Line::Goes(actor, steps, reply) => {
                assert_eq!(rt;
                    gone_on(session, actor, steps),
                    Ok(reply),
                    "{run}, line {i}"
                )
            }
            Line::Len(len) => assert_eq!(rt; session.len(), len, "{run}, line {i}"),
            Line::Taken(take, call, put) => {
                let wanted = Origin {
                    call: Some(call),
                    put: Some(put),
                    take,
                };
                assert_eq!(rt; origin(session, take), Ok(wanted), "{run}, line {i}")
            }
            Line::Origin(k, wanted) => {
                assert_eq!(rt; origin(session, k), wanted, "{run}, line {i}")
            }
            Line::Writer(place, wanted) => {
                assert_eq!(rt; last_writer(session, place), wanted, "{run}, line {i}")
            }
        }
    }
}

/// Lets an actor do one act, and answers what its step replied.
fn replied<const R: usize>(
    session: &mut Session<R>,
    actor: u8,
    act: Act,
) -> Result<Option<OpReply>, Refusal> {
    let (_, entry) = session.apply(Event { actor, act })?;
    Ok(entry.reply)
}

/// Lets an actor go on for this many steps, and answers what the last one replied.
fn gone_on<const R: usize>(
    session: &mut Session<R>,
    actor: u8,
    steps: u64,
) -> Result<Option<OpReply>, Refusal> {
    let mut reply = None;
    for _ in 0..steps {
        reply = replied(session, actor, Act::Go)?;
    }
    Ok(reply)
}

/// Plays each run from its own fresh world, with four actors and rings of `R` cells.
fn play_all<const R: usize>(
    rt: &impl Abort,
    alloc: Global,
    runs: &[(&'static str, &'static [Line])],
) -> Result<(), Fail>
    requires positive { 1 ≤ R }
    requires small { R ≤ 64 }
{
    for (says, lines) in runs {
        let mut session = Session::open(alloc, World::<R>::fresh(alloc, 4)?);
        play(rt, &mut session, says, lines);
    }
    Ok(())
}

const ROOT: SegName = SegName::ROOT;

/// The first segment that the first actor makes.
const FIRST: SegName = SegName { maker: 1, n: 0 };

const ENQUEUED: Option<OpReply> = Some(OpReply::Enqueued);

const EMPTY: Option<OpReply> = Some(OpReply::Empty);

const SEVEN: Option<OpReply> = Some(OpReply::Value(7));

#[test]
fn runs_over_rings_of_two_cells(rt: HostRuntime) -> Result<(), Fail> {
    play_all::<2>(&rt, rt.alloc(), OVER_TWO)
}

/// The runs over rings of two cells.
const OVER_TWO: &[(&str, &[Line])] = &[
    ("a value comes through a repaired ring", TAKES_LATE),
    ("a mark between put and take is no put", TAKES_MARKED),
];

/// A dequeue finds the ring empty and repairs its tail; three enqueues later its second pass takes
/// the first value.
const TAKES_LATE: &[Line] = &[
    Line::Act(2, Act::Deq),
    Line::Goes(2, 10, None),
    Line::Writer(Place::Tail(ROOT), Ok(Some(11))),
    Line::Act(1, Act::Enq(7)),
    Line::Goes(1, 6, ENQUEUED),
    Line::Act(1, Act::Enq(8)),
    Line::Goes(1, 6, ENQUEUED),
    Line::Act(1, Act::Enq(9)),
    Line::Goes(1, 10, ENQUEUED),
    Line::Len(36),
    Line::Goes(2, 5, SEVEN),
    Line::Taken(41, 12, 18),
    Line::Origin(36, Err(Refusal::NotATake)),
    Line::Writer(Place::Cell(FIRST, 0), Ok(Some(34))),
    Line::Writer(Place::Whole(FIRST), Ok(Some(34))),
    Line::Writer(Place::QHead, Ok(None)),
];

/// A later dequeue marks the cell unsafe before the earlier one takes the value out of it.
const TAKES_MARKED: &[Line] = &[
    Line::Act(1, Act::Enq(7)),
    Line::Goes(1, 6, ENQUEUED),
    Line::Writer(Place::Cell(ROOT, 0), Ok(Some(7))),
    Line::Act(2, Act::Deq),
    Line::Goes(2, 2, None),
    Line::Act(3, Act::Deq),
    Line::Goes(3, 11, EMPTY),
    Line::Act(3, Act::Deq),
    Line::Goes(3, 5, None),
    Line::Len(28),
    Line::Goes(2, 2, None),
    Line::Writer(Place::Cell(ROOT, 0), Ok(Some(28))),
    Line::Writer(Place::Val(ROOT, 0), Ok(Some(7))),
    Line::Writer(Place::Idx(ROOT, 0), Ok(Some(28))),
    Line::Goes(2, 1, SEVEN),
    Line::Taken(31, 1, 7),
    Line::Origin(30, Err(Refusal::NotATake)),
    Line::Origin(32, Err(Refusal::NoSuchStep(31))),
    Line::Origin(0, Err(Refusal::NoSuchStep(31))),
    Line::Writer(Place::Cell(ROOT, 0), Ok(Some(31))),
    Line::Writer(Place::Val(ROOT, 0), Ok(Some(31))),
    Line::Writer(Place::Idx(ROOT, 0), Ok(Some(31))),
    Line::Writer(Place::Val(ROOT, 1), Ok(None)),
    Line::Writer(Place::Cell(ROOT, 2), Err(Refusal::NoSuchPlace)),
    Line::Writer(Place::Val(ROOT, 2), Err(Refusal::NoSuchPlace)),
    Line::Writer(Place::Idx(ROOT, 2), Err(Refusal::NoSuchPlace)),
];

#[test]
fn runs_over_rings_of_four_cells(rt: HostRuntime) -> Result<(), Fail> {
    play_all::<4>(&rt, rt.alloc(), OVER_FOUR)
}

/// The runs over rings of four cells.
const OVER_FOUR: &[(&str, &[Line])] = &[
    ("a value comes with its segment", TAKES_FROM_MADE),
    ("a value comes through the array", TAKES_FROM_ARRAY),
    (
        "one of two equal values has its own call",
        TAKES_SECOND_SEVEN,
    ),
];

/// A starving enqueue closes the ring and makes a segment, and a dequeue takes its value there. The
/// making is the put, and the last writer of all places of the segment that nothing else wrote.
const TAKES_FROM_MADE: &[Line] = &[
    Line::Act(1, Act::Enq(7)),
    Line::Goes(1, 3, None),
    Line::Act(2, Act::Deq),
    Line::Goes(2, 5, None),
    Line::Goes(1, 3, None),
    Line::Act(1, Act::Starve(true)),
    Line::Writer(Place::Whole(FIRST), Err(Refusal::NoSuchPlace)),
    Line::Goes(1, 4, ENQUEUED),
    Line::Len(18),
    Line::Writer(Place::Cell(FIRST, 0), Ok(Some(16))),
    Line::Act(3, Act::Deq),
    Line::Goes(3, 24, SEVEN),
    Line::Taken(43, 1, 16),
    Line::Writer(Place::Cell(FIRST, 0), Ok(Some(43))),
    Line::Writer(Place::Cell(FIRST, 1), Ok(Some(16))),
    Line::Writer(Place::Val(FIRST, 1), Ok(Some(16))),
    Line::Writer(Place::Idx(FIRST, 1), Ok(Some(16))),
    Line::Writer(Place::Next(FIRST), Ok(Some(16))),
    Line::Writer(Place::Whole(FIRST), Ok(Some(43))),
    Line::Writer(Place::Head(FIRST), Ok(Some(40))),
    Line::Writer(Place::ArrTail, Ok(None)),
];

/// An enqueue on the array comes to a slot too late, and draws another one.
const TAKES_FROM_ARRAY: &[Line] = &[
    Line::Act(1, Act::AEnq(7)),
    Line::Goes(1, 1, None),
    Line::Act(2, Act::ADeq),
    Line::Goes(2, 2, None),
    Line::Writer(Place::ArrCell(0), Ok(Some(5))),
    Line::Goes(1, 1, None),
    Line::Goes(2, 1, EMPTY),
    Line::Goes(1, 2, ENQUEUED),
    Line::Writer(Place::ArrCell(0), Ok(Some(6))),
    Line::Act(2, Act::ADeq),
    Line::Goes(2, 2, SEVEN),
    Line::Taken(12, 1, 9),
    Line::Writer(Place::ArrCell(1), Ok(Some(12))),
    Line::Writer(Place::ArrCell(64), Err(Refusal::NoSuchPlace)),
];

/// Two enqueues of one value, and two dequeues.
const TAKES_SECOND_SEVEN: &[Line] = &[
    Line::Act(1, Act::Enq(7)),
    Line::Goes(1, 6, ENQUEUED),
    Line::Act(2, Act::Enq(7)),
    Line::Goes(2, 6, ENQUEUED),
    Line::Act(3, Act::Deq),
    Line::Goes(3, 5, SEVEN),
    Line::Act(3, Act::Deq),
    Line::Goes(3, 5, SEVEN),
    Line::Taken(20, 1, 7),
    Line::Taken(26, 8, 14),
];

#[test]
fn a_value_of_the_start_has_no_put(rt: HostRuntime) -> Result<(), Fail> {
    let mut session = Session::open(
        rt.alloc(),
        World::assemble(rt.alloc(), holding_7(rt.alloc())?)?,
    );
    play(&rt, &mut session, "a value of the start", TAKES_FROM_START);
    Ok(())
}

const TAKES_FROM_START: &[Line] = &[
    Line::Act(1, Act::Deq),
    Line::Writer(Place::Cell(ROOT, 0), Ok(None)),
    Line::Goes(1, 5, SEVEN),
    Line::Origin(
        6,
        Ok(Origin {
            call: None,
            put: None,
            take: 6,
        }),
    ),
    Line::Writer(Place::Cell(ROOT, 0), Ok(Some(6))),
];

/// The parts of a world of one actor whose root has 7 in its cell 0.
fn holding_7(alloc: Global) -> Result<Parts<4>, AllocError> {
    let root = SegmentParts {
        head: 0,
        tail: 1,
        closed: false,
        next: None,
        cells: [
            cell(0, Some(7)),
            cell(1, None),
            cell(2, None),
            cell(3, None),
        ],
    };
    one_actor_parts(alloc, Actor::idle(), root, Vec::new(alloc))
}

/// A safe cell of this index and value.
const fn cell(idx: u64, val: Option<u64>) -> Cell {
    Cell {
        safe: true,
        idx,
        val,
    }
}
