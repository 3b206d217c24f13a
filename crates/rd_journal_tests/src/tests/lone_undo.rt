//! Undoing single steps in the middle of worked runs, line by line; and a long run of which every
//! step is undone that can be, in several orders, against the run of what remains, stepped afresh.

use super::{Line, is_at, play, shown_at};
use rd_actor::{Act, Actor, Op, Pc};
use rd_cell::{Answer, Cell, Content, Place, Refusal, SegName, Wrote};
use rd_journal::Session;
use rd_step::{Event, World};
use std::alloc::Global;
use std::process::Abort;
use std::test::Fail;
use test_kit::{drawn_event, event_and_times, next_random};

/// The first segment of the queue.
const ROOT: SegName = SegName::ROOT;

/// Does what a line says: an event, as often as it says, or a move through the run; none if it says
/// nothing.
fn done<const R: usize>(session: &mut Session<R>, line: &str) -> Option<Result<(), Refusal>> {
    if let Some((event, times)) = event_and_times(line) {
        return Some(apply(session, event, times));
    }
    let mut words = line.split_whitespace();
    let word = words.next()?;
    let number = words.next().and_then(|number| number.parse::<u64>().ok());
    Some(match (word, number) {
        ("undo", None) => session.undo(),
        ("undo", Some(k)) => session.undo_at(k),
        ("redo", None) => session.redo(),
        ("roll", Some(k)) => session.roll(k),
        ("back", Some(n)) => session.back(n),
        ("forward", Some(n)) => session.forward(n),
        _ => return None,
    })
}

/// Makes an event this many times.
fn apply<const R: usize>(
    session: &mut Session<R>,
    event: Event,
    times: u64,
) -> Result<(), Refusal> {
    for _ in 0..times {
        session.apply(event)?;
    }
    Ok(())
}

/// Does the lines of a worked run one after another, and compares what each answers: how many steps
/// are then live and how many undone, or the refusal.
pub(super) fn walk<const R: usize>(
    rt: &impl Abort,
    alloc: Global,
    session: &mut Session<R>,
    rows: &str,
) -> Result<(), Fail> {
    for row in rows.split(", ") {
        let (line, wanted) = row.split_once(" -> ").unwrap_or((row, "no answer"));
        let answer = match done(session, line) {
            None => format!(in alloc; "says nothing")?,
            Some(Err(refusal)) => format!(in alloc; "{refusal:?}")?,
            Some(Ok(())) => format!(in alloc; "{} {}", session.len(), session.undone_len())?,
        };
        assert_eq!(rt; answer.as_str(), wanted, "at {line}");
    }
    Ok(())
}

/// An enqueue and a dequeue begin, and each reads a name.
const TWO_CALLS: &str = "enq 1 7 -> 1 0, deq 2 -> 2 0, go 1 -> 3 0, go 2 -> 4 0";

/// The first read is undone alone.
const READ_UNDONE: &str = "undo 1 -> Depended(3), undo 3 -> 3 1";

/// It is redone, and the last step.
const READ_REDONE: &[Line] = &[Line::Step(
    4,
    1,
    Place::QTail,
    Wrote::Nothing,
    Answer::Found(Content::Name(ROOT)),
    None,
)];

#[test]
fn a_step_in_the_middle_is_undone_and_redone_last(rt: HostRuntime) -> Result<(), Fail> {
    let mut session = Session::open(rt.alloc(), World::<4>::fresh(rt.alloc(), 4)?);
    walk(&rt, rt.alloc(), &mut session, TWO_CALLS)?;
    walk(&rt, rt.alloc(), &mut session, READ_UNDONE)?;
    let calling = Actor::calling(Pc::E1, Op::Enq(7));
    assert!(rt; session.world().actor(1) == Some(calling));
    walk(&rt, rt.alloc(), &mut session, "redo -> 4 0")?;
    play(&rt, &mut session, "the read is redone", READ_REDONE);
    Ok(())
}

/// Two enqueues up to their fetch-and-adds on one tail, and the undoing of the two.
const TWO_ADDS: &str = "\
    enq 1 7 -> 1 0, enq 2 8 -> 2 0, go 1 2 -> 4 0, go 2 2 -> 6 0, go 1 -> 7 0, go 2 -> 8 0, \
    undo 7 -> Depended(8), undo 8 -> 7 1, undo 7 -> 6 2";

#[test]
fn of_two_adds_the_second_is_undone_first(rt: HostRuntime) -> Result<(), Fail> {
    let mut session = Session::open(rt.alloc(), World::<4>::fresh(rt.alloc(), 4)?);
    walk(&rt, rt.alloc(), &mut session, TWO_ADDS)?;
    Ok(())
}

/// An actor reads that nothing is linked after the root; much later another one links a segment
/// there.
const READ_AND_LATER_WRITE: &str = "\
    enq 3 5 -> 1 0, go 3 2 -> 3 0, deq 2 -> 4 0, go 2 10 -> 14 0, enq 1 7 -> 15 0, go 1 6 -> 21 0, \
    enq 1 8 -> 22 0, go 1 6 -> 28 0, enq 1 9 -> 29 0, go 1 10 -> 39 0, undo 3 -> Depended(38), \
    undo 2 -> Depended(3)";

#[test]
fn a_read_is_kept_by_a_later_write(rt: HostRuntime) -> Result<(), Fail> {
    let mut session = Session::open(rt.alloc(), World::<2>::fresh(rt.alloc(), 4)?);
    walk(&rt, rt.alloc(), &mut session, READ_AND_LATER_WRITE)?;
    Ok(())
}

/// A dequeue draws the position of a value, and waits. Another one draws a later position,
/// finds the older value, and marks its cell unsafe, which leaves the value.
const MARKED: &str = "\
    enq 1 7 -> 1 0, go 1 6 -> 7 0, deq 2 -> 8 0, go 2 2 -> 10 0, deq 3 -> 11 0, go 3 11 -> 22 0, \
    deq 3 -> 23 0, go 3 5 -> 28 0";

/// The first dequeue reads the value, and the marking is undone alone; what is read next is the
/// safe bit and the index.
const MARKING_UNDONE: &str = "go 2 -> 29 0, undo 28 -> 28 1";

/// The first dequeue takes its value with the cell marked: the first step that depends on the
/// marking reads the safe bit.
const TAKEN: &str = "go 2 3 -> 31 0, undo 28 -> Depended(30)";

/// The first cell of the root holds 7, and is safe.
const IS_SAFE: Line = Line::Is(
    Place::Cell(ROOT, 0),
    Content::Cell(Cell {
        safe: true,
        idx: 0,
        val: Some(7),
    }),
);

/// It holds 7, and is marked unsafe.
const IS_UNSAFE: Line = Line::Is(
    Place::Cell(ROOT, 0),
    Content::Cell(Cell {
        safe: false,
        idx: 0,
        val: Some(7),
    }),
);

/// The cell without the marking, and what the first dequeue read.
const SAFE_AND_READ: &[Line] = &[
    IS_SAFE,
    Line::Step(
        28,
        2,
        Place::Val(ROOT, 0),
        Wrote::Nothing,
        Answer::Value(Some(7)),
        None,
    ),
];

#[test]
fn a_marking_is_undone_below_a_later_read_of_the_value(rt: HostRuntime) -> Result<(), Fail> {
    let mut session = Session::open(rt.alloc(), World::<2>::fresh(rt.alloc(), 4)?);
    walk(&rt, rt.alloc(), &mut session, MARKED)?;
    walk(&rt, rt.alloc(), &mut session, TAKEN)?;
    let mut session = Session::open(rt.alloc(), World::<2>::fresh(rt.alloc(), 4)?);
    walk(&rt, rt.alloc(), &mut session, MARKED)?;
    walk(&rt, rt.alloc(), &mut session, MARKING_UNDONE)?;
    play(&rt, &mut session, "the marking is undone", SAFE_AND_READ);
    walk(&rt, rt.alloc(), &mut session, "redo -> 29 0")?;
    play(&rt, &mut session, "it is redone", &[IS_UNSAFE]);
    Ok(())
}

/// Two actors find the ring full, and each makes a segment.
pub(super) const TWO_MAKINGS: &str = "\
    enq 1 7 -> 1 0, go 1 6 -> 7 0, enq 1 8 -> 8 0, go 1 6 -> 14 0, enq 1 9 -> 15 0, \
    go 1 2 -> 17 0, enq 2 10 -> 18 0, go 2 2 -> 20 0, go 1 5 -> 25 0, go 2 -> 26 0, go 1 -> 27 0";

/// The second making, and after it the first one undone alone.
pub(super) const FIRST_MAKING_UNDONE: &str = "go 2 -> 28 0, undo 27 -> 27 1";

/// It is made again; then one actor links its segment, and the other one finds it linked.
pub(super) const MADE_AGAIN_AND_LINKED: &str = "redo -> 28 0, go 2 -> 29 0, go 1 -> 30 0";

/// The last step is undone, then the making on which it alone depended, then three more.
const UNDOES_WITHOUT_MEMORY: &str = "undo -> 29 1, undo 28 -> 28 2, back 3 -> 25 5";

/// The first segments that the first two actors make: the one that isn't linked, and the other.
pub(super) const LOST: SegName = SegName { maker: 1, n: 0 };

const LINKED: SegName = SegName { maker: 2, n: 0 };

/// What is there with the second making and without the first.
const ONE_MAKING: &[Line] = &[
    Line::Is(
        Place::Tail(ROOT),
        Content::Tail {
            closed: true,
            count: 4,
        },
    ),
    Line::Gone(Place::Whole(LOST)),
    Line::Is(
        Place::Cell(LINKED, 0),
        Content::Cell(Cell {
            safe: true,
            idx: 0,
            val: Some(10),
        }),
    ),
];

/// What is there with both and the link.
const BOTH_MAKINGS: &[Line] = &[
    Line::Step(30, 1, Place::Next(ROOT), Wrote::Nothing, Answer::Lost, None),
    Line::Is(Place::Next(ROOT), Content::Next(Some(LINKED))),
    Line::Is(Place::Whole(LOST), Content::Whole),
];

#[test]
fn a_making_is_undone_alone_and_renames_no_other(rt: HostRuntime) -> Result<(), Fail> {
    let mut session = Session::open(rt.alloc(), World::<2>::fresh(rt.alloc(), 4)?);
    walk(&rt, rt.alloc(), &mut session, TWO_MAKINGS)?;
    walk(&rt, rt.alloc(), &mut session, FIRST_MAKING_UNDONE)?;
    play(&rt, &mut session, "one making", ONE_MAKING);
    walk(&rt, rt.alloc(), &mut session, MADE_AGAIN_AND_LINKED)?;
    play(&rt, &mut session, "both makings", BOTH_MAKINGS);
    walk(&rt, rt.alloc(), &mut session, UNDOES_WITHOUT_MEMORY)?;
    Ok(())
}

/// What is refused of undoing, and steps undone from the front.
const NUMBERS: &str = "\
    undo -> NothingToUndo(0), enq 1 7 -> 1 0, deq 2 -> 2 0, back 3 -> NothingToUndo(2), \
    undo 5 -> NoSuchStep(2), undo 0 -> NoSuchStep(2), back 0 -> 2 0, undo -> 1 1, undo 1 -> 0 2, \
    redo -> 1 1, enq 1 8 -> NotIdle, back 0 -> 1 1, deq 3 -> 2 0, redo -> NothingToRedo";

#[test]
fn a_number_that_no_step_has_is_refused(rt: HostRuntime) -> Result<(), Fail> {
    let mut session = Session::open(rt.alloc(), World::<4>::fresh(rt.alloc(), 4)?);
    walk(&rt, rt.alloc(), &mut session, NUMBERS)?;
    let act = Act::Enq(7);
    let shown = (
        Event { actor: 1, act },
        None,
        Wrote::Nothing,
        Answer::Nothing,
        None,
    );
    assert!(rt; shown_at(&session, 1) == Some(shown));
    Ok(())
}

/// On the array a dequeue's swap comes before that of the enqueue which drew its slot.
const SWAPS_ON_THE_ARRAY: &str = "\
    aenq 1 7 -> 1 0, go 1 -> 2 0, adeq 2 -> 3 0, go 2 2 -> 5 0, go 1 -> 6 0, go 2 -> 7 0, \
    go 1 2 -> 9 0, undo 5 -> Depended(6)";

#[test]
fn a_swap_is_kept_by_the_next_swap(rt: HostRuntime) -> Result<(), Fail> {
    let mut session = Session::open(rt.alloc(), World::<4>::fresh(rt.alloc(), 4)?);
    walk(&rt, rt.alloc(), &mut session, SWAPS_ON_THE_ARRAY)?;
    Ok(())
}

/// Lets the four actors of a fresh world take turns for this many steps, in an order that looks
/// like chance.
pub(super) fn mixed_run(alloc: Global, steps: u64, seed: u64) -> Result<Session<2>, Refusal> {
    let mut session = Session::open(alloc, World::<2>::fresh(alloc, 4)?);
    let mut number = seed;
    for _ in 0..steps {
        number = next_random(number);
        let event = drawn_event(session.world(), 4, number);
        session.apply(event)?;
    }
    Ok(session)
}

/// Whether two worlds have the same at all places of a segment.
fn same_segment(a: &World<2>, b: &World<2>, name: SegName) -> bool {
    let places = [
        Place::Whole(name),
        Place::Head(name),
        Place::Tail(name),
        Place::Next(name),
        Place::Cell(name, 0),
        Place::Cell(name, 1),
    ];
    for place in &places {
        if a.content(*place) != b.content(*place) {
            return false;
        }
    }
    true
}

/// Whether two worlds have the same words for an actor and the same segments that it made, of the
/// first hundred.
fn same_maker(a: &World<2>, b: &World<2>, maker: u8) -> bool {
    for n in 0..100 {
        if !same_segment(a, b, SegName { maker, n }) {
            return false;
        }
    }
    a.actor(maker) == b.actor(maker)
}

/// Whether two worlds have the same in a slot of the array.
fn same_slot(a: &World<2>, b: &World<2>, i: u8) -> bool {
    a.content(Place::ArrCell(i)) == b.content(Place::ArrCell(i))
}

/// The ends of both queues.
const ENDS: &[Place] = &[Place::QHead, Place::QTail, Place::ArrHead, Place::ArrTail];

/// Whether two worlds of four actors are the same.
pub(super) fn same_world(a: &World<2>, b: &World<2>) -> bool {
    for place in ENDS {
        if a.content(*place) != b.content(*place) {
            return false;
        }
    }
    (0..=4).all(|maker| same_maker(a, b, maker)) && (0..64).all(|i| same_slot(a, b, i))
}

/// Whether the session is what its live events give if they are stepped afresh: number by number
/// and entry by entry, and the world at the end.
pub(super) fn is_stepped_afresh(alloc: Global, session: &Session<2>) -> Result<bool, Refusal> {
    let mut again = Session::open(alloc, World::<2>::fresh(alloc, 4)?);
    for k in 0..session.len() {
        let entry = session.entry(k + 1)?;
        if again.apply(entry.event)? != (k + 1, entry) {
            return Ok(false);
        }
    }
    Ok(same_world(session.world(), again.world()))
}

/// Undoes the step of this number alone, if no later one depends on it, and answers whether it did.
/// What is left is compared with the run of what remains, stepped afresh.
fn undo_and_compare(
    rt: &impl Abort,
    alloc: Global,
    session: &mut Session<2>,
    k: u64,
) -> Result<bool, Refusal> {
    let len = session.len();
    match session.undo_at(k) {
        Err(Refusal::Depended(j)) => {
            assert!(rt; k < j && j <= len, "at {k}");
            Ok(false)
        }
        Err(refusal) => Err(refusal),
        Ok(()) => {
            assert!(rt; is_stepped_afresh(alloc, session)?, "at {k}");
            Ok(true)
        }
    }
}

/// Undoes the step of this number alone, if no later one depends on it, and redoes it: its entry
/// is then the last.
fn undo_and_redo(
    rt: &impl Abort,
    alloc: Global,
    session: &mut Session<2>,
    k: u64,
) -> Result<(), Refusal> {
    let record = session.entry(k)?;
    if undo_and_compare(rt, alloc, session, k)? {
        session.redo()?;
        assert_eq!(rt; session.entry(session.len())?, record, "at {k}");
    }
    Ok(())
}

/// How many steps the long runs have.
pub(super) const STEPS: u64 = 300;

/// Long runs, each by the number that it begins with, and how far on the next step to be undone is:
/// front to back, back to front, and by leaps.
const ORDERS: &[(u64, u64)] = &[(1, 1), (2, 299), (3, 77)];

#[test]
fn each_step_that_can_be_is_undone_alone_and_redone(rt: HostRuntime) -> Result<(), Fail> {
    for (seed, leap) in ORDERS {
        let mut session = mixed_run(rt.alloc(), STEPS, *seed)?;
        for turn in 0..STEPS {
            let k = turn.wrapping_mul(*leap) % STEPS + 1;
            undo_and_redo(&rt, rt.alloc(), &mut session, k)?;
        }
        assert!(rt; is_whole(rt.alloc(), &session)?);
    }
    Ok(())
}

/// Whether all steps of a long run are live, and as they are if they are stepped afresh.
fn is_whole(alloc: Global, session: &Session<2>) -> Result<bool, Refusal> {
    Ok(is_at(session, STEPS, 0) && is_stepped_afresh(alloc, session)?)
}

/// Undoes steps alone, as many times as there are steps and more, each among this many last ones;
/// returns how many it undid.
fn take_apart(
    rt: &impl Abort,
    alloc: Global,
    session: &mut Session<2>,
    spread: u64,
) -> Result<u64, Refusal> {
    let mut number = spread;
    for _ in 0..2 * STEPS {
        number = next_random(number);
        let len = session.len();
        let span = len.min(spread);
        if 0 < span {
            undo_and_compare(rt, alloc, session, len - (number >> 33) % span)?;
        }
    }
    Ok(session.undone_len())
}

/// Among how many last steps the next one to be undone is.
const SPREADS: &[u64] = &[1, 3, 8, 40];

#[test]
fn steps_undone_alone_in_several_orders_are_redone(rt: HostRuntime) -> Result<(), Fail> {
    for spread in SPREADS {
        let mut session = mixed_run(rt.alloc(), STEPS, *spread)?;
        let undone = take_apart(&rt, rt.alloc(), &mut session, *spread)?;
        assert!(rt; 10 < undone, "among {spread}");
        session.forward(undone)?;
        assert!(rt; is_whole(rt.alloc(), &session)?);
    }
    Ok(())
}
