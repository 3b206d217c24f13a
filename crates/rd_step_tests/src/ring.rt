//! The tests of one segment, with a ring of four cells.

use super::equal::{same, same_at};
use rd_cell::limits::COUNTER_END;
use rd_cell::{Answer, Cell, Content, Done, Operation, Place, Refusal, SegName, Wrote};
use rd_ring::{Segment, SegmentParts};
use std::process::Abort;

const ROOT: SegName = SegName::ROOT;

/// The head counter, the closed bit and the tail counter of a segment.
fn counters<const R: usize>(segment: &Segment<R>) -> (u64, (bool, u64)) {
    let parts = segment.parts();
    (parts.head, (parts.closed, parts.tail))
}

/// Looks at what is at each place of a table.
fn contents_are(rt: &impl Abort, segment: &Segment<4>, rows: &[(Place, Option<Content>)]) {
    for row in rows {
        same_at(rt, segment.content(row.0), row.1, row);
    }
}

/// The last cell of a fresh ring.
const LAST: Cell = Cell {
    safe: true,
    idx: 3,
    val: None,
};

/// What is in a fresh segment. It has no cell 4, no segment whole and no end of the queue.
const FRESH: &[(Place, Option<Content>)] = &[
    (Place::Cell(ROOT, 3), Some(Content::Cell(LAST))),
    (Place::Cell(ROOT, 4), None),
    (Place::Val(ROOT, 3), Some(Content::Val(None))),
    (Place::Val(ROOT, 4), None),
    (
        Place::Idx(ROOT, 3),
        Some(Content::Idx { safe: true, idx: 3 }),
    ),
    (Place::Idx(ROOT, 4), None),
    (Place::Whole(ROOT), None),
    (Place::QHead, None),
];

#[test]
fn a_fresh_segment_is_open_and_empty(rt: HostRuntime) {
    let mut segment = Segment::<4>::fresh();
    same(&rt, counters(&segment), (0, (false, 0)));
    same(&rt, segment.next(), None);
    same(&rt, Cell::fresh(3), LAST);
    same(&rt, segment.cell(3), Some(LAST));
    same(&rt, segment.cell(4), None);
    contents_are(&rt, &segment, FRESH);
    same(&rt, segment.is_fresh(), true);
    segment.restore_cell(3, Cell { idx: 7, ..LAST });
    same(&rt, segment.is_fresh(), false);
    segment.restore_cell(3, LAST);
    same(&rt, segment.is_fresh(), true);
    segment.restore_tail(true, 0);
    same(&rt, segment.is_fresh(), false);
}

#[test]
fn a_fetch_and_add_answers_the_tail_from_before(rt: HostRuntime) {
    let mut segment = Segment::<4>::fresh();
    same(&rt, segment.add_tail(), Ok((false, 0)));
    same(&rt, segment.add_tail(), Ok((false, 1)));
    same(&rt, counters(&segment), (0, (false, 2)));
    segment.restore_tail(true, 5);
    same(&rt, segment.add_tail(), Ok((true, 5)));
    same(&rt, counters(&segment), (0, (true, 6)));
}

/// Where a counter ends, and the number below.
const END: u64 = 4611686018427387904;

const BELOW: u64 = 4611686018427387903;

#[test]
fn a_counter_ends_at_two_to_the_62(rt: HostRuntime) {
    same(&rt, COUNTER_END, END);
    let mut segment = Segment::<4>::fresh();
    segment.restore_tail(false, BELOW);
    same(&rt, segment.add_tail(), Ok((false, BELOW)));
    same(&rt, segment.add_tail(), Err(Refusal::CounterEnd));
    segment.restore_head(BELOW);
    same(&rt, segment.add_head(), Ok(BELOW));
    same(&rt, segment.add_head(), Err(Refusal::CounterEnd));
    same(&rt, counters(&segment), (END, (false, END)));
}

/// A cell that was marked unsafe.
const MARKED: Cell = Cell {
    safe: false,
    idx: 9,
    val: Some(7),
};

/// The same without its value.
const EMPTIED: Cell = Cell {
    val: None,
    ..MARKED
};

/// The segment that follows.
const FOLLOWS: SegName = SegName { maker: 2, n: 5 };

/// The first cell of a new segment.
const HELD: Cell = Cell {
    safe: true,
    idx: 0,
    val: Some(8),
};

#[test]
fn a_new_segment_holds_its_value_in_cell_0(rt: HostRuntime) {
    let segment = Segment::<4>::holding(8);
    same(&rt, counters(&segment), (0, (false, 1)));
    same(&rt, segment.next(), None);
    same(&rt, segment.cell(0), Some(HELD));
    same(&rt, segment.cell(1), Some(Cell { idx: 1, ..LAST }));
}

/// The words of a segment of two cells.
const PARTS: SegmentParts<2> = SegmentParts {
    head: 3,
    tail: 5,
    closed: true,
    next: Some(FOLLOWS),
    cells: [MARKED; 2],
};

#[test]
fn a_segment_has_the_words_that_are_handed_in(rt: HostRuntime) {
    let segment = Segment::<2>::from_parts(&PARTS);
    same(&rt, counters(&segment), (3, (true, 5)));
    same(&rt, segment.next(), Some(FOLLOWS));
    same(&rt, segment.cell(1), Some(MARKED));
    same(&rt, segment.cell(2), None);
}

#[test]
fn a_swap_wins_if_what_it_expects_is_there(rt: HostRuntime) {
    let mut segment = Segment::<4>::fresh();
    same(&rt, segment.cas_tail(1, 2), false);
    same(&rt, segment.cas_tail(0, 2), true);
    same(&rt, counters(&segment), (0, (false, 2)));
    same(&rt, segment.close(), false);
    same(&rt, segment.close(), true);
    same(&rt, segment.cas_tail(2, 3), false);
    same(&rt, counters(&segment), (0, (true, 2)));
    same(&rt, segment.cas_next(FOLLOWS), true);
    same(&rt, segment.cas_next(SegName::ROOT), false);
    same(&rt, segment.next(), Some(FOLLOWS));
    same(&rt, segment.cas2_cell(3, MARKED, MARKED), false);
    segment.restore_cell(3, MARKED);
    same(&rt, segment.cas2_cell(3, MARKED, EMPTIED), true);
    same(&rt, segment.cell(3), Some(EMPTIED));
}

#[test]
fn an_operation_is_done_and_put_back_at_its_place(rt: HostRuntime) {
    let mut segment = Segment::<4>::fresh();
    let place = Place::Head(ROOT);
    let found = Content::Number(0);
    let done = Done::of_operation(place, found, Answer::Found(found), Wrote::Place);
    same(&rt, segment.operate(place, Operation::Add), Ok(done));
    same(&rt, segment.content(place), Some(Content::Number(1)));
    segment.restore(place, found);
    same(&rt, segment.content(place), Some(found));
    let refused = segment.operate(Place::QHead, Operation::Read);
    same(&rt, refused, Err(Refusal::NoSuchPlace));
}

/// A cell that is swapped for another, what is answered and written, and the cell after it.
const SWAPS: &[(Cell, Cell, Answer, Wrote, Cell)] = &[
    (MARKED, MARKED, Answer::Won, Wrote::Index, MARKED),
    (MARKED, SAFE, Answer::Won, Wrote::Index, SAFE),
    (MARKED, EMPTIED, Answer::Won, Wrote::Place, EMPTIED),
    (LATER, MARKED, Answer::Lost, Wrote::Nothing, MARKED),
];

const SAFE: Cell = Cell {
    safe: true,
    ..MARKED
};

const LATER: Cell = Cell { idx: 8, ..MARKED };

#[test]
fn a_swap_of_a_cell_writes_the_halves_that_it_may_change(rt: HostRuntime) {
    let place = Place::Cell(ROOT, 2);
    for row in SWAPS {
        let mut segment = Segment::<4>::fresh();
        segment.restore_cell(2, MARKED);
        let (old, new, answer, wrote, left) = *row;
        let done = Done::of_operation(place, Content::Cell(MARKED), answer, wrote);
        let swap = Operation::Cas2 { old, new };
        same_at(&rt, segment.operate(place, swap), Ok(done), row);
        same_at(&rt, segment.cell(2), Some(left), row);
    }
}

/// The index half of the marked cell, and what a read of it answers.
const INDEX: Content = Content::Idx {
    safe: false,
    idx: 9,
};

const FOUND_INDEX: Answer = Answer::SafeAndIndex {
    safe: false,
    idx: 9,
};

#[test]
fn a_half_of_a_cell_is_read_and_put_back_alone(rt: HostRuntime) {
    let mut segment = Segment::<4>::fresh();
    let value = Place::Val(ROOT, 1);
    let index = Place::Idx(ROOT, 1);
    segment.restore(value, Content::Val(Some(7)));
    segment.restore(index, INDEX);
    same(&rt, segment.cell(1), Some(MARKED));
    let read = segment.operate(value, Operation::ReadValue);
    let answer = read.map(|done| done.answer);
    same(&rt, answer, Ok(Answer::Value(Some(7))));
    let read = segment.operate(index, Operation::ReadSafeAndIndex);
    let done = Done::of_operation(index, INDEX, FOUND_INDEX, Wrote::Nothing);
    same(&rt, read, Ok(done));
    let refused = segment.operate(value, Operation::ReadSafeAndIndex);
    same(&rt, refused, Err(Refusal::NoSuchPlace));
}

#[test]
fn what_is_put_back_is_there(rt: HostRuntime) {
    let mut segment = Segment::<4>::fresh();
    segment.restore_head(3);
    segment.restore_next(Some(FOLLOWS));
    segment.restore_cell(1, MARKED);
    same(&rt, counters(&segment), (3, (false, 0)));
    same(&rt, segment.next(), Some(FOLLOWS));
    same(&rt, segment.cell(1), Some(MARKED));
}
