//! The tests of the words: expected values are those of the tables in docs/MODEL.md.

use super::equal::{same, same_at};
use rd_cell::{
    Answer, ArrSlot, Cell, Content, Done, Operation, Place, SegName, Wrote, overlaps, written,
};
use std::process::Abort;

/// The first segment that actor 1 makes.
const FIRST: SegName = SegName { maker: 1, n: 0 };

/// A place, the segment that has it, and whether it is one of the array's.
type PlaceRow = (Place, Option<SegName>, bool);

const PLACES: &[PlaceRow] = &[
    (Place::QHead, None, false),
    (Place::QTail, None, false),
    (Place::Head(FIRST), Some(FIRST), false),
    (Place::Tail(FIRST), Some(FIRST), false),
    (Place::Next(FIRST), Some(FIRST), false),
    (Place::Cell(FIRST, 3), Some(FIRST), false),
    (Place::Val(FIRST, 3), Some(FIRST), false),
    (Place::Idx(FIRST, 3), Some(FIRST), false),
    (Place::Whole(FIRST), None, false),
    (Place::ArrHead, None, true),
    (Place::ArrTail, None, true),
    (Place::ArrCell(63), None, true),
];

#[test]
fn places_overlap_if_they_are_equal_or_one_names_the_other(rt: HostRuntime) {
    same(&rt, SegName::ROOT, SegName { maker: 0, n: 0 });
    for row in PLACES {
        place_is(&rt, row);
    }
    let cell = Place::Cell(FIRST, 3);
    same(&rt, overlaps(cell, Place::Cell(FIRST, 2)), false);
    same(&rt, overlaps(cell, Place::Val(FIRST, 2)), false);
    same(&rt, overlaps(cell, Place::Idx(SegName::ROOT, 3)), false);
}

/// Looks at what the place of a row says of itself, and which places of the table it overlaps.
fn place_is(rt: &impl Abort, row: &PlaceRow) {
    let place = row.0;
    same_at(rt, place.segment(), row.1, &place);
    same_at(rt, place.is_of_array(), row.2, &place);
    let root = Place::Whole(SegName::ROOT);
    same_at(rt, overlaps(root, place), false, &place);
    for other in PLACES {
        let meet = place == other.0 || has(place, other) || has(other.0, row);
        same_at(rt, overlaps(place, other.0), meet, &(place, other.0));
    }
}

/// Whether the place has that of the row as a part: the segment what it holds, the cell its halves.
fn has(whole: Place, part: &PlaceRow) -> bool {
    (whole == Place::Whole(FIRST) && part.1.is_some()) || is_half(whole, part.0)
}

/// Whether the second place is a half of the first, which is the third cell.
fn is_half(cell: Place, half: Place) -> bool {
    cell == Place::Cell(FIRST, 3) && (half == Place::Val(FIRST, 3) || half == Place::Idx(FIRST, 3))
}

/// Places of which something is written.
const CELL: Option<Place> = Some(Place::Cell(FIRST, 3));

const INDEX: Option<Place> = Some(Place::Idx(FIRST, 3));

const SEGMENT: Option<Place> = Some(Place::Whole(FIRST));

const END: Option<Place> = Some(Place::QTail);

/// A place, what an access wrote there, and the place that names what it wrote.
const WRITTEN: &[(Option<Place>, Wrote, Option<Place>)] = &[
    (None, Wrote::Nothing, None),
    (END, Wrote::Nothing, None),
    (END, Wrote::Place, END),
    (CELL, Wrote::Nothing, None),
    (CELL, Wrote::Place, CELL),
    (CELL, Wrote::Index, INDEX),
    (SEGMENT, Wrote::Place, SEGMENT),
];

#[test]
fn what_was_written_is_all_of_a_place_or_the_index_half_of_a_cell(rt: HostRuntime) {
    for row in WRITTEN {
        same_at(&rt, written(row.0, row.1), row.2, row);
        same_at(&rt, row.1.is_nothing(), row.1 == Wrote::Nothing, row);
    }
}

/// A cell with a value, as a content.
const FULL: Content = Content::Cell(Cell {
    safe: false,
    idx: 4,
    val: Some(7),
});

const OPEN_2: Content = Content::Tail {
    closed: false,
    count: 2,
};

const HALF: Content = Content::Idx {
    safe: false,
    idx: 4,
};

const FOUND_HALF: Answer = Answer::SafeAndIndex {
    safe: false,
    idx: 4,
};

const EMPTY_HALF: Content = Content::Val(None);

const FULL_HALF: Content = Content::Val(Some(7));

/// What a read of all of a place finds.
const FOUND: &[Content] = &[
    Content::Name(FIRST),
    Content::Number(3),
    OPEN_2,
    Content::Next(None),
];

/// Another operation or another content, and what it reads there.
const READS: &[(Operation, Content, Option<Answer>)] = &[
    (Operation::Read, FULL, None),
    (Operation::Read, Content::Slot(ArrSlot::Top), None),
    (Operation::ReadValue, FULL, None),
    (
        Operation::ReadValue,
        FULL_HALF,
        Some(Answer::Value(Some(7))),
    ),
    (Operation::ReadValue, EMPTY_HALF, Some(Answer::Value(None))),
    (Operation::ReadSafeAndIndex, HALF, Some(FOUND_HALF)),
    (Operation::ReadSafeAndIndex, Content::Number(3), None),
    (Operation::Add, Content::Number(3), None),
];

#[test]
fn a_read_answers_what_is_there(rt: HostRuntime) {
    for content in FOUND {
        let answer = Some(Answer::Found(*content));
        same(&rt, Operation::Read.read_answer(*content), answer);
    }
    for row in READS {
        same_at(&rt, row.0.read_answer(row.1), row.2, row);
    }
}

/// An add at this place.
const TAIL: Place = Place::Tail(FIRST);

const ADDED: Done = Done {
    place: Some(TAIL),
    old: Some(OPEN_2),
    answer: Answer::Found(OPEN_2),
    wrote: Wrote::Place,
};

#[test]
fn what_was_done_says_what_it_found(rt: HostRuntime) {
    let added = Done::of_operation(TAIL, OPEN_2, Answer::Found(OPEN_2), Wrote::Place);
    same(&rt, added, ADDED);
    let won = Done::of_operation(TAIL, OPEN_2, Answer::Won, Wrote::Place);
    same(&rt, Done::of_cas(TAIL, OPEN_2, true, Wrote::Place), won);
    let lost = Done::of_operation(TAIL, OPEN_2, Answer::Lost, Wrote::Nothing);
    same(&rt, Done::of_cas(TAIL, OPEN_2, false, Wrote::Place), lost);
}

/// A cell with and without its value, safe and unsafe.
const MARKED: Cell = Cell {
    safe: false,
    idx: 4,
    val: Some(7),
};

const WHOLE: Cell = Cell {
    safe: true,
    ..MARKED
};

const EMPTIED: Cell = Cell {
    val: None,
    ..MARKED
};

const EMPTY: Cell = Cell { val: None, ..WHOLE };

/// A cell, another that is put in its place, and what that writes.
const PUTS: &[(Cell, Cell, Wrote)] = &[
    (WHOLE, MARKED, Wrote::Index),
    (WHOLE, WHOLE, Wrote::Index),
    (WHOLE, EMPTIED, Wrote::Place),
    (EMPTIED, EMPTIED, Wrote::Index),
    (EMPTIED, MARKED, Wrote::Place),
];

#[test]
fn a_swap_of_a_cell_writes_the_value_half_if_the_values_differ(rt: HostRuntime) {
    for row in PUTS {
        same_at(&rt, row.0.cas2_wrote(row.1), row.2, row);
    }
}

/// What a swap expects and puts, whether it wins, and the cell after it; at first it is empty.
const SWAPS: &[(Cell, Cell, bool, Cell)] = &[
    (EMPTIED, WHOLE, false, EMPTY),
    (EMPTY, EMPTY, true, EMPTY),
    (EMPTY, WHOLE, true, WHOLE),
];

#[test]
fn a_double_word_swap_wins_if_all_three_words_are_equal(rt: HostRuntime) {
    let mut cell = EMPTY;
    for row in SWAPS {
        same_at(&rt, cell.cas2(row.0, row.1), row.2, row);
        same_at(&rt, cell, row.3, row);
    }
}
