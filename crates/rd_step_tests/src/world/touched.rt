//! What the entry of a step says that the step touched, by examples.

use crate::equal::same_at;
use rd_cell::{Cell, Content, Place, SegName, Wrote};
use rd_step::Entry;
use test_kit::access_entry;

/// An entry, by what matters of it, and what it says.
struct Row {
    place: Option<Place>,
    wrote: Wrote,
    old_content: Option<Content>,
    written: Option<Place>,
    made: Option<SegName>,
}

/// The first segment that actor 2 makes.
const MADE: SegName = SegName { maker: 2, n: 0 };

/// What a place of the queue's end had.
const ROOT_NAMED: Content = Content::Name(SegName::ROOT);

/// What a cell had.
const FULL: Content = Content::Cell(Cell {
    safe: true,
    idx: 3,
    val: Some(7),
});

/// A call, a read, a write, a making, and a swap of a cell that keeps its value.
const ROWS: &[Row] = &[
    Row {
        place: None,
        wrote: Wrote::Nothing,
        old_content: None,
        written: None,
        made: None,
    },
    Row {
        place: Some(Place::QTail),
        wrote: Wrote::Nothing,
        old_content: Some(ROOT_NAMED),
        written: None,
        made: None,
    },
    Row {
        place: Some(Place::QTail),
        wrote: Wrote::Place,
        old_content: Some(ROOT_NAMED),
        written: Some(Place::QTail),
        made: None,
    },
    Row {
        place: Some(Place::Whole(MADE)),
        wrote: Wrote::Place,
        old_content: None,
        written: Some(Place::Whole(MADE)),
        made: Some(MADE),
    },
    Row {
        place: Some(Place::Cell(MADE, 3)),
        wrote: Wrote::Index,
        old_content: Some(FULL),
        written: Some(Place::Idx(MADE, 3)),
        made: None,
    },
];

#[test]
fn an_entry_says_what_its_step_wrote_and_made(rt: HostRuntime) {
    for row in ROWS {
        let entry = Entry {
            old_content: row.old_content,
            ..access_entry((2, row.place, row.wrote))
        };
        same_at(&rt, entry.written(), row.written, &entry);
        same_at(&rt, entry.made_segment(), row.made, &entry);
    }
}
