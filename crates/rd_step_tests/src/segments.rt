//! The tests of the space and of the array.

ghost use Rattle.std.specs.Prelude.{◌≡◌, ◌^◌, ◌≤◌, IsTrue};
ghost use Rattle.rd_ring.specs.Segments.{counters_fit};
ghost use Rattle.rd_segments.specs.Space.{list_count};

use super::equal::{same, same_at};
use rd_cell::limits::SLOTS;
use rd_cell::{Answer, ArrSlot, Cell, Content, Done, Operation, Place, Refusal, SegName, Wrote};
use rd_ring::SegmentParts;
use rd_segments::{ArrayParts, Space};
use std::alloc::{AllocError, Global};
use std::process::Abort;
use std::test::Fail;

const ROOT: SegName = SegName::ROOT;

/// A segment that nobody has made.
const UNMADE: SegName = SegName { maker: 1, n: 0 };

/// A place, and what is there.
type At = (Place, Option<Content>);

/// Looks at what is at each place of a table.
fn contents_are<const R: usize>(rt: &impl Abort, space: &Space<R>, rows: &[At]) {
    for row in rows {
        same_at(rt, space.content(row.0), row.1, row);
    }
}

const FRESH: &[At] = &[
    (Place::QHead, Some(Content::Name(ROOT))),
    (Place::QTail, Some(Content::Name(ROOT))),
    (Place::Head(ROOT), Some(Content::Number(0))),
    (Place::Next(ROOT), Some(Content::Next(None))),
    (Place::Whole(ROOT), Some(Content::Whole)),
    (Place::Cell(ROOT, 4), None),
    (Place::Whole(UNMADE), None),
    (Place::Tail(UNMADE), None),
    (Place::ArrHead, Some(Content::Number(0))),
    (Place::ArrTail, Some(Content::Number(0))),
    (Place::ArrCell(63), Some(Content::Slot(ArrSlot::Empty))),
    (Place::ArrCell(64), None),
];

#[test]
fn a_fresh_space_has_the_root_alone(rt: HostRuntime) -> Result<(), Fail> {
    let space = Space::<4>::fresh(rt.alloc(), 2)?;
    contents_are(&rt, &space, FRESH);
    same(&rt, space.is_fresh(), true);
    Ok(())
}

/// The root's tail when it is fresh and after an add.
const TAIL: Place = Place::Tail(ROOT);

const OPEN_0: Content = Content::Tail {
    closed: false,
    count: 0,
};

const OPEN_1: Content = Content::Tail {
    closed: false,
    count: 1,
};

#[test]
fn an_add_says_what_it_found(rt: HostRuntime) -> Result<(), Fail> {
    let mut space = Space::<4>::fresh(rt.alloc(), 2)?;
    let done = Done::of_operation(TAIL, OPEN_0, Answer::Found(OPEN_0), Wrote::Place);
    same(&rt, space.operate(TAIL, Operation::Add), Ok(done));
    same(&rt, space.content(TAIL), Some(OPEN_1));
    let refused = space.operate(Place::Tail(UNMADE), Operation::Add);
    same(&rt, refused, Err(Refusal::NoSuchPlace));
    Ok(())
}

/// The first segment of actor 2, and what is in it when it was made with 9.
const SECOND: SegName = SegName { maker: 2, n: 0 };

const HELD: Cell = Cell {
    safe: true,
    idx: 0,
    val: Some(9),
};

const MADE: &[At] = &[
    (Place::Cell(SECOND, 0), Some(Content::Cell(HELD))),
    (Place::Val(SECOND, 0), Some(Content::Val(Some(9)))),
    (
        Place::Idx(SECOND, 3),
        Some(Content::Idx { safe: true, idx: 3 }),
    ),
    (Place::Idx(SECOND, 4), None),
    (Place::Whole(SECOND), Some(Content::Whole)),
    (Place::Tail(SECOND), Some(OPEN_1)),
];

#[test]
fn each_maker_counts_its_own_segments(rt: HostRuntime) -> Result<(), Fail> {
    let mut space = Space::<4>::fresh(rt.alloc(), 2)?;
    same(&rt, space.make(2, 9), Ok(SECOND));
    same(&rt, space.make(1, 7), Ok(UNMADE));
    same(&rt, space.make(1, 8), Ok(SegName { maker: 1, n: 1 }));
    same(&rt, space.is_fresh(), false);
    contents_are(&rt, &space, MADE);
    Ok(())
}

#[test]
fn a_space_for_so_many_actors_has_their_lists(rt: HostRuntime) -> Result<(), Fail> {
    for actors in [1, 8, 9, 16] {
        let mut space = Space::<4>::fresh(rt.alloc(), actors)?;
        let made = SegName {
            maker: actors,
            n: 0,
        };
        same(&rt, space.make(actors, 9), Ok(made));
        same(&rt, space.content(Place::Whole(made)), Some(Content::Whole));
    }
    Ok(())
}

#[test]
fn a_maker_with_room_makes_as_many_segments(rt: HostRuntime) -> Result<(), Fail> {
    for makings in [0, 1, 2, 10, 100] {
        makes_with_room(&rt, rt.alloc(), makings)?;
    }
    Ok(())
}

/// Makes room for this many segments and makes them, and one more.
fn makes_with_room(rt: &impl Abort, alloc: Global, makings: u32) -> Result<(), Fail> {
    let mut space = Space::<4>::fresh(alloc, 2)?;
    same(rt, space.make_room(1, usize::MAX), Err(AllocError));
    same(rt, space.make_room(1, makings as usize), Ok(()));
    for n in 0..makings {
        same(rt, space.make(1, 7), Ok(SegName { maker: 1, n }));
    }
    let next = Place::Whole(SegName {
        maker: 1,
        n: makings,
    });
    same(rt, space.content(next), None);
    same(rt, space.make(1, 8).is_ok(), true);
    same(rt, space.content(next), Some(Content::Whole));
    Ok(())
}

#[test]
fn a_made_segment_is_taken_away(rt: HostRuntime) -> Result<(), Fail> {
    let mut space = Space::<4>::fresh(rt.alloc(), 2)?;
    same(&rt, space.make(1, 7), Ok(UNMADE));
    same(&rt, unmake_last(&mut space, UNMADE), true);
    same(&rt, space.content(Place::Whole(UNMADE)), None);
    same(&rt, space.content(Place::Head(UNMADE)), None);
    same(&rt, space.make(1, 8), Ok(UNMADE));
    Ok(())
}

/// Takes away the last segment of the maker of this one, if this one is there.
fn unmake_last(space: &mut Space<4>, name: SegName) -> bool
    ensures { list_count space.new ≡ list_count space.old }
{
    match space.content(Place::Head(name)) {
        None => false,
        Some(_) => {
            space.unmake(name.maker);
            true
        }
    }
}

/// An empty cell of a fresh ring of one.
const CELL: Cell = Cell {
    safe: true,
    idx: 0,
    val: None,
};

/// A fresh ring of one, but for this head.
fn ring(head: u64) -> SegmentParts<1>
    requires { head ≤ 2 ^ 62 }
    ensures { IsTrue (counters_fit result) }
{
    SegmentParts {
        head,
        tail: 0,
        closed: false,
        next: None,
        cells: [CELL; 1],
    }
}

/// The heads of the segments of actor 1, which has no fourth one, and the queue's ends.
const NAMED: &[At] = &[
    (Place::Head(UNMADE), Some(Content::Number(1))),
    (
        Place::Head(SegName { maker: 1, n: 1 }),
        Some(Content::Number(2)),
    ),
    (
        Place::Head(SegName { maker: 1, n: 2 }),
        Some(Content::Number(3)),
    ),
    (Place::Whole(SegName { maker: 1, n: 3 }), None),
    (Place::QHead, Some(Content::Name(UNMADE))),
    (Place::QTail, Some(Content::Name(ROOT))),
];

#[test]
fn each_segment_of_parts_has_its_name(rt: HostRuntime) -> Result<(), Fail> {
    let roots = Vec::from_array(rt.alloc(), [ring(0)])?;
    let made = Vec::from_array(rt.alloc(), [ring(1), ring(2), ring(3)])?;
    let segments = Vec::from_array(rt.alloc(), [roots, made])?;
    let array = ArrayParts::fresh();
    let space = Space::from_parts(rt.alloc(), &segments, UNMADE, ROOT, array)?;
    contents_are(&rt, &space, NAMED);
    Ok(())
}

#[test]
fn an_operation_on_the_array_is_done(rt: HostRuntime) -> Result<(), Fail> {
    same(&rt, SLOTS, 64);
    let mut space = Space::<4>::fresh(rt.alloc(), 2)?;
    let place = Place::ArrCell(63);
    let seven = ArrSlot::Value(7);
    let found = Content::Slot(ArrSlot::Empty);
    let done = Done::of_operation(place, found, Answer::Found(found), Wrote::Place);
    same(&rt, space.operate(place, Operation::Swap(seven)), Ok(done));
    same(&rt, space.content(place), Some(Content::Slot(seven)));
    let past = space.operate(Place::ArrCell(64), Operation::Swap(ArrSlot::Top));
    same(&rt, past, Err(Refusal::NoSuchPlace));
    Ok(())
}

const PUT_BACK: &[At] = &[
    (Place::ArrTail, Some(Content::Number(3))),
    (Place::ArrHead, Some(Content::Number(0))),
    (Place::ArrCell(5), Some(Content::Slot(ArrSlot::Top))),
];

#[test]
fn what_was_at_a_place_of_the_array_is_put_back(rt: HostRuntime) -> Result<(), Fail> {
    let mut space = Space::<4>::fresh(rt.alloc(), 2)?;
    space.restore(Place::ArrCell(5), Content::Slot(ArrSlot::Top));
    space.restore(Place::ArrTail, Content::Number(3));
    contents_are(&rt, &space, PUT_BACK);
    Ok(())
}

#[test]
fn an_end_of_the_queue_is_put_back(rt: HostRuntime) -> Result<(), Fail> {
    let mut space = Space::<4>::fresh(rt.alloc(), 2)?;
    space.restore(Place::QHead, Content::Name(UNMADE));
    let head = space.content(Place::QHead);
    same(&rt, head, Some(Content::Name(UNMADE)));
    same(&rt, space.content(Place::QTail), Some(Content::Name(ROOT)));
    Ok(())
}
