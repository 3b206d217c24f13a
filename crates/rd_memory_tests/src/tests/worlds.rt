//! Worlds that are refused memory while they are made, and room for makings that is refused.

use rd_actor::Actor;
use rd_cell::{Cell, Place, Refusal, SegName};
use rd_step::{Parts, SegmentParts, Unassembled, World};
use std::alloc::{AllocError, Global};
use std::process::Abort;
use test_kit::one_actor_parts;

/// The places of the queue, of the first segment, and of the one that actor 1 makes first.
const PLACES: &[Place] = &[
    Place::QHead,
    Place::QTail,
    Place::Head(SegName::ROOT),
    Place::Tail(SegName::ROOT),
    Place::Next(SegName::ROOT),
    Place::Cell(SegName::ROOT, 0),
    Place::Cell(SegName::ROOT, 1),
    Place::Whole(MADE),
    Place::Tail(MADE),
    Place::Next(MADE),
    Place::Cell(MADE, 0),
    Place::Cell(MADE, 1),
    Place::ArrTail,
    Place::ArrCell(0),
];

/// The segment that actor 1 makes first.
const MADE: SegName = SegName { maker: 1, n: 0 };

/// Whether two worlds have the same at each place, and the same actors.
fn are_same(one: &World<2>, other: &World<2>) -> bool {
    for place in PLACES {
        if one.content(*place) != other.content(*place) {
            return false;
        }
    }
    for number in 1..5 {
        if one.actor(number) != other.actor(number) {
            return false;
        }
    }
    true
}

/// Whether a world was made, which is as usual then. If not, memory was refused.
fn is_made(rt: &impl Abort, made: Result<World<2>, Refusal>, usual: &World<2>) -> bool {
    match made {
        Ok(world) => {
            assert!(rt; are_same(&world, usual));
            true
        }
        Err(refusal) => {
            assert!(rt; refusal == Refusal::NoMemory);
            false
        }
    }
}

/// Of three worlds that were made alike at most one was refused memory, and the others are the
/// same.
fn are_made(
    rt: &impl Abort,
    first: Result<World<2>, Refusal>,
    second: Result<World<2>, Refusal>,
    third: Result<World<2>, Refusal>,
) {
    match first {
        Ok(usual) => assert!(rt; is_made(rt, second, &usual) || is_made(rt, third, &usual)),
        Err(refusal) => {
            let usual = second.expect(rt, "refused memory twice");
            assert!(rt; refusal == Refusal::NoMemory && is_made(rt, third, &usual));
        }
    }
}

/// The words of a ring with a value, whose next is the root.
const RING: SegmentParts<2> = SegmentParts {
    head: 0,
    tail: 1,
    closed: true,
    next: Some(SegName::ROOT),
    cells: [
        Cell {
            safe: true,
            idx: 0,
            val: Some(7),
        },
        Cell {
            safe: false,
            idx: 3,
            val: None,
        },
    ],
};

/// The world of some parts, which has no flaw.
fn put_together(rt: &impl Abort, alloc: Global, parts: Parts<2>) -> Result<World<2>, Refusal> {
    match World::assemble(alloc, parts) {
        Ok(world) => Ok(world),
        Err(Unassembled::NoMemory) => Err(Refusal::NoMemory),
        Err(_) => panic!(rt; "a flaw"),
    }
}

/// The parts of a world of one actor, which has made a segment.
fn one_actor(alloc: Global) -> Result<Parts<2>, AllocError> {
    let made = Vec::from_array(alloc, [RING])?;
    one_actor_parts(alloc, Actor::poised(5), RING, made)
}

/// The world of the parts above.
fn assembled(rt: &impl Abort, alloc: Global) -> Result<World<2>, Refusal> {
    put_together(rt, alloc, one_actor(alloc)?)
}

/// The world of the parts of another.
fn taken_apart(rt: &impl Abort, alloc: Global, world: &World<2>) -> Result<World<2>, Refusal> {
    put_together(rt, alloc, world.parts(alloc)?)
}

#[test]
fn a_world_that_was_refused_memory_is_made_as_ever_the_next_time(rt: HostRuntime) {
    let alloc = rt.alloc();
    are_made(
        &rt,
        World::fresh(alloc, 4),
        World::fresh(alloc, 4),
        World::fresh(alloc, 4),
    );
    are_made(
        &rt,
        World::poised(alloc, 4),
        World::poised(alloc, 4),
        World::poised(alloc, 4),
    );
    are_made(
        &rt,
        assembled(&rt, alloc),
        assembled(&rt, alloc),
        assembled(&rt, alloc),
    );
}

#[test]
fn room_for_makings_that_is_refused_leaves_the_world_as_it_was(rt: HostRuntime) {
    let alloc = rt.alloc();
    let other = World::<2>::fresh(alloc, 4)
        .or(World::fresh(alloc, 4))
        .expect(&rt, "refused memory twice");
    let mut world = World::<2>::fresh(alloc, 4)
        .or(World::fresh(alloc, 4))
        .expect(&rt, "refused memory twice");
    assert!(&rt; world.actor(1).is_some());
    let made = world.make_room(1, 9);
    assert!(&rt; made.is_ok() || made == Err(Refusal::NoMemory));
    assert!(&rt; are_same(&world, &other));
    assert!(&rt; made.is_ok() || world.make_room(1, 9).is_ok());
    assert!(&rt; are_same(&world, &other));
}

#[test]
fn a_copy_and_the_parts_of_a_world_that_were_refused_memory_are_as_ever_the_next_time(
    rt: HostRuntime,
) {
    let alloc = rt.alloc();
    let world = assembled(&rt, alloc)
        .or(assembled(&rt, alloc))
        .expect(&rt, "refused memory twice");
    assert!(&rt;
        is_made(&rt, world.copy(alloc), &world) || is_made(&rt, world.copy(alloc), &world)
    );
    assert!(&rt;
        is_made(&rt, taken_apart(&rt, alloc, &world), &world)
            || is_made(&rt, taken_apart(&rt, alloc, &world), &world)
    );
}
