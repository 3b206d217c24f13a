//! The tests of the parts of a world, and of its copy.

use super::*;

/// Contents of a world whose root is closed and followed, each at its place.
const CLOSED: &[Put] = &[
    (Place::QHead, Content::Name(ROOT)),
    (Place::QTail, Content::Name(FIRST)),
    (Place::Head(ROOT), Content::Number(5)),
    (
        Place::Tail(ROOT),
        Content::Tail {
            closed: true,
            count: 9,
        },
    ),
    (Place::Next(ROOT), Content::Next(Some(FIRST))),
    (
        Place::Cell(ROOT, 2),
        Content::Cell(Cell {
            safe: false,
            idx: 6,
            val: Some(8),
        }),
    ),
    (Place::ArrHead, Content::Number(2)),
    (Place::ArrTail, Content::Number(3)),
    (Place::ArrCell(1), Content::Slot(ArrSlot::Top)),
    (Place::ArrCell(63), Content::Slot(ArrSlot::Value(4))),
];

/// What is there besides, where nothing was put.
const BESIDES: &[Put] = &[
    (Place::Whole(FIRST), Content::Whole),
    (Place::ArrCell(0), Content::Slot(ArrSlot::Empty)),
];

#[test]
fn parts_and_a_copy_have_what_the_world_has(rt: HostRuntime) -> Result<(), Fail> {
    let alloc = rt.alloc();
    let world = world_of(alloc, Actor::poised(9), CLOSED)?;
    has_contents(&rt, &World::assemble(alloc, world.parts(alloc)?)?);
    has_contents(&rt, &world.copy(alloc)?);
    Ok(())
}

/// Looks for those contents, beside a poised actor.
fn has_contents(rt: &impl Abort, world: &World<4>) {
    contents_are(rt, world, CLOSED);
    contents_are(rt, world, BESIDES);
    same(rt, world.actors(), 1);
    same(rt, world.actor(1), Some(Actor::poised(9)));
}

#[test]
fn a_step_of_a_copy_leaves_the_world_as_it_was(rt: HostRuntime) -> Result<(), Fail> {
    let world = World::<4>::poised(rt.alloc(), 16)?;
    let mut copy = world.copy(rt.alloc())?;
    copy.step(go(16))?;
    same(&rt, copy.content(TAIL), Some(open(1)));
    same(&rt, world.content(TAIL), Some(open(0)));
    same(&rt, world.actor(16), Some(Actor::poised(16)));
    Ok(())
}
