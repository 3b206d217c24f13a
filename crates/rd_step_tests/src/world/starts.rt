//! The tests of fresh and poised worlds, of the room for makings, and of where makings end.

ghost use Rattle.std.specs.Prelude.{◌≤◌};

use super::*;
use rd_actor::OpReply;

/// What is in a fresh world and in a poised one.
const NAMED: &[Put] = &[
    (Place::Whole(ROOT), Content::Whole),
    (Place::QTail, Content::Name(ROOT)),
];

#[test]
fn a_fresh_world_has_idle_actors_and_the_root(rt: HostRuntime) -> Result<(), Fail> {
    for actors in [1, 2, 8, 9, 15, 16] {
        let world = World::<4>::fresh(rt.alloc(), actors)?;
        same(&rt, world.is_fresh(), true);
        actors_are(&rt, &world, actors, Actor::idle(), Actor::idle());
    }
    Ok(())
}

/// Looks at how many actors there are, which the first and the last are, and at the root.
fn actors_are(rt: &impl Abort, world: &World<4>, actors: u8, first: Actor, last: Actor)
    requires { actors ≤ 16 }
{
    same(rt, world.actors(), actors);
    same_at(rt, world.actor(0), None, &actors);
    same_at(rt, world.actor(1), Some(first), &actors);
    same_at(rt, world.actor(actors), Some(last), &actors);
    same_at(rt, world.actor(actors + 1), None, &actors);
    contents_are(rt, world, NAMED);
}

#[test]
fn a_poised_world_has_actors_that_are_to_draw(rt: HostRuntime) -> Result<(), Fail> {
    for actors in [1, 2, 8, 9, 15, 16] {
        let world = World::<4>::poised(rt.alloc(), actors)?;
        same(&rt, world.is_fresh(), false);
        let last = Actor::poised(u64::from(actors));
        actors_are(&rt, &world, actors, Actor::poised(1), last);
    }
    Ok(())
}

/// Lets the first actor enqueue 7, alone, and answers what the call replied.
fn enqueue(world: &mut World<1>) -> Result<Option<OpReply>, Refusal> {
    let call = Event {
        actor: 1,
        act: Act::Enq(7),
    };
    world.step(call)?;
    for _ in 0..10 {
        let entry = world.step(GO)?;
        if entry.reply.is_some() {
            return Ok(entry.reply);
        }
    }
    Ok(None)
}

#[test]
fn a_world_with_room_takes_as_many_makings(rt: HostRuntime) -> Result<(), Fail> {
    for makings in [0, 1, 2, 10, 40] {
        takes_makings(&rt, rt.alloc(), makings)?;
    }
    Ok(())
}

/// Makes room for this many makings, and makes them. The first enqueue fills the root's one cell;
/// each later one closes a ring and makes the next.
fn takes_makings(rt: &impl Abort, alloc: Global, makings: u32) -> Result<(), Fail> {
    let mut world = World::<1>::fresh(alloc, 1)?;
    same(rt, world.is_fresh(), true);
    same(rt, enqueue(&mut world), Ok(Some(OpReply::Enqueued)));
    same(rt, world.is_fresh(), false);
    same(rt, world.make_room(1, usize::MAX), Err(Refusal::NoMemory));
    same(rt, world.make_room(1, makings as usize), Ok(()));
    for n in 0..makings {
        same(rt, enqueue(&mut world), Ok(Some(OpReply::Enqueued)));
        same(
            rt,
            world.content(Place::QTail),
            Some(Content::Name(made(n))),
        );
    }
    same(rt, world.content(Place::Whole(made(makings))), None);
    Ok(())
}

/// The parts of a world of rings of one cell, whose one actor is to make a segment and has made
/// this many.
fn makers(alloc: Global, count: u32) -> Result<Parts<1>, AllocError> {
    let ring = SegmentParts {
        head: 0,
        tail: 0,
        closed: false,
        next: None,
        cells: [EMPTY_0; 1],
    };
    let mut list = Vec::new(alloc);
    for _ in 0..count {
        list.push(ring)?;
    }
    test_kit::one_actor_parts(alloc, actor_at(Pc::E12, ENQ, &[]), ring, list)
}

#[test]
fn an_actor_makes_65535_segments_and_no_more(rt: HostRuntime) -> Result<(), Fail> {
    let mut world = World::assemble(rt.alloc(), makers(rt.alloc(), 65_534)?)?;
    same(&rt, world.step(GO)?.answer, Answer::Made(made(65_534)));
    let last = Place::Whole(made(65_534));
    same(&rt, world.content(last), Some(Content::Whole));
    let mut full = World::assemble(rt.alloc(), makers(rt.alloc(), 65_535)?)?;
    let before = full.actor(1);
    same(&rt, full.step(GO), Err(Refusal::SegmentsEnd));
    same(&rt, full.actor(1), before);
    same(&rt, full.content(Place::Whole(made(65_535))), None);
    let above = World::assemble(rt.alloc(), makers(rt.alloc(), 65_536)?);
    same(&rt, above.err(), Some(Unassembled::Flaw(Flaw::Makers)));
    Ok(())
}
