//! The tests of the inverse: the last of two steps of the poised world is undone whole, and so is
//! each step of a run.

use super::equal::{same, same_at};
use rd_actor::{Actor, Pc};
use rd_cell::{Content, Place, Refusal, SegName};
use rd_inverse::unstep;
use rd_step::{Entry, Event, World};
use std::process::Abort;
use std::test::Fail;
use test_kit::{events_in, go};

/// Makes a step and undoes it.
fn step_and_unstep(world: &mut World<1>, event: Event) -> Result<Entry, Refusal> {
    let entry = world.step(event)?;
    unstep(world, &entry);
    Ok(entry)
}

/// The root's tail after the first of two adds.
const TAIL: Content = Content::Tail {
    closed: false,
    count: 1,
};

#[test]
fn an_undone_add_gives_the_counter_and_the_actor_back(rt: HostRuntime) -> Result<(), Fail> {
    let mut world = World::<1>::poised(rt.alloc(), 4)?;
    same(&rt, world.step(go(1)).is_ok(), true);
    let entry = step_and_unstep(&mut world, go(2))?;
    same(&rt, entry.old_actor, Actor::poised(2));
    same(&rt, world.actor(2), Some(Actor::poised(2)));
    let drew = Actor {
        pc: Pc::E5,
        t: 0,
        ..Actor::poised(1)
    };
    same(&rt, world.actor(1), Some(drew));
    same(&rt, world.content(Place::Tail(SegName::ROOT)), Some(TAIL));
    Ok(())
}

/// A run over rings of one cell that reads and writes every kind of place.
const RUN: &str =
    "enq 1 7, go 1 6, enq 2 8, go 2 10, deq 3, go 3 5, aenq 4 5, go 4 2, adeq 1, go 1 2";

#[test]
fn each_step_of_a_run_is_undone_and_made_again(rt: HostRuntime) -> Result<(), Fail> {
    let mut world = World::<1>::fresh(rt.alloc(), 4)?;
    for event in &events_in(rt.alloc(), RUN)? {
        make_again(&rt, &mut world, *event)?;
    }
    for actor in 1..5 {
        same(&rt, world.actor(actor), Some(Actor::idle()));
    }
    Ok(())
}

/// Makes a step, undoes it and makes it again.
fn make_again(rt: &impl Abort, world: &mut World<1>, event: Event) -> Result<(), Refusal> {
    let before = world.actor(event.actor);
    let entry = step_and_unstep(world, event)?;
    same_at(rt, world.actor(event.actor), before, &entry);
    if let Some(place) = entry.place {
        same_at(rt, world.content(place), entry.old_content, &entry);
    }
    same(rt, world.step(event), Ok(entry));
    Ok(())
}
