//! The tests of steps that are made again by their entries.

use super::Word::{Crq, New, Pass, T};
use super::*;

/// One step of the first actor, and what the table says of it.
struct Row {
    /// The control point at which the actor is.
    at: Pc,
    /// Its call; its words are those of the idle record.
    op: Option<Op>,
    /// What is put at a place before the step.
    puts: &'static [Put],
    /// What the step writes of its place.
    wrote: Wrote,
    /// The place of its access.
    place: Place,
    /// What is there after the step.
    left: Content,
    /// The control point to which the actor goes.
    to: Pc,
    /// The words that change.
    changes: &'static [Word],
}

/// The segment that the first actor makes where `FIRST` is there.
const SECOND: SegName = SegName { maker: 1, n: 1 };

/// A read, a write and a making.
const ROWS: &[Row] = &[
    Row {
        at: Pc::Q1,
        op: DEQ,
        puts: &[(Place::QHead, Content::Name(FIRST))],
        wrote: Wrote::Nothing,
        place: Place::QHead,
        left: Content::Name(FIRST),
        to: Pc::Q2,
        changes: &[Crq(FIRST), Pass(1)],
    },
    Row {
        at: Pc::E4,
        op: ENQ,
        puts: &[(Place::Tail(ROOT), OPEN_3)],
        wrote: Wrote::Place,
        place: Place::Tail(ROOT),
        left: OPEN_4,
        to: Pc::E5,
        changes: &[T(3)],
    },
    Row {
        at: Pc::E12,
        op: ENQ,
        puts: &[],
        wrote: Wrote::Place,
        place: Place::Whole(SECOND),
        left: Content::Whole,
        to: Pc::E13,
        changes: &[New(SECOND)],
    },
];

/// The places that are compared.
const PLACES: &[Place] = &[
    Place::QHead,
    Place::QTail,
    Place::Head(ROOT),
    Place::Tail(ROOT),
    Place::Next(ROOT),
    Place::Cell(ROOT, 3),
    Place::Whole(SECOND),
    Place::Cell(SECOND, 0),
    Place::ArrTail,
    Place::ArrCell(63),
];

#[test]
fn a_step_made_again_leaves_what_it_left_at_first(rt: HostRuntime) -> Result<(), Fail> {
    for row in ROWS {
        make_again(&rt, rt.alloc(), row)?;
    }
    Ok(())
}

/// Makes the step of a row, puts the words of its entry back and makes it again, beside a copy
/// that is stepped once.
fn make_again(rt: &impl Abort, alloc: Global, row: &Row) -> Result<(), Fail> {
    let actor = actor_at(row.at, row.op, &[]);
    let mut world = world_of(alloc, actor, row.puts)?;
    let mut stepped = world.copy(alloc)?;
    let first = stepped.step(GO)?;
    let entry = step_and_revert(&mut world, GO)?;
    same(rt, entry, first);
    same_at(rt, entry.wrote, row.wrote, &entry);
    same_at(rt, world.actor(1), Some(actor), &entry);
    world.step_again(&entry);
    let next = with_words(
        Actor {
            pc: row.to,
            ..actor
        },
        row.changes,
    );
    same_at(rt, stepped.actor(1), Some(next), &entry);
    contents_are(rt, &world, &[(row.place, row.left)]);
    are_alike(rt, &world, &stepped);
    Ok(())
}

/// Compares the actor and what is at each place.
fn are_alike(rt: &impl Abort, world: &World<4>, stepped: &World<4>) {
    same(rt, world.actor(1), stepped.actor(1));
    for place in PLACES {
        same_at(rt, world.content(*place), stepped.content(*place), place);
    }
}
