//! The tests of worlds that are put together from parts: what is found where it was put, and which
//! flaw is named.

use super::Word::{Closed, Crq, H, Idx, New, Next, Pass, Safe, T, Val};
use super::*;

/// The flaw of the parts with this actor and these contents, if they have one.
fn flaw_of(alloc: Global, actor: Actor, puts: &[Put]) -> Result<Option<Flaw>, Fail> {
    flaw_in(World::assemble(alloc, parts(alloc, actor, puts)?))
}

/// The flaw for which no world was put together.
fn flaw_in<const R: usize>(assembled: Result<World<R>, Unassembled>) -> Result<Option<Flaw>, Fail> {
    match assembled {
        Ok(_) => Ok(None),
        Err(Unassembled::Flaw(flaw)) => Ok(Some(flaw)),
        Err(Unassembled::NoMemory) => Err("no memory")?,
    }
}

/// A segment that is not there.
const UNMADE: SegName = SegName { maker: 1, n: 1 };

const PAST_END: Content = Content::Tail {
    closed: true,
    count: END + 1,
};

/// A cell whose index is one round past the end of the counters, and one past that.
const LAST_ROUND: Content = Content::Cell(Cell {
    idx: END + 4,
    ..EMPTY_0
});

const PAST_ROUND: Content = Content::Cell(Cell {
    idx: END + 5,
    ..EMPTY_0
});

/// Contents that are as none may be, each at its place.
const NAMES_NONE: Put = (Place::QTail, Content::Name(UNMADE));

const PAST_TAIL: Put = (Place::Tail(ROOT), PAST_END);

const PAST_CELL: Put = (Place::Cell(ROOT, 0), PAST_ROUND);

const PAST_ARRAY: Put = (Place::ArrTail, Content::Number(65));

/// Contents that are as they may be, each at its place.
const FITTING: &[Put] = &[
    (Place::QHead, Content::Name(FIRST)),
    (Place::QTail, Content::Name(FIRST)),
    (Place::Head(ROOT), Content::Number(END)),
    (Place::Tail(ROOT), OPEN_END),
    (Place::Next(ROOT), Content::Next(Some(FIRST))),
    (Place::Cell(ROOT, 3), LAST_ROUND),
    (Place::ArrHead, Content::Number(64)),
    (Place::ArrTail, Content::Number(64)),
    (Place::ArrCell(63), Content::Slot(ArrSlot::Value(8))),
];

#[test]
fn each_part_is_found_at_its_place(rt: HostRuntime) -> Result<(), Fail> {
    let world = world_of(rt.alloc(), Actor::poised(9), FITTING)?;
    contents_are(&rt, &world, FITTING);
    same(&rt, world.actors(), 1);
    same(&rt, world.actor(1), Some(Actor::poised(9)));
    let first = Place::Whole(FIRST);
    same(&rt, world.content(first), Some(Content::Whole));
    same(&rt, world.content(Place::Whole(UNMADE)), None);
    same(&rt, world.content(Place::Cell(ROOT, 4)), None);
    Ok(())
}

/// Contents and words of an actor at E5, and the first flaw of the parts with them.
type Flawed = (&'static [Put], &'static [Word], Option<Flaw>);

/// Each condition alone, and then each with the next one, which comes later.
const FLAWED: &[Flawed] = &[
    (&[], &[], None),
    (
        &[(Place::QHead, Content::Name(UNMADE))],
        &[],
        Some(Flaw::PlaceNames),
    ),
    (&[NAMES_NONE], &[], Some(Flaw::PlaceNames)),
    (
        &[(Place::Next(ROOT), Content::Next(Some(UNMADE)))],
        &[],
        Some(Flaw::PlaceNames),
    ),
    (&[], &[Crq(UNMADE)], Some(Flaw::ActorNames)),
    (&[], &[New(UNMADE)], Some(Flaw::ActorNames)),
    (&[], &[Next(UNMADE)], Some(Flaw::ActorNames)),
    (
        &[(Place::Head(ROOT), Content::Number(END + 1))],
        &[],
        Some(Flaw::Counters),
    ),
    (&[PAST_TAIL], &[], Some(Flaw::Counters)),
    (&[PAST_CELL], &[], Some(Flaw::Indexes)),
    (
        &[(Place::ArrHead, Content::Number(65))],
        &[],
        Some(Flaw::ArrayCounters),
    ),
    (&[PAST_ARRAY], &[], Some(Flaw::ArrayCounters)),
    (&[], &[T(END), H(END), Idx(END + 4)], None),
    (&[], &[T(END + 1)], Some(Flaw::ActorNumbers)),
    (&[], &[H(END + 1)], Some(Flaw::ActorNumbers)),
    (&[], &[Idx(END + 5)], Some(Flaw::ActorNumbers)),
    (&[], &[Pass(1)], Some(Flaw::ActorWords)),
    (&[NAMES_NONE], &[Crq(UNMADE)], Some(Flaw::PlaceNames)),
    (&[PAST_TAIL], &[Crq(UNMADE)], Some(Flaw::ActorNames)),
    (&[PAST_CELL, PAST_TAIL], &[], Some(Flaw::Counters)),
    (&[PAST_ARRAY, PAST_CELL], &[], Some(Flaw::Indexes)),
    (&[PAST_ARRAY], &[T(END + 1)], Some(Flaw::ArrayCounters)),
    (&[], &[Pass(1), T(END + 1)], Some(Flaw::ActorNumbers)),
];

#[test]
fn the_first_flaw_is_the_one_that_is_named(rt: HostRuntime) -> Result<(), Fail> {
    for i in 0..FLAWED.len() {
        let row = &FLAWED[i];
        let actor = actor_at(Pc::E5, ENQ, row.1);
        same_at(&rt, flaw_of(rt.alloc(), actor, row.0)?, row.2, &i);
    }
    Ok(())
}

#[test]
fn a_counter_past_its_end_comes_before_an_idle_actor_with_a_position(
    rt: HostRuntime,
) -> Result<(), Fail> {
    let idle = actor_at(Pc::Idle, None, &[T(1)]);
    let head = (
        Place::Head(ROOT),
        Content::Number(4_611_686_018_427_387_905),
    );
    let flaw = flaw_of(rt.alloc(), idle, &[head])?;
    same(&rt, flaw.map(|found| found.number()), Some(4));
    Ok(())
}

/// That the actor's words do not fit its control point.
const UNFIT: Option<Flaw> = Some(Flaw::ActorWords);

/// The control points of an enqueue at which nothing more is asked of its words.
const ENQUEUES: &[Pc] = &[
    Pc::E1,
    Pc::E2,
    Pc::E3,
    Pc::E4,
    Pc::E5,
    Pc::E6,
    Pc::E9,
    Pc::E10,
    Pc::E11,
    Pc::E12,
    Pc::E13,
    Pc::E14,
];

/// Those of a dequeue at which nothing more is asked than that it is in its first or second pass.
const PASSES: &[Pc] = &[Pc::Q2, Pc::Q3, Pc::Q4, Pc::Q8, Pc::Q9, Pc::Q10, Pc::Q11];

/// Control points, a call and words, and the flaw of an actor there.
type Fit = (&'static [Pc], Option<Op>, &'static [Word], Option<Flaw>);

const FITS: &[Fit] = &[
    (&[Pc::Idle], None, &[], None),
    (&[Pc::Idle], DEQ, &[], UNFIT),
    (&[Pc::Idle], None, &[Crq(FIRST)], UNFIT),
    (&[Pc::Idle], None, &[New(FIRST)], UNFIT),
    (&[Pc::Idle], None, &[Next(FIRST)], UNFIT),
    (&[Pc::Idle], None, &[T(1)], UNFIT),
    (&[Pc::Idle], None, &[H(1)], UNFIT),
    (&[Pc::Idle], None, &[Closed(true)], UNFIT),
    (&[Pc::Idle], None, &[Val(7)], UNFIT),
    (&[Pc::Idle], None, &[Safe(true)], UNFIT),
    (&[Pc::Idle], None, &[Idx(1)], UNFIT),
    (&[Pc::Idle], None, &[Pass(1)], UNFIT),
    (ENQUEUES, ENQ, &[], None),
    (ENQUEUES, ENQ, &[Pass(1)], UNFIT),
    (ENQUEUES, DEQ, &[], UNFIT),
    (ENQUEUES, AENQ, &[], UNFIT),
    (&[Pc::E7, Pc::E8], ENQ, &[T(5), Idx(5)], None),
    (&[Pc::E7, Pc::E8], ENQ, &[T(5), Idx(6)], UNFIT),
    (&[Pc::E7, Pc::E8], ENQ, &[T(5), Idx(5), Val(3)], UNFIT),
    (&[Pc::E8], ENQ, &[Safe(true)], None),
    (&[Pc::E7], ENQ, &[Safe(true)], UNFIT),
    (PASSES, DEQ, &[], UNFIT),
    (PASSES, DEQ, &[Pass(1)], None),
    (PASSES, DEQ, &[Pass(2)], None),
    (PASSES, DEQ, &[Pass(3)], UNFIT),
    (PASSES, ENQ, &[Pass(1)], UNFIT),
    (&[Pc::Q1], DEQ, &[], None),
    (&[Pc::Q1], DEQ, &[Pass(2)], None),
    (&[Pc::Q1], DEQ, &[Pass(3)], UNFIT),
    (&[Pc::Q13], DEQ, &[Pass(1)], None),
    (&[Pc::Q13], DEQ, &[Pass(2)], UNFIT),
    (&[Pc::Q14], DEQ, &[Pass(2)], None),
    (&[Pc::Q14], DEQ, &[Pass(1)], UNFIT),
    (&[Pc::Q5], DEQ, &[Pass(1), H(4), Val(7), Idx(4)], None),
    (&[Pc::Q5], DEQ, &[Pass(1), H(4), Val(7), Idx(3)], UNFIT),
    (&[Pc::Q5], DEQ, &[Pass(1), H(4), Idx(4)], UNFIT),
    (&[Pc::Q6], DEQ, &[Pass(1), H(4), Val(7), Idx(3)], None),
    (&[Pc::Q6], DEQ, &[Pass(1), H(4), Val(7), Idx(4)], UNFIT),
    (&[Pc::Q6], DEQ, &[Pass(1), H(4), Idx(3)], UNFIT),
    (&[Pc::Q7], DEQ, &[Pass(1), H(4), Idx(4)], None),
    (&[Pc::Q7], DEQ, &[Pass(1), H(4), Idx(5)], UNFIT),
    (&[Pc::Q7], DEQ, &[Pass(1), H(4), Val(7), Idx(4)], UNFIT),
    (&[Pc::Q12], DEQ, &[Pass(2), T(3), H(4)], None),
    (&[Pc::Q12], DEQ, &[Pass(2), T(4), H(4)], UNFIT),
    (&[Pc::Q12], DEQ, &[Pass(2), T(3), H(4), Closed(true)], UNFIT),
    (&[Pc::A1, Pc::A2], AENQ, &[T(63)], None),
    (&[Pc::A1, Pc::A2], AENQ, &[T(63), Pass(1)], UNFIT),
    (&[Pc::A1, Pc::A2], ENQ, &[], UNFIT),
    (&[Pc::A1], AENQ, &[T(64)], None),
    (&[Pc::A2], AENQ, &[T(64)], UNFIT),
    (&[Pc::B1, Pc::B2, Pc::B3], ADEQ, &[H(63)], None),
    (&[Pc::B1, Pc::B2, Pc::B3], ADEQ, &[Pass(1)], UNFIT),
    (&[Pc::B1, Pc::B2, Pc::B3], DEQ, &[], UNFIT),
    (&[Pc::B1], ADEQ, &[H(64)], None),
    (&[Pc::B2, Pc::B3], ADEQ, &[H(64)], UNFIT),
];

#[test]
fn the_words_fit_the_control_point(rt: HostRuntime) -> Result<(), Fail> {
    for i in 0..FITS.len() {
        flaw_is(&rt, rt.alloc(), i, &FITS[i])?;
    }
    Ok(())
}

/// Looks for the flaw of the row of this index at each of its control points.
fn flaw_is(rt: &impl Abort, alloc: Global, i: usize, row: &Fit) -> Result<(), Fail> {
    for pc in row.0 {
        let actor = actor_at(*pc, row.1, row.2);
        same_at(rt, flaw_of(alloc, actor, &[])?, row.3, &(i, *pc));
    }
    Ok(())
}

/// This many actors, root segments and makers' lists, and the flaw of the parts with them.
const SHAPES: &[(usize, usize, usize, Option<Flaw>)] = &[
    (1, 1, 2, None),
    (16, 1, 17, None),
    (0, 1, 1, Some(Flaw::Makers)),
    (17, 1, 18, Some(Flaw::Makers)),
    (1, 1, 1, Some(Flaw::Makers)),
    (1, 1, 3, Some(Flaw::Makers)),
    (1, 0, 2, Some(Flaw::Makers)),
    (1, 2, 2, Some(Flaw::Makers)),
];

#[test]
fn there_are_1_to_16_actors_one_root_and_a_list_for_each_maker(
    rt: HostRuntime,
) -> Result<(), Fail> {
    for row in SHAPES {
        let given = shape(rt.alloc(), row.0, row.1, row.2)?;
        same_at(
            &rt,
            flaw_in(World::assemble(rt.alloc(), given))?,
            row.3,
            row,
        );
    }
    Ok(())
}

/// The parts with this many idle actors, root segments and makers' lists.
fn shape(alloc: Global, actors: usize, roots: usize, lists: usize) -> Result<Parts<4>, AllocError> {
    let mut given = parts(alloc, Actor::idle(), &[])?;
    given.actors.clear();
    given.segments.clear();
    for _ in 0..actors {
        given.actors.push(Actor::idle())?;
    }
    let mut root = Vec::new(alloc);
    for _ in 0..roots {
        root.push(ring())?;
    }
    given.segments.push(root)?;
    for _ in 1..lists {
        given.segments.push(Vec::new(alloc))?;
    }
    Ok(given)
}

const NUMBERS: &[(Flaw, u8)] = &[
    (Flaw::Makers, 1),
    (Flaw::PlaceNames, 2),
    (Flaw::ActorNames, 3),
    (Flaw::Counters, 4),
    (Flaw::Indexes, 5),
    (Flaw::ArrayCounters, 6),
    (Flaw::ActorNumbers, 7),
    (Flaw::ActorWords, 8),
];

#[test]
fn a_flaw_has_its_number(rt: HostRuntime) {
    for row in NUMBERS {
        same(&rt, row.0.number(), row.1);
    }
}
