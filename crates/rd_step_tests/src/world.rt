//! The tests of the world, and what they share: an actor and a world of rings of four cells that
//! are put together from data.

ghost use Rattle.std.specs.Prelude.{◌≡◌, ◌≤◌, IsTrue, IfOk, Ok};
ghost use Rattle.rd_step.specs.Prelude.{model, room, step};
ghost use Rattle.rd_step.specs.Room.{makes_segment};
ghost use Rattle.rd_step.specs.World.{World as Model};

mod again;
mod assembling;
mod beginnings;
mod copies;
mod limits;
mod rows;
mod starts;
mod touched;

use crate::equal::{same, same_at};
use rd_actor::{Act, Actor, Op, Pc};
use rd_cell::{Answer, ArrSlot, Cell, Content, Place, Refusal, SegName, Wrote};
use rd_ring::SegmentParts;
use rd_segments::ArrayParts;
use rd_step::{Entry, Event, Flaw, Parts, Unassembled, World};
use std::alloc::{AllocError, Global};
use std::process::Abort;
use std::test::Fail;
use test_kit::go;

/// The step of the first actor.
const GO: Event = Event {
    actor: 1,
    act: Act::Go,
};

/// Where a segment's counters end: 2^62.
const END: u64 = 4_611_686_018_427_387_904;

const ROOT: SegName = SegName::ROOT;

/// The one segment that is there beside the root in a world that is put together here.
const FIRST: SegName = SegName { maker: 1, n: 0 };

/// The segment of this number that the first actor makes.
fn made(n: u32) -> SegName {
    SegName { maker: 1, n }
}

/// The calls.
const ENQ: Option<Op> = Some(Op::Enq(7));

const DEQ: Option<Op> = Some(Op::Deq);

const AENQ: Option<Op> = Some(Op::AEnq(7));

const ADEQ: Option<Op> = Some(Op::ADeq);

/// One word of an actor, with its value.
#[derive(Clone, Copy)]
enum Word {
    Crq(SegName),
    New(SegName),
    Next(SegName),
    T(u64),
    H(u64),
    Closed(bool),
    Val(u64),
    Safe(bool),
    Idx(u64),
    Pass(u8),
}

/// The record of an actor at this control point of this call, with these words, the others as in
/// the idle record.
fn actor_at(pc: Pc, op: Option<Op>, words: &[Word]) -> Actor {
    let idle = Actor::idle();
    with_words(Actor { pc, op, ..idle }, words)
}

/// The record with these words.
fn with_words(actor: Actor, words: &[Word]) -> Actor {
    let mut changed = actor;
    for word in words {
        change(&mut changed, *word);
    }
    changed
}

/// Puts a word into a record.
fn change(actor: &mut Actor, word: Word) {
    match word {
        Word::Crq(name) => actor.crq = name,
        Word::New(name) => actor.new = name,
        Word::Next(name) => actor.next = name,
        Word::T(t) => actor.t = t,
        Word::H(h) => actor.h = h,
        Word::Closed(closed) => actor.closed = closed,
        Word::Val(value) => actor.val = Some(value),
        Word::Safe(safe) => actor.safe = safe,
        Word::Idx(idx) => actor.idx = idx,
        Word::Pass(pass) => actor.pass = pass,
    }
}

/// The words of a world beside its actor: the root's, the queue's ends and the array's.
struct Places {
    root: SegmentParts<4>,
    qhead: SegName,
    qtail: SegName,
    array: ArrayParts,
}

impl Drop for Places {
    fn drop(self) {
        let Places {
            root: _,
            qhead: _,
            qtail: _,
            array: _,
        } = self;
    }
}

/// A place of the root, the queue's ends or the array, and what is put there.
type Put = (Place, Content);

/// Puts a content at its place.
fn put(places: &mut Places, place: Place, content: Content) {
    match (place, content) {
        (Place::QHead, Content::Name(name)) => places.qhead = name,
        (Place::QTail, Content::Name(name)) => places.qtail = name,
        (Place::Head(_), Content::Number(count)) => places.root.head = count,
        (Place::Tail(_), Content::Tail { closed, count }) => {
            places.root.closed = closed;
            places.root.tail = count;
        }
        (Place::Next(_), Content::Next(next)) => places.root.next = next,
        (Place::Cell(_, i), Content::Cell(cell)) => {
            if i < 4 {
                places.root.cells[usize::from(i)] = cell;
            }
        }
        (Place::Idx(_, i), Content::Idx { safe, idx }) => {
            if i < 4 {
                let val = places.root.cells[usize::from(i)].val;
                places.root.cells[usize::from(i)] = Cell { safe, idx, val };
            }
        }
        (Place::ArrHead, Content::Number(count)) => places.array.head = count,
        (Place::ArrTail, Content::Number(count)) => places.array.tail = count,
        (Place::ArrCell(i), Content::Slot(slot)) => {
            if i < 64 {
                places.array.cells[usize::from(i)] = slot;
            }
        }
        _ => {}
    }
}

/// The parts of a world with this one actor, the root and `FIRST`, and these contents; all else is
/// fresh.
fn parts(alloc: Global, actor: Actor, puts: &[Put]) -> Result<Parts<4>, AllocError> {
    let mut places = Places {
        root: ring(),
        qhead: ROOT,
        qtail: ROOT,
        array: ArrayParts::fresh(),
    };
    for (place, content) in puts {
        put(&mut places, *place, *content);
    }
    let made = Vec::from_array(alloc, [ring()])?;
    let mut parts = test_kit::one_actor_parts(alloc, actor, places.root, made)?;
    parts.qhead = places.qhead;
    parts.qtail = places.qtail;
    parts.array = places.array;
    Ok(parts)
}

/// A fresh ring.
fn ring() -> SegmentParts<4> {
    SegmentParts {
        head: 0,
        tail: 0,
        closed: false,
        next: None,
        cells: [EMPTY_0, EMPTY_1, EMPTY_2, EMPTY_3],
    }
}

const EMPTY_0: Cell = Cell {
    safe: true,
    idx: 0,
    val: None,
};

const EMPTY_1: Cell = Cell { idx: 1, ..EMPTY_0 };

const EMPTY_2: Cell = Cell { idx: 2, ..EMPTY_0 };

const EMPTY_3: Cell = Cell { idx: 3, ..EMPTY_0 };

/// Open tails.
const OPEN_3: Content = Content::Tail {
    closed: false,
    count: 3,
};

const OPEN_4: Content = Content::Tail {
    closed: false,
    count: 4,
};

const OPEN_END: Content = Content::Tail {
    closed: false,
    count: END,
};

/// An open tail with this count.
fn open(count: u64) -> Content {
    Content::Tail {
        closed: false,
        count,
    }
}

/// The world with this one actor, the root and `FIRST`, and these contents.
fn world_of(alloc: Global, actor: Actor, puts: &[Put]) -> Result<World<4>, Fail> {
    Ok(World::assemble(alloc, parts(alloc, actor, puts)?)?)
}

/// Looks at what is at each place of a table.
fn contents_are(rt: &impl Abort, world: &World<4>, rows: &[Put]) {
    for row in rows {
        same_at(rt, world.content(row.0), Some(row.1), row);
    }
}

const TAIL: Place = Place::Tail(ROOT);

/// The entry of an add to the root's tail, by a poised actor that found this count.
fn added(actor: u8, count: u64) -> Entry {
    Entry {
        event: go(actor),
        place: Some(TAIL),
        wrote: Wrote::Place,
        answer: Answer::Found(open(count)),
        reply: None,
        old_actor: Actor::poised(u64::from(actor)),
        old_content: Some(open(count)),
    }
}

#[test]
fn two_adds_draw_two_positions(rt: HostRuntime) -> Result<(), Fail> {
    let mut world = World::<4>::poised(rt.alloc(), 4)?;
    same(&rt, world.step(go(1)), Ok(added(1, 0)));
    same(&rt, world.step(go(2)), Ok(added(2, 1)));
    let drew = with_words(Actor::poised(2), &[Word::T(1)]);
    same(&rt, world.actor(2), Some(Actor { pc: Pc::E5, ..drew }));
    same(&rt, world.actor(3), Some(Actor::poised(3)));
    same(&rt, world.content(TAIL), Some(open(2)));
    Ok(())
}

#[test]
fn an_actor_that_is_not_there_is_refused_before_one_that_is_idle(
    rt: HostRuntime,
) -> Result<(), Fail> {
    let mut poised = World::<4>::poised(rt.alloc(), 4)?;
    same(&rt, poised.step(go(0)), Err(Refusal::NoActor));
    same(&rt, poised.step(go(5)), Err(Refusal::NoActor));
    let mut fresh = World::<4>::fresh(rt.alloc(), 1)?;
    same(&rt, fresh.step(go(2)), Err(Refusal::NoActor));
    same(&rt, fresh.step(go(1)), Err(Refusal::Idle));
    Ok(())
}

/// Makes a step, and puts the words of its entry back, so that the step may be made again.
fn step_and_revert(world: &mut World<4>, event: Event) -> Result<Entry, Refusal>
    ensures goes { IfOk result (λ entry. (after : Model)
        × (step (model world.new) entry.event ≡ Ok (record { world = after; entry = entry }))) }
    ensures room { IfOk result (λ entry. IsTrue (makes_segment (model world.new) entry.event)
        → 1 ≤ room world.new entry.event.actor) }
{
    let entry = world.step(event)?;
    world.revert(
        entry.event.actor,
        entry.old_actor,
        entry.place,
        entry.old_content,
    );
    Ok(entry)
}

#[test]
fn a_step_is_reverted_by_the_words_of_its_entry(rt: HostRuntime) -> Result<(), Fail> {
    let mut world = World::<4>::poised(rt.alloc(), 4)?;
    let entry = step_and_revert(&mut world, go(2))?;
    same(&rt, entry.old_content, Some(open(0)));
    same(&rt, world.actor(2), Some(Actor::poised(2)));
    same(&rt, world.content(TAIL), Some(open(0)));
    Ok(())
}
