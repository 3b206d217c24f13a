//! The limit of each condition of a well-formed world, over rings of 1, 4 and 64 cells: what lies
//! at it is accepted, and the next is refused.
ghost use Rattle.std.specs.Prelude.{◌≤◌};
ghost use Rattle.rd_ring.specs.Prelude.{MOST_CELLS};

use super::*;

/// One part of a world that is otherwise fresh, with what it is changed to.
#[derive(Clone, Copy, Debug)]
enum Changed {
    /// This many actors, each with a list of segments.
    Actors(u8),
    /// The queue's head is the root maker's segment of this number.
    QueueHead(u32),
    /// The queue's tail.
    QueueTail(u32),
    /// The root's next.
    RootNext(u32),
    /// The root's head counter.
    Head(u64),
    /// The root's tail counter.
    Tail(u64),
    /// The index of the root's last cell is so far above the end of the counters and the length of
    /// a ring.
    CellIndex(u64),
    /// The array's head counter.
    ArrayHead(u64),
    /// The array's tail counter.
    ArrayTail(u64),
    /// The actor is at E5 with the segment of this number.
    ActorSegment(u32),
    /// The actor is at E5 with this t.
    Position(u64),
    /// The actor is at E5 with this h.
    HeadPosition(u64),
    /// The actor is at E5 with an idx so far above the end of the counters and the length of a
    /// ring.
    ActorIndex(u64),
    /// The actor is at Q2 in this pass.
    Pass(u8),
}

/// What is at a limit, what is above it, and which condition that fails.
const LIMITS: &[(Changed, Changed, Flaw)] = &[
    (Changed::Actors(16), Changed::Actors(17), Flaw::Makers),
    (
        Changed::QueueHead(0),
        Changed::QueueHead(1),
        Flaw::PlaceNames,
    ),
    (
        Changed::QueueTail(0),
        Changed::QueueTail(1),
        Flaw::PlaceNames,
    ),
    (Changed::RootNext(0), Changed::RootNext(1), Flaw::PlaceNames),
    (
        Changed::ActorSegment(0),
        Changed::ActorSegment(1),
        Flaw::ActorNames,
    ),
    (Changed::Head(END), Changed::Head(END + 1), Flaw::Counters),
    (Changed::Tail(END), Changed::Tail(END + 1), Flaw::Counters),
    (Changed::CellIndex(0), Changed::CellIndex(1), Flaw::Indexes),
    (
        Changed::ArrayHead(64),
        Changed::ArrayHead(65),
        Flaw::ArrayCounters,
    ),
    (
        Changed::ArrayTail(64),
        Changed::ArrayTail(65),
        Flaw::ArrayCounters,
    ),
    (
        Changed::Position(END),
        Changed::Position(END + 1),
        Flaw::ActorNumbers,
    ),
    (
        Changed::HeadPosition(END),
        Changed::HeadPosition(END + 1),
        Flaw::ActorNumbers,
    ),
    (
        Changed::ActorIndex(0),
        Changed::ActorIndex(1),
        Flaw::ActorNumbers,
    ),
    (Changed::Pass(2), Changed::Pass(3), Flaw::ActorWords),
];

/// The segment of this number that the root's maker made.
fn segment(n: u32) -> SegName {
    SegName { maker: 0, n }
}

/// The cells of a fresh root, of which the last has this index if it is changed.
fn cells<const R: usize>(changed: Changed) -> [Cell; R]
    requires { R ≤ MOST_CELLS }
{
    let mut cells = [EMPTY_0; R];
    if let Changed::CellIndex(above) = changed {
        if R > 0 {
            cells[R - 1].idx = (END + R as u64).wrapping_add(above);
        }
    }
    cells
}

/// A fresh root that is changed so.
fn root<const R: usize>(changed: Changed) -> SegmentParts<R>
    requires { R ≤ MOST_CELLS }
{
    SegmentParts {
        head: if let Changed::Head(count) = changed {
            count
        } else {
            0
        },
        tail: if let Changed::Tail(count) = changed {
            count
        } else {
            0
        },
        closed: false,
        next: if let Changed::RootNext(n) = changed {
            Some(segment(n))
        } else {
            None
        },
        cells: cells::<R>(changed),
    }
}

/// Adds idle actors, each with an empty list of segments, up to this number of actors.
fn add_actors<const R: usize>(
    alloc: Global,
    parts: &mut Parts<R>,
    actors: u8,
) -> Result<(), AllocError> {
    for _ in 1..actors {
        parts.actors.push(Actor::idle())?;
        parts.segments.push(Vec::new(alloc))?;
    }
    Ok(())
}

/// The words of an actor that is changed so.
fn changed_actor(changed: Changed, index_end: u64) -> Actor {
    match changed {
        Changed::ActorSegment(n) => actor_at(Pc::E5, ENQ, &[Word::Crq(segment(n))]),
        Changed::Position(t) => actor_at(Pc::E5, ENQ, &[Word::T(t)]),
        Changed::HeadPosition(h) => actor_at(Pc::E5, ENQ, &[Word::H(h)]),
        Changed::ActorIndex(above) => actor_at(
            Pc::E5,
            ENQ,
            &[Word::Idx(index_end.wrapping_add(above))],
        ),
        Changed::Pass(pass) => actor_at(Pc::Q2, DEQ, &[Word::Pass(pass)]),
        _ => Actor::idle(),
    }
}

/// The flaw of a world of rings of `R` cells in which one part is changed, if it has one.
fn flaw_if<const R: usize>(alloc: Global, changed: Changed) -> Result<Option<Flaw>, Fail>
    requires some { 1 ≤ R }
    requires few { R ≤ MOST_CELLS }
{
    let actor = changed_actor(changed, END + R as u64);
    let mut parts = test_kit::one_actor_parts(alloc, actor, root::<R>(changed), Vec::new(alloc))?;
    match changed {
        Changed::Actors(count) => add_actors(alloc, &mut parts, count)?,
        Changed::QueueHead(n) => parts.qhead = segment(n),
        Changed::QueueTail(n) => parts.qtail = segment(n),
        Changed::ArrayHead(count) => parts.array.head = count,
        Changed::ArrayTail(count) => parts.array.tail = count,
        _ => {}
    }
    match World::assemble(alloc, parts) {
        Ok(_) => Ok(None),
        Err(Unassembled::Flaw(flaw)) => Ok(Some(flaw)),
        Err(Unassembled::NoMemory) => Err("no memory")?,
    }
}

/// Each limit over rings of `R` cells.
fn limits_hold<const R: usize>(rt: &impl Abort, alloc: Global) -> Result<(), Fail>
    requires some { 1 ≤ R }
    requires few { R ≤ MOST_CELLS }
{
    for row in LIMITS {
        same_at(rt, flaw_if::<R>(alloc, row.0)?, None, &(R, row.0));
        same_at(rt, flaw_if::<R>(alloc, row.1)?, Some(row.2), &(R, row.1));
    }
    Ok(())
}

#[test]
fn each_condition_holds_up_to_its_limit_over_rings_of_1_4_and_64_cells(
    rt: HostRuntime,
) -> Result<(), Fail> {
    limits_hold::<1>(&rt, rt.alloc())?;
    limits_hold::<4>(&rt, rt.alloc())?;
    limits_hold::<64>(&rt, rt.alloc())
}
