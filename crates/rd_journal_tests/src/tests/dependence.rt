//! Tests of dependence by examples: which accesses clash, and the first later step that depends on
//! a given one.

mod equivalence;
mod index;

use rd_cell::{Place, SegName, Wrote};
use rd_depend::{depends, first_dependant};
use rd_step::Entry;
use std::alloc::Global;
use std::process::Abort;
use std::test::Fail;
use test_kit::access_entry;

/// What dependence looks at: the actor, the place, and what the access wrote of it.
type Access = (u8, Option<Place>, Wrote);

/// A segment that actor 1 made.
const MADE: SegName = SegName { maker: 1, n: 0 };

/// Another one of actor 1.
const OTHER: SegName = SegName { maker: 1, n: 1 };

/// The tails of the two.
const TAIL: Option<Place> = Some(Place::Tail(MADE));

const OTHER_TAIL: Option<Place> = Some(Place::Tail(OTHER));

/// A read of the tail of a segment by an actor.
const READS_TAIL: Access = (1, TAIL, Wrote::Nothing);

/// A write of it by another actor.
const WRITES_TAIL: Access = (2, TAIL, Wrote::Place);

/// A call, which has no place.
const CALLS: Access = (3, None, Wrote::Nothing);

/// The making of a segment.
const MAKES: Access = (1, Some(Place::Whole(MADE)), Wrote::Place);

/// Pairs of accesses, and whether they depend on each other.
const PAIRS: &[(Access, Access, bool)] = &[
    (READS_TAIL, WRITES_TAIL, true),
    (READS_TAIL, (2, TAIL, Wrote::Nothing), false),
    (WRITES_TAIL, (3, TAIL, Wrote::Place), true),
    (
        READS_TAIL,
        (2, Some(Place::Head(MADE)), Wrote::Place),
        false,
    ),
    (READS_TAIL, (2, OTHER_TAIL, Wrote::Place), false),
    (
        READS_TAIL,
        (1, Some(Place::Head(OTHER)), Wrote::Nothing),
        true,
    ),
    (CALLS, WRITES_TAIL, false),
    (CALLS, (3, None, Wrote::Nothing), true),
    (MAKES, (2, Some(Place::Cell(MADE, 0)), Wrote::Nothing), true),
    (MAKES, (2, Some(Place::Next(MADE)), Wrote::Place), true),
    (MAKES, (2, Some(Place::Cell(OTHER, 0)), Wrote::Place), false),
    (MAKES, (2, Some(Place::QTail), Wrote::Place), false),
    (MAKES, (2, Some(Place::Val(MADE, 0)), Wrote::Nothing), true),
    (MAKES, (2, Some(Place::Idx(MADE, 0)), Wrote::Nothing), true),
    (
        READS_VALUE,
        (2, Some(Place::Idx(MADE, 3)), Wrote::Nothing),
        false,
    ),
    (READS_VALUE, MARKS, false),
    (READS_VALUE, FILLS, true),
    (READS_VALUE, LOSES, false),
    (
        READS_VALUE,
        (3, Some(Place::Cell(MADE, 2)), Wrote::Place),
        false,
    ),
    (READS_INDEX, MARKS, true),
    (READS_INDEX, FILLS, true),
    (LOSES, MARKS, true),
    (LOSES, FILLS, true),
    (MARKS, FILLS, true),
];

/// A read of the value of a cell, and one of its safe bit and index.
const READS_VALUE: Access = (1, Some(Place::Val(MADE, 3)), Wrote::Nothing);

const READS_INDEX: Access = (1, Some(Place::Idx(MADE, 3)), Wrote::Nothing);

/// A double-word swap that wins and keeps the value, one that wins and puts another there, and one
/// that loses.
const MARKS: Access = (3, Some(Place::Cell(MADE, 3)), Wrote::Index);

const FILLS: Access = (4, Some(Place::Cell(MADE, 3)), Wrote::Place);

const LOSES: Access = (5, Some(Place::Cell(MADE, 3)), Wrote::Nothing);

#[test]
fn two_steps_depend_on_each_other_or_not(rt: HostRuntime) {
    for (a, b, wanted) in PAIRS {
        compare_pair(&rt, *a, *b, *wanted);
        compare_pair(&rt, *b, *a, *wanted);
    }
}

/// Compares whether an access depends on another one with what is wanted.
fn compare_pair(rt: &impl Abort, a: Access, b: Access, wanted: bool) {
    assert_eq!(rt;
        depends(&access_entry(a), &access_entry(b)),
        wanted,
        "{a:?} and {b:?}"
    );
}

/// A run: a call, a read of a tail, a write of another one, a write of it, and a read of it again.
const RUN: &[Access] = &[
    CALLS,
    READS_TAIL,
    (2, OTHER_TAIL, Wrote::Place),
    WRITES_TAIL,
    (4, TAIL, Wrote::Nothing),
];

/// Its steps by number, each with its first dependant.
const FIRST: &[(u64, Option<u64>)] = &[
    (1, None),
    (2, Some(4)),
    (3, Some(4)),
    (4, Some(5)),
    (5, None),
];

/// Compares the first dependant of a step with what is wanted.
fn compare(rt: &impl Abort, entries: &[Entry], k: u64, wanted: Option<u64>) {
    assert!(rt; 1 <= k && k <= entries.len() as u64, "there is no step {k}");
    assert_eq!(rt; first_dependant(entries, k), wanted, "at {k}");
}

#[test]
fn the_first_dependant_is_the_least_later_step(rt: HostRuntime) -> Result<(), Fail> {
    let entries = recorded(rt.alloc(), RUN)?;
    for (k, wanted) in FIRST {
        compare(&rt, &entries, *k, *wanted);
    }
    Ok(())
}

/// The entries of these accesses.
fn recorded(alloc: Global, accesses: &[Access]) -> Result<Vec<Entry>, Fail> {
    let mut entries = Vec::new(alloc);
    for access in accesses {
        entries.push(access_entry(*access))?;
    }
    Ok(entries)
}
