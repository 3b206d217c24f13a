//! Tests of equivalence: two lists of events, both from the fresh world, and whether they are
//! equivalent, by examples and as the definition has it.

use super::index::Draws;
use rd_actor::{Act, Pc};
use rd_depend::depends;
use rd_equivalence::are_equivalent;
use rd_step::{Entry, Event, World};
use std::alloc::Global;
use std::test::Fail;
use test_kit::{drawn_event, events_in};

/// An enqueue and a dequeue begin, and each reads a name.
const TWO_CALLS: &str = "enq 1 7, deq 2, go 1, go 2";

/// The two calls of `TWO_CALLS`, with their reads in the other order.
const READS_SWAPPED: &str = "enq 1 7, deq 2, go 2, go 1";

/// The dequeue's steps first.
const SECOND_ACTOR_FIRST: &str = "deq 2, go 2, enq 1 7, go 1";

/// Another value is enqueued.
const ANOTHER_VALUE: &str = "enq 1 8, deq 2, go 1, go 2";

/// Another actor dequeues.
const ANOTHER_ACTOR: &str = "enq 1 7, deq 3, go 1, go 3";

/// The last read is missing.
const ONE_READ: &str = "enq 1 7, deq 2, go 1";

/// Two enqueues: both read the queue's tail and the root's next, then both fetch and add on the
/// root's tail.
const TWO_ADDS: &str = "enq 1 7, enq 2 8, go 1 2, go 2 2, go 1, go 2";

/// The two enqueues of `TWO_ADDS`, with their reads in another order.
const SAME_PLACES_READ: &str = "enq 2 8, go 2, enq 1 7, go 1, go 2, go 1 2, go 2";

/// The two enqueues of `TWO_ADDS`, with their adds in the other order: each draws the position that
/// the other one draws there.
const ADDS_SWAPPED: &str = "enq 1 7, enq 2 8, go 1 2, go 2 3, go 1";

/// An enqueue draws cell 0 of the root. A dequeue moves the cell on to its next round, and then the
/// enqueue reads its value.
const MOVED_THEN_VALUE_READ: &str = "enq 1 7, go 1 3, deq 2, go 2 5, go 1";

/// The calls of `MOVED_THEN_VALUE_READ`, where the enqueue reads the value just before the cell is
/// moved on, which leaves the value as it is.
const VALUE_READ_THEN_MOVED: &str = "enq 1 7, go 1 3, deq 2, go 2 4, go 1, go 2";

/// The enqueue reads the value and then the index, all after the cell is moved on.
const MOVED_THEN_INDEX_READ: &str = "enq 1 7, go 1 3, deq 2, go 2 5, go 1 2";

/// The enqueue reads the value and the index before the cell is moved on: the index that it reads
/// is another one.
const INDEX_READ_THEN_MOVED: &str = "enq 1 7, go 1 3, deq 2, go 2 4, go 1 2, go 2";

/// Three dequeues begin, and each reads the queue's head.
const THREE_CALLS: &str = "deq 1, deq 2, deq 3, go 1, go 2, go 3";

/// The calls of `THREE_CALLS` in another order: what is looked for first is after what is looked
/// for last.
const LAST_CALL_FIRST: &str = "deq 3, deq 2, go 3, deq 1, go 2, go 1";

/// Two enqueues of one value on the array, the first actor's whole before the second's.
const FIRST_THEN_SECOND: &str = "aenq 1 5, go 1 2, aenq 2 5, go 2 2";

/// The second actor's first. They lead to the same world, but each drew the other's slot.
const SECOND_THEN_FIRST: &str = "aenq 2 5, go 2 2, aenq 1 5, go 1 2";

/// Pairs of schedules, and whether they are equivalent.
const PAIRS: &[(&str, &str, bool)] = &[
    ("", "", true),
    ("", ONE_READ, false),
    (TWO_CALLS, TWO_CALLS, true),
    (TWO_CALLS, READS_SWAPPED, true),
    (TWO_CALLS, SECOND_ACTOR_FIRST, true),
    (TWO_CALLS, ANOTHER_VALUE, false),
    (TWO_CALLS, ANOTHER_ACTOR, false),
    (TWO_CALLS, ONE_READ, false),
    (READS_SWAPPED, ONE_READ, false),
    (TWO_ADDS, SAME_PLACES_READ, true),
    (TWO_ADDS, ADDS_SWAPPED, false),
    (MOVED_THEN_VALUE_READ, VALUE_READ_THEN_MOVED, true),
    (MOVED_THEN_INDEX_READ, INDEX_READ_THEN_MOVED, false),
    (FIRST_THEN_SECOND, SECOND_THEN_FIRST, false),
    (THREE_CALLS, LAST_CALL_FIRST, true),
    (THREE_CALLS, SECOND_ACTOR_FIRST, false),
];

/// The entries of a schedule from the fresh world.
fn entries(alloc: Global, schedule: &str) -> Result<Vec<Entry>, Fail> {
    let mut world = World::<4>::fresh(alloc, 4)?;
    let mut entries = Vec::new(alloc);
    for event in events_in(alloc, schedule)? {
        entries.push(world.step(event)?)?;
    }
    Ok(entries)
}

#[test]
fn two_schedules_are_equivalent_or_not(rt: HostRuntime) -> Result<(), Fail> {
    for (first, second, wanted) in PAIRS {
        let a = entries(rt.alloc(), first)?;
        let b = entries(rt.alloc(), second)?;
        assert!(rt;
            is_answered(rt.alloc(), &a, &b, *wanted)?,
            "{first} and {second}"
        );
    }
    Ok(())
}

/// Whether it is answered of two lists, in either order, that they are equivalent, or are not.
fn is_answered(alloc: Global, a: &[Entry], b: &[Entry], wanted: bool) -> Result<bool, Fail> {
    Ok(are_equivalent(alloc, a, b)? == wanted && are_equivalent(alloc, b, a)? == wanted)
}

/// The entries of this many steps of array enqueues, by four actors in turn, the first four in this
/// order.
fn turns(alloc: Global, steps: usize, first: &[u8]) -> Result<Vec<Entry>, Fail> {
    let mut world = World::<4>::fresh(alloc, 4)?;
    let mut entries = Vec::new(alloc);
    for turn in 0..steps {
        let actor = first.get(turn).copied().unwrap_or((turn % 4) as u8 + 1);
        let act = match world.actor(actor).map_or(Pc::Idle, |words| words.pc) {
            Pc::Idle => Act::AEnq(5),
            _ => Act::Go,
        };
        entries.push(world.step(Event { actor, act })?)?;
    }
    Ok(entries)
}

/// Two numbers of steps, and whether the runs of them that begin in another order are equivalent.
const LONG: &[(usize, usize, bool)] = &[
    (61, 61, true),
    (100, 100, true),
    (100, 98, false),
    (4, 100, false),
];

#[test]
fn long_lists_are_compared_where_memory_is_there(rt: HostRuntime) -> Result<(), Fail> {
    for (first, second, wanted) in LONG {
        let a = turns(rt.alloc(), *first, &[1, 2, 3, 4])?;
        let b = turns(rt.alloc(), *second, &[4, 3, 2, 1])?;
        assert!(rt;
            is_answered(rt.alloc(), &a, &b, *wanted)?,
            "{first}, {second}"
        );
    }
    Ok(())
}

/// How many pairs of runs are drawn, and how many steps each has.
const DRAWN: (u32, u32) = (60, 60);

/// The events of a run in which each step is made by an actor that is drawn.
fn drawn_events(alloc: Global, draws: &mut Draws, steps: u32) -> Result<Vec<Event>, Fail> {
    let mut world = World::<2>::fresh(alloc, 4)?;
    let mut events = Vec::new(alloc);
    for _step in 0..steps {
        let event = drawn_event(&world, 4, draws.next());
        world.step(event)?;
        events.push(event)?;
    }
    Ok(events)
}

/// The entries of the events, up to the first that is refused.
fn entries_of(alloc: Global, events: &[Event]) -> Result<Vec<Entry>, Fail> {
    let mut world = World::<2>::fresh(alloc, 4)?;
    let mut entries = Vec::new(alloc);
    for event in events {
        let Ok(entry) = world.step(*event) else {
            return Ok(entries);
        };
        entries.push(entry)?;
    }
    Ok(entries)
}

/// Some neighbours by different actors change places.
fn shuffle(events: &mut [Event], draws: &mut Draws, times: u32) {
    for _time in 0..times {
        let at = draws.below(DRAWN.1) as usize;
        if at + 1 < events.len() && events[at].actor != events[at + 1].actor {
            events.swap(at, at + 1);
        }
    }
}

/// Where an entry of the entry's event depends on no earlier one.
fn free_place(left: &[Entry], entry: &Entry) -> Option<usize> {
    let at = left
        .iter()
        .position(|other| other.event.actor == entry.event.actor)?;
    let found = left[at];
    if found.event == entry.event && left[..at].iter().all(|other| !depends(&found, other)) {
        Some(at)
    } else {
        None
    }
}

/// Whether the lists are equivalent, by the definition: one event after another is taken out.
fn is_equivalent(alloc: Global, a: &[Entry], b: &[Entry]) -> Result<bool, Fail> {
    let mut left = Vec::new(alloc);
    left.extend_from_slice(b)?;
    for entry in a {
        let Some(at) = free_place(&left, entry) else {
            return Ok(false);
        };
        if at < left.len() {
            left.remove(at);
        }
    }
    Ok(left.is_empty())
}

#[test]
fn drawn_runs_are_equivalent_where_the_definition_says_so(rt: HostRuntime) -> Result<(), Fail> {
    let mut draws = Draws { state: 1 };
    let mut is_ever = false;
    let mut is_always = true;
    for times in 0..DRAWN.0 {
        let mut events = drawn_events(rt.alloc(), &mut draws, DRAWN.1)?;
        let a = entries_of(rt.alloc(), &events)?;
        shuffle(&mut events, &mut draws, times / 2);
        let b = entries_of(rt.alloc(), &events)?;
        let wanted = is_equivalent(rt.alloc(), &a, &b)?;
        assert_eq!(rt; are_equivalent(rt.alloc(), &a, &b)?, wanted, "pair {times}");
        is_ever |= wanted;
        is_always &= wanted;
    }
    assert!(rt; is_ever && !is_always);
    Ok(())
}
