//! The world that a session was opened in, found from where the session is, and the events of
//! undone steps by their numbers.

use super::is_at;
use super::lone_undo::{STEPS, is_stepped_afresh, mixed_run, same_world, walk};
use rd_actor::Act;
use rd_cell::Refusal;
use rd_journal::Session;
use rd_step::{Event, World};
use std::alloc::Global;
use std::process::Abort;
use std::test::Fail;

/// Whether the start of a session is the same as this world.
fn starts_in(alloc: Global, session: &Session<2>, world: &World<2>) -> Result<bool, Refusal> {
    Ok(same_world(&session.start_world(alloc)?, world))
}

/// Three steps from the poised world, of which one is undone.
const FROM_POISED: &str = "go 1 -> 1 0, go 2 -> 2 0, go 3 -> 3 0, undo -> 2 1";

#[test]
fn the_start_is_the_world_that_was_opened(rt: HostRuntime) -> Result<(), Fail> {
    let poised = World::<2>::poised(rt.alloc(), 4)?;
    let mut session = Session::open(rt.alloc(), World::<2>::poised(rt.alloc(), 4)?);
    assert!(rt; starts_in(rt.alloc(), &session, &poised)?);
    walk(&rt, rt.alloc(), &mut session, FROM_POISED)?;
    assert!(rt; !same_world(session.world(), &poised));
    assert!(rt; starts_in(rt.alloc(), &session, &poised)?);
    walk(&rt, rt.alloc(), &mut session, "redo -> 3 0")?;
    Ok(())
}

#[test]
fn a_long_run_starts_in_the_fresh_world_and_stays(rt: HostRuntime) -> Result<(), Fail> {
    let fresh = World::<2>::fresh(rt.alloc(), 4)?;
    let mut session = mixed_run(rt.alloc(), STEPS, 1)?;
    for k in &[STEPS, 7] {
        session.roll(*k)?;
        let (live, undone) = (session.len(), session.undone_len());
        assert!(rt; starts_in(rt.alloc(), &session, &fresh)?, "at {k}");
        assert!(rt; is_at(&session, live, undone), "at {k}");
        assert!(rt; is_stepped_afresh(rt.alloc(), &session)?, "at {k}");
    }
    Ok(())
}

/// Two calls and a step, undone from the last one to the first.
const ALL_UNDONE: &str = "enq 1 7 -> 1 0, deq 2 -> 2 0, go 1 -> 3 0, back 2 -> 1 2, undo 1 -> 0 3";

/// An enqueue by the first actor.
const ENQUEUE: Event = Event {
    actor: 1,
    act: Act::Enq(7),
};

/// A dequeue by the second actor.
const DEQUEUE: Event = Event {
    actor: 2,
    act: Act::Deq,
};

/// A step of the first actor.
const STEP: Event = Event {
    actor: 1,
    act: Act::Go,
};

/// The event of each number then.
const OF_THREE: &[(u64, Option<Event>)] = &[
    (0, None),
    (1, Some(ENQUEUE)),
    (2, Some(DEQUEUE)),
    (3, Some(STEP)),
    (4, None),
    (u64::MAX, None),
];

/// The event of each number when the first is redone.
const OF_TWO: &[(u64, Option<Event>)] = &[
    (0, None),
    (1, Some(DEQUEUE)),
    (2, Some(STEP)),
    (3, None),
];

/// Compares the event of each number with the wanted one.
fn compare(rt: &impl Abort, session: &Session<2>, rows: &[(u64, Option<Event>)]) {
    for (i, wanted) in rows {
        assert_eq!(rt; session.undone_event(*i), *wanted, "number {i}");
    }
}

#[test]
fn undone_events_are_numbered_from_the_next_to_be_redone(rt: HostRuntime) -> Result<(), Fail> {
    let mut session = Session::open(rt.alloc(), World::<2>::fresh(rt.alloc(), 4)?);
    compare(&rt, &session, &[(0, None), (1, None)]);
    walk(&rt, rt.alloc(), &mut session, ALL_UNDONE)?;
    compare(&rt, &session, OF_THREE);
    walk(&rt, rt.alloc(), &mut session, "redo -> 1 2")?;
    compare(&rt, &session, OF_TWO);
    Ok(())
}
