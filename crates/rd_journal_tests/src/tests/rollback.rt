//! A step undone together with what depends on it: a worked run, line by line, and long runs
//! against the run of what remains, stepped afresh.

use super::lone_undo::{
    FIRST_MAKING_UNDONE, LOST, MADE_AGAIN_AND_LINKED, TWO_MAKINGS, is_stepped_afresh, mixed_run,
    same_world, walk,
};
use super::{Line, is_at, play};
use rd_cell::{Answer, Content, Place, Refusal, SegName, Wrote};
use rd_journal::Session;
use rd_step::World;
use std::alloc::Global;
use std::process::Abort;
use std::test::Fail;

/// One making is rolled back, with the link to its segment and the link that it made fail; the
/// other making stays.
const MAKING_ROLLED_BACK: &str = "roll 27 -> 27 3";

/// What is there then: no link, and the other making as the last step.
const OTHER_MAKING: &[Line] = &[
    Line::Is(Place::Next(SegName::ROOT), Content::Next(None)),
    Line::Step(
        27,
        1,
        Place::Whole(LOST),
        Wrote::Place,
        Answer::Made(LOST),
        None,
    ),
];

/// All of it is redone; then two numbers that no step has.
const REDONE: &str = "forward 3 -> 30 0, roll 31 -> NoSuchStep(30), roll 0 -> NoSuchStep(30)";

#[test]
fn a_making_is_rolled_back_with_its_link(rt: HostRuntime) -> Result<(), Fail> {
    let mut session = Session::open(rt.alloc(), World::<2>::fresh(rt.alloc(), 4)?);
    walk(&rt, rt.alloc(), &mut session, TWO_MAKINGS)?;
    walk(&rt, rt.alloc(), &mut session, FIRST_MAKING_UNDONE)?;
    walk(&rt, rt.alloc(), &mut session, MADE_AGAIN_AND_LINKED)?;
    walk(&rt, rt.alloc(), &mut session, MAKING_ROLLED_BACK)?;
    play(&rt, &mut session, "the other making", OTHER_MAKING);
    walk(&rt, rt.alloc(), &mut session, REDONE)?;
    Ok(())
}

/// Rolls a step of a run back, compares what is left with the run of what remains, redoes all that
/// went, and compares the world with that from before. Returns how many steps went.
fn roll_and_redo(
    rt: &impl Abort,
    alloc: Global,
    session: &mut Session<2>,
    whole: &Session<2>,
    k: u64,
) -> Result<u64, Refusal> {
    session.roll(k)?;
    let gone = session.undone_len();
    assert_eq!(rt; session.len() + gone, STEPS, "at {k}");
    assert!(rt; is_stepped_afresh(alloc, session)?, "at {k}");
    session.forward(gone)?;
    assert!(rt; is_at(session, STEPS, 0), "at {k}");
    assert!(rt; same_world(session.world(), whole.world()), "at {k}");
    assert!(rt; is_stepped_afresh(alloc, session)?, "at {k}");
    Ok(gone)
}

/// How many steps a run has.
const STEPS: u64 = 100;

/// Runs, each by the number that it begins with, and how far on the next step to be rolled back is.
const ORDERS: &[(u64, u64)] = &[(1, 1), (2, 99), (3, 77)];

#[test]
fn each_step_is_rolled_back_and_redone(rt: HostRuntime) -> Result<(), Fail> {
    for (seed, leap) in ORDERS {
        let whole = mixed_run(rt.alloc(), STEPS, *seed)?;
        let mut session = mixed_run(rt.alloc(), STEPS, *seed)?;
        let mut most = 0;
        for turn in 0..STEPS {
            let k = turn.wrapping_mul(*leap) % STEPS + 1;
            let gone = roll_and_redo(&rt, rt.alloc(), &mut session, &whole, k)?;
            most = most.max(gone);
        }
        assert!(rt; 10 < most && most < STEPS, "from {seed}");
    }
    Ok(())
}
