//! Walks up and down the first steps of the poised world of four actors, over rings of four cells.

use super::{Line, Move, play};
use rd_actor::{Act, Pc};
use rd_cell::{Content, Place, Refusal, SegName};
use rd_journal::Session;
use rd_step::World;
use std::test::Fail;

/// The root's tail.
const TAIL: Place = Place::Tail(SegName::ROOT);

/// An open tail that nobody has added to.
const OPEN_0: Content = Content::Tail {
    closed: false,
    count: 0,
};

/// An open tail that three have added to.
const OPEN_3: Content = Content::Tail {
    closed: false,
    count: 3,
};

#[test]
fn a_walk_back_and_forward(rt: HostRuntime) -> Result<(), Fail> {
    let mut session = Session::open(rt.alloc(), World::<4>::poised(rt.alloc(), 4)?);
    play(&rt, &mut session, "back and forward", BACK_AND_FORWARD);
    Ok(())
}

const BACK_AND_FORWARD: &[Line] = &[
    Line::Act(1, Act::Go),
    Line::Act(2, Act::Go),
    Line::Act(3, Act::Go),
    Line::Is(TAIL, OPEN_3),
    Line::Stands(2, Pc::E5),
    Line::Moves(Move::Back(2)),
    Line::At(1, 2),
    Line::Stands(2, Pc::E4),
    Line::Stays(Move::Forward(3), Refusal::NothingToRedo),
    Line::Moves(Move::Forward(2)),
    Line::At(3, 0),
    Line::Stands(2, Pc::E5),
    Line::Stays(Move::Back(4), Refusal::NothingToUndo(3)),
    Line::Moves(Move::Back(1)),
    Line::Act(4, Act::Go),
    Line::Stays(Move::Redo, Refusal::NothingToRedo),
    Line::At(3, 0),
    Line::Stands(4, Pc::E5),
];

#[test]
fn a_step_undone_and_redone_has_its_entry(rt: HostRuntime) -> Result<(), Fail> {
    let mut session = Session::open(rt.alloc(), World::<4>::poised(rt.alloc(), 4)?);
    play(&rt, &mut session, "nothing to undo", NOTHING_TO_UNDO);
    let record = session.entry(1)?;
    play(&rt, &mut session, "undo and redo", UNDO_AND_REDO);
    assert!(rt; session.entry(1) == Ok(record));
    Ok(())
}

const NOTHING_TO_UNDO: &[Line] = &[
    Line::Stays(Move::Undo, Refusal::NothingToUndo(0)),
    Line::Act(2, Act::Go),
    Line::At(1, 0),
];

const UNDO_AND_REDO: &[Line] = &[
    Line::Moves(Move::Undo),
    Line::NoStep(1, Refusal::NoSuchStep(0)),
    Line::Is(TAIL, OPEN_0),
    Line::Moves(Move::Redo),
    Line::NoStep(0, Refusal::NoSuchStep(1)),
    Line::NoStep(2, Refusal::NoSuchStep(1)),
];

#[test]
fn a_refused_event_keeps_what_was_undone(rt: HostRuntime) -> Result<(), Fail> {
    let mut session = Session::open(rt.alloc(), World::<4>::poised(rt.alloc(), 4)?);
    play(
        &rt,
        &mut session,
        "refused over undone",
        REFUSED_OVER_UNDONE,
    );
    Ok(())
}

const REFUSED_OVER_UNDONE: &[Line] = &[
    Line::Act(1, Act::Go),
    Line::Act(2, Act::Go),
    Line::Moves(Move::Undo),
    Line::Refused(5, Act::Go, Refusal::NoActor),
    Line::Refused(1, Act::Starve(true), Refusal::NoChoice),
    Line::At(1, 1),
    Line::Moves(Move::Redo),
    Line::Stands(2, Pc::E5),
];
