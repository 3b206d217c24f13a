//! Going over to the entries that a session has, all of them stepped again, and to none; and going
//! back and forth along them.

ghost use Rattle.std.specs.Prelude.{◌≡◌, IfOk};
ghost use Rattle.rd_journal.specs.Sessions.{journal};

use super::is_at;
use super::lone_undo::{STEPS, is_stepped_afresh, mixed_run};
use rd_cell::Refusal;
use rd_journal::Session;
use rd_step::Entry;
use std::alloc::{AllocError, Global};
use std::test::Fail;

/// A copy of the entries of the live steps.
pub(super) fn live_entries<const R: usize>(
    alloc: Global,
    session: &Session<R>,
) -> Result<Vec<Entry>, AllocError>
    ensures { IfOk result (λ entries. entries.items ≡ (journal session.now).live) }
{
    let live = session.live();
    let mut entries = Vec::new(alloc);
    for position in 0..live.len() {
        entries.push(*live.at(position))?;
    }
    Ok(entries)
}

/// Undoes all steps and makes them again, from their entries.
pub(super) fn step_all_again(alloc: Global, session: &mut Session<2>) -> Result<(), Refusal> {
    let entries = live_entries(alloc, session)?;
    let _world = session.world();
    session.switch(0, &entries)
}

#[test]
fn a_session_goes_over_to_its_own_entries_and_to_none(rt: HostRuntime) -> Result<(), Fail> {
    let mut session = mixed_run(rt.alloc(), STEPS, 4)?;
    session.roll(7)?;
    let live = session.len();
    assert!(rt; live < STEPS);
    step_all_again(rt.alloc(), &mut session)?;
    assert!(rt; is_at(&session, live, 0));
    assert!(rt; is_stepped_afresh(rt.alloc(), &session)?);
    session.switch(0, &[])?;
    assert!(rt; is_at(&session, 0, 0));
    assert!(rt; is_stepped_afresh(rt.alloc(), &session)?);
    assert_eq!(rt; session.redo(), Err(Refusal::NothingToRedo));
    Ok(())
}

#[test]
fn a_session_goes_along_its_steps_with_none_undone(rt: HostRuntime) -> Result<(), Fail> {
    let mut session = mixed_run(rt.alloc(), STEPS, 4)?;
    let live = session.len();
    session.go_along_track(0);
    assert!(rt; is_at(&session, 0, 0));
    assert_eq!(rt; session.redo(), Err(Refusal::NothingToRedo));
    session.go_along_track(live);
    assert!(rt; is_at(&session, live, 0));
    assert!(rt; is_stepped_afresh(rt.alloc(), &session)?);
    Ok(())
}
