//! A lone undo answers what the plain scan over the entries finds, all along runs of calls that are
//! chosen at random.

use super::lone_undo::{STEPS, mixed_run};
use super::long_runs::call;
use super::switching::{live_entries, step_all_again};
use rd_cell::Refusal;
use rd_depend::first_dependant;
use rd_journal::Session;
use rd_step::Entry;
use std::alloc::Global;
use std::test::Fail;
use test_kit::next_random;

/// What undoing this step alone is to answer, by the plain scan over the entries of the live steps.
fn scanned(entries: &[Entry], k: u64) -> Result<(), Refusal> {
    let len = entries.len() as u64;
    if k == 0 || k > len {
        return Err(Refusal::NoSuchStep(len));
    }
    match first_dependant(entries, k) {
        None => Ok(()),
        Some(dependant) => Err(Refusal::Depended(dependant)),
    }
}

/// Whether undoing the step alone that the number chooses answers what the scan finds.
fn agrees(alloc: Global, session: &mut Session<2>, number: u64) -> Result<bool, Refusal> {
    let entries = live_entries(alloc, session)?;
    let k = (number >> 30) % (session.len() % 1_000 + 2);
    let wanted = scanned(&entries, k);
    Ok(session.undo_at(k) == wanted)
}

/// Whether a run of calls over a long run agrees with the scan after each call.
fn agrees_all_along(alloc: Global, seed: u64) -> Result<bool, Refusal> {
    let mut session = mixed_run(alloc, STEPS, seed)?;
    let mut number = seed;
    for turn in 0..STEPS {
        number = next_random(number);
        if turn % 16 == 15 {
            step_all_again(alloc, &mut session)?;
        }
        let is_refused = call(&mut session, 4, number) == Err(Refusal::NoMemory);
        if is_refused || !agrees(alloc, &mut session, number)? {
            return Ok(false);
        }
    }
    Ok(true)
}

#[test]
fn a_lone_undo_answers_what_the_scan_finds(rt: HostRuntime) -> Result<(), Fail> {
    for seed in 1..6 {
        assert!(rt; agrees_all_along(rt.alloc(), seed)?, "from {seed}");
    }
    Ok(())
}
