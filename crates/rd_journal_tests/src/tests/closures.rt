//! A rollback takes just the steps that the plain definition takes, all along runs of calls that
//! are chosen at random.

ghost use Rattle.std.specs.Prelude.{◌≤◌};
ghost use Rattle.rd_step.specs.Prelude.{MOST_CELLS};

use super::long_runs::call;
use super::switching::live_entries;
use rd_cell::Refusal;
use rd_depend::depends;
use rd_journal::Session;
use rd_step::{Entry, Event, World};
use std::alloc::{AllocError, Global};
use std::test::Fail;
use test_kit::next_random;

/// How many calls a run has.
const CALLS: u64 = 200;

/// Whether the entry depends on one of these entries that is marked.
fn depends_on_marked(entries: &[Entry], marks: &[bool], entry: &Entry) -> bool {
    for index in 0..marks.len().min(entries.len()) {
        if marks[index] && depends(&entries[index], entry) {
            return true;
        }
    }
    false
}

/// Of each of these entries, whether it is the `k`-th or depends on an earlier one of which this
/// holds.
fn closure(alloc: Global, entries: &[Entry], k: u64) -> Result<Vec<bool>, AllocError> {
    let mut marks = Vec::new(alloc);
    for entry in entries {
        let goes = marks.len() as u64 + 1 == k || depends_on_marked(entries, &marks, entry);
        marks.push(goes)?;
    }
    Ok(marks)
}

/// Whether the entry is there and of this event.
fn is_of_segment(entry: Option<&Entry>, event: Event) -> bool {
    match entry {
        None => false,
        Some(entry) => entry.event == event,
    }
}

/// Whether the marked ones of these entries are the first undone steps, and the others the live
/// ones, all in their order.
fn is_parted<const R: usize>(session: &Session<R>, entries: &[Entry], marks: &[bool]) -> bool {
    let live = session.live();
    let mut stay = 0usize;
    let mut gone = 0u64;
    for index in 0..marks.len().min(entries.len()) {
        let event = entries[index].event;
        if marks[index] {
            gone = gone.wrapping_add(1);
            if session.undone_event(gone) != Some(event) {
                return false;
            }
        } else if is_of_segment(live.get(stay), event) {
            stay = stay.wrapping_add(1);
        } else {
            return false;
        }
    }
    stay == live.len()
}

/// Whether rolling back the step that the number chooses takes what the definition takes.
fn agrees<const R: usize>(
    alloc: Global,
    session: &mut Session<R>,
    number: u64,
) -> Result<bool, Refusal> {
    let entries = live_entries(alloc, session)?;
    let len = session.len();
    if len == 0 {
        return Ok(session.roll(1) == Err(Refusal::NoSuchStep(0)));
    }
    let k = (number >> 30) % len + 1;
    let marks = closure(alloc, &entries, k)?;
    session.roll(k)?;
    Ok(is_parted(session, &entries, &marks))
}

/// Whether a run of calls over a fresh world of this many actors agrees with the definition all
/// along.
fn agrees_all_along<const R: usize>(alloc: Global, actors: u8, seed: u64) -> Result<bool, Refusal>
    requires some { 1 ≤ actors }
    requires few { actors ≤ 16 }
    requires positive { 1 ≤ R }
    requires small { R ≤ MOST_CELLS }
{
    let mut session = Session::open(alloc, World::<R>::fresh(alloc, actors)?);
    let mut number = seed;
    for turn in 0..CALLS {
        number = next_random(number);
        let is_refused = call(&mut session, actors, number) == Err(Refusal::NoMemory);
        if is_refused || (turn % 16 == 15 && !agrees(alloc, &mut session, number)?) {
            return Ok(false);
        }
    }
    Ok(true)
}

#[test]
fn a_rollback_takes_what_the_definition_takes(rt: HostRuntime) -> Result<(), Fail> {
    for seed in 1..5 {
        let over_2 = agrees_all_along::<2>(rt.alloc(), 16, seed)?;
        let over_8 = agrees_all_along::<8>(rt.alloc(), 3, seed)?;
        assert!(rt; over_2 & over_8, "from {seed}: {over_2} {over_8}");
    }
    Ok(())
}
