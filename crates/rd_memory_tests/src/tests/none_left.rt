//! Undos, redos, an event after an undo, dropped bookmarks, one that needs no new entry, going to
//! bookmarks whose steps have room, and queries while all memory is refused.

use super::trials::{Trial, look, plays};
use std::alloc::Global;

/// Two bookmarks of which neither begins the other, the race of two actors to put a new ring after
/// a full one, a bookmark at its thirty steps, and eight of a third actor after them, which fill
/// its list in the index.
const BEFORE: &str = "\
    deq 3\nmark x\nundo\ndeq 4\nmark y\nundo\nenq 1 7\ngo 1\ngo 1\ngo 1\ngo 1\ngo 1\ngo 1\n\
    enq 1 8\ngo 1\ngo 1\ngo 1\ngo 1\ngo 1\ngo 1\nenq 1 9\ngo 1\ngo 1\nenq 2 10\ngo 2\ngo 2\ngo 1\n\
    go 1\ngo 1\ngo 1\ngo 1\ngo 2\ngo 1\ngo 2\nundo 27\nredo\ngo 2\ngo 1\nmark all\n\
    deq 3\ngo 3\ngo 3\ngo 3\ngo 3\ngo 3\ndeq 3\ngo 3";

/// Lines that take no memory. The event is the one that was undone. The steps of each bookmark that
/// is set begin those of one that is there, and its name takes room that is left or given back.
/// What is gone to lies on the way back, is made of steps that were undone, and lies ahead.
const MOVES: &[u8] =
    b"undo\ngo 3\ngoto all\nundo\nmark most\nundo 28\nback 3\nredo\nforward 2\nroll 27\nundo 30\nundo 1\nforward 5\ndrop x\ndrop x\ngoto z\nmark again\ngoto all\nback 4\ngoto all";

/// What they are answered.
const MOVED: &[u8] =
    b"at 37 1\nok 38\nat 30 0\nat 29 1\nmarked 29\nat 28 2\nat 25 5\nat 26 4\nat 28 2\nat 26 4\nrefused 12 NoSuchStep 26\nrefused 13 Depended 2\nrefused 11 NothingToRedo\ndropped\nrefused 14 NoMark\nrefused 14 NoMark\nmarked 26\nat 30 0\nat 26 4\nat 30 0\n";

/// A book with all these steps and bookmarks, if there was memory for them.
fn ready(alloc: Global) -> Option<Trial> {
    let Ok(mut trial) = Trial::new(alloc).or(Trial::new(alloc)) else {
        return None;
    };
    if trial.obeys_all(BEFORE) {
        Some(trial)
    } else {
        None
    }
}

/// Makes the moves, and looks at the book after them. Returns whether they were answered as ever.
fn moves(trial: &mut Trial) -> bool {
    trial.report.clear();
    plays(&mut trial.book, &[MOVES], &mut trial.report)
        && trial.report.as_slice() == MOVED
        && look(&mut trial.book, &mut trial.seen).is_some()
}

/// A book answers as ever to moves and queries after a comparison that may be refused memory, and
/// is as its twin then, which had made the moves before it.
fn answers_as_ever(trial: &mut Trial, twin: &mut Trial) -> bool {
    let before = moves(twin);
    let compared = plays(&mut trial.book, &[b"same x y"], &mut trial.report);
    before && compared && moves(trial) && trial.seen.as_slice() == twin.seen.as_slice()
}

#[test]
fn undos_redos_and_queries_are_answered_as_ever_with_no_memory_left(rt: HostRuntime) {
    match (ready(rt.alloc()), ready(rt.alloc())) {
        (Some(mut trial), Some(mut twin)) => {
            assert!(&rt; answers_as_ever(&mut trial, &mut twin));
        }
        _ => assert!(&rt; Vec::<u8>::with_capacity(rt.alloc(), 1).is_err()),
    }
}
