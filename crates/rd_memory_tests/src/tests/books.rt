//! Commands that are refused memory.

use super::trials::{Trial, on_trial};
use std::alloc::Global;
use std::process::Abort;
use test_kit::ASKED;

/// Two actors that race to put a new ring after a full one, over rings of two cells, and undos
/// among their steps. Then bookmarks, calls on the array, and queries.
const RACE: &str = "\
    enq 1 7\ngo 1\ngo 1\ngo 1\ngo 1\ngo 1\ngo 1\nenq 1 8\ngo 1\ngo 1\ngo 1\ngo 1\ngo 1\ngo 1\n\
    mark full\nenq 1 9\ngo 1\ngo 1\nenq 2 10\ngo 2\ngo 2\ngo 1\ngo 1\ngo 1\ngo 1\ngo 1\ngo 2\n\
    go 1\ngo 2\nundo 27\nredo\ngo 2\ngo 1\nmark race\nundo\nundo 28\nback 3\nforward 2\nroll 26\n\
    deq 3\ngo 3\nmark third\nsame race third\nsame race full\ngoto full\nsame race third\n\
    goto race\ndrop race\ngoto third\naenq 4 5\ngo 4\ngo 4\nadeq 4\nmarks\norigin 3\nwriter qtail";

/// An actor that starves: its cell was taken from it before it came, so it closes the ring and
/// makes the next one.
const STARVED: &str = "\
    enq 1 7\ngo 1\ngo 1\ngo 1\ndeq 2\ngo 2\ngo 2\ngo 2\ngo 2\ngo 2\ngo 1\ngo 1\ngo 1\nmark a\n\
    starve 1 yes\ngo 1\ngo 1\ngo 1\ngo 1\ngoto a\nstarve 1 no\ngo 1";

/// Whether two books were answered the same, and are the same.
fn are_alike(first: &mut Trial, second: &mut Trial) -> bool {
    first.report.as_slice() == second.report.as_slice() && first.is_as(second)
}

/// A book obeys the lines whatever is refused to it, and so does another, which is answered the
/// same and is the same then.
fn are_obeyed(rt: &impl Abort, alloc: Global, lines: &str) -> bool {
    let mut first = on_trial(rt, alloc);
    let mut second = on_trial(rt, alloc);
    let obeyed = first.obeys_all(lines) && second.obeys_all(lines);
    obeyed && are_alike(&mut first, &mut second)
}

/// Two books obey a line of each command, one after the other, whatever is refused to them, and are
/// answered the same and are the same then.
fn is_each_obeyed(rt: &impl Abort, alloc: Global) -> bool {
    let mut first = on_trial(rt, alloc);
    let mut second = on_trial(rt, alloc);
    for (line, _) in ASKED {
        if !first.obeys(line.as_bytes()) || !second.obeys(line.as_bytes()) {
            return false;
        }
    }
    are_alike(&mut first, &mut second)
}

#[test]
fn a_command_that_is_refused_memory_changes_nothing_and_is_then_answered_as_ever(rt: HostRuntime) {
    assert!(&rt; are_obeyed(&rt, rt.alloc(), RACE));
    assert!(&rt; are_obeyed(&rt, rt.alloc(), STARVED));
    assert!(&rt; is_each_obeyed(&rt, rt.alloc()));
}
