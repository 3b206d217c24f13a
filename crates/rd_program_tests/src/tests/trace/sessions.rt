//! Texts of version 2 with undone events and bookmarks.

use super::questions::loaded_report;
use super::{AnyBook, are_bad, fault_is, faults_are, is_written, text_is};
use rd_cell::Refusal;
use rd_step::Flaw;
use rd_trace::{TraceFault, load_trace};
use std::alloc::Global;
use std::process::Abort;

/// The script over the book that the text is loaded as has this report.
fn report_is(rt: &impl Abort, alloc: Global, text: &str, script: &str, wanted: &str) {
    let report = loaded_report(rt, alloc, script, text.as_bytes());
    assert!(rt; report.as_slice() == wanted.as_bytes(), "trace {text}");
}

/// Texts, each with a script over the book that it is loaded as, and the report.
const REPORTS: &[(&str, &str, &str)] = &[
    // undone events can be redone
    (
        "{\"events\":[[\"enq\",1,7]],\"marks\":[],\"ring\":4,\"start\":{\"fresh\":4},\"undone\":[[\"go\",1]],\"version\":2}",
        "len\nredo\nredo\n",
        "at 1 1\nat 2 0\nrefused 11 NothingToRedo\n",
    ),
    // a bookmark can be gone to
    (
        "{\"events\":[],\"marks\":[{\"events\":[[\"deq\",1]],\"name\":\"a\"}],\"ring\":2,\"start\":{\"fresh\":1},\"undone\":[],\"version\":2}",
        "len\nmarks\ngoto a\n",
        "at 0 0\nmarks 1\nat 1 0\n",
    ),
    // bookmarks stand in their order and may begin alike
    (
        "{\"events\":[[\"deq\",1]],\"marks\":[\
        {\"events\":[[\"deq\",1],[\"go\",1],[\"go\",1]],\"name\":\"z\"},\
        {\"events\":[[\"deq\",1],[\"go\",1],[\"deq\",2]],\"name\":\"a\"},\
        {\"events\":[[\"deq\",1],[\"go\",1]],\"name\":\"m\"},\
        {\"events\":[],\"name\":\"0\"}],\
        \"ring\":2,\"start\":{\"fresh\":2},\"undone\":[[\"go\",1],[\"deq\",2]],\"version\":2}",
        "len\nmarkat 1\nmarkat 2\nmarkat 3\nmarkat 4\nforward 2\ngoto z\nstep 3\ngoto a\nstep 3\ngoto m\nlen\ngoto 0\n",
        "at 1 2\nmark z 3\nmark a 3\nmark m 2\nmark 0 0\nat 3 0\nat 3 0\nstep 3; go 1; head 0.0; wrote; 0; -\nat 3 0\nstep 3; deq 2; -; none; -; -\nat 2 0\nat 2 0\nat 0 0\n",
    ),
    // no step of the last bookmark is left undone
    (
        "{\"events\":[[\"deq\",1]],\"marks\":[{\"events\":[[\"deq\",1],[\"go\",1]],\"name\":\"a\"}],\"ring\":2,\"start\":{\"fresh\":1},\"undone\":[],\"version\":2}",
        "len\nredo\n",
        "at 1 0\nrefused 11 NothingToRedo\n",
    ),
];

#[test]
fn undone_events_and_bookmarks_are_loaded(rt: HostRuntime) {
    for (text, script, report) in REPORTS {
        report_is(&rt, rt.alloc(), *text, *script, *report);
    }
}

/// A script with bookmarks that leaves undone steps, and its trace over rings of four cells.
const UNDOING: &str = "enq 1 7\ndeq 2\ngo 1\nmark b\ngo 2\nmark a\nundo 3\nback 1\n";

const WRITTEN: &str = "{\"events\":[[\"enq\",1,7],[\"deq\",2]],\"marks\":[\
    {\"events\":[[\"enq\",1,7],[\"deq\",2],[\"go\",1]],\"name\":\"b\"},\
    {\"events\":[[\"enq\",1,7],[\"deq\",2],[\"go\",1],[\"go\",2]],\"name\":\"a\"}],\
    \"ring\":4,\"start\":{\"fresh\":4},\"undone\":[[\"go\",2],[\"go\",1]],\"version\":2}\n";

#[test]
fn undone_events_and_bookmarks_are_written(rt: HostRuntime) {
    is_written::<4>(&rt, rt.alloc(), &[(UNDOING, 1)], WRITTEN);
}

/// Texts of which an event is refused, and their faults.
const REFUSALS: &[(&str, TraceFault)] = &[
    (
        "{\"events\":[],\"marks\":[{\"events\":[[\"go\",1]],\"name\":\"a\"}],\"ring\":2,\"start\":{\"fresh\":1},\"undone\":[],\"version\":2}",
        TraceFault::TraceMark {
            mark: 1,
            step: 1,
            cause: Refusal::Idle,
        },
    ),
    (
        "{\"events\":[],\"marks\":[{\"events\":[],\"name\":\"z\"},{\"events\":[[\"go\",0]],\"name\":\"a\"}],\"ring\":4,\"start\":{\"fresh\":16},\"undone\":[],\"version\":2}",
        TraceFault::TraceMark {
            mark: 2,
            step: 1,
            cause: Refusal::NoActor,
        },
    ),
    (
        "{\"events\":[[\"go\",0]],\"marks\":[],\"ring\":4,\"start\":{\"fresh\":4},\"undone\":[[\"go\",1]],\"version\":2}",
        TraceFault::TraceStep {
            step: 1,
            cause: Refusal::NoActor,
        },
    ),
    (
        "{\"events\":[],\"marks\":[],\"ring\":8,\"start\":{\"fresh\":1},\"undone\":[[\"adeq\",1],[\"aenq\",1,7]],\"version\":2}",
        TraceFault::TraceStep {
            step: 2,
            cause: Refusal::NotIdle,
        },
    ),
    (
        "{\"events\":[[\"go\",9]],\"marks\":[{\"events\":[[\"deq\",1]],\"name\":\"a\"},{\"events\":[[\"deq\",1],[\"go\",1],[\"deq\",1]],\"name\":\"b\"}],\"ring\":2,\"start\":{\"fresh\":1},\"undone\":[],\"version\":2}",
        TraceFault::TraceMark {
            mark: 2,
            step: 3,
            cause: Refusal::NotIdle,
        },
    ),
    (
        "{\"events\":[[\"deq\",1],[\"starve\",1,true]],\"marks\":[],\"ring\":2,\"start\":{\"fresh\":1},\"undone\":[[\"go\",9]],\"version\":2}",
        TraceFault::TraceStep {
            step: 2,
            cause: Refusal::NoChoice,
        },
    ),
    (
        "{\"events\":[[\"deq\",1]],\"marks\":[],\"ring\":2,\"start\":{\"fresh\":1},\"undone\":[[\"go\",1],[\"go\",9]],\"version\":2}",
        TraceFault::TraceStep {
            step: 3,
            cause: Refusal::NoActor,
        },
    ),
];

#[test]
fn the_first_refused_event_is_named(rt: HostRuntime) {
    faults_are(&rt, rt.alloc(), REFUSALS);
}

/// The parts of a world without an actor.
const FLAWED: &str =
    "{\"actors\":[],\"array\":{\"cells\":[],\"head\":0,\"tail\":0},\"qhead\":[0,0],\"qtail\":[0,0],\"segments\":[]}";

/// A trace of this start, with a bookmark at these events and these live and undone, is refused so.
fn trace_fault_is(
    rt: &impl Abort,
    alloc: Global,
    start: &str,
    (marked, live, undone): (&str, &str, &str),
    fault: TraceFault,
) {
    let text = format!(in alloc;
        "{{\"events\":[{live}],\"marks\":[{{\"events\":[{marked}],\"name\":\"a\"}}],\"ring\":2,\"start\":{start},\"undone\":[{undone}],\"version\":2}}"
    ).expect(rt, "out of memory");
    fault_is(rt, alloc, text.as_bytes(), fault, &text);
}

/// Events of which each is refused in any world, and one that spells none.
const REFUSED: &str = "[\"go\",0]";

const NO_EVENT: &str = "[\"hop\",0]";

/// The start, the events of a bookmark, the live and the undone ones of a trace, and why it is not
/// loaded.
const FAULTS: &[(&str, &str, &str, &str, TraceFault)] = &[
    (FLAWED, NO_EVENT, "", "", TraceFault::BadTrace),
    (FLAWED, REFUSED, NO_EVENT, "", TraceFault::BadTrace),
    (FLAWED, REFUSED, REFUSED, NO_EVENT, TraceFault::BadTrace),
    (
        FLAWED,
        REFUSED,
        REFUSED,
        REFUSED,
        TraceFault::Flawed(Flaw::Makers),
    ),
    (FLAWED, "", REFUSED, "", TraceFault::Flawed(Flaw::Makers)),
    (
        "{\"fresh\":1}",
        REFUSED,
        REFUSED,
        REFUSED,
        TraceFault::TraceMark {
            mark: 1,
            step: 1,
            cause: Refusal::NoActor,
        },
    ),
    (
        "{\"fresh\":1}",
        "[\"deq\",1]",
        "[\"go\",1]",
        REFUSED,
        TraceFault::TraceStep {
            step: 1,
            cause: Refusal::Idle,
        },
    ),
    (
        "{\"fresh\":1}",
        "[\"deq\",1]",
        "[\"deq\",1],[\"go\",1]",
        REFUSED,
        TraceFault::TraceStep {
            step: 3,
            cause: Refusal::NoActor,
        },
    ),
];

#[test]
fn bad_forms_flaws_bookmarks_live_and_undone_events_are_refused_in_this_order(rt: HostRuntime) {
    for (start, marked, live, undone, fault) in FAULTS {
        let events = (*marked, *live, *undone);
        trace_fault_is(&rt, rt.alloc(), *start, events, *fault);
    }
}

/// A trace of this many bookmarks at one step, and of one after them at none.
fn with_bookmarks(rt: &impl Abort, alloc: Global, number: u64) -> String {
    let mut marks = String::new(alloc);
    for i in 0..number {
        let mark = format!(in alloc; "{{\"events\":[[\"deq\",1]],\"name\":\"n{i}\"}},");
        marks
            .push_str(&mark.expect(rt, "out of memory"))
            .expect(rt, "out of memory");
    }
    let text = format!(in alloc;
        "{{\"events\":[],\"marks\":[{marks}{{\"events\":[],\"name\":\"none\"}}],\"ring\":8,\"start\":{{\"fresh\":16}},\"undone\":[],\"version\":2}}\n"
    );
    text.expect(rt, "out of memory")
}

#[test]
fn sixty_four_bookmarks_one_of_them_empty_come_back_and_65_are_no_trace(rt: HostRuntime) {
    let text = with_bookmarks(&rt, rt.alloc(), 63);
    match load_trace(rt.alloc(), text.as_bytes()) {
        Ok(AnyBook::Eight(book)) => text_is(&rt, rt.alloc(), &book, &text),
        _ => panic!(&rt; "no trace of the ring"),
    }
    are_bad(&rt, rt.alloc(), &[&with_bookmarks(&rt, rt.alloc(), 64)]);
}
