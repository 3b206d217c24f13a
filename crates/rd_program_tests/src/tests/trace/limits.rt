//! Traces as long as may be, and longer.

use super::{AnyBook, TraceFault, fault_is, text_is};
use rd_cell::Refusal;
use rd_trace::load_trace;
use std::alloc::Global;
use std::process::Abort;

/// A dequeue of an empty queue, with a comma after each event.
const DEQUEUE: &str =
    "[\"deq\",1],[\"go\",1],[\"go\",1],[\"go\",1],[\"go\",1],[\"go\",1],[\"go\",1],[\"go\",1],[\"go\",1],[\"go\",1],[\"go\",1],[\"go\",1],";

/// A text, in which `*` stands for the events of 5461 dequeues: as many events as a session has at
/// most less three.
fn spelled(rt: &impl Abort, alloc: Global, text: &str) -> String {
    let dequeues = DEQUEUE.repeat(alloc, 5461).expect(rt, "out of memory");
    text.replace(alloc, "*", &dequeues)
        .expect(rt, "out of memory")
}

/// Traces, and how many of their events are live.
const WHOLE: &[(&str, u64)] = &[
    // a trace has as many events as a session
    (
        "{\"events\":[*[\"deq\",1],[\"go\",1],[\"go\",1]],\"marks\":[{\"events\":[],\"name\":\"a\"}],\"ring\":4,\"start\":{\"fresh\":4},\"undone\":[],\"version\":2}\n",
        65_535,
    ),
    // live and undone events are as many together
    (
        "{\"events\":[*[\"deq\",1]],\"marks\":[{\"events\":[],\"name\":\"a\"}],\"ring\":4,\"start\":{\"fresh\":4},\"undone\":[[\"go\",1],[\"go\",1]],\"version\":2}\n",
        65_533,
    ),
    // a bookmark has as many events as a session
    (
        "{\"events\":[[\"deq\",2]],\"marks\":[{\"events\":[*[\"deq\",1],[\"go\",1],[\"go\",1]],\"name\":\"a\"}],\"ring\":4,\"start\":{\"fresh\":4},\"undone\":[[\"go\",2]],\"version\":2}\n",
        1,
    ),
];

/// A trace is loaded as this many live steps, and written again.
fn is_whole(rt: &impl Abort, alloc: Global, text: &str, live: u64) {
    match load_trace(alloc, text.as_bytes()) {
        Ok(AnyBook::Four(book)) => {
            assert!(rt; book.session().len() == live, "{live} live");
            text_is(rt, alloc, &book, text);
        }
        _ => panic!(rt; "no trace of the ring"),
    }
}

#[test]
fn a_trace_and_a_bookmark_have_as_many_events_as_a_session(rt: HostRuntime) {
    for (text, live) in WHOLE {
        is_whole(&rt, rt.alloc(), &spelled(&rt, rt.alloc(), *text), *live);
    }
}

/// The fault of the 65,536th of the live events and the undone ones after them.
const TOO_LONG: TraceFault = TraceFault::TraceStep {
    step: 65_536,
    cause: Refusal::TooLong,
};

/// Traces that are too long, and their faults.
const LONGER: &[(&str, TraceFault)] = &[
    // one event more
    (
        "{\"events\":[*[\"deq\",1],[\"go\",1],[\"go\",1],[\"go\",1]],\"marks\":[{\"events\":[],\"name\":\"a\"}],\"ring\":4,\"start\":{\"fresh\":4},\"undone\":[],\"version\":2}\n",
        TOO_LONG,
    ),
    // one event more in version 1
    (
        "{\"actors\":4,\"events\":[*[\"deq\",1],[\"go\",1],[\"go\",1],[\"go\",1]],\"ring\":4,\"version\":1}",
        TOO_LONG,
    ),
    // one undone event more, whatever else refuses it
    (
        "{\"events\":[*[\"deq\",1]],\"marks\":[{\"events\":[],\"name\":\"a\"}],\"ring\":4,\"start\":{\"fresh\":4},\"undone\":[[\"go\",1],[\"go\",1],[\"deq\",9]],\"version\":2}\n",
        TOO_LONG,
    ),
    // one event more of a bookmark
    (
        "{\"events\":[],\"marks\":[{\"events\":[*[\"deq\",1],[\"go\",1],[\"go\",1],[\"go\",1]],\"name\":\"a\"}],\"ring\":4,\"start\":{\"fresh\":4},\"undone\":[],\"version\":2}\n",
        TraceFault::TraceMark {
            mark: 1,
            step: 65_536,
            cause: Refusal::TooLong,
        },
    ),
];

#[test]
fn one_event_more_is_too_long(rt: HostRuntime) {
    for (text, fault) in LONGER {
        let spelled = spelled(&rt, rt.alloc(), *text);
        fault_is(&rt, rt.alloc(), spelled.as_bytes(), *fault, *text);
    }
}
