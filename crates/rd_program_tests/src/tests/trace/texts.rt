//! Texts of version 1: those that are no trace, and those of which an event is refused.

use super::{AnyBook, are_bad, fault_is, faults_are, text_is};
use rd_cell::Refusal;
use rd_trace::{TraceFault, load_trace};

#[test]
fn a_text_that_is_cut_is_no_trace(rt: HostRuntime) {
    let whole = b"{\"actors\":4,\"events\":[[\"enq\",1,7],[\"go\",1]],\"ring\":4,\"version\":1}";
    for end in 0..whole.len() {
        fault_is(
            &rt,
            rt.alloc(),
            &whole[..end],
            TraceFault::BadTrace,
            "that is cut",
        );
    }
}

/// Texts that are no trace.
const BAD: &[&str] = &[
    // with other numbers
    "{\"actors\":0,\"events\":[],\"ring\":4,\"version\":1}",
    "{\"actors\":17,\"events\":[],\"ring\":4,\"version\":1}",
    "{\"actors\":272,\"events\":[],\"ring\":4,\"version\":1}",
    "{\"actors\":4,\"events\":[],\"ring\":3,\"version\":1}",
    "{\"actors\":4,\"events\":[],\"ring\":4,\"version\":0}",
    "{\"actors\":4,\"events\":[],\"ring\":4,\"version\":2}",
    "{\"actors\":4.0,\"events\":[],\"ring\":4,\"version\":1}",
    "{\"actors\":4,\"events\":[],\"ring\":4,\"version\":1.0}",
    "{\"actors\":4,\"events\":[],\"ring\":4,\"version\":1e0}",
    "{\"actors\":\"4\",\"events\":[],\"ring\":4,\"version\":1}",
    // with other members
    "{\"actors\":4,\"events\":[],\"ring\":4,\"start\":0,\"version\":1}",
    "{\"actors\":4,\"events\":[],\"ring\":4}",
    "{\"events\":[],\"ring\":4,\"version\":1}",
    "{\"actors\":4,\"event\":[],\"ring\":4,\"version\":1}",
    "{\"actors\":4,\"events\":{},\"ring\":4,\"version\":1}",
    "{\"actors\":4,\"events\":[],\"ring\":4,\"version\":1}}",
    "[4,[],4,1]",
    "4",
    "",
    // with other events
    "{\"actors\":4,\"events\":[[\"go\",256]],\"ring\":4,\"version\":1}",
    "{\"actors\":4,\"events\":[[\"go\",-1]],\"ring\":4,\"version\":1}",
    "{\"actors\":4,\"events\":[[\"go\",1.0]],\"ring\":4,\"version\":1}",
    "{\"actors\":4,\"events\":[[\"go\"]],\"ring\":4,\"version\":1}",
    "{\"actors\":4,\"events\":[[\"go\",1,7]],\"ring\":4,\"version\":1}",
    "{\"actors\":4,\"events\":[[\"enq\",1]],\"ring\":4,\"version\":1}",
    "{\"actors\":4,\"events\":[[\"enq\",1,7,8]],\"ring\":4,\"version\":1}",
    "{\"actors\":4,\"events\":[[\"enq\",1,18446744073709551616]],\"ring\":4,\"version\":1}",
    "{\"actors\":4,\"events\":[[\"starve\",1,1]],\"ring\":4,\"version\":1}",
    "{\"actors\":4,\"events\":[[\"hop\",1]],\"ring\":4,\"version\":1}",
    "{\"actors\":4,\"events\":[[1,\"go\"]],\"ring\":4,\"version\":1}",
    "{\"actors\":4,\"events\":[{\"go\":1}],\"ring\":4,\"version\":1}",
    "{\"actors\":4,\"events\":[[\"enq\",1,7],null],\"ring\":4,\"version\":1}",
];

#[test]
fn other_numbers_members_and_events_are_no_trace(rt: HostRuntime) {
    are_bad(&rt, rt.alloc(), BAD);
    let open = "[".repeat(rt.alloc(), 200).expect(&rt, "out of memory");
    are_bad(&rt, rt.alloc(), &[&open]);
    let not_utf8 = b"{\"actors\":4,\"events\":[[\"go\xff\",1]],\"ring\":4,\"version\":1}";
    let bad = TraceFault::BadTrace;
    fault_is(&rt, rt.alloc(), not_utf8, bad, "that is no UTF-8");
}

/// Texts of which an event is refused, and their faults.
const FAULTS: &[(&str, TraceFault)] = &[
    (
        "{\"actors\":4,\"events\":[[\"enq\",1,7],[\"go\",1],[\"starve\",1,true],[\"go\",9]],\"ring\":4,\"version\":1}",
        TraceFault::TraceStep {
            step: 3,
            cause: Refusal::NoChoice,
        },
    ),
    (
        "{\"actors\":4,\"events\":[[\"go\",0]],\"ring\":4,\"version\":1}",
        TraceFault::TraceStep {
            step: 1,
            cause: Refusal::NoActor,
        },
    ),
    (
        "{\"actors\":1,\"events\":[[\"deq\",1],[\"deq\",2]],\"ring\":2,\"version\":1}",
        TraceFault::TraceStep {
            step: 2,
            cause: Refusal::NoActor,
        },
    ),
];

#[test]
fn the_first_refused_event_is_named(rt: HostRuntime) {
    faults_are(&rt, rt.alloc(), FAULTS);
}

/// A trace with white space, an escape and another order of keys, and as it is written.
const SPACED: &[u8] =
    b" {\t\"version\" : 1,\r\n\"ring\":2 , \"events\": [ [ \"\\u0065nq\" , 1, 7 ],[\"go\",1] ],\"actors\":16 }\n\n";

const COMPACT: &str =
    "{\"events\":[[\"enq\",1,7],[\"go\",1]],\"marks\":[],\"ring\":2,\"start\":{\"fresh\":16},\"undone\":[],\"version\":2}\n";

#[test]
fn white_space_escapes_and_the_order_of_keys_do_not_matter(rt: HostRuntime) {
    match load_trace(rt.alloc(), SPACED) {
        Ok(AnyBook::Two(book)) => text_is(&rt, rt.alloc(), &book, COMPACT),
        _ => panic!(&rt; "no trace of the ring"),
    }
}
