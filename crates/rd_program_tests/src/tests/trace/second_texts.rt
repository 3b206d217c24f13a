//! Texts of version 2 that are no trace.

use super::{are_bad, fault_is};
use rd_trace::TraceFault;
use std::alloc::Global;
use std::process::Abort;

/// The trace of an enqueue's first two steps, with a bookmark at the first of them.
const WHOLE: &str =
    "{\"events\":[[\"enq\",1,7],[\"go\",1]],\"marks\":[{\"events\":[[\"enq\",1,7]],\"name\":\"a\"}],\"ring\":4,\"start\":{\"fresh\":4},\"undone\":[],\"version\":2}";

/// With the new part for the old one, the text is no trace.
fn with_is_bad(rt: &impl Abort, alloc: Global, old: &str, new: &str) {
    let text = WHOLE
        .replacen(alloc, old, new, 1)
        .expect(rt, "out of memory");
    are_bad(rt, alloc, &[&text]);
}

#[test]
fn a_text_that_is_cut_is_no_trace(rt: HostRuntime) {
    let whole = WHOLE.as_bytes();
    for end in 0..whole.len() {
        fault_is(
            &rt,
            rt.alloc(),
            &whole[..end],
            TraceFault::BadTrace,
            "that is cut",
        );
    }
}

/// The bookmark.
const MARK: &str = "{\"events\":[[\"enq\",1,7]],\"name\":\"a\"}";

/// Parts of the trace, and what makes it no trace in the place of each.
const BAD: &[(&str, &str)] = &[
    // other numbers and members
    ("\"version\":2", "\"version\":0"),
    ("\"version\":2", "\"version\":1"),
    ("\"version\":2", "\"version\":3"),
    ("\"version\":2", "\"version\":2.0"),
    ("\"version\":2", "\"version\":\"2\""),
    (",\"version\":2", ""),
    ("\"ring\":4", "\"ring\":3"),
    ("\"ring\":4", "\"ring\":16"),
    ("\"ring\":4,", ""),
    ("\"start\":{\"fresh\":4}", "\"start\":{\"fresh\":0}"),
    ("\"start\":{\"fresh\":4}", "\"start\":{\"fresh\":17}"),
    ("\"start\":{\"fresh\":4}", "\"start\":{\"fresh\":260}"),
    (
        "\"start\":{\"fresh\":4}",
        "\"start\":{\"fresh\":4,\"more\":1}",
    ),
    ("\"start\":{\"fresh\":4}", "\"start\":{}"),
    ("\"start\":{\"fresh\":4}", "\"start\":4"),
    ("\"start\":{\"fresh\":4}", "\"actors\":4"),
    ("\"events\":[[\"enq\",1,7],[\"go\",1]],", ""),
    (
        "\"marks\":[{\"events\":[[\"enq\",1,7]],\"name\":\"a\"}],",
        "",
    ),
    ("\"marks\":[", "\"bookmarks\":["),
    ("\"start\":{\"fresh\":4},", ""),
    ("\"start\":{\"fresh\":4}", "\"start\":{\"fresh\":4.0}"),
    ("\"start\":{\"fresh\":4}", "\"start\":{\"fresh\":\"4\"}"),
    ("\"start\":{\"fresh\":4}", "\"start\":{\"flesh\":4}"),
    ("\"undone\":[],", ""),
    ("\"undone\":[]", "\"undone\":{}"),
    ("\"undone\":[]", "\"undone\":[],\"more\":[]"),
    ("\"undone\":[]", "\"undone\":[[\"go\",256]]"),
    ("[\"go\",1]", "[\"go\",-1]"),
    ("[\"go\",1]", "[\"go\"]"),
    ("[\"go\",1]", "[\"enq\",1]"),
    ("[\"go\",1]", "[\"starve\",1,1]"),
    ("[\"go\",1]", "[\"hop\",1]"),
    ("[\"go\",1]", "null"),
    // other bookmarks
    ("\"name\":\"a\"", "\"name\":\"A\""),
    ("\"name\":\"a\"", "\"name\":\"\""),
    ("\"name\":\"a\"", "\"name\":\"a-name-of-17-byte\""),
    ("\"name\":\"a\"", "\"name\":1"),
    ("\"name\":\"a\"", "\"named\":\"a\""),
    ("\"name\":\"a\"", "\"name\":\"a\",\"len\":1"),
    (
        MARK,
        "{\"events\":[],\"name\":\"a\"},{\"events\":[],\"name\":\"a\"}",
    ),
    (
        MARK,
        "{\"events\":[],\"name\":\"a\"},{\"events\":[],\"name\":\"b\"},{\"events\":[],\"name\":\"a\"}",
    ),
    (MARK, "{\"name\":\"a\"}"),
    (MARK, "{\"events\":[[\"go\",256]],\"name\":\"a\"}"),
    (MARK, "[[[\"enq\",1,7]],\"a\"]"),
    ("\"marks\":[", "\"marks\":[null,"),
];

#[test]
fn other_numbers_members_and_bookmarks_are_no_trace(rt: HostRuntime) {
    for (old, new) in BAD {
        with_is_bad(&rt, rt.alloc(), *old, *new);
    }
}

/// Parts of the trace.
const PARTS: &[&str] = &["{\"fresh\":4}", "[\"go\",1]", "\"a\"", MARK];

#[test]
fn texts_that_are_nested_too_deep_are_no_trace(rt: HostRuntime) {
    let open = "[".repeat(rt.alloc(), 200).expect(&rt, "out of memory");
    let close = "]".repeat(rt.alloc(), 200).expect(&rt, "out of memory");
    let closed = format!(in rt.alloc(); "{open}{close}").expect(&rt, "out of memory");
    for part in PARTS {
        with_is_bad(&rt, rt.alloc(), *part, &open);
        with_is_bad(&rt, rt.alloc(), *part, &closed);
    }
}

/// Bytes that are no text: in a name, and in a key.
const NO_TEXTS: &[&[u8]] = &[
    b"{\"events\":[],\"marks\":[{\"events\":[],\"name\":\"a\xff\"}],\"ring\":4,\"start\":{\"fresh\":4},\"undone\":[],\"version\":2}",
    b"{\"events\":[],\"marks\":[],\"ring\":4,\"start\":{\"fresh\xc0\x80\":4},\"undone\":[],\"version\":2}",
];

#[test]
fn bytes_that_are_no_text_are_no_trace(rt: HostRuntime) {
    for bytes in NO_TEXTS {
        let bad = TraceFault::BadTrace;
        fault_is(&rt, rt.alloc(), *bytes, bad, "that is no UTF-8");
    }
}
