//! Sinks that fail or take little.

use super::played;
use rd_devices::WriteSink;
use rd_marks::Book;
use rd_trace::{TraceFault, write_trace};
use std::alloc::Global;
use std::process::Abort;
use test_kit::{End, Limit, LimitedWriter};

/// The trace of one event.
const TRACE: &[u8] =
    b"{\"events\":[[\"deq\",1]],\"marks\":[],\"ring\":2,\"start\":{\"fresh\":4},\"undone\":[],\"version\":2}\n";

/// How many good writes of how many bytes a writer takes, the answer, and how many bytes are taken.
const WRITES: &[(usize, usize, Result<(), TraceFault>, usize)] = &[
    (0, 100, Err(TraceFault::Write), 0),
    (3, 2, Err(TraceFault::Write), 6),
    (5, 0, Err(TraceFault::Write), 0),
    (1, 100, Ok(()), 87),
    (87, 1, Ok(()), 87),
];

/// Writes the trace of a book to a writer that takes so much, and compares the answer and how many
/// bytes were taken.
fn write_is(
    rt: &impl Abort,
    alloc: Global,
    book: &Book<2>,
    (calls, most): (usize, usize),
    answer: Result<(), TraceFault>,
    len: usize,
) {
    let mut taken = Vec::new(alloc);
    let end = End::Fails;
    let writer = LimitedWriter::with_limit(&mut taken, Limit { calls, most, end });
    let said = write_trace(alloc, &mut WriteSink::new(writer), book);
    let began = TRACE.get(..len) == Some(taken.as_slice());
    assert!(rt; said == answer && began, "{calls} writes of {most}");
}

#[test]
fn a_failed_write_leaves_a_beginning_of_the_trace(rt: HostRuntime) {
    let book = played::<2>(&rt, rt.alloc(), &[("deq 1\n", 1)]);
    for (calls, most, answer, len) in WRITES {
        write_is(&rt, rt.alloc(), &book, (*calls, *most), *answer, *len);
    }
}
