//! Traces of played scripts, and texts that are none.

ghost use Rattle.std.specs.Prelude.{◌≤◌};

mod again;
mod devices;
mod limits;
mod long_runs;
mod questions;
mod second_texts;
mod sessions;
mod starts;
mod texts;

use rd_cell::Refusal;
use rd_devices::{ReadSource, WriteSink};
use rd_journal::Session;
use rd_marks::Book;
use rd_script::run;
use rd_step::World;
use rd_trace::{AnyBook, TraceFault, load_trace, write_trace};
use std::alloc::Global;
use std::process::Abort;

/// Lines, each with how often it is played.
type Lines = &'static [(&'static str, u64)];

/// Plays a script over a book, and answers its report.
fn report<const R: usize>(
    rt: &impl Abort,
    alloc: Global,
    script: &str,
    book: &mut Book<R>,
) -> Vec<u8> {
    let mut report = Vec::new(alloc);
    let script = &mut ReadSource::new(script.as_bytes());
    run(script, &mut WriteSink::new(&mut report), book).expect(rt, "not played");
    report
}

/// A book over a fresh world of four actors, in which each of these lines was played this many
/// times.
fn played<const R: usize>(rt: &impl Abort, alloc: Global, lines: Lines) -> Book<R>
    requires positive { 1 ≤ R }
    requires small { R ≤ 64 }
{
    let world = World::<R>::fresh(alloc, 4).expect(rt, "out of memory");
    let mut book = Book::open(alloc, Session::open(alloc, world));
    for (line, times) in lines {
        let script = line
            .repeat(alloc, *times as usize)
            .expect(rt, "out of memory");
        let _ = report(rt, alloc, &script, &mut book);
    }
    book
}

/// The text that is written of a book.
fn written<const R: usize>(rt: &impl Abort, alloc: Global, book: &Book<R>) -> Vec<u8> {
    let mut text = Vec::new(alloc);
    write_trace(alloc, &mut WriteSink::new(&mut text), book).expect(rt, "not written");
    text
}

/// The text that is written of a book is this one.
fn text_is<const R: usize>(rt: &impl Abort, alloc: Global, book: &Book<R>, text: &str) {
    let right = written(rt, alloc, book).as_slice() == text.as_bytes();
    assert!(rt; right, "trace {text}");
}

/// The text that is written of the book of these lines is this one.
fn is_written<const R: usize>(rt: &impl Abort, alloc: Global, lines: Lines, text: &str)
    requires positive { 1 ≤ R }
    requires small { R ≤ 64 }
{
    text_is(rt, alloc, &played::<R>(rt, alloc, lines), text);
}

/// Compares why the bytes that are shown so are not loaded.
fn fault_is(rt: &impl Abort, alloc: Global, bytes: &[u8], fault: TraceFault, shown: &str) {
    assert!(rt;
        load_trace(alloc, bytes).err() == Some(fault),
        "trace {shown}"
    );
}

/// Compares why each text isn't loaded.
fn faults_are(rt: &impl Abort, alloc: Global, rows: &[(&str, TraceFault)]) {
    for (text, fault) in rows {
        fault_is(rt, alloc, text.as_bytes(), *fault, *text);
    }
}

/// Each text is no trace.
fn are_bad(rt: &impl Abort, alloc: Global, texts: &[&str]) {
    for text in texts {
        fault_is(rt, alloc, text.as_bytes(), TraceFault::BadTrace, *text);
    }
}

/// Live events, and the text of their trace over rings of four cells.
const LIVE: (Lines, &str) = (
    &[("enq 1 7\n", 1), ("go 1\n", 1)],
    "{\"events\":[[\"enq\",1,7],[\"go\",1]],\"marks\":[],\"ring\":4,\"start\":{\"fresh\":4},\"undone\":[],\"version\":2}\n",
);

/// An event of each other word, and the text of their trace over rings of eight cells.
const WORDS: (Lines, &str) = (
    &[
        ("deq 2\n", 1),
        ("aenq 3 18446744073709551615\n", 1),
        ("adeq 4\n", 1),
        ("starve 4 no\n", 1),
    ],
    "{\"events\":[[\"deq\",2],[\"aenq\",3,18446744073709551615],[\"adeq\",4]],\"marks\":[],\"ring\":8,\"start\":{\"fresh\":4},\"undone\":[],\"version\":2}\n",
);

/// An event, and what is written of it over rings of three cells, which no trace has.
const NO_RING: (Lines, &str) = (
    &[("adeq 4\n", 1)],
    "{\"events\":[[\"adeq\",4]],\"marks\":[],\"ring\":3,\"start\":{\"fresh\":4},\"undone\":[],\"version\":2}\n",
);

#[test]
fn the_live_events_are_written_each_by_its_word_also_over_a_ring_that_no_trace_has(
    rt: HostRuntime,
) {
    is_written::<4>(&rt, rt.alloc(), LIVE.0, LIVE.1);
    is_written::<8>(&rt, rt.alloc(), WORDS.0, WORDS.1);
    is_written::<3>(&rt, rt.alloc(), NO_RING.0, NO_RING.1);
    are_bad(&rt, rt.alloc(), &[NO_RING.1]);
}
