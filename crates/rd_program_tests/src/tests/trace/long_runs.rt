//! Traces of long scripts of lines in an order that looks like chance: memory is there, and each is
//! loaded and written again.

ghost use Rattle.std.specs.Prelude.{◌≤◌};

use super::AnyBook;
use rd_devices::{ReadSource, WriteSink};
use rd_marks::Ring;
use rd_script::run_any_book;
use rd_trace::{load_trace, write_any_trace};
use std::alloc::Global;
use std::process::Abort;
use std::test::Fail;
use test_kit::long_script;

/// The text that is written of a book.
fn trace_of(rt: &impl Abort, alloc: Global, book: &AnyBook) -> Vec<u8> {
    let mut text = Vec::new(alloc);
    write_any_trace(alloc, &mut WriteSink::new(&mut text), book).expect(rt, "not written");
    text
}

/// The book of a script over the fresh world of this many actors and this ring.
fn book_of(rt: &impl Abort, alloc: Global, script: &str, ring: Ring, actors: u8) -> AnyBook
    requires some { 1 ≤ actors }
    requires few { actors ≤ 16 }
{
    let mut book = AnyBook::fresh(alloc, ring, actors).expect(rt, "out of memory");
    let mut report = Vec::new(alloc);
    let script = &mut ReadSource::new(script.as_bytes());
    run_any_book(script, &mut WriteSink::new(&mut report), &mut book).expect(rt, "not played");
    book
}

/// What is written of the book of a script is loaded, and written again.
fn comes_back(rt: &impl Abort, alloc: Global, script: &str, ring: Ring, actors: u8)
    requires some { 1 ≤ actors }
    requires few { actors ≤ 16 }
{
    let text = trace_of(rt, alloc, &book_of(rt, alloc, script, ring, actors));
    let loaded = load_trace(alloc, &text).expect(rt, "no trace");
    let again = trace_of(rt, alloc, &loaded);
    assert!(rt;
        again.as_slice() == text.as_slice(),
        "{actors} actors, {ring:?}"
    );
}

/// The kinds of lines.
const KINDS: &[&str] = &[
    "enq A K",
    "deq A",
    "enq A K",
    "deq A",
    "aenq A K",
    "adeq A",
    "starve A yes",
    "starve A no",
    "undo",
    "undo K",
    "roll K",
    "redo",
    "mark nK",
    "goto nK",
];

/// Runs a long script of lines of these kinds for this number of actors over each ring.
fn come_back(rt: &impl Abort, alloc: Global, actors: u8) -> Result<(), Fail>
    requires some { 1 ≤ actors }
    requires few { actors ≤ 16 }
{
    let script = long_script(alloc, KINDS, 32, u64::from(actors))?;
    comes_back(rt, alloc, &script, Ring::Two, actors);
    comes_back(rt, alloc, &script, Ring::Four, actors);
    comes_back(rt, alloc, &script, Ring::Eight, actors);
    Ok(())
}

#[test]
fn the_trace_of_a_long_run_comes_back(rt: HostRuntime) -> Result<(), Fail> {
    for actors in 1..17 {
        come_back(&rt, rt.alloc(), actors)?;
    }
    Ok(())
}
