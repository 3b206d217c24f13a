//! Traces that are refused memory while they are written, and while they are loaded.

use super::trials::{has_text, on_trial};
use rd_devices::{ReadSource, WriteSink};
use rd_marks::Book;
use rd_program::{ProgramFault, load_book, play};
use rd_script::run_any_book;
use rd_trace::{AnyBook, TraceFault, load_trace, write_trace};
use std::alloc::Global;
use std::process::Abort;

/// The lines of a session: seven steps, a bookmark after them, and two undos.
pub(super) const STEPS: &str = "\
    enq 1 7\ngo 1\naenq 2 18446744073709551615\ndeq 3\ngo 3\ngo 3\ngo 3\nmark a\nback 2";

/// Its trace.
pub(super) const TRACE: &[u8] =
    b"{\"events\":[[\"enq\",1,7],[\"go\",1],[\"aenq\",2,18446744073709551615],[\"deq\",3],[\"go\",3]],\"marks\":[{\"events\":[[\"enq\",1,7],[\"go\",1],[\"aenq\",2,18446744073709551615],[\"deq\",3],[\"go\",3],[\"go\",3],[\"go\",3]],\"name\":\"a\"}],\"ring\":2,\"start\":{\"fresh\":4},\"undone\":[[\"go\",3],[\"go\",3]],\"version\":2}\n";

/// Whether a trace was written whole, as this text. If not, memory was refused, and nothing was
/// written.
fn is_whole(rt: &impl Abort, answer: Result<(), TraceFault>, page: &Vec<u8>, text: &[u8]) -> bool {
    match answer {
        Ok(()) => {
            assert!(rt; has_text(page, text));
            true
        }
        Err(fault) => {
            assert!(rt; fault == TraceFault::NoMemory && page.is_empty());
            false
        }
    }
}

/// Whether the trace of a book is written as it should be. If not, memory was refused, and nothing
/// was written.
fn is_written(rt: &impl Abort, alloc: Global, book: &Book<2>, page: &mut Vec<u8>) -> bool {
    page.clear();
    let answer = write_trace(alloc, &mut WriteSink::new(&mut *page), book);
    is_whole(rt, answer, page, TRACE)
}

#[test]
fn a_trace_that_was_refused_memory_is_not_begun_and_is_written_the_next_time(rt: HostRuntime) {
    let mut one = on_trial(&rt, rt.alloc());
    let mut twin = on_trial(&rt, rt.alloc());
    assert!(&rt; one.obeys_all(STEPS) && twin.obeys_all(STEPS));
    let written = is_written(&rt, rt.alloc(), &one.book, &mut one.report);
    assert!(&rt; written || is_written(&rt, rt.alloc(), &one.book, &mut one.report));
    assert!(&rt; one.is_as(&mut twin));
}

/// A trace, and what a book of it answers to a script.
struct Row {
    trace: &'static [u8],
    script: &'static [u8],
    report: &'static [u8],
}

/// Traces of version 1, over rings of four and of two cells.
const FIRST_ROWS: &[Row] = &[
    Row {
        trace: b"{\"actors\":4,\"events\":[[\"enq\",1,7],[\"go\",1]],\"ring\":4,\"version\":1}\n",
        script: b"len\nmarks\nstep 1\nstep 2\nundo\nactor 1\nshow cell 0.0 3",
        report: b"at 2 0\nmarks 0\nstep 1; enq 1 7; -; none; -; -\nstep 2; go 1; qtail; read; 0.0; -\nat 1 1\nactor E1 enq 7 crq 0.0 new 0.0 next 0.0 t 0 h 0 closed 0 val none safe 0 idx 0 pass 0\nis 1 3 none\n",
    },
    Row {
        trace: b"{\"actors\":4,\"events\":[[\"enq\",1,7],[\"go\",1],[\"aenq\",2,18446744073709551615],[\"deq\",3],[\"go\",3],[\"go\",3],[\"go\",3]],\"ring\":2,\"version\":1}\n",
        script: b"len\nstep 3\nstep 7\nshow head 0.0\nback 2\nshow head 0.0",
        report: b"at 7 0\nstep 3; aenq 2 18446744073709551615; -; none; -; -\nstep 7; go 3; value 0.0 0; read; none; -\nis 1\nat 5 2\nis 0\n",
    },
];

/// Traces of version 2: one with bookmarks and undone events, one with an undone event alone, one
/// with a bookmark alone, and one that starts with its actor at the fetch-and-add of an enqueue.
const ROWS: &[Row] = &[
    Row {
        trace: TRACE,
        script: b"len\nmarkat 1\nshow head 0.0\nforward 2\nstep 7\nshow head 0.0",
        report: b"at 5 2\nmark a 7\nis 0\nat 7 0\nstep 7; go 3; value 0.0 0; read; none; -\nis 1\n",
    },
    Row {
        trace: b"{\"events\":[[\"enq\",1,7]],\"marks\":[],\"ring\":4,\"start\":{\"fresh\":4},\"undone\":[[\"go\",1]],\"version\":2}\n",
        script: b"len\nredo\nredo",
        report: b"at 1 1\nat 2 0\nrefused 11 NothingToRedo\n",
    },
    Row {
        trace: b"{\"events\":[],\"marks\":[{\"events\":[[\"deq\",1]],\"name\":\"a\"}],\"ring\":2,\"start\":{\"fresh\":1},\"undone\":[],\"version\":2}\n",
        script: b"len\nmarks\nmarkat 1\nredo",
        report: b"at 0 0\nmarks 1\nmark a 1\nrefused 11 NothingToRedo\n",
    },
    Row {
        trace: b"{\"events\":[[\"go\",1]],\"marks\":[],\"ring\":2,\"start\":{\"actors\":[{\"closed\":false,\"crq\":[0,0],\"h\":0,\"idx\":0,\"new\":[0,0],\"next\":[0,0],\"op\":[\"enq\",1],\"pass\":0,\"pc\":\"E4\",\"safe\":false,\"t\":0,\"val\":null}],\"array\":{\"cells\":[[3,\"top\"]],\"head\":0,\"tail\":0},\"qhead\":[0,0],\"qtail\":[0,0],\"segments\":[[{\"cells\":[[true,0,null],[true,1,null]],\"closed\":false,\"head\":0,\"next\":null,\"tail\":1}],[]]},\"undone\":[],\"version\":2}\n",
        script: b"len\nshow tail 0.0\nactor 1\nshow acell 3\nundo\nshow tail 0.0",
        report: b"at 1 0\nis open 2\nactor E5 enq 1 crq 0.0 new 0.0 next 0.0 t 1 h 0 closed 0 val none safe 0 idx 0 pass 0\nis top\nat 0 1\nis open 1\n",
    },
];

/// The book that a trace is loaded as. If there is none, memory was refused.
fn loaded(rt: &impl Abort, alloc: Global, trace: &[u8]) -> Option<AnyBook> {
    match load_trace(alloc, trace) {
        Ok(book) => Some(book),
        Err(fault) => {
            assert!(rt; fault == TraceFault::NoMemory);
            None
        }
    }
}

/// Whether a trace is loaded as it should be. If not, memory was refused, and there is no book.
fn is_loaded(rt: &impl Abort, alloc: Global, row: &Row, page: &mut Vec<u8>) -> bool {
    page.clear();
    match loaded(rt, alloc, row.trace) {
        None => false,
        Some(mut book) => {
            let script = &mut ReadSource::new(row.script);
            let played = run_any_book(script, &mut WriteSink::new(&mut *page), &mut book);
            assert!(rt; played.is_ok() && has_text(page, row.report));
            true
        }
    }
}

/// Each trace is loaded as it should be, though one load may be refused memory.
fn are_loaded(rt: &impl Abort, alloc: Global, rows: &[Row], page: &mut Vec<u8>) {
    for row in rows {
        let first = is_loaded(rt, alloc, row, page);
        assert!(rt; first || is_loaded(rt, alloc, row, page));
    }
}

#[test]
fn a_trace_whose_loading_was_refused_memory_is_loaded_whole_the_next_time(rt: HostRuntime) {
    let mut page = on_trial(&rt, rt.alloc()).report;
    are_loaded(&rt, rt.alloc(), FIRST_ROWS, &mut page);
    are_loaded(&rt, rt.alloc(), ROWS, &mut page);
}

/// Loads a trace, and writes the trace of its session.
fn saved_again(alloc: Global, trace: &[u8], page: &mut Vec<u8>) -> Result<u64, ProgramFault> {
    let mut book = load_book(alloc, trace)?;
    let script = &mut ReadSource::new(b"".as_slice());
    play(alloc, script, &mut WriteSink::new(page), &mut book, true)
}

/// Whether the session that a trace is loaded as is written as that trace. If not, memory was
/// refused, and nothing was written.
fn comes_back(rt: &impl Abort, alloc: Global, trace: &[u8], page: &mut Vec<u8>) -> bool {
    page.clear();
    match saved_again(alloc, trace, page) {
        Err(ProgramFault::Trace(fault)) => is_whole(rt, Err(fault), page, trace),
        saved => {
            assert!(rt; matches!(saved, Ok(0)));
            is_whole(rt, Ok(()), page, trace)
        }
    }
}

#[test]
fn a_loaded_trace_that_was_refused_memory_is_written_as_its_text_the_next_time(rt: HostRuntime) {
    let mut page = on_trial(&rt, rt.alloc()).report;
    for row in ROWS {
        let first = comes_back(&rt, rt.alloc(), row.trace, &mut page);
        assert!(&rt; first || comes_back(&rt, rt.alloc(), row.trace, &mut page));
    }
}
