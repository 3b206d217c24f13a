//! Traces and views that are written to a writer which takes one byte a call, and ends at each of
//! its calls.

use super::super::trials::on_trial;
use super::super::{traces, views};
use rd_devices::WriteSink;
use rd_marks::Book;
use rd_trace::{TraceFault, write_trace};
use rd_view::ViewFault;
use std::alloc::Global;
use std::process::Abort;
use std::sync::Wait;
use std::thread::Threads;
use test_kit::{End, Limit, LimitedWriter};

/// Whether a trace whose writer ends after this many bytes ends with just these written.
fn trace_ends(alloc: Global, book: &Book<2>, page: &mut Vec<u8>, calls: usize, end: End) -> bool {
    page.clear();
    let most = 1;
    let writer = LimitedWriter::with_limit(&mut *page, Limit { calls, most, end });
    let fault = write_trace(alloc, &mut WriteSink::new(writer), book).err();
    fault == Some(TraceFault::Write)
        && page.len() == calls
        && traces::TRACE.starts_with(page.as_slice())
}

#[test]
fn a_trace_whose_writer_ends_at_any_call_leaves_a_beginning_of_its_text(rt: HostRuntime) {
    let mut trial = on_trial(&rt, rt.alloc());
    assert!(&rt; trial.obeys_all(traces::STEPS));
    for bytes in 0..traces::TRACE.len() {
        let (book, page) = (&trial.book, &mut trial.report);
        let ends = trace_ends(rt.alloc(), book, page, bytes, End::Fails)
            && trace_ends(rt.alloc(), book, page, bytes, End::TakesNone);
        assert!(&rt; ends, "{bytes} bytes");
    }
}

/// Whether a view whose writer ends after this many bytes ends with just these written.
fn view_ends<R: Abort + Threads + Wait + Sync>(
    rt: &R,
    page: &mut Vec<u8>,
    alloc: Global,
    calls: usize,
    end: End,
) -> bool {
    page.clear();
    let most = 1;
    let writer = LimitedWriter::with_limit(&mut *page, Limit { calls, most, end });
    let fault = views::viewed(rt, alloc, writer);
    fault == Some(ViewFault::Write)
        && page.len() == calls
        && views::USUAL.starts_with(page.as_slice())
}

#[test]
fn a_view_whose_writer_ends_at_any_call_leaves_a_beginning_of_its_text(rt: HostRuntime) {
    let mut page = on_trial(&rt, rt.alloc()).report;
    for bytes in 0..views::USUAL.len() {
        let ends = view_ends(&rt, &mut page, rt.alloc(), bytes, End::Fails)
            && view_ends(&rt, &mut page, rt.alloc(), bytes, End::TakesNone);
        assert!(&rt; ends, "{bytes} bytes");
    }
}
