//! Runs of a script over devices that fail at each of their calls.

use super::super::trials::{Trial, has_text, on_trial, plays};
use rd_devices::{ReadSource, ScriptFault, WriteSink};
use rd_marks::Book;
use rd_script::run;
use std::alloc::Global;
use std::process::Abort;
use test_kit::{End, Limit, LimitedReader, LimitedWriter};

/// A script with each command, obeyed or refused, and lines that spell none. Its last line has no
/// line feed.
const SCRIPT: &[u8] =
    b"enq 1 7\ngo 1\nmark a\nhello\n\ngo 9\nundo\nundo 5\nredo\ndeq 2\naenq 3 5\nadeq 4\nstarve 1 yes\nback 2\nforward 1\nroll 1\nshow qtail\nactor 1\nstep 1\nmark A\nsame a b\ngoto a\nmarkat 1\norigin 1\nwriter qtail\ndrop a\nmarks\nlen";

/// The beginning of a text up to its line feed of this number, or the whole text if it has fewer.
fn lines_of(text: &[u8], lines: usize) -> &[u8] {
    let mut left = lines;
    for i in 0..text.len() {
        if left == 0 {
            return &text[..i];
        }
        if text[i] == b'\n' {
            left -= 1;
        }
    }
    text
}

/// How many line feeds are in a text.
fn line_feeds(text: &[u8]) -> usize {
    let mut count: usize = 0;
    for byte in text {
        if *byte == b'\n' {
            count = count.saturating_add(1);
        }
    }
    count
}

/// How a run over these devices ends, if it is at a fault.
fn fault_of(
    reader: LimitedReader<'_>,
    writer: LimitedWriter<'_>,
    book: &mut Book<2>,
) -> Option<ScriptFault> {
    run(
        &mut ReadSource::new(reader),
        &mut WriteSink::new(writer),
        book,
    )
    .err()
}

/// A run whose reader gives one byte a call and fails after this many: the whole lines among these
/// are obeyed and answered, and no more.
fn read_fails(failed: &mut Trial, twin: &mut Trial, bytes: usize) -> bool {
    let reader = LimitedReader::new(SCRIPT, bytes, 1);
    let writer = LimitedWriter::without_limit(&mut failed.report);
    let fault = fault_of(reader, writer, &mut failed.book);
    let whole = lines_of(SCRIPT, line_feeds(&SCRIPT[..bytes.min(SCRIPT.len())]));
    fault == Some(ScriptFault::Read)
        && plays(&mut twin.book, &[whole], &mut twin.report)
        && failed.report.as_slice() == twin.report.as_slice()
        && failed.is_as(twin)
}

/// Whether a run over two fresh books is as `read_fails` says.
fn read_fails_at(rt: &impl Abort, alloc: Global, bytes: usize) -> bool {
    let mut failed = on_trial(rt, alloc);
    let mut twin = on_trial(rt, alloc);
    read_fails(&mut failed, &mut twin, bytes)
}

#[test]
fn a_read_that_fails_at_any_call_leaves_the_whole_lines_before_it_done(rt: HostRuntime) {
    for bytes in 0..SCRIPT.len() + 1 {
        assert!(&rt; read_fails_at(&rt, rt.alloc(), bytes), "{bytes} bytes");
    }
}

/// A run whose writer takes no more than this: the line whose answer it was to take is obeyed, and
/// no later one.
fn write_fails(failed: &mut Trial, twin: &mut Trial, limit: Limit) -> bool {
    let reader = LimitedReader::new(SCRIPT, usize::MAX, usize::MAX);
    let writer = LimitedWriter::with_limit(&mut failed.report, limit);
    let fault = fault_of(reader, writer, &mut failed.book);
    let answered = line_feeds(failed.report.as_slice());
    let obeyed = lines_of(SCRIPT, answered.saturating_add(1));
    fault == Some(ScriptFault::Write)
        && plays(&mut twin.book, &[obeyed], &mut twin.report)
        && twin.report.len() > failed.report.len()
        && twin.report.starts_with(failed.report.as_slice())
        && failed.is_as(twin)
}

/// In how many calls a writer takes a text: in each, one byte, or else a whole reply.
fn calls_for(text: &[u8], most: usize) -> usize {
    if most == 1 {
        text.len()
    } else {
        line_feeds(text)
    }
}

/// Whether a run over two fresh books is as `write_fails` says, and each good call took its part.
fn write_fails_at(rt: &impl Abort, alloc: Global, limit: Limit) -> bool {
    let mut failed = on_trial(rt, alloc);
    let mut twin = on_trial(rt, alloc);
    write_fails(&mut failed, &mut twin, limit)
        && calls_for(failed.report.as_slice(), limit.most) == limit.calls
}

/// Lets the writer end at each byte of the report, or else at each reply.
fn writes_fail(rt: &impl Abort, alloc: Global, most: usize, end: End) {
    let mut usual = on_trial(rt, alloc);
    assert!(rt; plays(&mut usual.book, &[SCRIPT], &mut usual.report));
    assert!(rt; line_feeds(usual.report.as_slice()) == line_feeds(SCRIPT).saturating_add(1));
    for calls in 0..calls_for(usual.report.as_slice(), most) {
        let limit = Limit { calls, most, end };
        assert!(rt; write_fails_at(rt, alloc, limit), "{calls} calls of {most}");
    }
}

#[test]
fn a_write_that_fails_at_any_call_leaves_the_lines_up_to_it_done(rt: HostRuntime) {
    writes_fail(&rt, rt.alloc(), 1, End::Fails);
    writes_fail(&rt, rt.alloc(), usize::MAX, End::Fails);
}

#[test]
fn a_write_that_takes_nothing_at_any_call_leaves_the_lines_up_to_it_done(rt: HostRuntime) {
    writes_fail(&rt, rt.alloc(), 1, End::TakesNone);
    writes_fail(&rt, rt.alloc(), usize::MAX, End::TakesNone);
}

/// Whether a run whose reader gives, and whose writer takes, one byte a call is as one over devices
/// that do all at once.
fn is_run(slow: &mut Trial, twin: &mut Trial) -> bool {
    let limit = Limit {
        calls: usize::MAX,
        most: 1,
        end: End::Fails,
    };
    let reader = LimitedReader::new(SCRIPT, usize::MAX, 1);
    let writer = LimitedWriter::with_limit(&mut slow.report, limit);
    let fault = fault_of(reader, writer, &mut slow.book);
    fault.is_none()
        && plays(&mut twin.book, &[SCRIPT], &mut twin.report)
        && slow.report.as_slice() == twin.report.as_slice()
        && slow.is_as(twin)
}

#[test]
fn a_script_that_is_read_and_answered_one_byte_a_call_is_run_as_ever(rt: HostRuntime) {
    let mut slow = on_trial(&rt, rt.alloc());
    let mut twin = on_trial(&rt, rt.alloc());
    assert!(&rt; is_run(&mut slow, &mut twin));
}

/// A run of a script over devices that fail, and how it ends.
struct Row {
    script: &'static [u8],
    /// How many bytes the writer takes, one a call.
    takes: usize,
    fault: ScriptFault,
    report: &'static [u8],
    /// How many steps are live.
    live: u64,
}

/// A reader that gives all that there is and then fails, and a writer that takes three bytes and
/// then fails.
const ROWS: &[Row] = &[
    Row {
        script: b"enq 1 7\ngo 1\ngo",
        takes: 1000,
        fault: ScriptFault::Read,
        report: b"ok 1\nok 2\n",
        live: 2,
    },
    Row {
        script: b"enq 1 7\ngo 1",
        takes: 3,
        fault: ScriptFault::Write,
        report: b"ok ",
        live: 1,
    },
];

/// Whether a run over devices that fail ends so.
fn ends_so(failed: &mut Trial, row: &Row) -> bool {
    let limit = Limit {
        calls: row.takes,
        most: 1,
        end: End::Fails,
    };
    let reader = LimitedReader::new(row.script, 1, 1000);
    let writer = LimitedWriter::with_limit(&mut failed.report, limit);
    let fault = fault_of(reader, writer, &mut failed.book);
    fault == Some(row.fault)
        && has_text(&failed.report, row.report)
        && failed.book.session().len() == row.live
}

#[test]
fn a_line_that_is_cut_off_is_not_done_and_one_whose_answer_is_cut_off_is_done(rt: HostRuntime) {
    for row in ROWS {
        let mut failed = on_trial(&rt, rt.alloc());
        assert!(&rt; ends_so(&mut failed, row));
    }
}
