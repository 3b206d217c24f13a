//! Lines that are long or lack their line feed, in a script and in a whole text; and the lines of
//! headings.

use super::runs::{Shown, over_poised, poised, report_is};
use rd_marks::Command;
use rd_text::{Heading, LineFault, Text, lines, set_heading};
use std::alloc::Global;
use std::process::Abort;

/// Scripts whose last line has no line feed, or nothing before it.
const LAST_LINES: &[Shown] = &[
    ("an empty script", &[("", "")]),
    ("a line alone", &[("go 4", "ok 1\n")]),
    ("a last line", &[("go 4\nundo", "ok 1\nat 0 1\n")]),
    (
        "empty lines",
        &[("\n\n", "refused 22 BadLine\nrefused 22 BadLine\n")],
    ),
];

#[test]
fn a_last_line_may_lack_its_line_feed(rt: HostRuntime) {
    over_poised::<4>(&rt, rt.alloc(), LAST_LINES);
}

/// A line of this many bytes, and another line after it.
fn long_line(rt: &impl Abort, alloc: Global, length: usize, last: &str) -> String {
    let mut text = "x".repeat(alloc, length).expect(rt, "out of memory");
    assert!(rt; text.push_str("\n").is_ok() && text.push_str(last).is_ok());
    text
}

/// Compares the report of a script whose first line has this many bytes.
fn long_lines_are(rt: &impl Abort, alloc: Global, rows: &[(usize, &str)]) {
    for (length, report) in rows {
        let script = long_line(rt, alloc, *length, "go 3\n");
        let book = &mut poised::<4>(rt, alloc);
        report_is(rt, alloc, book, "a long line", &script, *report);
    }
}

#[test]
fn a_line_of_256_bytes_is_bad_and_a_longer_one_too_long(rt: HostRuntime) {
    long_lines_are(
        &rt,
        rt.alloc(),
        &[
            (256, "refused 22 BadLine\nok 1\n"),
            (257, "refused 23 LineTooLong\nok 1\n"),
            (1000, "refused 23 LineTooLong\nok 1\n"),
        ],
    )
}

/// Compares what the lines of a text say with what is wanted of each.
fn lines_say(rt: &impl Abort, alloc: Global, text: &str, wanted: &[Result<Command, LineFault>]) {
    let said = lines(alloc, text.as_bytes()).expect(rt, "out of memory");
    assert!(rt; said.as_slice() == wanted, "text {text}");
}

#[test]
fn a_whole_text_says_what_each_of_its_lines_says(rt: HostRuntime) {
    let alloc = rt.alloc();
    lines_say(&rt, alloc, "", &[]);
    lines_say(&rt, alloc, "\n", &[Err(LineFault::BadLine)]);
    lines_say(
        &rt,
        alloc,
        "\n\nlen",
        &[
            Err(LineFault::BadLine),
            Err(LineFault::BadLine),
            Ok(Command::Len),
        ],
    );
    lines_say(&rt, alloc, "go 1", &[Ok(Command::Go(1))]);
    lines_say(&rt, alloc, "go 1\n", &[Ok(Command::Go(1))]);
    lines_say(
        &rt,
        alloc,
        "enq 3 7\nhello\nmark A\nundo 2\n",
        &[
            Ok(Command::Enq(3, 7)),
            Err(LineFault::BadLine),
            Err(LineFault::BadName),
            Ok(Command::UndoAt(2)),
        ],
    )
}

/// Compares what a first line of this many bytes, with another one after it, says in a whole text.
fn long_lines_say(rt: &impl Abort, alloc: Global, rows: &[(usize, LineFault)]) {
    for (length, fault) in rows {
        let text = long_line(rt, alloc, *length, "len");
        lines_say(rt, alloc, &text, &[Err(*fault), Ok(Command::Len)]);
    }
}

#[test]
fn a_long_line_of_a_whole_text_is_too_long(rt: HostRuntime) {
    long_lines_say(
        &rt,
        rt.alloc(),
        &[(256, LineFault::BadLine), (257, LineFault::LineTooLong)],
    )
}

/// Compares the text of each heading with its line.
fn headings_are(rt: &impl Abort, rows: &[(Heading, &str)]) {
    let mut text = Text::new();
    for (heading, line) in rows {
        set_heading(&mut text, *heading);
        assert!(rt; text.as_slice() == line.as_bytes(), "line {line}");
    }
}

#[test]
fn each_heading_has_its_line(rt: HostRuntime) {
    headings_are(
        &rt,
        &[
            (Heading::Viewer(1), "viewer 1\n"),
            (Heading::Viewer(64), "viewer 64\n"),
            (Heading::History(0), "history 0\n"),
            (Heading::History(100_000), "history 100000\n"),
        ],
    )
}
