//! Bookmarks that share their beginnings: how many nodes are kept for them.

use super::runs::fresh;
use rd_marks::Book;
use rd_text::parse_command;
use std::alloc::Global;
use std::process::Abort;

/// Has a book obey each line, none of which is refused, and counts the nodes after each.
fn line_keeps(rt: &impl Abort, book: &mut Book<4>, line: &str, nodes: u64) {
    let Ok(command) = parse_command(line.as_bytes()) else {
        panic!(rt; "line {line}")
    };
    assert!(rt;
        book.obey(command).is_ok() && book.nodes() == nodes,
        "line {line}"
    );
}

/// Has a book obey the lines of each row, none of which is refused, and counts the nodes after each
/// line.
fn rows_keep(rt: &impl Abort, book: &mut Book<4>, rows: &[(&str, u64)]) {
    for (lines, nodes) in rows {
        for line in lines.lines() {
            line_keeps(rt, book, line, *nodes);
        }
    }
}

/// Lines, and how many nodes a book keeps after each of them.
type Kept = &'static [(&'static str, u64)];

/// Has a book over a fresh world obey the lines that come before, and then those of each row, and
/// counts the nodes after each line.
fn over_fresh_keep(rt: &impl Abort, alloc: Global, before: Kept, rows: &[Kept]) {
    for row in rows {
        let mut book = fresh::<4>(rt, alloc, 4);
        rows_keep(rt, &mut book, before);
        rows_keep(rt, &mut book, *row);
    }
}

/// Bookmarks of schedules that share steps, and that go although the steps stand there.
const SHARED: &[Kept] = &[
    // Two schedules of four steps share two.
    &[
        ("enq 1 7\ndeq 2\ngo 1\ngo 2\n", 0),
        ("mark a\nback 2\ngo 2\ngo 1\n", 4),
        ("mark b\n", 6),
        ("drop a\nmark c\nback 4\nmark d\ndrop b\n", 4),
        ("drop c\ndrop d\n", 0),
    ],
    // Two schedules of eight steps share six.
    &[
        ("enq 1 7\nenq 2 8\ngo 1\ngo 1\ngo 2\ngo 2\ngo 1\ngo 2\n", 0),
        ("mark a\nback 2\ngo 2\ngo 1\n", 8),
        ("mark b\n", 10),
    ],
    // Bookmarks after undos keep what they do not share.
    &[
        ("enq 1 7\ndeq 2\ngo 1\ngo 2\n", 0),
        ("mark a\nundo 3\n", 4),
        ("mark b\nredo\n", 5),
        ("mark c\nroll 1\n", 6),
        ("mark d\ngoto a\nmark e\ngoto b\ngo 1\nmark f\ndrop c\n", 8),
        ("drop f\ngoto d\ngo 2\n", 7),
        ("mark g\n", 8),
    ],
    // Bookmarks go although the steps stand there.
    &[
        ("enq 1 7\ndeq 2\ngo 1\ngo 2\n", 0),
        (
            "mark a\nundo\nmark b\nredo\nmark c\nback 2\ngo 2\ngo 1\n",
            4,
        ),
        ("mark d\nundo 3\nmark e\ngoto d\nroll 2\n", 6),
        ("mark f\ngoto a\ndrop a\n", 7),
        ("drop c\n", 6),
        ("mark g\ngoto f\ngoto b\nundo\ndrop b\n", 7),
        ("drop g\n", 6),
        ("drop e\n", 5),
        ("drop d\n", 2),
        ("drop f\nredo\n", 0),
        ("mark h\n", 3),
    ],
];

#[test]
fn bookmarks_keep_what_they_do_not_share(rt: HostRuntime) {
    over_fresh_keep(&rt, rt.alloc(), &[], SHARED);
}

/// Three bookmarks: two share two steps, and the third is at three steps of the first.
const THREE: Kept = &[
    ("enq 1 7\ndeq 2\ngo 1\ngo 2\n", 0),
    ("mark a\nback 2\ngo 2\ngo 1\n", 4),
    ("mark b\ngoto a\nback 1\nmark c\n", 6),
];

/// The three, dropped in each order.
const DROPPED: &[Kept] = &[
    &[("drop a\n", 5), ("drop b\n", 3), ("drop c\n", 0)],
    &[("drop a\n", 5), ("drop c\n", 4), ("drop b\n", 0)],
    &[("drop b\n", 4), ("drop a\n", 3), ("drop c\n", 0)],
    &[("drop b\n", 4), ("drop c\n", 4), ("drop a\n", 0)],
    &[("drop c\n", 6), ("drop a\n", 4), ("drop b\n", 0)],
    &[("drop c\n", 6), ("drop b\n", 4), ("drop a\n", 0)],
];

#[test]
fn bookmarks_are_dropped_in_any_order(rt: HostRuntime) {
    over_fresh_keep(&rt, rt.alloc(), THREE, DROPPED);
}
