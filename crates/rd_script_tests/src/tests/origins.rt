//! Lines that ask for an origin or a writer, nearly ask for one, and answer one. (Whole calls with
//! their origins: `queues`.)

use super::reply_is;
use super::runs::{Shown, over_fresh};
use rd_marks::Reply;
use rd_origin::Origin;
use std::process::Abort;
use test_kit::NEARLY;

/// Compares the line of each origin of what the sixth step took, its call and its put, with its
/// text.
fn origins_are(rt: &impl Abort, rows: &[(Option<u64>, Option<u64>, &str)]) {
    for (call, put, line) in rows {
        let origin = Origin {
            call: *call,
            put: *put,
            take: 6,
        };
        reply_is(rt, Reply::Origin(origin), *line);
    }
}

#[test]
fn an_origin_before_the_start_is_a_hyphen(rt: HostRuntime) {
    origins_are(
        &rt,
        &[
            (None, None, "origin call - put - take 6\n"),
            (None, Some(3), "origin call - put 3 take 6\n"),
            (Some(1), Some(3), "origin call 1 put 3 take 6\n"),
        ],
    );
}

/// Lines that ask for an origin or a writer, over rings of four cells.
const OVER_FOUR: &[Shown] = &[(
    "a value through the array has its origin until its take is undone",
    &[
        ("aenq 1 7\ngo 1\n", "ok 1\nok 2\n"),
        ("writer acell 0\n", "writer none\n"),
        ("go 1\n", "ok 3 enqueued\n"),
        ("adeq 2\ngo 2\n", "ok 4\nok 5\n"),
        ("writer acell 0\n", "writer 3\n"),
        ("go 2\n", "ok 6 value 7\n"),
        ("origin 6\n", "origin call 1 put 3 take 6\n"),
        ("writer acell 0\n", "writer 6\n"),
        ("origin 5\n", "refused 18 NotATake\n"),
        ("writer acell 64\n", "refused 19 NoSuchPlace\n"),
        ("undo\n", "at 5 1\n"),
        ("origin 6\n", "refused 12 NoSuchStep 5\n"),
        ("writer acell 0\n", "writer 3\n"),
    ],
)];

/// Lines that ask for an origin or a writer, over rings of two cells.
const OVER_TWO: &[Shown] = &[("lines that nearly ask for a step are bad", NEARLY)];

#[test]
fn an_origin_or_a_writer_is_asked_for_by_its_line(rt: HostRuntime) {
    over_fresh::<4>(&rt, rt.alloc(), OVER_FOUR);
    over_fresh::<2>(&rt, rt.alloc(), OVER_TWO);
}
