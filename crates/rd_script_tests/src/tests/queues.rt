//! Scripts over a fresh world that walk whole calls of the queues.

use super::runs::{Shown, over_fresh};

/// Whole calls over rings of four cells.
const OVER_FOUR: &[Shown] = &[
    (
        "an enqueue is undone whole",
        &[
            (
                "enq 1 7\ngo 1\ngo 1\ngo 1\ngo 1\ngo 1\ngo 1\n",
                "ok 1\nok 2\nok 3\nok 4\nok 5\nok 6\nok 7 enqueued\n",
            ),
            ("back 7\n", "at 0 7\n"),
            ("show tail 0.0\n", "is open 0\n"),
            (
                "actor 1\n",
                "actor Idle none crq 0.0 new 0.0 next 0.0 t 0 h 0 closed 0 val none safe 0 idx 0 pass 0\n",
            ),
        ],
    ),
    (
        "a dequeue takes the value and leaves the cell for the next round",
        &[
            (
                "enq 1 7\ngo 1\ngo 1\ngo 1\ngo 1\ngo 1\ngo 1\n",
                "ok 1\nok 2\nok 3\nok 4\nok 5\nok 6\nok 7 enqueued\n",
            ),
            (
                "deq 2\ngo 2\ngo 2\ngo 2\ngo 2\ngo 2\n",
                "ok 8\nok 9\nok 10\nok 11\nok 12\nok 13 value 7\n",
            ),
            ("show head 0.0\n", "is 1\n"),
            ("show cell 0.0 0\n", "is 1 4 none\n"),
        ],
    ),
    (
        "a dequeue of an empty queue moves the tail behind the head",
        &[
            (
                "deq 1\ngo 1\ngo 1\ngo 1\ngo 1\ngo 1\ngo 1\ngo 1\ngo 1\ngo 1\ngo 1\ngo 1\n",
                "ok 1\nok 2\nok 3\nok 4\nok 5\nok 6\nok 7\nok 8\nok 9\nok 10\nok 11\nok 12 empty\n",
            ),
            ("show tail 0.0\n", "is open 1\n"),
            ("back 12\n", "at 0 12\n"),
            ("show tail 0.0\n", "is open 0\n"),
            ("forward 12\n", "at 12 0\n"),
        ],
    ),
    (
        "an actor that starves closes the segment and links a new one",
        &[
            ("enq 1 7\ngo 1\ngo 1\ngo 1\n", "ok 1\nok 2\nok 3\nok 4\n"),
            (
                "deq 2\ngo 2\ngo 2\ngo 2\ngo 2\ngo 2\n",
                "ok 5\nok 6\nok 7\nok 8\nok 9\nok 10\n",
            ),
            ("go 1\ngo 1\ngo 1\n", "ok 11\nok 12\nok 13\n"),
            ("go 1\n", "refused 4 NeedsChoice\n"),
            ("starve 2 yes\n", "refused 5 NoChoice\n"),
            ("starve 3 yes\n", "refused 3 Idle\n"),
            ("starve 1 yes\n", "ok 14\n"),
            (
                "go 1\ngo 1\ngo 1\ngo 1\n",
                "ok 15\nok 16\nok 17\nok 18 enqueued\n",
            ),
            ("show tail 0.0\n", "is closed 1\n"),
            ("show next 0.0\n", "is 1.0\n"),
            ("show qtail\n", "is 1.0\n"),
            ("show cell 1.0 0\n", "is 1 0 7\n"),
        ],
    ),
    (
        "an array dequeue finds a slot empty and its enqueue draws another",
        &[
            ("aenq 1 7\ngo 1\nadeq 2\n", "ok 1\nok 2\nok 3\n"),
            ("go 2\ngo 2\n", "ok 4\nok 5\n"),
            ("go 1\ngo 2\n", "ok 6\nok 7 empty\n"),
            ("go 1\ngo 1\n", "ok 8\nok 9 enqueued\n"),
            ("show acell 0\n", "is value 7\n"),
            ("show acell 1\n", "is value 7\n"),
            ("show atail\n", "is 2\n"),
            ("undo 5\n", "refused 13 Depended 6\n"),
        ],
    ),
];

/// Whole calls over rings of two cells.
const OVER_TWO: &[Shown] = &[
    (
        "a dequeue that waited takes its value in a second pass",
        &[
            (
                "deq 2\ngo 2\ngo 2\ngo 2\ngo 2\ngo 2\ngo 2\ngo 2\ngo 2\ngo 2\ngo 2\n",
                "ok 1\nok 2\nok 3\nok 4\nok 5\nok 6\nok 7\nok 8\nok 9\nok 10\nok 11\n",
            ),
            (
                "enq 1 7\ngo 1\ngo 1\ngo 1\ngo 1\ngo 1\ngo 1\n",
                "ok 12\nok 13\nok 14\nok 15\nok 16\nok 17\nok 18 enqueued\n",
            ),
            (
                "enq 1 8\ngo 1\ngo 1\ngo 1\ngo 1\ngo 1\ngo 1\n",
                "ok 19\nok 20\nok 21\nok 22\nok 23\nok 24\nok 25 enqueued\n",
            ),
            (
                "enq 1 9\ngo 1\ngo 1\ngo 1\ngo 1\ngo 1\ngo 1\ngo 1\ngo 1\ngo 1\ngo 1\n",
                "ok 26\nok 27\nok 28\nok 29\nok 30\nok 31\nok 32\nok 33\nok 34\nok 35\nok 36 enqueued\n",
            ),
            (
                "go 2\ngo 2\ngo 2\ngo 2\ngo 2\n",
                "ok 37\nok 38\nok 39\nok 40\nok 41 value 7\n",
            ),
            ("show qhead\n", "is 0.0\n"),
            ("origin 41\n", "origin call 12 put 18 take 41\n"),
            ("writer next 1.0\n", "writer 34\n"),
            ("writer whole 2.0\n", "refused 19 NoSuchPlace\n"),
            ("writer qhead\n", "writer none\n"),
        ],
    ),
    (
        "a dequeue marks a cell unsafe that holds an earlier value",
        &[
            (
                "enq 1 7\ngo 1\ngo 1\ngo 1\ngo 1\ngo 1\ngo 1\n",
                "ok 1\nok 2\nok 3\nok 4\nok 5\nok 6\nok 7 enqueued\n",
            ),
            ("deq 2\ngo 2\ngo 2\n", "ok 8\nok 9\nok 10\n"),
            (
                "deq 3\ngo 3\ngo 3\ngo 3\ngo 3\ngo 3\ngo 3\ngo 3\ngo 3\ngo 3\ngo 3\ngo 3\n",
                "ok 11\nok 12\nok 13\nok 14\nok 15\nok 16\nok 17\nok 18\nok 19\nok 20\nok 21\nok 22 empty\n",
            ),
            (
                "deq 3\ngo 3\ngo 3\ngo 3\ngo 3\ngo 3\n",
                "ok 23\nok 24\nok 25\nok 26\nok 27\nok 28\n",
            ),
            (
                "go 2\ngo 2\nwriter cell 0.0 0\n",
                "ok 29\nok 30\nwriter 28\n",
            ),
            ("go 2\n", "ok 31 value 7\n"),
            ("origin 31\n", "origin call 1 put 7 take 31\n"),
            ("origin 30\n", "refused 18 NotATake\n"),
            ("origin 32\n", "refused 12 NoSuchStep 31\n"),
            ("writer cell 0.0 0\n", "writer 31\n"),
            ("show cell 0.0 0\n", "is 0 2 none\n"),
            ("undo 28\n", "refused 13 Depended 30\n"),
        ],
    ),
];

#[test]
fn a_whole_call_is_answered_and_undone_step_by_step(rt: HostRuntime) {
    over_fresh::<4>(&rt, rt.alloc(), OVER_FOUR);
    over_fresh::<2>(&rt, rt.alloc(), OVER_TWO);
}
