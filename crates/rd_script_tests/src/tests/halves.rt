//! Rows in which a cell is two places: what each step touches of it, who wrote which half, and a
//! lone undo that the halves allow.

use super::runs::{Piece, Shown, over_fresh};

/// An enqueue of 7.
const PUT: Piece = (
    "enq 1 7\ngo 1\ngo 1\ngo 1\ngo 1\ngo 1\ngo 1\n",
    "ok 1\nok 2\nok 3\nok 4\nok 5\nok 6\nok 7 enqueued\n",
);

/// A dequeue that draws its position and waits.
const WAITS: Piece = ("deq 2\ngo 2\ngo 2\n", "ok 8\nok 9\nok 10\n");

/// Another one over rings of two cells, which finds the ring empty.
const FINDS_NONE: Piece = (
    "deq 3\ngo 3\ngo 3\ngo 3\ngo 3\ngo 3\ngo 3\ngo 3\ngo 3\ngo 3\ngo 3\ngo 3\n",
    "ok 11\nok 12\nok 13\nok 14\nok 15\nok 16\nok 17\nok 18\nok 19\nok 20\nok 21\nok 22 empty\n",
);

/// A third one, at the next position of the same cell: it finds the older value there, and marks
/// the cell unsafe by step 28.
const MARKS: Piece = (
    "deq 3\ngo 3\ngo 3\ngo 3\ngo 3\ngo 3\n",
    "ok 23\nok 24\nok 25\nok 26\nok 27\nok 28\n",
);

/// Scripts that touch halves of cells, over rings of four cells.
const OVER_FOUR: &[Shown] = &[(
    "an enqueue reads each half of its cell and writes both",
    &[
        PUT,
        ("step 5\n", "step 5; go 1; value 0.0 0; read; none; -\n"),
        ("step 6\n", "step 6; go 1; index 0.0 0; read; 1 0; -\n"),
        (
            "step 7\n",
            "step 7; go 1; cell 0.0 0; wrote; won; enqueued\n",
        ),
        ("show value 0.0 0\n", "is 7\n"),
        ("show value 0.0 3\n", "is none\n"),
        ("show index 0.0 3\n", "is 1 3\n"),
        ("show value 0.0 4\n", "refused 19 NoSuchPlace\n"),
        ("show index 0.0 255\n", "refused 19 NoSuchPlace\n"),
        ("show value 0.0 256\n", "refused 22 BadLine\n"),
        ("show index 0.0\n", "refused 22 BadLine\n"),
        ("show values 0.0 0\n", "refused 22 BadLine\n"),
    ],
)];

/// Scripts that touch halves of cells, over rings of two cells.
const OVER_TWO: &[Shown] = &[
    (
        "a marking writes the index half alone",
        &[
            PUT,
            WAITS,
            FINDS_NONE,
            MARKS,
            ("go 2\ngo 2\n", "ok 29\nok 30\n"),
            (
                "step 28\n",
                "step 28; go 3; cell 0.0 0; wrote index; won; -\n",
            ),
            ("writer cell 0.0 0\n", "writer 28\n"),
            ("writer value 0.0 0\n", "writer 7\n"),
            ("writer index 0.0 0\n", "writer 28\n"),
            ("go 2\n", "ok 31 value 7\n"),
            ("undo 28\n", "refused 13 Depended 30\n"),
        ],
    ),
    (
        "a marking is undone below a read of the value",
        &[
            PUT,
            WAITS,
            FINDS_NONE,
            MARKS,
            ("go 2\n", "ok 29\n"),
            ("undo 28\n", "at 28 1\n"),
            ("show cell 0.0 0\n", "is 1 0 7\n"),
            ("step 28\n", "step 28; go 2; value 0.0 0; read; 7; -\n"),
            ("redo\n", "at 29 0\n"),
            ("show cell 0.0 0\n", "is 0 0 7\n"),
        ],
    ),
];

#[test]
fn the_halves_of_a_cell_are_touched_and_undone_apart(rt: HostRuntime) {
    over_fresh::<4>(&rt, rt.alloc(), OVER_FOUR);
    over_fresh::<2>(&rt, rt.alloc(), OVER_TWO);
}
