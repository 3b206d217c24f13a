//! Scripts over a fresh world that undo steps alone, roll back, and compare bookmarks.

use super::runs::{Shown, over_fresh};

/// The report of a piece that sets eight bookmarks.
const EIGHT_SET: &str =
    "marked 0\nmarked 0\nmarked 0\nmarked 0\nmarked 0\nmarked 0\nmarked 0\nmarked 0\n";

/// Undos, rollbacks and bookmarks over rings of four cells.
const OVER_FOUR: &[Shown] = &[
    (
        "a step on which none depends is undone alone",
        &[
            ("enq 1 7\ndeq 2\ngo 1\ngo 2\n", "ok 1\nok 2\nok 3\nok 4\n"),
            ("undo 1\n", "refused 13 Depended 3\n"),
            ("undo 3\n", "at 3 1\n"),
            (
                "actor 1\n",
                "actor E1 enq 7 crq 0.0 new 0.0 next 0.0 t 0 h 0 closed 0 val none safe 0 idx 0 pass 0\n",
            ),
            ("redo\n", "at 4 0\n"),
            ("step 4\n", "step 4; go 1; qtail; read; 0.0; -\n"),
        ],
    ),
    (
        "the second draw of a position depends on the first",
        &[
            (
                "enq 1 7\nenq 2 8\ngo 1\ngo 1\ngo 2\ngo 2\ngo 1\ngo 2\n",
                "ok 1\nok 2\nok 3\nok 4\nok 5\nok 6\nok 7\nok 8\n",
            ),
            ("undo 7\n", "refused 13 Depended 8\n"),
            ("undo 8\n", "at 7 1\n"),
            ("undo 7\n", "at 6 2\n"),
        ],
    ),
    (
        "a rollback is gone forward again and steps are asked for",
        &[
            ("enq 1 7\ndeq 2\ngo 1\n", "ok 1\nok 2\nok 3\n"),
            ("roll 1\nforward 2\n", "at 1 2\nat 3 0\n"),
            ("aenq 3 5\nadeq 4\n", "ok 4\nok 5\n"),
            ("starve 1 yes\n", "refused 5 NoChoice\n"),
            ("show qhead\n", "is 0.0\n"),
            ("show whole 1.0\n", "refused 19 NoSuchPlace\n"),
            ("actor 5\n", "refused 1 NoActor\n"),
            ("step 6\n", "refused 12 NoSuchStep 5\n"),
            (
                "actor 4\n",
                "actor B1 adeq crq 0.0 new 0.0 next 0.0 t 0 h 0 closed 0 val none safe 0 idx 0 pass 0\n",
            ),
        ],
    ),
    (
        "bookmarks of equivalent runs are the same",
        &[
            ("enq 1 7\ndeq 2\ngo 1\ngo 2\n", "ok 1\nok 2\nok 3\nok 4\n"),
            ("mark a\n", "marked 4\n"),
            ("back 2\n", "at 2 2\n"),
            ("go 2\n", "ok 3\n"),
            ("go 1\n", "ok 4\n"),
            ("mark b\n", "marked 4\n"),
            ("mark a\n", "refused 15 MarkTaken\n"),
            ("same a b\n", "same yes\n"),
            ("back 1\n", "at 3 1\n"),
            ("goto a\n", "at 4 0\n"),
            ("step 3\n", "step 3; go 1; qtail; read; 0.0; -\n"),
            ("redo\n", "refused 11 NothingToRedo\n"),
            ("marks\n", "marks 2\n"),
            ("markat 2\n", "mark b 4\n"),
            (
                "goto c\nsame a c\n",
                "refused 14 NoMark\nrefused 14 NoMark\n",
            ),
            (
                "markat 3\nmarkat 0\n",
                "refused 14 NoMark\nrefused 14 NoMark\n",
            ),
            ("drop a\nmarkat 1\n", "dropped\nmark b 4\n"),
            ("drop a\n", "refused 14 NoMark\n"),
            ("goto A\nlen\n", "refused 17 BadName\nat 4 0\n"),
        ],
    ),
    (
        "a bookmark that begins the live steps is gone to",
        &[
            ("mark s\nenq 1 7\ndeq 2\n", "marked 0\nok 1\nok 2\n"),
            ("mark a\ngo 1\ngo 2\n", "marked 2\nok 3\nok 4\n"),
            ("mark b\ngoto a\n", "marked 4\nat 2 0\n"),
            ("redo\ngoto a\n", "refused 11 NothingToRedo\nat 2 0\n"),
            ("goto s\n", "at 0 0\n"),
            ("goto b\n", "at 4 0\n"),
            ("step 4\n", "step 4; go 2; qhead; read; 0.0; -\n"),
            ("undo\ngoto a\n", "at 3 1\nat 2 0\n"),
            ("redo\nmarks\n", "refused 11 NothingToRedo\nmarks 3\n"),
        ],
    ),
    (
        "bookmarks of draws in another order are not the same",
        &[
            (
                "enq 1 7\nenq 2 8\ngo 1\ngo 1\ngo 2\ngo 2\ngo 1\ngo 2\n",
                "ok 1\nok 2\nok 3\nok 4\nok 5\nok 6\nok 7\nok 8\n",
            ),
            ("mark a\n", "marked 8\n"),
            ("back 2\n", "at 6 2\n"),
            ("go 2\n", "ok 7\n"),
            ("go 1\n", "ok 8\n"),
            ("mark b\n", "marked 8\n"),
            ("same a b\n", "same no\n"),
        ],
    ),
    (
        "a sixty-fifth bookmark is refused",
        &[
            (
                "mark n1\nmark n2\nmark n3\nmark n4\nmark n5\nmark n6\nmark n7\nmark n8\n",
                EIGHT_SET,
            ),
            (
                "mark n9\nmark n10\nmark n11\nmark n12\nmark n13\nmark n14\nmark n15\nmark n16\n",
                EIGHT_SET,
            ),
            (
                "mark n17\nmark n18\nmark n19\nmark n20\nmark n21\nmark n22\nmark n23\nmark n24\n",
                EIGHT_SET,
            ),
            (
                "mark n25\nmark n26\nmark n27\nmark n28\nmark n29\nmark n30\nmark n31\nmark n32\n",
                EIGHT_SET,
            ),
            (
                "mark n33\nmark n34\nmark n35\nmark n36\nmark n37\nmark n38\nmark n39\nmark n40\n",
                EIGHT_SET,
            ),
            (
                "mark n41\nmark n42\nmark n43\nmark n44\nmark n45\nmark n46\nmark n47\nmark n48\n",
                EIGHT_SET,
            ),
            (
                "mark n49\nmark n50\nmark n51\nmark n52\nmark n53\nmark n54\nmark n55\nmark n56\n",
                EIGHT_SET,
            ),
            (
                "mark n57\nmark n58\nmark n59\nmark n60\nmark n61\nmark n62\nmark n63\nmark n64\n",
                EIGHT_SET,
            ),
            ("mark n65\nmarks\n", "refused 16 TooManyMarks\nmarks 64\n"),
        ],
    ),
];

/// Undos and a rollback over rings of two cells.
const OVER_TWO: &[Shown] = &[
    (
        "a link depends on an earlier read of the place",
        &[
            ("enq 3 5\ngo 3\ngo 3\n", "ok 1\nok 2\nok 3\n"),
            (
                "deq 2\ngo 2\ngo 2\ngo 2\ngo 2\ngo 2\ngo 2\ngo 2\ngo 2\ngo 2\ngo 2\n",
                "ok 4\nok 5\nok 6\nok 7\nok 8\nok 9\nok 10\nok 11\nok 12\nok 13\nok 14\n",
            ),
            (
                "enq 1 7\ngo 1\ngo 1\ngo 1\ngo 1\ngo 1\ngo 1\n",
                "ok 15\nok 16\nok 17\nok 18\nok 19\nok 20\nok 21 enqueued\n",
            ),
            (
                "enq 1 8\ngo 1\ngo 1\ngo 1\ngo 1\ngo 1\ngo 1\n",
                "ok 22\nok 23\nok 24\nok 25\nok 26\nok 27\nok 28 enqueued\n",
            ),
            (
                "enq 1 9\ngo 1\ngo 1\ngo 1\ngo 1\ngo 1\ngo 1\ngo 1\ngo 1\ngo 1\ngo 1\n",
                "ok 29\nok 30\nok 31\nok 32\nok 33\nok 34\nok 35\nok 36\nok 37\nok 38\nok 39 enqueued\n",
            ),
            ("undo 3\n", "refused 13 Depended 38\n"),
            ("undo 2\n", "refused 13 Depended 3\n"),
        ],
    ),
    (
        "segments of two actors race and one is linked",
        &[
            (
                "enq 1 7\ngo 1\ngo 1\ngo 1\ngo 1\ngo 1\ngo 1\n",
                "ok 1\nok 2\nok 3\nok 4\nok 5\nok 6\nok 7 enqueued\n",
            ),
            (
                "enq 1 8\ngo 1\ngo 1\ngo 1\ngo 1\ngo 1\ngo 1\n",
                "ok 8\nok 9\nok 10\nok 11\nok 12\nok 13\nok 14 enqueued\n",
            ),
            ("enq 1 9\ngo 1\ngo 1\n", "ok 15\nok 16\nok 17\n"),
            ("enq 2 10\ngo 2\ngo 2\n", "ok 18\nok 19\nok 20\n"),
            (
                "go 1\ngo 1\ngo 1\ngo 1\ngo 1\ngo 2\ngo 1\ngo 2\n",
                "ok 21\nok 22\nok 23\nok 24\nok 25\nok 26\nok 27\nok 28\n",
            ),
            ("show tail 0.0\n", "is closed 4\n"),
            ("undo 27\n", "at 27 1\n"),
            ("show whole 1.0\n", "refused 19 NoSuchPlace\n"),
            ("show cell 2.0 0\n", "is 1 0 10\n"),
            ("redo\n", "at 28 0\n"),
            ("go 2\n", "ok 29\n"),
            ("go 1\n", "ok 30\n"),
            ("step 30\n", "step 30; go 1; next 0.0; read; lost; -\n"),
            ("show next 0.0\n", "is 2.0\n"),
            ("show whole 1.0\n", "is exists\n"),
        ],
    ),
    (
        "a rollback takes just the steps that depend",
        &[
            (
                "enq 1 7\ngo 1\ngo 1\ngo 1\ngo 1\ngo 1\ngo 1\n",
                "ok 1\nok 2\nok 3\nok 4\nok 5\nok 6\nok 7 enqueued\n",
            ),
            (
                "enq 1 8\ngo 1\ngo 1\ngo 1\ngo 1\ngo 1\ngo 1\n",
                "ok 8\nok 9\nok 10\nok 11\nok 12\nok 13\nok 14 enqueued\n",
            ),
            ("enq 1 9\ngo 1\ngo 1\n", "ok 15\nok 16\nok 17\n"),
            ("enq 2 10\ngo 2\ngo 2\n", "ok 18\nok 19\nok 20\n"),
            (
                "go 1\ngo 1\ngo 1\ngo 1\ngo 1\ngo 2\ngo 1\ngo 2\n",
                "ok 21\nok 22\nok 23\nok 24\nok 25\nok 26\nok 27\nok 28\n",
            ),
            ("show tail 0.0\n", "is closed 4\n"),
            ("undo 27\n", "at 27 1\n"),
            ("show whole 1.0\n", "refused 19 NoSuchPlace\n"),
            ("show cell 2.0 0\n", "is 1 0 10\n"),
            ("redo\n", "at 28 0\n"),
            ("go 2\n", "ok 29\n"),
            ("go 1\n", "ok 30\n"),
            ("step 30\n", "step 30; go 1; next 0.0; read; lost; -\n"),
            ("show next 0.0\n", "is 2.0\n"),
            ("show whole 1.0\n", "is exists\n"),
            ("roll 27\n", "at 27 3\n"),
            ("show next 0.0\n", "is none\n"),
            (
                "step 27\n",
                "step 27; go 1; whole 1.0; wrote; made 1.0; -\n",
            ),
            ("forward 3\n", "at 30 0\n"),
            ("roll 31\n", "refused 12 NoSuchStep 30\n"),
        ],
    ),
];

#[test]
fn a_step_is_undone_and_a_bookmark_is_compared_as_its_row_says(rt: HostRuntime) {
    over_fresh::<4>(&rt, rt.alloc(), OVER_FOUR);
    over_fresh::<2>(&rt, rt.alloc(), OVER_TWO);
}
