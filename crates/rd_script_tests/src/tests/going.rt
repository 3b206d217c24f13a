//! Scripts that go to bookmarks and on from there: what lies after a bookmark is not undone then,
//! although going on to the next one makes the same steps again.

use super::runs::{Piece, Shown, over_fresh};

/// An enqueue of two steps, and a bookmark after it.
const ENQUEUE: Piece = ("enq 1 7\ngo 1\nmark a\n", "ok 1\nok 2\nmarked 2\n");

/// A dequeue of two steps after it, and a bookmark at the end.
const DEQUEUE: Piece = ("deq 2\ngo 2\nmark b\n", "ok 3\nok 4\nmarked 4\n");

/// The way back to the first bookmark.
const BACK: Piece = ("goto a\n", "at 2 0\n");

/// Scripts that go to bookmarks, over rings of four cells.
const OVER_FOUR: &[Shown] = &[
    (
        "nothing behind a bookmark is undone",
        &[
            ENQUEUE,
            DEQUEUE,
            BACK,
            (
                "redo\nforward 1\nforward 0\n",
                "refused 11 NothingToRedo\nrefused 11 NothingToRedo\nat 2 0\n",
            ),
            (
                "undo\nforward 2\nredo\n",
                "at 1 1\nrefused 11 NothingToRedo\nat 2 0\n",
            ),
            (
                "back 2\nforward 2\nredo\n",
                "at 0 2\nat 2 0\nrefused 11 NothingToRedo\n",
            ),
            (
                "roll 1\nforward 2\nredo\n",
                "at 0 2\nat 2 0\nrefused 11 NothingToRedo\n",
            ),
            (
                "goto b\nredo\nundo 3\n",
                "at 4 0\nrefused 11 NothingToRedo\nrefused 13 Depended 4\n",
            ),
        ],
    ),
    (
        "going on to the next bookmark makes its steps again",
        &[
            ENQUEUE,
            DEQUEUE,
            (
                "actor 2\n",
                "actor Q2 deq crq 0.0 new 0.0 next 0.0 t 0 h 0 closed 0 val none safe 0 idx 0 pass 1\n",
            ),
            BACK,
            (
                "actor 2\nstep 3\n",
                "actor Idle none crq 0.0 new 0.0 next 0.0 t 0 h 0 closed 0 val none safe 0 idx 0 pass 0\nrefused 12 NoSuchStep 2\n",
            ),
            ("goto b\n", "at 4 0\n"),
            (
                "actor 2\nstep 4\n",
                "actor Q2 deq crq 0.0 new 0.0 next 0.0 t 0 h 0 closed 0 val none safe 0 idx 0 pass 1\nstep 4; go 2; qhead; read; 0.0; -\n",
            ),
            (
                "goto a\nundo 2\nredo\ngoto b\nlen\n",
                "at 2 0\nat 1 1\nat 2 0\nat 4 0\nat 4 0\n",
            ),
        ],
    ),
    (
        "another step takes the place of what lay behind a bookmark",
        &[
            ENQUEUE,
            DEQUEUE,
            BACK,
            ("deq 3\nmark c\n", "ok 3\nmarked 3\n"),
            ("goto b\ngoto c\ngoto a\n", "at 4 0\nat 3 0\nat 2 0\n"),
            ("deq 2\ngoto b\nsame b c\n", "ok 3\nat 4 0\nsame no\n"),
            ("goto a\nundo 1\n", "at 2 0\nrefused 13 Depended 2\n"),
            (
                "back 1\ngoto c\nredo\n",
                "at 1 1\nat 3 0\nrefused 11 NothingToRedo\n",
            ),
        ],
    ),
    (
        "what changes no step leaves the way on from a bookmark",
        &[
            ENQUEUE,
            DEQUEUE,
            BACK,
            (
                "go 2\nundo 3\nroll 3\ngoto z\ngoto b\n",
                "refused 3 Idle\nrefused 12 NoSuchStep 2\nrefused 12 NoSuchStep 2\nrefused 14 NoMark\nat 4 0\n",
            ),
            (
                "goto a\nmark c\nundo\nredo\ngoto b\n",
                "at 2 0\nmarked 2\nat 1 1\nat 2 0\nat 4 0\n",
            ),
            (
                "goto c\ndrop b\ngoto a\ndeq 2\nmark d\n",
                "at 2 0\ndropped\nat 2 0\nok 3\nmarked 3\n",
            ),
            ("goto c\ngoto d\nsame a c\n", "at 2 0\nat 3 0\nsame yes\n"),
        ],
    ),
    (
        "a step undone in the middle leaves the bookmarks behind it",
        &[
            ENQUEUE,
            ("deq 2\nenq 3 8\nmark b\n", "ok 3\nok 4\nmarked 4\n"),
            ("undo 3\nlen\n", "at 3 1\nat 3 1\n"),
            ("goto b\ngoto a\n", "at 4 0\nat 2 0\n"),
            ("goto b\nroll 3\nmark c\n", "at 4 0\nat 3 1\nmarked 3\n"),
            (
                "goto b\ngoto c\nstep 3\n",
                "at 4 0\nat 3 0\nstep 3; enq 3 8; -; none; -; -\n",
            ),
        ],
    ),
];

#[test]
fn a_bookmark_is_gone_to_and_left_as_its_row_says(rt: HostRuntime) {
    over_fresh::<4>(&rt, rt.alloc(), OVER_FOUR);
}
