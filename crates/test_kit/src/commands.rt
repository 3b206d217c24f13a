//! Lines of each command, with their replies. Tests of books, desks, views and the program walk
//! these rows, so that a new command is added to no other list of tests.

/// A line of each command, and its reply if the rows are asked in order, over a fresh world of 4
/// actors and rings of 4 cells. The replies are worked out from the table of control points in
/// docs/MODEL.md and from the tables of docs/MANUAL.md.
pub const ASKED: &[(&str, &str)] = &[
    ("len", "at 0 0\n"),
    ("aenq 1 7", "ok 1\n"),
    ("go 1", "ok 2\n"),
    ("go 1", "ok 3 enqueued\n"),
    ("adeq 2", "ok 4\n"),
    ("go 2", "ok 5\n"),
    ("go 2", "ok 6 value 7\n"),
    ("origin 6", "origin call 1 put 3 take 6\n"),
    ("writer acell 0", "writer 6\n"),
    ("show atail", "is 1\n"),
    ("step 2", "step 2; go 1; atail; wrote; 0; -\n"),
    (
        "actor 3",
        "actor Idle none crq 0.0 new 0.0 next 0.0 t 0 h 0 closed 0 val none safe 0 idx 0 pass 0\n",
    ),
    ("mark a", "marked 6\n"),
    ("deq 3", "ok 7\n"),
    ("enq 4 8", "ok 8\n"),
    ("starve 4 yes", "refused 5 NoChoice\n"),
    ("mark b", "marked 8\n"),
    ("undo", "at 7 1\n"),
    ("redo", "at 8 0\n"),
    ("undo 7", "at 7 1\n"),
    ("forward 1", "at 8 0\n"),
    ("mark c", "marked 8\n"),
    ("same b c", "same yes\n"),
    ("same a c", "same no\n"),
    ("undo 2", "refused 13 Depended 3\n"),
    ("roll 2", "at 5 3\n"),
    ("forward 3", "at 8 0\n"),
    ("back 2", "at 6 2\n"),
    ("marks", "marks 3\n"),
    ("markat 2", "mark b 8\n"),
    ("drop b", "dropped\n"),
    ("goto a", "at 6 0\n"),
];

/// Lines that nearly spell a query, or ask for what isn't there, each with its reply over a fresh
/// world.
pub const NEARLY: &[(&str, &str)] = &[
    ("origin 0\n", "refused 12 NoSuchStep 0\n"),
    ("origin\n", "refused 22 BadLine\n"),
    ("origin 01\n", "refused 22 BadLine\n"),
    ("origin 1 2\n", "refused 22 BadLine\n"),
    ("origins 1\n", "refused 22 BadLine\n"),
    ("writer\n", "refused 22 BadLine\n"),
    ("writer 1\n", "refused 22 BadLine\n"),
    ("writer qhead \n", "refused 22 BadLine\n"),
    ("writer cell 0.0\n", "refused 22 BadLine\n"),
    ("writer acell 64\n", "refused 19 NoSuchPlace\n"),
    ("writer acell 256\n", "refused 22 BadLine\n"),
];

/// The kinds of lines of a long script, as `long_script` reads them: all commands, a line that
/// spells none, and a bad name. A kind that isn't here is `go A`, the most frequent one.
pub const KINDS: &[&str] = &[
    "enq A K",
    "deq A",
    "aenq A K",
    "adeq A",
    "starve A yes",
    "starve A no",
    "undo",
    "undo K",
    "roll K",
    "back 2",
    "redo",
    "forward 2",
    "mark nN",
    "drop nN",
    "goto nN",
    "marks",
    "markat K",
    "same nN nN",
    "origin K",
    "writer qtail",
    "writer cell 0.0 1",
    "writer value 0.0 1",
    "show index 0.0 K",
    "show tail 0.0",
    "show acell K",
    "actor A",
    "step K",
    "len",
    "hello",
    "mark nN.",
];
