//! Scripts over a fresh and over a poised world, each piece beside its report.

ghost use Rattle.std.specs.Prelude.{◌≤◌};

use rd_devices::{ReadSource, WriteSink};
use rd_journal::Session;
use rd_marks::Book;
use rd_script::run;
use rd_step::World;
use std::alloc::Global;
use std::process::Abort;
use test_kit::ASKED;

/// A piece of a script, and its report.
pub type Piece = (&'static str, &'static str);

/// What a script shows, and its pieces.
pub type Shown = (&'static str, &'static [Piece]);

/// A book over a fresh world of this many actors.
pub fn fresh<const R: usize>(rt: &impl Abort, alloc: Global, actors: u8) -> Book<R>
    requires positive { 1 ≤ R }
    requires small { R ≤ 64 }
    requires some { 1 ≤ actors }
    requires few { actors ≤ 16 }
{
    let world = World::<R>::fresh(alloc, actors).expect(rt, "out of memory");
    Book::open(alloc, Session::open(alloc, world))
}

/// A book over a poised world of four actors.
pub fn poised<const R: usize>(rt: &impl Abort, alloc: Global) -> Book<R>
    requires positive { 1 ≤ R }
    requires small { R ≤ 64 }
{
    let world = World::<R>::poised(alloc, 4).expect(rt, "out of memory");
    Book::open(alloc, Session::open(alloc, world))
}

/// Runs a script over a book, and compares its report and its number of lines. It shows `what`.
pub fn report_is<const R: usize>(
    rt: &impl Abort,
    alloc: Global,
    book: &mut Book<R>,
    what: &str,
    script: &str,
    report: &str,
) {
    let mut written = Vec::new(alloc);
    let lines = run(
        &mut ReadSource::new(script.as_bytes()),
        &mut WriteSink::new(&mut written),
        book,
    );
    let wanted = Ok(report.lines().count() as u64);
    assert!(rt;
        written.as_slice() == report.as_bytes() && lines == wanted,
        "{what}: {script}"
    );
}

/// Runs pieces of a script over a book, one after another, and compares the report of each and its
/// number of lines.
fn reports_are<const R: usize>(
    rt: &impl Abort,
    alloc: Global,
    book: &mut Book<R>,
    what: &str,
    pieces: &[Piece],
) {
    for (script, report) in pieces {
        report_is(rt, alloc, book, what, *script, *report);
    }
}

/// Runs the pieces of each row over a fresh world of four actors of its own, and compares their
/// reports.
pub fn over_fresh<const R: usize>(rt: &impl Abort, alloc: Global, rows: &[Shown])
    requires positive { 1 ≤ R }
    requires small { R ≤ 64 }
{
    for (what, pieces) in rows {
        reports_are(rt, alloc, &mut fresh::<R>(rt, alloc, 4), *what, *pieces);
    }
}

/// Runs the pieces of each row over a poised world of four actors of its own, and compares their
/// reports.
pub fn over_poised<const R: usize>(rt: &impl Abort, alloc: Global, rows: &[Shown])
    requires positive { 1 ≤ R }
    requires small { R ≤ 64 }
{
    for (what, pieces) in rows {
        reports_are(rt, alloc, &mut poised::<R>(rt, alloc), *what, *pieces);
    }
}

/// Scripts over a fresh world with rings of four cells.
const OVER_FRESH: &[Shown] = &[
    ("an empty script has an empty report", &[("", "")]),
    ("each command is answered as the manual says", ASKED),
    (
        "a refused walk changes nothing and a new step forgets the undone ones",
        &[
            ("undo\n", "refused 10 NothingToUndo 0\n"),
            ("enq 1 7\ndeq 2\n", "ok 1\nok 2\n"),
            ("back 3\n", "refused 10 NothingToUndo 2\n"),
            ("undo 5\n", "refused 12 NoSuchStep 2\n"),
            ("undo 0\n", "refused 12 NoSuchStep 2\n"),
            ("back 0\n", "at 2 0\n"),
            ("undo\n", "at 1 1\n"),
            ("undo 1\n", "at 0 2\n"),
            ("redo\n", "at 1 1\n"),
            ("step 1\n", "step 1; enq 1 7; -; none; -; -\n"),
            ("enq 1 8\nlen\n", "refused 2 NotIdle\nat 1 1\n"),
            ("deq 3\nlen\n", "ok 2\nat 2 0\n"),
            ("roll 3\n", "refused 12 NoSuchStep 2\n"),
            ("forward 1\n", "refused 11 NothingToRedo\n"),
        ],
    ),
    (
        "a line that spells no command changes nothing",
        &[
            ("enq 1 18446744073709551616\n", "refused 22 BadLine\n"),
            ("enq 1 18446744073709551615\n", "ok 1\n"),
            ("enq 01 7\n", "refused 22 BadLine\n"),
            ("hello\n", "refused 22 BadLine\n"),
            ("\n", "refused 22 BadLine\n"),
            ("len \n", "refused 22 BadLine\n"),
            (
                "enq 17 5\nenq 0 5\n",
                "refused 1 NoActor\nrefused 1 NoActor\n",
            ),
            ("enq 256 5\n", "refused 22 BadLine\n"),
            ("mark A\n", "refused 17 BadName\n"),
            ("len", "at 1 0\n"),
        ],
    ),
];

/// Scripts over a poised world with rings of four cells.
const OVER_POISED: &[Shown] = &[
    (
        "draws are made and undone in a poised world",
        &[
            ("go 1\ngo 2\nundo\n", "ok 1\nok 2\nat 1 1\n"),
            (
                "undo\ngo 2\nundo\nundo\n",
                "at 0 2\nok 1\nat 0 1\nrefused 10 NothingToUndo 0\n",
            ),
        ],
    ),
    (
        "an enqueue in a poised world ends with its reply",
        &[(
            "go 1\ngo 1\ngo 1\ngo 1\ngo 1\nundo\nredo\n",
            "ok 1\nok 2\nok 3\nok 4 enqueued\nrefused 3 Idle\nat 3 1\nat 4 0\n",
        )],
    ),
    (
        "each refused line says why",
        &[
            (
                "undo\ngo 1\ngo 1\ngo 5\nhello\n",
                "refused 10 NothingToUndo 0\nok 1\nok 2\nrefused 1 NoActor\nrefused 22 BadLine\n",
            ),
            (
                "actor 0\nactor 5\nactor 255\nlen\n",
                "refused 1 NoActor\nrefused 1 NoActor\nrefused 1 NoActor\nat 2 0\n",
            ),
            (
                "back 0\nforward 0\nback 18446744073709551615\nforward 18446744073709551615\n",
                "at 2 0\nat 2 0\nrefused 10 NothingToUndo 2\nrefused 11 NothingToRedo\n",
            ),
        ],
    ),
];

#[test]
fn each_line_of_a_script_has_its_answer(rt: HostRuntime) {
    over_fresh::<4>(&rt, rt.alloc(), OVER_FRESH);
    over_poised::<4>(&rt, rt.alloc(), OVER_POISED);
}
