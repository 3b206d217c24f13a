//! Books that are written, and loaded again.

use super::{AnyBook, Lines, played, written};
use rd_marks::Book;
use rd_trace::load_trace;
use std::alloc::Global;
use std::process::Abort;

/// Whether two books have the same live entries.
fn same_entries<const R: usize>(one: &Book<R>, other: &Book<R>) -> bool {
    for k in 0..one.session().len() {
        if other.session().entry(k + 1) != one.session().entry(k + 1) {
            return false;
        }
    }
    other.session().len() == one.session().len()
}

/// A loaded book has the live entries of another one, as many undone steps and bookmarks, and its
/// trace, which is this text.
fn are_alike<const R: usize>(
    rt: &impl Abort,
    alloc: Global,
    one: &Book<R>,
    loaded: &Book<R>,
    text: &[u8],
) {
    let counted = loaded.session().undone_len() == one.session().undone_len()
        && loaded.marks() == one.marks();
    let traced = written(rt, alloc, loaded).as_slice() == text;
    assert!(rt; same_entries(one, loaded) && counted && traced);
}

/// What is written of a book over rings of two cells is loaded as that book.
fn comes_back_with_two_cells(rt: &impl Abort, alloc: Global, book: &Book<2>) {
    let text = written(rt, alloc, book);
    match load_trace(alloc, text.as_slice()) {
        Ok(AnyBook::Two(loaded)) => are_alike(rt, alloc, book, &loaded, text.as_slice()),
        _ => panic!(rt; "no trace of the ring"),
    }
}

/// What is written of a book over rings of four cells is loaded as that book.
fn comes_back_with_four_cells(rt: &impl Abort, alloc: Global, book: &Book<4>) {
    let text = written(rt, alloc, book);
    match load_trace(alloc, text.as_slice()) {
        Ok(AnyBook::Four(loaded)) => are_alike(rt, alloc, book, &loaded, text.as_slice()),
        _ => panic!(rt; "no trace of the ring"),
    }
}

/// Lines over rings of four cells.
pub(super) const OVER_FOUR: &[Lines] = &[
    // a book with no live step: an undone enqueue
    &[("enq 1 7\n", 1), ("go 1\n", 6), ("back 7\n", 1)],
    // a dequeue of an empty queue
    &[("deq 1\n", 1), ("go 1\n", 11)],
    // a starving enqueue
    &[
        ("enq 1 7\n", 1),
        ("go 1\n", 3),
        ("deq 2\n", 1),
        ("go 2\n", 5),
        ("go 1\n", 3),
        ("starve 1 yes\n", 1),
        ("go 1\n", 4),
    ],
    // the array queue
    &[
        ("aenq 1 7\n", 1),
        ("go 1\n", 1),
        ("adeq 2\n", 1),
        ("go 2\n", 2),
        ("go 1\ngo 2\n", 1),
        ("go 1\n", 2),
    ],
];

/// Lines over rings of two cells: two rings that race, with thirty live steps at the end.
pub(super) const RACE: Lines = &[
    ("enq 1 7\n", 1),
    ("go 1\n", 6),
    ("enq 1 8\n", 1),
    ("go 1\n", 6),
    ("enq 1 9\n", 1),
    ("go 1\n", 2),
    ("enq 2 10\n", 1),
    ("go 2\n", 2),
    ("go 1\n", 5),
    ("go 2\ngo 1\ngo 2\n", 1),
    ("undo 27\nredo\n", 1),
    ("go 2\ngo 1\n", 1),
];

#[test]
fn books_come_back(rt: HostRuntime) {
    for lines in OVER_FOUR {
        comes_back_with_four_cells(&rt, rt.alloc(), &played(&rt, rt.alloc(), *lines));
    }
    let book = played::<2>(&rt, rt.alloc(), RACE);
    assert!(&rt; book.session().len() == 30);
    comes_back_with_two_cells(&rt, rt.alloc(), &book);
}
