//! A book on trial: it obeys lines, each of which may be refused memory. Where one is, the book
//! must be as it was, and the line is played again.

use rd_cell::Refusal;
use rd_devices::{ReadSource, WriteSink};
use rd_journal::Session;
use rd_marks::{Book, Command};
use rd_script::run;
use rd_step::World;
use std::alloc::Global;
use std::process::Abort;

/// What is written for a line that was refused memory.
const REFUSED: &[u8] = b"refused 20 NoMemory\n";

/// How the lines begin that may be refused memory: those that make a step, set a bookmark, go to
/// one, or compare two.
const TAKERS: &[&[u8]] = &[
    b"enq ", b"deq ", b"aenq ", b"adeq ", b"go ", b"starve ", b"mark ", b"goto ", b"same ",
];

/// Queries whose replies are all that a book of these tests has: its counts and bookmarks, each
/// place and each actor, and its live steps.
pub(super) const QUERIES: &[&[u8]] = &[
    b"len\nmarks\nmarkat 1\nmarkat 2\nmarkat 3\nmarkat 4",
    b"show qhead\nshow qtail\nshow ahead\nshow atail\nshow acell 0\nshow acell 1",
    b"show head 0.0\nshow tail 0.0\nshow next 0.0\nshow whole 0.0\nshow cell 0.0 0\nshow cell 0.0 1",
    b"show head 1.0\nshow tail 1.0\nshow next 1.0\nshow whole 1.0\nshow cell 1.0 0\nshow cell 1.0 1",
    b"show head 2.0\nshow tail 2.0\nshow next 2.0\nshow whole 2.0\nshow cell 2.0 0\nshow cell 2.0 1",
    b"actor 1\nactor 2\nactor 3\nactor 4\nwriter qtail\nwriter tail 0.0\norigin 7\norigin 13",
    b"step 1\nstep 2\nstep 3\nstep 4\nstep 5\nstep 6\nstep 7\nstep 8\nstep 9\nstep 10\nstep 11\nstep 12",
    b"step 13\nstep 14\nstep 15\nstep 16\nstep 17\nstep 18\nstep 19\nstep 20\nstep 21\nstep 22\nstep 23",
    b"step 24\nstep 25\nstep 26\nstep 27\nstep 28\nstep 29\nstep 30\nstep 31\nstep 32\nstep 33\nstep 34",
    b"step 35\nstep 36\nstep 37\nstep 38\nstep 39\nstep 40\nstep 41\nstep 42\nstep 43\nstep 44\nstep 45",
];

/// How many bytes a page has room for.
const ROOM: usize = 16_000;

/// A book, and pages with room for what is written of it.
#[derive(Drop)]
pub(super) struct Trial {
    pub(super) book: Book<2>,
    /// What its lines were answered.
    pub(super) report: Vec<u8>,
    /// What the book was when it was last looked at.
    pub(super) seen: Vec<u8>,
    /// What it was after a line was refused memory.
    after: Vec<u8>,
}

impl Trial {
    /// A fresh world of four actors, and empty pages.
    pub(super) fn new(alloc: Global) -> Result<Trial, Refusal> {
        let world = World::fresh(alloc, 4)?;
        Ok(Trial {
            book: Book::open(alloc, Session::open(alloc, world)),
            report: Vec::with_capacity(alloc, ROOM)?,
            seen: Vec::with_capacity(alloc, ROOM)?,
            after: Vec::with_capacity(alloc, ROOM)?,
        })
    }

    /// Obeys each line. Returns whether each was played with memory at last, and changed nothing
    /// where it was refused some.
    pub(super) fn obeys_all(&mut self, lines: &str) -> bool {
        for line in lines.lines() {
            if !self.obeys(line.as_bytes()) {
                return false;
            }
        }
        true
    }

    /// Obeys a line, as `obeys_all` does.
    pub(super) fn obeys(&mut self, line: &[u8]) -> bool {
        let seen = look(&mut self.book, &mut self.seen);
        let played = plays(&mut self.book, &[line], &mut self.report);
        played && (!self.report.ends_with(REFUSED) || self.obeys_again(line, seen))
    }

    /// Obeys a line again that was refused memory.
    fn obeys_again(&mut self, line: &[u8], seen: Option<u64>) -> bool {
        self.report
            .truncate(self.report.len().saturating_sub(REFUSED.len()));
        let after = look(&mut self.book, &mut self.after);
        let same = self.seen.as_slice() == self.after.as_slice() && seen == after;
        let played = plays(&mut self.book, &[line], &mut self.report);
        same && seen.is_some() && played && may_take_memory(line) && !self.report.ends_with(REFUSED)
    }

    /// Whether two books are the same: their worlds, their live and their undone steps, and their
    /// bookmarks.
    pub(super) fn is_as(&mut self, other: &mut Trial) -> bool {
        let seen = look(&mut self.book, &mut self.seen);
        let others = look(&mut other.book, &mut other.seen);
        self.seen.as_slice() == other.seen.as_slice() && seen == others && seen.is_some()
    }
}

/// A book on trial, made again if memory was refused.
pub(super) fn on_trial(rt: &impl Abort, alloc: Global) -> Trial {
    Trial::new(alloc)
        .or(Trial::new(alloc))
        .expect(rt, "refused memory twice")
}

/// Whether a line may be refused memory.
fn may_take_memory(line: &[u8]) -> bool {
    for taker in TAKERS {
        if line.starts_with(*taker) {
            return true;
        }
    }
    false
}

/// Plays scripts over a book, one after another, and writes their reports after what is on the
/// page. Returns whether all were played to their ends.
pub(super) fn plays(book: &mut Book<2>, scripts: &[&[u8]], page: &mut Vec<u8>) -> bool {
    for script in scripts {
        let played = run(
            &mut ReadSource::new(*script),
            &mut WriteSink::new(&mut *page),
            book,
        );
        if played.is_err() {
            return false;
        }
    }
    true
}

/// Whether a page has just this text.
pub(super) fn has_text(page: &Vec<u8>, text: &[u8]) -> bool {
    page.as_slice() == text
}

/// Writes on the page what a book is: what the queries answer, and what they answer when its undone
/// steps are made again. Answers how many nodes it keeps for its bookmarks.
pub(super) fn look(book: &mut Book<2>, page: &mut Vec<u8>) -> Option<u64> {
    page.clear();
    let asked = plays(book, QUERIES, page) && look_ahead(book, page);
    if asked { Some(book.nodes()) } else { None }
}

/// Makes the undone steps of a book again, writes what the queries answer then, and undoes the
/// steps.
fn look_ahead(book: &mut Book<2>, page: &mut Vec<u8>) -> bool {
    let undone = book.session().undone_len();
    undone == 0
        || book.obey(Command::Forward(undone)).is_ok()
            && plays(book, QUERIES, page)
            && book.obey(Command::Back(undone)).is_ok()
}
