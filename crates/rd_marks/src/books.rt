//! A book: a session with bookmarks, in the order in which they were set.
//!
//! A bookmark keeps the entries of the steps that were live when it was set: the entries of a run
//! from the session's start. Nothing outside this crate depends on that.
//!
//! `books/obeying` does commands and answers queries, `books/moves` undoes and redoes,
//! `books/marking` sets, drops, counts, reads and compares bookmarks and goes to them, and
//! `books/saving` has what saving and loading a book need. The other methods of a book are here.

mod marking;
mod moves;
mod obeying;
mod saving;

ghost use Rattle.std.specs.Prelude.{◌≡◌, ◌<◌, ◌≤◌, ◌⊎◌, [], Ok, OnErr, IfErr};
ghost use Rattle.rd_step.specs.Prelude.{result_map};
ghost use Rattle.rd_step.specs.Run.{events};
ghost use Rattle.rd_equivalence.specs.Beginnings.{Begins};
ghost use Rattle.rd_journal.specs.Sessions.{state, track, MayRefuse};
ghost use Rattle.rd_marks.specs.BookmarksFields.{AreRuns};
ghost use Rattle.rd_marks.specs.Bookmarks.{named_entries_in, here_entries};

use super::bookmarks::Bookmarks;
use super::replies::{EventReply, Reply};
use rd_cell::Refusal;
use rd_journal::Session;
use rd_step::Event;
use std::alloc::Global;

/// A session with bookmarks.
pub struct Book<const R: usize> {
    /// The live and undone steps over the start.
    session: Session<R>,
    /// The bookmarks, and where the session's steps agree with theirs.
    bookmarks: Bookmarks,
    /// Where the book asks for memory.
    alloc: Global,
    ghost runs: { AreRuns (state session).start (named_entries_in bookmarks) },
    ghost stands: { Begins (events (here_entries bookmarks)) (track session) },
}

/// Written by hand rather than derived. A proof of a function in which a book goes out of scope
/// then has one step for that, and not one for each list inside.
impl<const R: usize> Drop for Book<R> {
    /// Frees all memory of the book.
    fn drop(self) {
        let Book {
            session: _session,
            bookmarks: _bookmarks,
            alloc: _alloc,
        } = self;
    }
}

impl<const R: usize> Book<R> {
    ghost use Rattle.rd_marks.specs.Book.{book_state, session_of};
    ghost use Rattle.rd_marks.specs.Commands.{IsEventAnswer, step_counts};
    ghost use Rattle.rd_marks.specs.Events.{as_reply};

    /// Returns a book of this session, without bookmarks. It takes no memory.
    pub fn open(alloc: Global, session: Session<R>) -> Book<R>
        ensures session { (book_state result).session ≡ state session.entry }
        ensures marks { (book_state result).marks ≡ [] }
    {
        Book {
            session,
            bookmarks: Bookmarks::new(alloc),
            alloc,
        }
    }

    /// Lends the book's session, for queries of its steps and of its world.
    pub fn session(&self) -> &Session<R>
        ensures state { state result.now ≡ (book_state self.now).session }
        ensures value { result.now ≡ session_of self.now }
    {
        &self.session
    }

    /// Makes an event happen as the last live step, and discards the undone steps. The bookmarks
    /// stay. Returns the step's number, and the result of the call that the step ends, if it ends
    /// one.
    ///
    /// # Errors
    ///
    /// The refusal of `Session::apply`: `TooLong` if `MOST_STEPS` steps are live; `NoMemory` if
    /// memory for the step was refused; otherwise why the actor can't make this step now. A refused
    /// event changes nothing.
    pub fn apply(&mut self, event: Event) -> Result<EventReply, Refusal>
        ensures answer { IsEventAnswer (book_state self.old) event
            (record { answer = result_map as_reply result; state = book_state self.new }) }
        ensures memory { IfErr result (MayRefuse (session_of self.old) event) }
        ensures start { (book_state self.new).session.start ≡ (book_state self.old).session.start }
        ensures unchanged { OnErr result (book_state self.new ≡ book_state self.old) }
    {
        let (step, entry) = self.session.apply(event)?;
        self.bookmarks.record_change_after(step as usize - 1);
        Ok(EventReply {
            step,
            reply: entry.reply,
        })
    }

    /// Returns the reply `At`, with the numbers of live and undone steps now.
    fn step_counts(&self) -> Reply
        ensures { result ≡ step_counts (book_state self.now).session }
    {
        Reply::At {
            live: self.session.len(),
            undone: self.session.undone_len(),
        }
    }
}
