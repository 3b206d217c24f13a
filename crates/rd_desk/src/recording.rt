//! What the lock guards: a book, and the history that led to it.
//!
//! The headline holds of the history, from the opened book to the present one. This is an invariant
//! of the type, so it holds whenever the lock is taken. The book does a command only if there is
//! room to record it. Another invariant states for how many calls the list may have room, so that a
//! viewer knows at which lengths memory may be refused. The book is in a box, so a call moves a few
//! words into the lock and out of it, and not the book.

ghost use Rattle.std.specs.Prelude.{◌≡◌, ◌≤◌, [], length, vec_len, vec_capacity, IfOk, IfErr};
ghost use Rattle.rd_marks.specs.Book.{book_state};
ghost use Rattle.rd_desk.specs.declared.gates.DeskRefusal.TheVariants.{NotRecorded};
ghost use Rattle.rd_desk.specs.Histories.{MOST_CALLS as most_calls, entries, IsCapacity, IsLeftBy, LeavesHistory};

use super::gates::{Answer, DeskRefusal};
use super::histories::{Call, History, MOST_CALLS};
use rd_lock::Recorded;
use rd_marks::{Book, Command};
use std::alloc::Global;
use std::snapshot::Snapshot;

/// A book with its history. For contracts alone, it also has the book that was opened.
#[derive(Drop)]
pub struct BookWithHistory<const R: usize> {
    /// The book as it is now.
    pub(crate) book: Box<Book<R>>,
    /// The calls that led from the opened book to this one.
    pub(crate) history: History,
    /// The book that was opened; it exists for contracts only.
    pub(crate) opened: Snapshot<Book<R>>,
    ghost legal: { IsLeftBy (book_state opened.value) (entries history) book.value },
    ghost few: { length (entries history) ≤ most_calls },
    ghost grown: { IsCapacity (vec_capacity history.entries) },
}

impl<const R: usize> Recorded for BookWithHistory<R> {
    type Entry = Call;

    type Origin = Book<R>;

    ghost history = { λ kept. entries kept.history };

    ghost origin = { λ kept. kept.opened.value };
}

impl<const R: usize> BookWithHistory<R> {
    /// Returns this book as the opened one, with an empty history.
    ///
    /// # Errors
    ///
    /// The book itself, if memory for its box was refused.
    pub(crate) fn new(alloc: Global, book: Book<R>) -> Result<BookWithHistory<R>, Book<R>>
        ensures book { IfOk result (λ kept. kept.book.value ≡ book.entry) }
        ensures opened { IfOk result (λ kept. kept.opened.value ≡ book.entry) }
        ensures empty { IfOk result (λ kept. entries kept.history ≡ []) }
        ensures err { IfErr result (λ refused. refused ≡ book.entry) }
    {
        let opened = Snapshot::of(&book);
        match Box::new(alloc, book) {
            Ok(book) => Ok(BookWithHistory {
                book,
                history: History {
                    entries: Vec::new(alloc),
                },
                opened,
            }),
            Err(refused) => Err(refused.value),
        }
    }

    /// Lets the book do a command, records the call under the viewer's number, and returns the
    /// book's answer.
    ///
    /// # Errors
    ///
    /// In this order: `HistoryFull` if the history has `MOST_CALLS` calls; `NotRecorded` if its
    /// list is full and memory for a longer one was refused. Book and history are unchanged then.
    pub(crate) fn obey_and_record(&mut self, viewer: u64, command: &Command) -> Answer
        ensures recorded { LeavesHistory viewer (entries self.old.history) command.now result
            (entries self.new.history) }
        ensures full { IfErr result (λ refusal. refusal ≡ NotRecorded
            → vec_capacity self.old.history.entries ≤ vec_len self.old.history.entries) }
        ensures opened { self.new.opened.value ≡ self.old.opened.value }
    {
        if self.history.entries.len() == MOST_CALLS {
            return Err(DeskRefusal::HistoryFull);
        }
        if self.history.make_room().is_err() {
            return Err(DeskRefusal::NotRecorded);
        }
        let call = Call {
            command: *command,
            answer: self.book.obey(*command),
        };
        let answer = call.answer;
        self.history.entries.push_reserved((viewer, call));
        Ok(answer)
    }
}
