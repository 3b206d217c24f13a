//! What saving and loading a book need: the events of its bookmarks, and going back.

ghost use Rattle.std.specs.Prelude.{◌≡◌, ◌≤◌, length, take, Ok};
ghost use Rattle.rd_journal.specs.State.{back};

use super::Book;
use rd_cell::Refusal;
use rd_step::Event;
use std::alloc::Global;

impl<const R: usize> Book<R> {
    ghost use Rattle.rd_marks.specs.Book.{book_state};
    ghost use Rattle.rd_marks.specs.BookState.{mark_events, at_events, to_start, AnswersMarkEvents};

    /// Returns the events of bookmark `i`, counted from 1: those that were live when it was set. It
    /// takes time that grows with their number.
    ///
    /// # Errors
    ///
    /// In this order: `NoMark` if `i` is not from 1 to the number of bookmarks; `NoMemory` if
    /// memory was refused for the events, which never happens if there are none.
    pub fn mark_events(&self, alloc: Global, i: u64) -> Result<Vec<Event>, Refusal>
        ensures { AnswersMarkEvents (mark_events (book_state self.now) i) result }
    {
        if i == 0 {
            return Err(Refusal::NoMark);
        }
        let Some((_, node)) = self.bookmarks.at(i as usize - 1) else {
            return Err(Refusal::NoMark);
        };
        match self.bookmarks.events(alloc, node) {
            Err(_) => Err(Refusal::NoMemory),
            Ok(events) => Ok(events),
        }
    }

    /// Goes to the start, where no step is live and none is undone. The bookmarks stay. It takes no
    /// memory.
    pub fn to_start(&mut self)
        ensures { book_state self.new ≡ to_start (book_state self.old) }
    {
        self.session.go_along_track(0);
    }

    /// Goes back to the first `n` live steps, and leaves no undone step, so the others can't be
    /// redone. At least `n` steps must be live. The bookmarks stay. It takes no memory.
    pub fn keep_first(&mut self, n: u64)
        requires within { n ≤ length (book_state self.old).session.live }
        ensures { book_state self.new ≡ at_events (book_state self.old)
            (take n (book_state self.old).session.live) }
    {
        self.session.go_along_track(n);
    }

    /// Undoes the last `n` live steps, which can then be redone before those undone earlier. At
    /// least `n` steps must be live. The bookmarks stay. It takes no memory.
    pub fn undo_last(&mut self, n: u64)
        requires within { n ≤ length (book_state self.old).session.live }
        ensures session { back (book_state self.old).session n ≡ Ok (book_state self.new).session }
        ensures marks { (book_state self.new).marks ≡ (book_state self.old).marks }
    {
        match self.session.back(n) {
            Err(_) => unreachable!(),
            Ok(()) => {}
        }
    }
}
