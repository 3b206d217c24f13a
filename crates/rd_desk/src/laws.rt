//! Two laws, each the contract of a function that does nothing: how a viewer's own calls grow, and
//! that the headline holds of each history.

ghost use Rattle.std.specs.Prelude.{◌≡◌, ℕ, List, [], ◌∷◌, ◌++◌, length, Result, Ok, Err};
ghost use Rattle.rd_cell.specs.declared.refusal.Refusal.{Refusal};
ghost use Rattle.rd_lock.specs.Histories.{put_by};
ghost use Rattle.rd_marks.specs.BookState.{BookState};
ghost use Rattle.rd_marks.specs.declared.commands.Command.{Command};
ghost use Rattle.rd_marks.specs.declared.replies.Reply.{Reply};
ghost use Rattle.rd_desk.specs.declared.gates.DeskRefusal.{DeskRefusal};
ghost use Rattle.rd_desk.specs.declared.histories.Call.{Call};
ghost use Rattle.rd_desk.specs.Asking.{SeesAfter};
ghost use Rattle.rd_marks.specs.Book.{book_state};
ghost use Rattle.rd_desk.specs.Histories.{entries, viewer_entry, IsLeftBy};

use super::recording::BookWithHistory;

/// A viewer's own calls grow by just the answered call, which is the last one that the viewer has
/// seen. A refused call leaves them as they are.
pub fn own_calls_grow_by_the_answered_one()
    ensures answered { (opened : BookState) (viewer : ℕ) (old new : List (ℕ × Call))
        (command : Command) (answer : Result Reply Refusal)
        → SeesAfter opened viewer old command (Ok answer) new
        → put_by viewer 1 new ≡ put_by viewer 1 old
        ++ (length new, (viewer_entry viewer command answer).1) ∷ [] }
    ensures refused { (opened : BookState) (viewer : ℕ) (old new : List (ℕ × Call))
        (command : Command) (refusal : DeskRefusal)
        → SeesAfter opened viewer old command (Err refusal) new
        → put_by viewer 1 new ≡ put_by viewer 1 old }
{}

/// In each book with its history, and so whenever the lock is taken, the headline holds between the
/// opened book and the book that is there now, for the commands of the history and the answers that
/// it records.
pub fn the_headline_holds_of_a_history<const R: usize>(kept: &BookWithHistory<R>)
    ensures { IsLeftBy (book_state kept.now.opened.value)
        (entries kept.now.history) kept.now.book.value }
{
    let _kept = kept;
}
