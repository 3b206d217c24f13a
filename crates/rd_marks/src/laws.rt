//! Two laws, each the contract of a function that does nothing: what every book keeps, whatever led
//! to it, and that the events of a session can run from its start.

ghost use Rattle.std.specs.Prelude.{◌++◌};
ghost use Rattle.rd_journal.specs.Sessions.{journal, state};
ghost use Rattle.rd_marks.specs.Book.{book_state, session_of};
ghost use Rattle.rd_marks.specs.Headline.{IsRunOfLive};
ghost use Rattle.rd_marks.specs.Rules.{CanRun};

use super::Book;
use rd_journal::Session;

/// The world and entries of a book are those that its live events leave when they run from its
/// start. A lone undo of a live step is refused exactly if a later live step depends on it, and the
/// refusal names the first dependant.
pub fn a_book_is_the_run_of_its_live_events<const R: usize>(book: &Book<R>)
    ensures { IsRunOfLive (book_state book.now) (journal (session_of book.now)) }
{
    let _world = book.session().world();
}

/// The live events of a session, and then its undone ones, can run from its start, and are at most
/// `MOST_STEPS`.
pub fn the_events_of_a_session_can_run<const R: usize>(session: &Session<R>)
    ensures { CanRun (state session.now).start
        ((state session.now).live ++ (state session.now).undone) }
{
    let _world = session.world();
}
